// The parts that a run needs beside its host.
ghost use Rattle.std.specs.Prelude.{◌≡◌, ◌≤◌, IfOk};
ghost use Rattle.event_pipe.specs.declared.message.Peer.TheVariants as peers;
ghost use Rattle.event_pipe.specs.Ends.{IsFreshSender};
ghost use Rattle.tap_runner.specs.Ran.{IsReadyWay};
ghost use Rattle.tap_runner.specs.Parts.{TapPartsAreReady};

use crate::{Direction, LOG_ROOM, OpenLine, TapMessage};
use event_pipe::{Peer, Pipe, PipeSend, PipeTake};
use line_io::{NoMemory, Out};
use std::alloc::Global;

// The number of bytes read at a time.
const READ_ROOM: usize = 65_536;

/// Both directions, the end of the channel that the log takes from, and the room for a mark.
#[derive(Drop)]
pub struct TapParts {
    pub down: Direction,
    pub up: Direction,
    pub receiving_end: PipeTake<TapMessage>,
    pub text: Out,
}

// The parts that a direction needs whose marks go here.
fn make_way(alloc: Global, peer: Peer, to: PipeSend<TapMessage>) -> Result<Direction, NoMemory>
    requires { IsFreshSender to peer }
    ensures way { IfOk result (λ way. IsReadyWay way peer) }
    ensures to { IfOk result (λ way. way.to ≡ to) }
{
    let part = OpenLine::make(alloc, peer)?;
    let buf = vec![in alloc; 0; READ_ROOM]?;
    Ok(Direction { to, part, buf })
}

/// Takes the memory of a run.
pub(crate) fn make_parts(alloc: Global) -> Result<TapParts, NoMemory>
    ensures { IfOk result TapPartsAreReady }
{
    let text = Out::make(alloc, LOG_ROOM)?;
    let (bridge, engine, receiving_end) = Pipe::make(alloc)?;
    let down = make_way(alloc, Peer::Iface, bridge)?;
    let up = make_way(alloc, Peer::Engine, engine)?;
    Ok(TapParts {
        down,
        up,
        receiving_end,
        text,
    })
}
