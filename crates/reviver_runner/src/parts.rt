// The parts that a run of the lives needs beside its host.
ghost use Rattle.std.specs.Prelude.{IfOk};
ghost use Rattle.reviver_runner.specs.Parts.{IsMade};

use crate::{LifeMessage, RevivalLoop};
use engine_revival::{EVENT_ROOM, Revival};
use event_pipe::{Pipe, PipeSend, PipeTake};
use line_io::{NoMemory, Out};
use std::alloc::Global;
use std::collections::VecDeque;

/// The revival, the room for the marks of an event, and the ends of the channel.
#[derive(Drop)]
pub(crate) struct MadeParts {
    pub revival: Revival,
    pub text: Out,
    pub iface: PipeSend<LifeMessage>,
    pub to: PipeSend<LifeMessage>,
    pub from: PipeTake<LifeMessage>,
}

/// The means of the lives: where their readers get memory from and send to, what hears them, and
/// what they are waited for by.
#[derive(Drop)]
pub(crate) struct ReviverParts<L, P> {
    pub alloc: Global,
    pub to: PipeSend<LifeMessage>,
    pub looping: RevivalLoop<L>,
    pub processes: VecDeque<P>,
}

/// The parts that the interface's reader needs: where it gets memory from, and its end of the channel.
#[derive(Drop)]
pub(crate) struct UpperReader {
    pub alloc: Global,
    pub iface: PipeSend<LifeMessage>,
}

/// Takes the memory of a run of so many lives.
pub(crate) fn make_parts(alloc: Global, lives: u32) -> Result<MadeParts, NoMemory>
    ensures { IfOk result (IsMade lives) }
{
    let text = Out::make(alloc, EVENT_ROOM)?;
    let revival = Revival::make(alloc, lives)?;
    let (iface, to, from) = Pipe::make(alloc)?;
    Ok(MadeParts {
        revival,
        text,
        iface,
        to,
        from,
    })
}
