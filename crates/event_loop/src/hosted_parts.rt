// The parts that a run needs beside its host.
ghost use Rattle.std.specs.Prelude.{◌≡◌, IfOk};
ghost use Rattle.event_loop.specs.Ran.{MediatorIsReady};

use crate::{Mediator, MediatorParts, TURN_ROOM, Turns};
use event_pipe::Pipe;
use line_io::{NoMemory, Out};
use std::alloc::Global;

/// Takes the memory of a run.
pub(crate) fn make_parts<M: Mediator + Drop>(
    alloc: Global,
    mediator: M,
) -> Result<MediatorParts<M>, NoMemory>
    requires fresh { M.means.fresh mediator }
    ensures ready { IfOk result (λ parts. MediatorIsReady M.means parts) }
    ensures same { IfOk result (λ parts. parts.turns.mediator ≡ mediator) }
{
    let text = Out::make(alloc, TURN_ROOM)?;
    let (iface, engine, receiving_end) = Pipe::make(alloc)?;
    Ok(MediatorParts {
        iface,
        engine,
        turns: Turns {
            mediator,
            receiving_end,
            text,
        },
    })
}
