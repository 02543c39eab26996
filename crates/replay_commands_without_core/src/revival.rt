// The command `revive`.
ghost use Rattle.std.specs.Prelude.{◌≡◌};
ghost use Rattle.replay_command_base.specs.Diagnostics.{command_status};
ghost use Rattle.replay_command_base.specs.Streams.{filter_streams};
ghost use Rattle.replay_commands_without_core.specs.Revived.{ReviveCommandIs};

use crate::reviver::Reviver;
use line_io::{Sink, Source};
use replay_command_base::{Ending, report_without_buffer, run_filter};
use std::alloc::Global;

/// Plays the script of version 1 in the input to an engine of which up to so many lives are begun,
/// writes the marks of its events with those of the lines that they bring, and reports how that ended.
///
/// Lines that the input has for written ones are ignored, so what is written may be played again.
pub fn run_revive<I: Source, O: Sink, D: Sink>(
    alloc: Global,
    lives: u32,
    input: &mut I,
    output: &mut O,
    diag: &mut D,
) -> Ending
    ensures { ReviveCommandIs lives ((input.new ≡ input.old) × (output.new ≡ output.old))
        (filter_streams (I.state input.old) (O.state output.old) (D.state diag.old))
        (filter_streams (I.state input.new) (O.state output.new) (D.state diag.new))
        (command_status result) }
{
    let Ok(reviver) = Reviver::make(alloc, lives) else {
        return report_without_buffer(Ending::NoMemory, diag);
    };
    run_filter(alloc, reviver, input, output, diag)
}
