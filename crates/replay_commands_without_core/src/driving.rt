// The command `drive`.
ghost use Rattle.std.specs.Prelude.{◌≡◌};
ghost use Rattle.replay_command_base.specs.Diagnostics.{command_status};
ghost use Rattle.replay_command_base.specs.Streams.{filter_streams};
ghost use Rattle.replay_commands_without_core.specs.Driven.{DriveCommandIs};

use crate::driver_filter::Drive;
use line_io::{Sink, Source};
use replay_command_base::{Ending, report_without_buffer, run_filter};
use std::alloc::Global;

/// Drives a CECP engine by the events of a script of version 1, writes the script of it, and reports how that ended.
///
/// A line of the interface is an order and its end counts as `quit`; a line of the engine is heard, and nothing of it
/// may come after its end. The marks of written lines in the input are ignored.
pub fn run_drive<I: Source, O: Sink, D: Sink>(
    alloc: Global,
    input: &mut I,
    output: &mut O,
    diag: &mut D,
) -> Ending
    ensures { DriveCommandIs ((input.new ≡ input.old) × (output.new ≡ output.old))
        (filter_streams (I.state input.old) (O.state output.old) (D.state diag.old))
        (filter_streams (I.state input.new) (O.state output.new) (D.state diag.new))
        (command_status result) }
{
    let Ok(drive) = Drive::make(alloc) else {
        return report_without_buffer(Ending::NoMemory, diag);
    };
    run_filter(alloc, drive, input, output, diag)
}
