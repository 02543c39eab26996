// The command `positions`.
ghost use Rattle.std.specs.Prelude.{◌≡◌};
ghost use Rattle.replay_command_base.specs.Diagnostics.{command_status};
ghost use Rattle.replay_command_base.specs.Streams.{filter_streams};
ghost use Rattle.policy_rules.specs.SettingRules.Policy.{IsProper};
ghost use Rattle.session_export.specs.PositionsWritten.{PositionsWritten};

use crate::position_exporter::PositionWriter;
use line_io::{Sink, Source};
use policy_rules::Settings;
use replay_command_base::{Ending, report_without_buffer, run_filter};
use std::alloc::Global;

/// Writes the positions of the session whose script is the input, and reports how that ended.
///
/// The settings are those of the script's header, and these if it has none. The first line is that
/// of the standard start, with the number 0; then each event that leaves another position has a
/// line: the number of its line in the input, counted from 1, and the text of the position (PGN
/// standard, section 16.1).
pub fn write_positions<I: Source, O: Sink, D: Sink>(
    alloc: Global,
    settings: &Settings,
    input: &mut I,
    output: &mut O,
    diag: &mut D,
) -> Ending
    requires { IsProper settings.now }
    ensures { PositionsWritten settings.now (input.new ≡ input.old) (output.new ≡ output.old)
        (filter_streams (I.state input.old) (O.state output.old) (D.state diag.old))
        (filter_streams (I.state input.new) (O.state output.new) (D.state diag.new))
        (command_status result) }
{
    let Ok(writer) = PositionWriter::make(alloc, settings) else {
        return report_without_buffer(Ending::NoMemory, diag);
    };
    run_filter(alloc, writer, input, output, diag)
}
