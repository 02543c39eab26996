// The command `drill`.
ghost use Rattle.std.specs.Prelude.{◌≡◌, ◌≤◌};
ghost use Rattle.replay_commands_on_core.specs.Drilled.{PlaysDrill};
ghost use Rattle.replay_command_base.specs.Diagnostics.{command_status};
ghost use Rattle.random_games.specs.declared.run.TheConstants.{MOST_ROUNDS};

use line_io::Sink;
use random_games::drill_line;
use replay_command_base::{Ending, report_without_buffer, write_lines};
use std::alloc::Global;

/// Plays the drill of a number with so many rounds, and writes its line.
pub fn play_drill<O: Sink, D: Sink>(
    alloc: Global,
    number: u32,
    count: u32,
    output: &mut O,
    diag: &mut D,
) -> Ending
    requires { count ≤ MOST_ROUNDS }
    ensures { PlaysDrill number count (output.new ≡ output.old) (diag.new ≡ diag.old)
        (command_status result)
        (O.state output.old) (O.state output.new) (D.state diag.old) (D.state diag.new) }
{
    match drill_line(alloc, number, count) {
        Err(_) => report_without_buffer(Ending::NoMemory, diag),
        Ok(line) => write_lines(line.bytes(), output, diag),
    }
}
