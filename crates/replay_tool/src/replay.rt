// The program.
ghost use Rattle.std.specs.Prelude.{◌≡◌, ℕ, List, Some, None};
ghost use Rattle.policy_rules.specs.declared.setting_rules.settings.Settings.{Settings as AnySettings};
ghost use Rattle.session_judge.specs.declared.listener.Listener.{Listener as AnyListener};
ghost use Rattle.replay_commands_on_core.specs.Checked.{Checked};
ghost use Rattle.replay_commands_on_core.specs.Commands as asked;
ghost use Rattle.replay_commands_on_core.specs.Commands.{replay_command_of, argument_bytes};
ghost use Rattle.replay_command_base.specs.Diagnostics.{command_status, tail_of};
ghost use Rattle.replay_tool.specs.Does.{ReplayDoes};
ghost use Rattle.replay_tool.specs.Driving.{DrivesTheOrdered};
ghost use Rattle.replay_commands_on_core.specs.Drilled.{Drilled};
ghost use Rattle.replay_commands_on_core.specs.Listed.{Listed};
ghost use Rattle.replay_commands_on_core.specs.OwnScripts.{JudgesOwnTalk, MigratesOwnScripts};
ghost use Rattle.replay_commands_on_core.specs.Laws.{HaveLaws};
ghost use Rattle.replay_command_base.specs.Ran.{Refused};
ghost use Rattle.replay_commands_on_core.specs.Replayed.{Replayed};
ghost use Rattle.replay_command_base.specs.Streams.{filter_streams};
ghost use Rattle.judge_and_driver_laws.specs.Judge.Tapped.{AllTapsAreClean};
ghost use Rattle.judge_report.specs.Conducts.{ConductJudged};
ghost use Rattle.judge_report.specs.Judged.{Judged};
ghost use Rattle.replay_commands_without_core.specs.Migrated.{Migrated};
ghost use Rattle.replay_commands_without_core.specs.Revived.{ReviveCommandIs};
ghost use Rattle.replay_commands_without_core.specs.Driven.{DriveCommandIs};
ghost use Rattle.session_export.specs.GamesWritten.{GamesWritten};
ghost use Rattle.session_export.specs.PositionsWritten.{PositionsWritten};

use judge_and_driver_laws::{engines_hear_the_ordered, taps_are_clean};
use judge_report::{run_conduct_judge, run_judge};
use line_io::{Sink, Source, Status};
use policy_rules::Settings;
use replay_command_base::{Ending, report_without_buffer};
use replay_commands_on_core::{
    ReplayCommand, list_moves, play_drill, read_command, run_check, run_replay,
};
use replay_commands_without_core::{migrate, run_drive, run_revive};
use session_export::{write_games, write_positions};
use std::alloc::Global;

// The laws of every session with these settings, and with those of a header.
fn session_laws(settings: Settings)
    ensures { HaveLaws settings }
{
    let _ = settings;
}

// Runs the command of the arguments.
fn run_arguments<I: Source, O: Sink, D: Sink>(
    alloc: Global,
    arguments: &[Vec<u8>],
    input: &mut I,
    output: &mut O,
    diag: &mut D,
) -> Ending
    ensures { ReplayDoes (replay_command_of (argument_bytes arguments.now))
        (input.new ≡ input.old) (output.new ≡ output.old) (diag.new ≡ diag.old)
        (filter_streams (I.state input.old) (O.state output.old) (D.state diag.old))
        (filter_streams (I.state input.new) (O.state output.new) (D.state diag.new))
        (command_status result) }
{
    match read_command(arguments) {
        Some(ReplayCommand::Replay(settings)) => {
            session_laws(settings);
            run_replay(alloc, &settings, input, output, diag)
        }
        Some(ReplayCommand::Check(settings)) => {
            session_laws(settings);
            run_check(alloc, &settings, input, output, diag)
        }
        Some(ReplayCommand::Migrate(settings)) => migrate(alloc, &settings, input, output, diag),
        Some(ReplayCommand::Judge(listener)) => run_judge(alloc, listener, input, output, diag),
        Some(ReplayCommand::JudgeEngine(listener)) => run_conduct_judge(
            alloc, listener, input, output, diag,
        ),
        Some(ReplayCommand::Revive { lives }) => run_revive(alloc, lives, input, output, diag),
        Some(ReplayCommand::Drive) => run_drive(alloc, input, output, diag),
        Some(ReplayCommand::Games(settings)) => write_games(alloc, &settings, input, output, diag),
        Some(ReplayCommand::Positions(settings)) => {
            write_positions(alloc, &settings, input, output, diag)
        }
        Some(ReplayCommand::Drill { number, count }) => play_drill(
            alloc, number, count, output, diag,
        ),
        Some(ReplayCommand::Moves(arguments)) => list_moves(alloc, arguments, output, diag),
        None => report_without_buffer(Ending::Usage, diag),
    }
}

/// Runs the program `replay` on its arguments, which do not include its name.
///
/// The argument `replay` reads a script from the input, ignores its header, its step lines and the
/// lines that were written, and writes the script of the session in the same version, with the
/// settings of the header, or of the arguments NAME=VALUE after it if there is no header.
///
/// The argument `check`, with the same arguments after it, reads a log of any version and writes
/// `lawful` if its lines are the script of a lawful session, else the first line that differs, with
/// status 1.
///
/// The argument `migrate`, with the same arguments after it, reads a script of version 1 and writes it as
/// one with a header of the settings of the arguments. No core runs: the script need not be lawful.
///
/// The argument `games`, with the same arguments after it, reads a script as `replay` does and writes the
/// games of the session, one a line, each when the interface begins another or the session ends: its
/// movetext (PGN standard, section 8.2), and before it the `FEN` tag, if it has another beginning.
///
/// The argument `positions`, with the same arguments after it, reads a script as `replay` does and writes
/// the standard start after the number 0, and each position that an event leaves and that has
/// another text than the one before, after the number of the event's line in the input.
///
/// The argument `revive` with one digit from 1 to 9 reads a script of version 1 and plays it to an
/// engine of which so many lives may be begun; the word `drive` plays it to a driver between a UCI
/// interface and a CECP engine. Both write the marks of its events and of the lines that come of
/// them.
///
/// The argument `judge` reads the log of any bridge and writes the report of the judge, with status 1 if
/// a mark breaks a rule. With the word `tap` after it the log is that of a tap between the bridge and
/// its engine, in which an order may cross a line of the engine. With the word `engine` last it is the engine's own
/// conduct that is judged: each line of the engine that breaks a rule is blamed, and then the status is 1.
///
/// The argument `moves` joins the arguments after it by blanks, as the text of a position (PGN standard,
/// section 16.1), and writes its legal moves, one a line, in the byte order of their texts; it reads
/// no input. The argument `drill` with a number below 2^31 and a count up to 100,000 plays that many
/// rounds of drawn moves in one session and writes a line with what it counted; it reads no input
/// either.
///
/// The statuses are 0; 1 if `check` found a difference, or `judge` a mark that breaks a rule or a line to blame; 2 if
/// the arguments are others, if a line of the input has no mark, is out of step or its event may not
/// come, or if the text spells no position; 3 if there is no memory at the beginning; 4 and 5 if
/// reading and writing failed; and 6 if the input is too long.
pub fn replay_main<I: Source, O: Sink, D: Sink>(
    alloc: Global,
    arguments: &[Vec<u8>],
    input: &mut I,
    output: &mut O,
    diag: &mut D,
) -> Status
    ensures usage { replay_command_of (argument_bytes arguments.now) ≡ None
        → Refused (input.new ≡ input.old) (output.new ≡ output.old)
        (filter_streams (I.state input.old) (O.state output.old) (D.state diag.old))
        (filter_streams (I.state input.new) (O.state output.new) (D.state diag.new)) result.code }
    ensures memory { result.code ≡ 3 → (input.new ≡ input.old) × (output.new ≡ output.old) }
    ensures replay { (settings : AnySettings)
        → replay_command_of (argument_bytes arguments.now) ≡ Some (asked.Replay settings)
        → Replayed settings (input.new ≡ input.old) (output.new ≡ output.old)
        (filter_streams (I.state input.old) (O.state output.old) (D.state diag.old))
        (filter_streams (I.state input.new) (O.state output.new) (D.state diag.new)) result.code }
    ensures check { (settings : AnySettings)
        → replay_command_of (argument_bytes arguments.now) ≡ Some (asked.Check settings)
        → Checked settings (input.new ≡ input.old) (output.new ≡ output.old)
        (filter_streams (I.state input.old) (O.state output.old) (D.state diag.old))
        (filter_streams (I.state input.new) (O.state output.new) (D.state diag.new)) result.code }
    ensures migrate { (settings : AnySettings)
        → replay_command_of (argument_bytes arguments.now) ≡ Some (asked.Migrate settings)
        → Migrated settings (input.new ≡ input.old) (output.new ≡ output.old)
        (filter_streams (I.state input.old) (O.state output.old) (D.state diag.old))
        (filter_streams (I.state input.new) (O.state output.new) (D.state diag.new)) result.code }
    ensures migrate_own { (settings : AnySettings)
        → replay_command_of (argument_bytes arguments.now) ≡ Some (asked.Migrate settings)
        → MigratesOwnScripts settings
        (filter_streams (I.state input.old) (O.state output.old) (D.state diag.old))
        (filter_streams (I.state input.new) (O.state output.new) (D.state diag.new)) result.code }
    ensures judge { (listener : AnyListener)
        → replay_command_of (argument_bytes arguments.now) ≡ Some (asked.Judge listener)
        → Judged listener ((input.new ≡ input.old) × (output.new ≡ output.old))
        (filter_streams (I.state input.old) (O.state output.old) (D.state diag.old))
        (filter_streams (I.state input.new) (O.state output.new) (D.state diag.new)) result.code }
    ensures judge_engine { (listener : AnyListener)
        → replay_command_of (argument_bytes arguments.now) ≡ Some (asked.JudgeEngine listener)
        → ConductJudged listener ((input.new ≡ input.old) × (output.new ≡ output.old))
        (filter_streams (I.state input.old) (O.state output.old) (D.state diag.old))
        (filter_streams (I.state input.new) (O.state output.new) (D.state diag.new)) result.code }
    ensures judge_own { (listener : AnyListener)
        → replay_command_of (argument_bytes arguments.now) ≡ Some (asked.Judge listener)
        → JudgesOwnTalk listener
        (filter_streams (I.state input.old) (O.state output.old) (D.state diag.old))
        (filter_streams (I.state input.new) (O.state output.new) (D.state diag.new)) result.code }
    ensures judge_tap { AllTapsAreClean }
    ensures revive { (lives : ℕ) → replay_command_of (argument_bytes arguments.now) ≡ Some
        (asked.Revive lives)
        → ReviveCommandIs lives ((input.new ≡ input.old) × (output.new ≡ output.old))
        (filter_streams (I.state input.old) (O.state output.old) (D.state diag.old))
        (filter_streams (I.state input.new) (O.state output.new) (D.state diag.new)) result.code }
    ensures drive { replay_command_of (argument_bytes arguments.now) ≡ Some asked.Drive
        → DriveCommandIs ((input.new ≡ input.old) × (output.new ≡ output.old))
        (filter_streams (I.state input.old) (O.state output.old) (D.state diag.old))
        (filter_streams (I.state input.new) (O.state output.new) (D.state diag.new)) result.code }
    ensures drive_own { replay_command_of (argument_bytes arguments.now) ≡ Some asked.Drive →
        DrivesTheOrdered
        (filter_streams (I.state input.old) (O.state output.old) (D.state diag.old))
        (filter_streams (I.state input.new) (O.state output.new) (D.state diag.new)) result.code }
    ensures games { (settings : AnySettings)
        → replay_command_of (argument_bytes arguments.now) ≡ Some (asked.Games settings)
        → GamesWritten settings (input.new ≡ input.old) (output.new ≡ output.old)
        (filter_streams (I.state input.old) (O.state output.old) (D.state diag.old))
        (filter_streams (I.state input.new) (O.state output.new) (D.state diag.new)) result.code }
    ensures positions { (settings : AnySettings)
        → replay_command_of (argument_bytes arguments.now) ≡ Some (asked.Positions settings)
        → PositionsWritten settings (input.new ≡ input.old) (output.new ≡ output.old)
        (filter_streams (I.state input.old) (O.state output.old) (D.state diag.old))
        (filter_streams (I.state input.new) (O.state output.new) (D.state diag.new)) result.code }
    ensures moves { (text : List ℕ)
        → replay_command_of (argument_bytes arguments.now) ≡ Some (asked.Moves text)
        → Listed text (input.new ≡ input.old) (output.new ≡ output.old) (diag.new ≡ diag.old)
        (filter_streams (I.state input.old) (O.state output.old) (D.state diag.old))
        (filter_streams (I.state input.new) (O.state output.new) (D.state diag.new)) result.code }
    ensures drill { (number count : ℕ)
        → replay_command_of (argument_bytes arguments.now) ≡ Some (asked.Drill number count)
        → Drilled number count (input.new ≡ input.old) (output.new ≡ output.old)
        (diag.new ≡ diag.old)
        (filter_streams (I.state input.old) (O.state output.old) (D.state diag.old))
        (filter_streams (I.state input.new) (O.state output.new) (D.state diag.new)) result.code }
{
    engines_hear_the_ordered();
    taps_are_clean();
    Status {
        code: run_arguments(alloc, arguments, input, output, diag).code(),
    }
}

/// Reports that there was no memory for the arguments.
pub fn refuse_for_memory<D: Sink>(diag: &mut D) -> Status
    ensures { DiagnosticWritten result.code 3 (tail_of endings.NoMemory) (D.state diag.old)
        (D.state diag.new) }
{
    Status {
        code: report_without_buffer(Ending::NoMemory, diag).code(),
    }
}

ghost use Rattle.replay_command_base.specs.DiagnosticWritten.{DiagnosticWritten};
ghost use Rattle.replay_command_base.specs.declared.ending.Ending.TheVariants as endings;
