// A run of the command `replay`.
ghost use Rattle.std.specs.Prelude.{◌≡◌, IfOk};
ghost use Rattle.line_io.specs.Lines.{empty_reader};
ghost use Rattle.line_io.specs.Source.{Received};
ghost use Rattle.policy_rules.specs.SettingRules.Policy.{IsProper};
ghost use Rattle.policy_rules.specs.declared.setting_rules.settings.Settings.{Settings as AnySettings};
ghost use Rattle.replay_command_base.specs.Diagnostics.{command_status, command_diagnostic};
ghost use Rattle.replay_command_base.specs.Ran.{Causes, FilterRan};
ghost use Rattle.replay_commands_on_core.specs.Replay.{EndsAs, Stopped};
ghost use Rattle.script_replay.specs.Replaying.{IsFresh};
ghost use Rattle.replay_command_base.specs.Streams.{filter_streams};
ghost use Rattle.replay_command_base.specs.DiagnosticWritten.{DiagnosticWritten};
ghost use Rattle.line_io.specs.declared.limits.TheConstants.{SCRIPT_LINE};
ghost use Rattle.replay_command_base.specs.declared.limits.TheConstants.{TEXT_ROOM};

use line_io::{Lines, LinesEnd, NoMemory, SCRIPT_LINE, Sink, Source, take_lines};
use policy_rules::Settings;
use replay_command_base::{Ending, report_without_buffer};
use script_replay::Player;
use std::alloc::Global;

// A session that is replayed, and the lines of its script.
#[derive(Drop)]
struct ScriptRun {
    player: Player,
    lines: Lines,
}

impl ScriptRun {
    // A run before its first line. It takes all memory that it ever uses.
    fn make(alloc: Global, settings: &Settings) -> Result<ScriptRun, NoMemory>
        requires { IsProper settings.now }
        ensures player { IfOk result (λ run. IsFresh settings.now run.player) }
        ensures lines { IfOk result (λ run. run.lines ≡ empty_reader SCRIPT_LINE) }
    {
        let lines = Lines::make(alloc, SCRIPT_LINE)?;
        let player = Player::make(alloc, settings)?;
        Ok(ScriptRun { player, lines })
    }

    // Replays the input.
    fn go<I: Source, O: Sink>(&mut self, input: &mut I, output: &mut O) -> Ending
        requires player { IsFresh self.old.player.core.settings self.old.player }
        requires lines { self.old.lines ≡ empty_reader SCRIPT_LINE }
        ensures stopped { (o : AnySettings) (diag diag_now : Received) → IsFresh o self.old.player
            → Stopped o result
            (filter_streams (I.state input.old) (O.state output.old) diag)
            (filter_streams (I.state input.new) (O.state output.new) diag_now) }
        ensures causes { Causes result (I.state input.old) (I.state input.new)
            (O.state output.old) (O.state output.new) }
        ensures room { self.new.player.text.room ≡ TEXT_ROOM }
    {
        match take_lines(&mut self.lines, input, &mut self.player, output) {
            LinesEnd::Stopped(ending) => self.player.stop(ending, output),
            LinesEnd::Ended => self.player.end(Ending::Done, output),
            LinesEnd::ReadFailed => self.player.end(Ending::ReadingFailed, output),
            LinesEnd::Endless => self.player.end(Ending::TooLong, output),
        }
    }

    // Writes the diagnostic of an ending, and gives how the program ends then.
    fn report_ending<D: Sink>(&mut self, ending: Ending, diag: &mut D) -> Ending
        requires { self.old.player.text.room ≡ TEXT_ROOM }
        ensures { DiagnosticWritten (command_status result) (command_status ending)
            (command_diagnostic ending)
            (D.state diag.old) (D.state diag.new) }
    {
        self.player.report_ending(ending, diag)
    }
}

/// Replays the marks of the input with these settings, or with those of its header.
pub fn run_replay<I: Source, O: Sink, D: Sink>(
    alloc: Global,
    settings: &Settings,
    input: &mut I,
    output: &mut O,
    diag: &mut D,
) -> Ending
    requires { IsProper settings.now }
    ensures { FilterRan (λ e. EndsAs settings.now ((input.new ≡ input.old) × (output.new ≡
        output.old)) e
        (filter_streams (I.state input.old) (O.state output.old) (D.state diag.old))
        (filter_streams (I.state input.new) (O.state output.new) (D.state diag.new)))
        (filter_streams (I.state input.old) (O.state output.old) (D.state diag.old))
        (filter_streams (I.state input.new) (O.state output.new) (D.state diag.new))
        (command_status result) }
{
    let Ok(mut run) = ScriptRun::make(alloc, settings) else {
        return report_without_buffer(Ending::NoMemory, diag);
    };
    let ending = run.go(input, output);
    run.report_ending(ending, diag)
}
