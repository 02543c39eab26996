// A session that is replayed, line by line.
ghost use Rattle.std.specs.Prelude.{◌≡◌, ◌+◌, ◌<◌, ◌≤◌, ◌^◌, List, [], ◌∷◌, ◌++◌, ◌*◌, length, Some, None, true, IfOk};
ghost use Rattle.line_io.specs.Event.{event_of};
ghost use Rattle.line_io.specs.Lines.{Piece, Whole};
ghost use Rattle.line_io.specs.Out.{empty};
ghost use Rattle.line_io.specs.Source.{Received};
ghost use Rattle.policy_rules.specs.SettingRules.Policy.{IsProper};
ghost use Rattle.policy_rules.specs.declared.setting_rules.settings.Settings.{Settings as AnySettings};
ghost use Rattle.adapter_core.specs.Ends.{may};
ghost use Rattle.adapter_core.specs.Represents.{Represents};
ghost use Rattle.script_replay.specs.Playing.{HasBegun, Playing, StepIsPut, LineIsPlayed};
ghost use Rattle.script_replay.specs.Replaying.{IsFresh};
ghost use Rattle.script_replay.specs.Stages.{IsNumbered};
ghost use Rattle.script_replay.specs.Versions.{fault_said, kind_of_script_line, kind_says};
ghost use Rattle.script_replay.specs.declared.stage.ScriptStage.TheVariants as stages;
ghost use Rattle.script_lines.specs.declared.header.TheConstants.{HEADER_ROOM};
ghost use Rattle.script_lines.specs.declared.step_text.TheConstants.{STEP_ROOM};

use crate::stage::{LineSaid, ScriptStage};
use adapter_core::Core;
use line_io::{Event, Failed, LineConsumer, NoMemory, Out, Sink, write_all};
use policy_rules::Settings;
use replay_command_base::{Ending, TEXT_ROOM, report_ending};
use script_lines::{STEP_ROOM, put_numbered_step, put_step, read_header, write_header};
use std::alloc::Global;

/// A session, where the reading of its script stands, and the part of its script that is not written
/// yet.
#[derive(Drop)]
pub struct Player {
    core: Core,
    stage: ScriptStage,
    text: Out,
}

// One step of the core, and its marks, after its number if steps are numbered.
fn step(core: &mut Core, stage: ScriptStage, event: &Event, text: &mut Out)
    requires may { may core.old.ends (event_of event.now) ≡ true }
    requires stage { IsNumbered stage }
    requires room { length text.old.text + STEP_ROOM ≤ text.old.room }
    ensures steps { StepIsPut stage core.old core.new (event_of event.now) text.old text.new }
    ensures room { text.new.room ≡ text.old.room }
{
    let lines = core.step(event);
    match stage.number() {
        Some(number) => put_numbered_step(number, event, lines.iface, lines.engine, text),
        None => put_step(event, lines.iface, lines.engine, text),
    }
}

impl Player {
    /// A session before the first line. It takes all memory that it ever uses.
    pub fn make(alloc: Global, settings: &Settings) -> Result<Player, NoMemory>
        requires { IsProper settings.now }
        ensures { IfOk result (λ player. IsFresh settings.now player) }
    {
        let text = Out::make(alloc, TEXT_ROOM)?;
        let core = Core::make(alloc, settings)?;
        Ok(Player {
            core,
            stage: ScriptStage::Start,
            text,
        })
    }

    // Opens a session of version 1.
    fn open_plain(&mut self)
        requires new { Represents self.old.core.settings self.old.core [] }
        requires room { length self.old.text.text + STEP_ROOM ≤ self.old.text.room }
        ensures begun { HasBegun None self.old.core self.old.text
            self.new.core self.new.stage self.new.text }
        ensures room { self.new.text.room ≡ self.old.text.room }
    {
        step(
            &mut self.core,
            ScriptStage::Plain,
            &Event::Open,
            &mut self.text,
        );
        self.stage = ScriptStage::Plain;
    }

    // Opens a session by its header.
    fn open_numbered(&mut self, settings: &Settings)
        requires proper { IsProper settings.now }
        requires new { Represents self.old.core.settings self.old.core [] }
        requires room { length self.old.text.text + HEADER_ROOM + 1 + 2 * STEP_ROOM
            ≤ self.old.text.room }
        ensures begun { HasBegun (Some settings.now) self.old.core self.old.text
            self.new.core self.new.stage self.new.text }
        ensures room { self.new.text.room ≡ self.old.text.room }
    {
        self.core.set(settings);
        write_header(settings, &mut self.text);
        self.text.put(b"\n");
        step(
            &mut self.core,
            ScriptStage::Numbered(0),
            &Event::Open,
            &mut self.text,
        );
        self.stage = ScriptStage::Headed;
    }

    // Takes a line of a session that was opened.
    fn take(&mut self, number: u64, line: &[u8]) -> Option<Ending>
        requires stage { IsNumbered self.old.stage }
        requires room { length self.old.text.text + STEP_ROOM ≤ self.old.text.room }
        ensures ending { result ≡ fault_said number
            (kind_says self.old.stage self.old.core.ends (kind_of_script_line (Whole line.now))) }
        ensures takes { LineIsPlayed self.old.core self.old.stage self.old.text
            (kind_says self.old.stage self.old.core.ends (kind_of_script_line (Whole line.now)))
            self.new.core self.new.stage self.new.text }
        ensures room { self.new.text.room ≡ self.old.text.room }
        ensures stage { IsNumbered self.new.stage }
    {
        match self.stage.says(&self.core, line) {
            LineSaid::Comes(event) => {
                step(&mut self.core, self.stage, &event, &mut self.text);
                self.stage = self.stage.after_event();
                None
            }
            LineSaid::Passes => None,
            LineSaid::Starts(step) => {
                self.stage = self.stage.started(step);
                None
            }
            LineSaid::HasNoMark => Some(Ending::NoMark(number)),
            LineSaid::IsOutOfStep => Some(Ending::OutOfStep(number)),
            LineSaid::Cannot => Some(Ending::MayNotCome(number)),
        }
    }
}

impl Player {
    fn is_new(&self) -> bool
        ensures { result ≡ is_first_stage self.now.stage }
    {
        matches!(self.stage, ScriptStage::Start)
    }

    // If another line is taken, the text is to be written first.
    fn is_full(&self) -> bool
        ensures { result ≡ false → length self.now.text.text + STEP_ROOM ≤ self.now.text.room }
    {
        self.text.spare() < STEP_ROOM
    }

    // Writes what is not written yet.
    fn write<O: Sink>(&mut self, output: &mut O) -> Result<(), Failed>
        ensures ok { OnOk result
            (Appends (O.state output.old).taken (O.state output.new).taken self.old.text.text
            × (self.new ≡ player_with_text self.old (empty self.old.text.room))) }
        ensures err { OnErr result
            (TakesPrefix (O.state output.old).taken (O.state output.new).taken self.old.text.text
            × (self.new ≡ self.old)) }
        ensures cause { ErrorIsCounted (O.state output.old).faults (O.state output.new).faults
            result }
        ensures some { OnErr result (0 < length self.old.text.text) }
    {
        let written = write_all(output, self.text.bytes());
        if written.is_ok() {
            self.text.clear();
        }
        written
    }

    // Takes a line of a session that was opened, and first writes if room is short.
    fn take_on<O: Sink>(&mut self, number: u64, line: &[u8], output: &mut O) -> Option<Ending>
        requires may { ReplayMayGoOn self.old }
        requires opened { is_first_stage self.old.stage ≡ false }
        ensures may { ReplayMayGoOn self.new }
        ensures came { (o : AnySettings) (lines : List Piece) (before : Received)
            → version_in (lines ++ Whole line.now ∷ []) ≡ version_in lines
            → Playing o lines self.old.core self.old.stage self.old.text.text before
            (O.state output.old)
            → (O.state output.old).faults ≡ before.faults → number ≡ length lines + 1
            → ReplayAfterLine o (lines ++ Whole line.now ∷ []) result self.new before (O.state
            output.new) }
    {
        if !self.is_full() {
            return self.take(number, line);
        }
        if self.write(output).is_err() {
            return Some(Ending::WritingFailed);
        }
        self.take(number, line)
    }

    /// Writes what is left, and gives the ending, or that writing failed.
    pub fn write_last<O: Sink>(&mut self, ending: Ending, output: &mut O) -> Ending
        ensures room { self.new.text.room ≡ self.old.text.room }
        ensures finished { (o : AnySettings) (lines : List Piece) (before : Received)
            → OutputIsScript o lines self.old.text.text before (O.state output.old)
            → (O.state output.old).faults ≡ before.faults
            → ReplayFinished o lines ending result before (O.state output.new) }
    {
        if self.write(output).is_err() {
            return Ending::WritingFailed;
        }
        ending
    }

    /// Writes what is left if no more lines are taken.
    pub fn stop<O: Sink>(&mut self, ending: Ending, output: &mut O) -> Ending
        ensures room { self.new.text.room ≡ self.old.text.room }
        ensures left { (o : AnySettings) (lines : List Piece) (before : Received)
            → ReplayHalted o ending lines self.old before (O.state output.old)
            → ReplayLeft o lines ending result before (O.state output.new) }
    {
        if is_cut(ending) {
            return ending;
        }
        self.write_last(ending, output)
    }

    /// Opens the session if no line did, and writes what is left.
    pub fn end<O: Sink>(&mut self, ending: Ending, output: &mut O) -> Ending
        requires { ReplayMayGoOn self.old }
        ensures room { self.new.text.room ≡ self.old.text.room }
        ensures finished { (o : AnySettings) (lines : List Piece) (before : Received)
            → ReplayStood o lines self.old before (O.state output.old)
            → ReplayFinished o lines ending result before (O.state output.new) }
    {
        // Each branch ends by itself, so that the proof of each knows whether the session was opened in it.
        if self.is_new() {
            self.open_plain();
            return self.write_last(ending, output);
        }
        self.write_last(ending, output)
    }

    /// Writes the diagnostic of an ending, and gives how the program ends then.
    pub fn report_ending<D: Sink>(&mut self, ending: Ending, diag: &mut D) -> Ending
        requires { DIAGNOSTIC_ROOM ≤ self.old.text.room }
        ensures { DiagnosticWritten (command_status result) (command_status ending)
            (command_diagnostic ending)
            (D.state diag.old) (D.state diag.new) }
    {
        report_ending(ending, &mut self.text, diag)
    }
}

ghost use Rattle.std.specs.Prelude.{false, OnOk, OnErr};
ghost use Rattle.std.specs.Io.KnownBytes.{Appends};
ghost use Rattle.line_io.specs.Causes.{ErrorIsCounted};
ghost use Rattle.line_io.specs.Source.{TakesPrefix};
ghost use Rattle.replay_command_base.specs.Diagnostics.{command_status, command_diagnostic};
ghost use Rattle.replay_command_base.specs.declared.limits.TheConstants.{DIAGNOSTIC_ROOM};
ghost use Rattle.script_replay.specs.Playing.{OutputIsScript};
ghost use Rattle.script_replay.specs.Replaying.{is_cut, player_with_text, ReplayMayGoOn, ReplayAfterLine, ReplayStood, ReplayFinished, ReplayHalted, ReplayLeft};
ghost use Rattle.script_replay.specs.Stages.{is_first_stage};
ghost use Rattle.replay_command_base.specs.DiagnosticWritten.{DiagnosticWritten};
ghost use Rattle.script_replay.specs.Versions.{version_in};

fn is_cut(ending: Ending) -> bool
    ensures { result ≡ is_cut ending }
{
    matches!(ending, Ending::WritingFailed)
}

impl<O: Sink> LineConsumer<O> for Player {
    ghost use Rattle.script_replay.specs.Replaying.{replays};

    type Stop = Ending;

    ghost means = { replays O.state };

    fn line(&mut self, number: u64, line: &[u8], output: &mut O) -> Option<Ending> {
        if !self.is_new() {
            return self.take_on(number, line, output);
        }
        match read_header(line) {
            Some(settings) => {
                self.open_numbered(&settings);
                None
            }
            None => {
                self.open_plain();
                self.take_on(number, line, output)
            }
        }
    }

    fn long(&mut self, number: u64, _output: &mut O) -> Option<Ending> {
        // Each branch ends by itself, so that the proof of each knows whether the session was opened in it.
        if self.is_new() {
            self.open_plain();
            return Some(Ending::NoMark(number));
        }
        Some(Ending::NoMark(number))
    }

    fn flush(&mut self, output: &mut O) -> Option<Ending> {
        if self.write(output).is_err() {
            return Some(Ending::WritingFailed);
        }
        None
    }
}
