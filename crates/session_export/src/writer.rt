// A session that is told, line by line.
ghost use Rattle.std.specs.Prelude.{◌≡◌, ◌+◌, ◌≤◌, [], length, true, false, Option, Some, None, IfOk, IfSome};
ghost use Rattle.line_io.specs.Event.{event_of};
ghost use Rattle.line_io.specs.Lines.{Whole};
ghost use Rattle.replay_command_base.specs.Putting.{IsOfLine};
ghost use Rattle.policy_rules.specs.SettingRules.Policy.{IsProper};
ghost use Rattle.game_record.specs.Game.{Game as AnyGame};
ghost use Rattle.adapter_core.specs.Ends.{may};
ghost use Rattle.adapter_core.specs.Represents.{Represents};
ghost use Rattle.script_replay.specs.Stages.{is_first_stage};
ghost use Rattle.script_replay.specs.Versions.{fault_said, kind_of_script_line, kind_says};
ghost use Rattle.session_export.specs.Following.{IsReached};
ghost use Rattle.session_export.specs.Exporting.{game_at};
ghost use Rattle.session_export.specs.Writing.{ExportsLine, HasOpened, HasPut, WriterIsUnused, MayWrite, TakesStep, new_session_writer};
ghost use Rattle.session_export.specs.declared.exporter.TheConstants.{EXPORT_ROOM};

use crate::exporter::StepExporter;
use adapter_core::Core;
use line_io::{Event, NoMemory, Out};
use policy_rules::Settings;
use replay_command_base::{Ending, LineFilter};
use script_lines::read_header;
use script_replay::{LineSaid, ScriptStage};
use std::alloc::Global;

/// A session, where the reading of its script stands, and what tells its steps.
#[derive(Drop)]
pub struct SessionWriter<T> {
    core: Core,
    stage: ScriptStage,
    exporter: T,
}

// One step of the core, for the line with this number, and what is told of it.
fn step<T: StepExporter>(
    core: &mut Core,
    exporter: &mut T,
    number: u64,
    event: &Event,
    text: &mut Out,
)
    requires may { may core.old.ends (event_of event.now) ≡ true }
    requires reached { IsReached core.old }
    requires at { (before : Option AnyGame) × T.means.at exporter.old before
        × (game_at before ≡ core.old.desk.game) }
    requires room { length text.old.text + EXPORT_ROOM ≤ text.old.room }
    ensures steps { (before : Option AnyGame) → T.means.at exporter.old before → HasPut
        (TakesStep (T.means.step_text number) before core.old core.new (event_of event.now))
        text.old text.new }
    ensures reached { IsReached core.new }
    ensures at { T.means.at exporter.new (Some core.new.desk.game) }
    ensures few { length text.new.text ≤ length text.old.text + EXPORT_ROOM }
{
    let _lines = core.step(event);
    exporter.put_step_text(number, event, core.game(), text);
}

impl<T: StepExporter> SessionWriter<T> {
    /// A session before the first line. It takes all memory that it ever uses.
    pub fn make(alloc: Global, settings: &Settings) -> Result<SessionWriter<T>, NoMemory>
        requires { IsProper settings.now }
        ensures new { IfOk result (λ writer. writer ≡ new_session_writer T.means settings.now) }
        ensures unused { IfOk result (λ writer. WriterIsUnused T.means settings.now writer) }
    {
        Ok(SessionWriter {
            core: Core::make(alloc, settings)?,
            stage: ScriptStage::Start,
            exporter: T::make(alloc)?,
        })
    }

    fn is_new(&self) -> bool
        ensures { result ≡ is_first_stage self.now.stage }
    {
        matches!(self.stage, ScriptStage::Start)
    }

    // Opens a session of version 1.
    fn open_plain(&mut self, text: &mut Out)
        requires new { Represents self.old.core.settings self.old.core [] }
        requires at { T.means.at self.old.exporter None }
        requires room { length text.old.text + EXPORT_ROOM ≤ text.old.room }
        ensures opened { HasPut
            (HasOpened T.means None self.old.core self.new.core self.new.stage)
            text.old text.new }
        ensures may { MayWrite T.means self.new }
        ensures few { length text.new.text ≤ length text.old.text + EXPORT_ROOM }
    {
        step(&mut self.core, &mut self.exporter, 0, &Event::Open, text);
        self.stage = ScriptStage::Plain;
    }

    // Opens a session by its header.
    fn open_numbered(&mut self, settings: &Settings, text: &mut Out)
        requires proper { IsProper settings.now }
        requires new { Represents self.old.core.settings self.old.core [] }
        requires at { T.means.at self.old.exporter None }
        requires room { length text.old.text + EXPORT_ROOM ≤ text.old.room }
        ensures opened { HasPut
            (HasOpened T.means (Some settings.now) self.old.core self.new.core self.new.stage)
            text.old text.new }
        ensures may { MayWrite T.means self.new }
        ensures few { length text.new.text ≤ length text.old.text + EXPORT_ROOM }
    {
        self.core.set(settings);
        step(&mut self.core, &mut self.exporter, 0, &Event::Open, text);
        self.stage = ScriptStage::Headed;
    }

    // Takes a line of a session that was opened.
    fn take(&mut self, number: u64, line: &[u8], text: &mut Out) -> Option<Ending>
        requires may { MayWrite T.means self.old }
        requires opened { is_first_stage self.old.stage ≡ false }
        requires room { length text.old.text + EXPORT_ROOM ≤ text.old.room }
        ensures ending { result ≡ fault_said number
            (kind_says self.old.stage self.old.core.ends (kind_of_script_line (Whole line.now))) }
        ensures takes { HasPut (ExportsLine T.means number self.old.core self.old.stage
            (kind_says self.old.stage self.old.core.ends (kind_of_script_line (Whole line.now)))
            self.new.core self.new.stage) text.old text.new }
        ensures of_line { IfSome result (λ ending. IsOfLine ending) }
        ensures may { MayWrite T.means self.new }
    {
        match self.stage.says(&self.core, line) {
            LineSaid::Comes(event) => {
                step(&mut self.core, &mut self.exporter, number, &event, text);
                self.stage = self.stage.after_event();
                None
            }
            LineSaid::Passes => None,
            LineSaid::Starts(step) => {
                self.stage = self.stage.started(step);
                None
            }
            LineSaid::HasNoMark => Some(Ending::NoMark(number)),
            LineSaid::IsOutOfStep => Some(Ending::OutOfStep(number)),
            LineSaid::Cannot => Some(Ending::MayNotCome(number)),
        }
    }
}

impl<T: StepExporter> LineFilter for SessionWriter<T> {
    ghost use Rattle.session_export.specs.Exporting.{game_at};
    ghost use Rattle.session_export.specs.Writing.{export_meaning};

    ghost means = { export_meaning T.means };

    fn line(&mut self, number: u64, line: &[u8], text: &mut Out) -> Option<Ending> {
        if !self.is_new() {
            return self.take(number, line, text);
        }
        match read_header(line) {
            Some(settings) => {
                self.open_numbered(&settings, text);
                None
            }
            None => {
                self.open_plain(text);
                self.take(number, line, text)
            }
        }
    }

    fn long(&mut self, number: u64, text: &mut Out) -> Option<Ending> {
        // Each branch ends by itself, so that the proof of each knows whether the session was opened in it.
        if self.is_new() {
            self.open_plain(text);
            return Some(Ending::NoMark(number));
        }
        Some(Ending::NoMark(number))
    }

    fn finish(&mut self, ending: Ending, text: &mut Out) -> Ending {
        // Each branch ends by itself, so that the proof of each knows whether the session was opened in it.
        if self.is_new() {
            self.open_plain(text);
            self.exporter.finish(ending, text);
            return ending;
        }
        self.exporter.finish(ending, text);
        ending
    }
}
