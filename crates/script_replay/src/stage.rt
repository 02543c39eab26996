// The meaning of the lines of a script, in order.
ghost use Rattle.std.specs.Prelude.{◌≡◌, ◌<◌, ◌^◌};
ghost use Rattle.line_io.specs.Lines.{Whole};
ghost use Rattle.script_replay.specs.Versions.{kind_of_script_line, kind_says, stage_started, stage_after_event};
ghost use Rattle.script_replay.specs.Stages.{kind, number_of_stage, line_said_of, IsNumbered};

use adapter_core::Core;
use line_io::Event;
use script_lines::{Mark, next_number, read_mark, read_step};

/// The stage of a script: what comes next.
#[derive(Clone, Copy)]
pub enum ScriptStage {
    /// The first line.
    Start,
    /// A mark of version 1.
    Plain,
    /// The first step after a header.
    Headed,
    /// The output of the step with this number, or the next step.
    AfterEvent(u64),
    /// The event of the step with this number.
    Numbered(u64),
}

/// A line by itself, wherever it stands.
#[derive(Drop)]
pub enum LineKind<'a> {
    /// The mark of an event.
    MarksEvent(Event<'a>),
    /// The mark of a line that was written.
    Writes,
    /// A step line, with its number.
    Numbers(u64),
    /// Neither a mark nor a step line.
    HasNone,
}

/// The meaning of a line where it stands.
#[derive(Drop)]
pub enum LineSaid<'a> {
    /// An event, which may come.
    Comes(Event<'a>),
    /// That a line was written.
    Passes,
    /// The number of the step that comes.
    Starts(u64),
    HasNoMark,
    IsOutOfStep,
    /// An event that may not come.
    Cannot,
}

fn kind_of(line: &[u8]) -> LineKind<'_>
    ensures { kind result ≡ kind_of_script_line (Whole line.now) }
{
    match read_mark(line) {
        Ok(Mark::Event(event)) => LineKind::MarksEvent(event),
        Ok(_) => LineKind::Writes,
        Err(_) => match read_step(line) {
            Some(number) => LineKind::Numbers(number),
            None => LineKind::HasNone,
        },
    }
}

fn event_says<'a>(core: &Core, event: Event<'a>) -> LineSaid<'a>
    ensures { line_said_of result ≡ event_says core.now.ends (event_of event.entry) }
{
    if core.may(&event) {
        LineSaid::Comes(event)
    } else {
        LineSaid::Cannot
    }
}

ghost use Rattle.line_io.specs.Event.{event_of};
ghost use Rattle.script_replay.specs.Versions.{event_says, number_says};

fn number_says<'a>(due: u64, number: u64) -> LineSaid<'a>
    ensures { line_said_of result ≡ number_says due number }
{
    if number == due {
        LineSaid::Starts(number)
    } else {
        LineSaid::IsOutOfStep
    }
}

impl ScriptStage {
    /// The meaning of a line here.
    pub fn says<'a>(self, core: &Core, line: &'a [u8]) -> LineSaid<'a>
        requires { IsNumbered self }
        ensures { line_said_of result ≡ kind_says self core.now.ends (kind_of_script_line (Whole
            line.now)) }
    {
        match (self, kind_of(line)) {
            (ScriptStage::Start, _) | (_, LineKind::HasNone) => LineSaid::HasNoMark,
            (ScriptStage::Plain, LineKind::MarksEvent(event)) => event_says(core, event),
            (ScriptStage::Plain, LineKind::Writes) => LineSaid::Passes,
            (ScriptStage::Plain, LineKind::Numbers(_)) => LineSaid::HasNoMark,
            (ScriptStage::Headed, LineKind::Numbers(number)) => number_says(0, number),
            (ScriptStage::AfterEvent(_), LineKind::Writes) => LineSaid::Passes,
            (ScriptStage::AfterEvent(last), LineKind::Numbers(number)) => number_says(
                next_number(last),
                number,
            ),
            (ScriptStage::Numbered(_), LineKind::MarksEvent(event)) => event_says(core, event),
            _ => LineSaid::IsOutOfStep,
        }
    }

    /// The number of the step whose event comes.
    pub fn number(self) -> Option<u64>
        ensures { result ≡ number_of_stage self }
    {
        match self {
            ScriptStage::Numbered(number) => Some(number),
            _ => None,
        }
    }

    /// The stage after the number of a step.
    pub fn started(self, number: u64) -> ScriptStage
        ensures { result ≡ stage_started self number }
    {
        match self {
            ScriptStage::Headed => ScriptStage::AfterEvent(number),
            _ => ScriptStage::Numbered(number),
        }
    }

    /// The stage after the mark of an event.
    pub fn after_event(self) -> ScriptStage
        ensures { result ≡ stage_after_event self }
    {
        match self {
            ScriptStage::Numbered(number) => ScriptStage::AfterEvent(number),
            _ => self,
        }
    }
}
