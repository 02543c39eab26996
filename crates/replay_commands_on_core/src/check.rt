// A run of the command `check`.
ghost use Rattle.std.specs.Prelude.{◌≡◌, ◌≢◌, ◌<◌, [], IfOk, true};
ghost use Rattle.line_io.specs.Causes.{Rose};
ghost use Rattle.line_io.specs.Event.{event_of};
ghost use Rattle.line_io.specs.Lines.{Whole, empty_reader};
ghost use Rattle.line_io.specs.Out.{empty};
ghost use Rattle.script_replay.specs.Versions.{kind_of_script_line};
ghost use Rattle.script_lines.specs.Header.{header_of};
ghost use Rattle.policy_rules.specs.SettingRules.Policy.{IsProper};
ghost use Rattle.policy_rules.specs.declared.setting_rules.settings.Settings.{Settings as AnySettings};
ghost use Rattle.adapter_core.specs.Ends.{may};
ghost use Rattle.adapter_core.specs.Represents.{Represents};
ghost use Rattle.replay_command_base.specs.declared.ending.Ending.TheVariants as endings;
ghost use Rattle.replay_commands_on_core.specs.Check.{ChecksAs, Finds};
ghost use Rattle.replay_command_base.specs.Diagnostics.{command_status};
ghost use Rattle.replay_command_base.specs.Ran.{FilterRan};
ghost use Rattle.replay_command_base.specs.Streams.{FilterStreams, filter_streams, with_input};
ghost use Rattle.replay_commands_on_core.specs.Walked.{CheckEndsAt, FillsDueLines, astray, Followed, Heads, StageIsOpen, IsUnread, CheckMayTake, TakesAny, TakesFirst, fault_in, fit, number_undue, undue};
ghost use Rattle.line_io.specs.declared.limits.TheConstants.{SCRIPT_LINE};

use crate::expected_lines::ExpectedLines;
use crate::verdict::write_verdict;
use adapter_core::Core;
use line_io::{
    Event, LineConsumer, Lines, LinesEnd, NoMemory, Out, SCRIPT_LINE, Sink, Source, take_lines,
};
use policy_rules::Settings;
use replay_command_base::{Ending, report_ending, report_without_buffer};
use script_lines::{Mark, read_header, read_mark};
use script_replay::{LineSaid, ScriptStage};
use std::alloc::Global;

// A session, the lines of a log, where the reading stands, and the lines that are due in it.
#[derive(Drop)]
struct Checker {
    core: Core,
    stage: ScriptStage,
    due: ExpectedLines,
    // how many lines were taken
    number: u64,
}

// One step of the core: its lines are due.
fn step(core: &mut Core, event: &Event, due: &mut ExpectedLines)
    requires { may core.old.ends (event_of event.now) ≡ true }
    ensures { FillsDueLines core.old core.new (event_of event.now) due.new }
{
    let lines = core.step(event);
    due.fill(lines.iface, lines.engine);
}

// The first step of a log of version 2: its number is due, and its lines.
fn open_numbered(core: &mut Core, settings: &Settings, due: &mut ExpectedLines)
    requires proper { IsProper settings.now }
    requires new { Represents core.old.settings core.old [] }
    ensures { Heads settings.now core.new due.new }
{
    core.set(settings);
    let lines = core.step(&Event::Open);
    due.fill_first(lines.iface, lines.engine);
}

// A line out of step: an event may not come once both sides have ended, and any other such line differs.
fn astray(core: &Core, number: u64, line: &[u8]) -> Ending
    ensures { result ≡ astray core.now.ends number (kind_of_script_line (Whole line.now)) }
{
    match read_mark(line) {
        Ok(Mark::Event(_)) if core.over() => Ending::MayNotCome(number),
        _ => Ending::Differs(number),
    }
}

// Takes a line if none is due.
fn take_undue(
    core: &mut Core,
    stage: &mut ScriptStage,
    number: u64,
    line: &[u8],
    due: &mut ExpectedLines,
) -> Option<Ending>
    requires { StageIsOpen stage.old }
    ensures ending { result ≡ fault_in (undue stage.old core.old.ends number line.now) }
    ensures follows { Followed core.old stage.old due.old
        (undue stage.old core.old.ends number line.now)
        core.new stage.new due.new }
    ensures open { StageIsOpen stage.new }
{
    match stage.says(core, line) {
        LineSaid::Comes(event) => {
            step(core, &event, due);
            *stage = stage.after_event();
            None
        }
        LineSaid::Starts(step) => {
            if core.over() {
                return Some(Ending::Differs(number));
            }
            *stage = stage.started(step);
            None
        }
        LineSaid::HasNoMark => Some(Ending::NoMark(number)),
        LineSaid::Cannot => Some(Ending::MayNotCome(number)),
        LineSaid::Passes => Some(Ending::Differs(number)),
        LineSaid::IsOutOfStep => Some(astray(core, number, line)),
    }
}

// The ending for a line that is not the one that is due.
fn other_line(core: &Core, stage: ScriptStage, number: u64, line: &[u8]) -> Ending
    requires { StageIsOpen stage }
    ensures { result ≡ other_than stage core.now.ends number line.now }
{
    match stage.says(core, line) {
        LineSaid::HasNoMark => Ending::NoMark(number),
        _ => Ending::Differs(number),
    }
}

// Takes a line of a log whose session was opened.
fn take_line(
    core: &mut Core,
    stage: &mut ScriptStage,
    number: u64,
    line: &[u8],
    due: &mut ExpectedLines,
) -> Option<Ending>
    requires { StageIsOpen stage.old }
    ensures ending { result ≡ fault_in (fit stage.old core.old.ends due.old number line.now) }
    ensures follows { Followed core.old stage.old due.old
        (fit stage.old core.old.ends due.old number line.now)
        core.new stage.new due.new }
    ensures open { StageIsOpen stage.new }
{
    if due.is_empty() {
        return take_undue(core, stage, number, line, due);
    }
    if due.take(line) {
        return None;
    }
    Some(other_line(core, *stage, number, line))
}

ghost use Rattle.replay_commands_on_core.specs.Walked.{other_than};

// Takes the first line, by which the session is opened.
fn take_first(
    core: &mut Core,
    stage: &mut ScriptStage,
    number: u64,
    line: &[u8],
    due: &mut ExpectedLines,
) -> Option<Ending>
    requires { Represents core.old.settings core.old [] }
    ensures taken { TakesFirst
        (header_of line.now) core.old number line.now result core.new stage.new due.new }
    ensures open { StageIsOpen stage.new }
{
    match read_header(line) {
        Some(settings) => {
            open_numbered(core, &settings, due);
            *stage = ScriptStage::AfterEvent(0);
            None
        }
        None => {
            step(core, &Event::Open, due);
            *stage = ScriptStage::Plain;
            take_line(core, stage, number, line, due)
        }
    }
}

// Takes a line.
fn take_any(
    core: &mut Core,
    stage: &mut ScriptStage,
    number: u64,
    line: &[u8],
    due: &mut ExpectedLines,
) -> Option<Ending>
    requires { CheckMayTake core.old stage.old }
    ensures taken { TakesAny core.old stage.old due.old number line.now result
        core.new stage.new due.new }
    ensures open { StageIsOpen stage.new }
{
    match *stage {
        ScriptStage::Start => take_first(core, stage, number, line, due),
        ScriptStage::Plain
        | ScriptStage::Headed
        | ScriptStage::AfterEvent(_)
        | ScriptStage::Numbered(_) => take_line(core, stage, number, line, due),
    }
}

fn ending_at(due: &ExpectedLines, number: u64) -> Ending
    requires { number < u64.MAX }
    ensures { result ≡ at_end due.now number }
{
    if due.is_empty() {
        Ending::Done
    } else {
        Ending::Differs(number + 1)
    }
}

ghost use Rattle.replay_commands_on_core.specs.Walked.{at_end};

// The end of the input: no line that is due, and no event of a step, is to be missing.
fn end_of(checker: &mut Checker) -> Ending
    requires may { CheckMayTake checker.old.core checker.old.stage }
    requires number { checker.old.number < u64.MAX }
    ensures { CheckEndsAt checker.old.core checker.old.stage checker.old.due checker.old.number
        result }
{
    match checker.stage {
        ScriptStage::Start => {
            step(&mut checker.core, &Event::Open, &mut checker.due);
            ending_at(&checker.due, checker.number)
        }
        ScriptStage::Plain | ScriptStage::AfterEvent(_) => ending_at(&checker.due, checker.number),
        ScriptStage::Headed | ScriptStage::Numbered(_) => Ending::Differs(checker.number + 1),
    }
}

impl Checker {
    fn make(alloc: Global, settings: &Settings) -> Result<Checker, NoMemory>
        requires { IsProper settings.now }
        ensures { IfOk result (λ checker. IsUnread settings.now checker) }
    {
        let due = ExpectedLines::make(alloc)?;
        let core = Core::make(alloc, settings)?;
        Ok(Checker {
            core,
            stage: ScriptStage::Start,
            due,
            number: 0,
        })
    }
}

impl LineConsumer<()> for Checker {
    ghost use Rattle.replay_commands_on_core.specs.Walked.{checks};

    type Stop = Ending;

    ghost means = { checks };

    fn line(&mut self, number: u64, line: &[u8], _output: &mut ()) -> Option<Ending> {
        self.number = number;
        take_any(&mut self.core, &mut self.stage, number, line, &mut self.due)
    }

    fn long(&mut self, number: u64, _output: &mut ()) -> Option<Ending> {
        Some(Ending::NoMark(number))
    }

    // The verdict is written at the end.
    fn flush(&mut self, _output: &mut ()) -> Option<Ending> {
        None
    }
}

// A check of an input.
#[derive(Drop)]
struct Audit {
    checker: Checker,
    lines: Lines,
}

impl Audit {
    // An audit before its first line. It takes all memory that it ever uses.
    fn make(alloc: Global, settings: &Settings) -> Result<Audit, NoMemory>
        requires { IsProper settings.now }
        ensures checker { IfOk result (λ audit. IsUnread settings.now audit.checker) }
        ensures lines { IfOk result (λ audit. audit.lines ≡ empty_reader SCRIPT_LINE) }
    {
        let lines = Lines::make(alloc, SCRIPT_LINE)?;
        let checker = Checker::make(alloc, settings)?;
        Ok(Audit { checker, lines })
    }

    // Compares the input with the lawful script of its events.
    fn go<I: Source>(&mut self, input: &mut I) -> Ending
        requires checker { IsUnread self.old.checker.core.settings self.old.checker }
        requires lines { self.old.lines ≡ empty_reader SCRIPT_LINE }
        ensures finds { (o : AnySettings) (start now : FilterStreams) → IsUnread o self.old.checker
            → Finds o result
            (with_input start (I.state input.old)) (with_input now (I.state input.new)) }
        ensures same { result ≢ endings.ReadingFailed → (I.state input.new).faults ≡
            (I.state input.old).faults }
        ensures cause { result ≡ endings.ReadingFailed → Rose (I.state input.old).faults
            (I.state input.new).faults }
    {
        match take_lines(&mut self.lines, input, &mut self.checker, &mut ()) {
            LinesEnd::Stopped(ending) => ending,
            LinesEnd::Ended => end_of(&mut self.checker),
            LinesEnd::ReadFailed => Ending::ReadingFailed,
            LinesEnd::Endless => Ending::TooLong,
        }
    }
}

// The memory of a check, and room for one line.
fn make_check(alloc: Global, settings: &Settings) -> Result<(Audit, Out), NoMemory>
    requires { IsProper settings.now }
    ensures checker { IfOk result (λ made. IsUnread settings.now made.0.checker) }
    ensures lines { IfOk result (λ made. made.0.lines ≡ empty_reader SCRIPT_LINE) }
    ensures room { IfOk result (λ made. made.1 ≡ empty 80) }
{
    let line = Out::make(alloc, 80)?;
    let audit = Audit::make(alloc, settings)?;
    Ok((audit, line))
}

/// Compares the input with the lawful script of its events, and writes the verdict.
pub fn run_check<I: Source, O: Sink, D: Sink>(
    alloc: Global,
    settings: &Settings,
    input: &mut I,
    output: &mut O,
    diag: &mut D,
) -> Ending
    requires { IsProper settings.now }
    ensures { FilterRan (λ e. ChecksAs settings.now (input.new ≡ input.old) (output.new ≡
        output.old) e
        (filter_streams (I.state input.old) (O.state output.old) (D.state diag.old))
        (filter_streams (I.state input.new) (O.state output.new) (D.state diag.new)))
        (filter_streams (I.state input.old) (O.state output.old) (D.state diag.old))
        (filter_streams (I.state input.new) (O.state output.new) (D.state diag.new))
        (command_status result) }
{
    let Ok((mut audit, mut text)) = make_check(alloc, settings) else {
        return report_without_buffer(Ending::NoMemory, diag);
    };
    let found = audit.go(input);
    let ending = write_verdict(found, &mut text, output);
    report_ending(ending, &mut text, diag)
}
