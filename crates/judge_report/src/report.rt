// The report on a log, line by line.
ghost use Rattle.std.specs.Prelude.{◌≡◌, ◌+◌, ◌≤◌, [], length, IfSome};
ghost use Rattle.line_io.specs.Lines.{Whole, TooLong};
ghost use Rattle.line_io.specs.Out.{with};
ghost use Rattle.session_judge.specs.Talks.{opening_judgement};
ghost use Rattle.session_judge.specs.Rules.{broken};
ghost use Rattle.judge_report.specs.Reads.{ReportEnds, ReportReads, ReportSoFar};
ghost use Rattle.replay_command_base.specs.Putting.{IsOfLine};
ghost use Rattle.judge_report.specs.Reports.{brought_out, is_passed, kind_of_log_line, last_lines, of_dialogue_event, of_kind};
ghost use Rattle.judge_report.specs.declared.report.TheConstants.{LAST_LINES};

use crate::text::{put_lawful, put_refusal, put_search};
use line_io::Out;
use replay_command_base::{Ending, LineFilter};
use script_lines::{read_header, read_mark, read_step};
use session_judge::{DialogueEvent, Judge, Listener, OrderKind, Search};
use std::alloc::Global;
use std::marker::Model;

/// The greatest number of bytes that are put for a line, or last.
pub const LAST_LINES: usize = 300;

/// Reports on the lines of a log: what the judge found is put as text.
#[derive(Drop)]
pub struct Report {
    judge: Judge,
}

impl Model for Report {
    ghost use Rattle.session_judge.specs.declared.talk.JudgedTalk.{JudgedTalk};

    ghost Value = { JudgedTalk };

    ghost view = { λ r. r.judge };
}

// Puts the line of the search before, if a `go` begins another.
fn put_brought_out(before: Option<Search>, dialogue_event: &DialogueEvent, text: &mut Out)
    requires { length text.old.text + LAST_LINES ≤ text.old.room }
    ensures { text.new ≡ with text.old (brought_out before dialogue_event.now) }
{
    match dialogue_event {
        DialogueEvent::Writes(OrderKind::Go(_)) => put_search(before, text),
        _ => text.put(b""),
    }
}

// Step lines are ignored, and a header in line 1.
pub(crate) fn is_passed(number: u64, line: &[u8]) -> bool
    ensures { result ≡ is_passed number line.now }
{
    read_step(line).is_some() || (number == 1 && read_header(line).is_some())
}

impl Report {
    /// The report on a log that this one wrote. No line was read yet.
    pub fn new(alloc: Global, listener: Listener) -> Report
        ensures opening { result ≡ opening_judgement listener }
        ensures stands { ReportSoFar listener [] result [] }
    {
        Report {
            judge: Judge::new(alloc, listener),
        }
    }

    // Hears what a mark is, and puts what comes of it.
    fn hear(
        &mut self,
        number: u64,
        dialogue_event: &DialogueEvent,
        text: &mut Out,
    ) -> Option<Ending>
        requires { length text.old.text + LAST_LINES ≤ text.old.room }
        ensures ending { result
            ≡ (of_dialogue_event self.old number dialogue_event.now (broken self.old
            dialogue_event.now)).ending }
        ensures talk { self.new
            ≡ (of_dialogue_event self.old number dialogue_event.now (broken self.old
            dialogue_event.now)).talk }
        ensures put { text.new ≡ with text.old
            (of_dialogue_event self.old number dialogue_event.now (broken self.old
            dialogue_event.now)).more }
        ensures of_line { IfSome result (λ ending. IsOfLine ending) }
    {
        let before = self.judge.search();
        match self.judge.hear_dialogue_event(number, dialogue_event) {
            Ok(()) => {
                put_brought_out(before, dialogue_event, text);
                None
            }
            Err(rule) => {
                put_refusal(&self.judge, number, rule, text);
                Some(Ending::Unlawful(number))
            }
        }
    }

    // Reads a line by what it is.
    fn take(&mut self, number: u64, line: &[u8], text: &mut Out) -> Option<Ending>
        requires { length text.old.text + LAST_LINES ≤ text.old.room }
        ensures ending { result
            ≡ (of_kind self.old number (kind_of_log_line number (Whole line.now))).ending }
        ensures talk { self.new ≡ (of_kind self.old number (kind_of_log_line number (Whole
            line.now))).talk }
        ensures put { text.new ≡ with text.old
            (of_kind self.old number (kind_of_log_line number (Whole line.now))).more }
        ensures of_line { IfSome result (λ ending. IsOfLine ending) }
    {
        match read_mark(line) {
            Ok(mark) => {
                let dialogue_event = self.judge.dialogue_event_of(&mark);
                self.hear(number, &dialogue_event, text)
            }
            Err(_) if is_passed(number, line) => None,
            Err(_) => Some(Ending::NoMark(number)),
        }
    }

    /// Reads the line with this number, and puts what is due for it: the line of a search once the next is begun, and
    /// what the judge says of a mark that breaks a rule. An answer is the reason why no more lines are read.
    pub fn read_line(&mut self, number: u64, line: &[u8], text: &mut Out) -> Option<Ending>
        requires { length text.old.text + LAST_LINES ≤ text.old.room }
        ensures of_line { IfSome result (λ ending. IsOfLine ending) }
        ensures reads { ReportReads number (Whole line.now) result
            self.old self.new text.old text.new }
    {
        self.take(number, line, text)
    }

    /// Reads a line that is longer than the limit, which has no mark.
    pub fn read_long(&mut self, number: u64, text: &mut Out) -> Option<Ending>
        requires { length text.old.text + LAST_LINES ≤ text.old.room }
        ensures of_line { IfSome result (λ ending. IsOfLine ending) }
        ensures reads { ReportReads number TooLong result self.old self.new text.old text.new }
    {
        text.put(b"");
        Some(Ending::NoMark(number))
    }

    // The last text.
    fn close(&self, ending: Ending, text: &mut Out)
        requires { length text.old.text + LAST_LINES ≤ text.old.room }
        ensures { text.new ≡ with text.old (last_lines self.now ending) }
    {
        match ending {
            Ending::Done => put_lawful(&self.judge, text),
            _ => text.put(b""),
        }
    }

    /// Puts what comes last if no line is the reason to end: the line of the last search, how many orders crossed, and that
    /// the talk is lawful, if all of the log was read.
    pub fn put_last(&self, ending: Ending, text: &mut Out)
        requires { length text.old.text + LAST_LINES ≤ text.old.room }
        ensures { ReportEnds ending self.now text.old text.new }
    {
        self.close(ending, text);
    }
}

impl LineFilter for Report {
    ghost use Rattle.judge_report.specs.Judging.{judges};

    ghost means = { judges };

    fn line(&mut self, number: u64, line: &[u8], text: &mut Out) -> Option<Ending> {
        self.read_line(number, line, text)
    }

    fn long(&mut self, number: u64, text: &mut Out) -> Option<Ending> {
        self.read_long(number, text)
    }

    fn finish(&mut self, ending: Ending, text: &mut Out) -> Ending {
        self.put_last(ending, text);
        ending
    }
}
