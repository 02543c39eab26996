// The report on an engine's conduct, line by line.
ghost use Rattle.std.specs.Prelude.{◌≡◌, ◌+◌, ◌≤◌, length, IfSome};
ghost use Rattle.line_io.specs.Lines.{Whole};
ghost use Rattle.line_io.specs.Out.{with};
ghost use Rattle.script_lines.specs.Marks.{plain_mark};
ghost use Rattle.replay_command_base.specs.Putting.{IsOfLine};
ghost use Rattle.judge_report.specs.Reports.{kind_of_log_line};
ghost use Rattle.judge_report.specs.Conducts.{conduct_end, conduct_verdict, counted, mark_fault, no_tally, of_conduct_line, tally_after};
ghost use Rattle.judge_report.specs.declared.report.TheConstants.{LAST_LINES};

use crate::conduct_text::{put_conduct, put_fault};
use crate::report::{LAST_LINES, is_passed};
use engine_conduct::{ConductFault, EngineJudge};
use line_io::Out;
use replay_command_base::{Ending, LineFilter};
use script_lines::{Mark, read_mark};
use session_judge::Listener;
use std::marker::Model;

/// Reports on an engine's conduct in the lines of a log: what is blamed is put as text, and counted. `last` is the line
/// that was blamed last.
#[derive(Drop)]
pub struct ConductReport {
    judge: EngineJudge,
    faults: u64,
    last: u64,
}

impl Model for ConductReport {
    ghost use Rattle.judge_report.specs.Conducts.{Tally};

    ghost Value = { Tally };

    ghost view = { λ r. record { conduct = r.judge; faults = r.faults; last = r.last } };
}

impl ConductReport {
    /// The report on a log that this one wrote. No line was read yet.
    pub fn new(listener: Listener) -> ConductReport
        ensures { result ≡ no_tally listener }
    {
        ConductReport {
            judge: EngineJudge::new(listener),
            faults: 0,
            last: 0,
        }
    }

    fn count(&mut self, fault: Option<ConductFault>)
        ensures { self.new ≡ counted self.old fault }
    {
        if let Some(fault) = fault {
            self.faults = self.faults.saturating_add(1);
            self.last = fault.line;
        }
    }

    // Hears a mark, and puts the fault that it is, if it is one.
    fn hear(&mut self, number: u64, mark: &Mark, text: &mut Out)
        requires { length text.old.text + LAST_LINES ≤ text.old.room }
        ensures tally { self.new ≡ tally_after self.old number (plain_mark mark.now) }
        ensures put { text.new ≡ with text.old (fault_report (mark_fault self.old number
            (plain_mark mark.now))) }
    {
        let fault = self.judge.hear(number, mark);
        self.count(fault);
        put_fault(fault, text);
    }

    // Reads a line by what it is.
    fn take(&mut self, number: u64, line: &[u8], text: &mut Out) -> Option<Ending>
        requires { length text.old.text + LAST_LINES ≤ text.old.room }
        ensures ending { result
            ≡ (of_conduct_line self.old number (kind_of_log_line number (Whole line.now))).ending }
        ensures tally { self.new
            ≡ (of_conduct_line self.old number (kind_of_log_line number (Whole line.now))).tally }
        ensures put { text.new ≡ with text.old
            (of_conduct_line self.old number (kind_of_log_line number (Whole line.now))).more }
        ensures of_line { IfSome result (λ ending. IsOfLine ending) }
    {
        match read_mark(line) {
            Ok(mark) => {
                self.hear(number, &mark, text);
                None
            }
            Err(_) if is_passed(number, line) => None,
            Err(_) => Some(Ending::NoMark(number)),
        }
    }

    // How a run ends: by the line that was blamed last, if all was read and one was.
    fn verdict(&self, ending: Ending) -> Ending
        ensures { result ≡ conduct_verdict self.now ending }
    {
        match ending {
            Ending::Done if self.faults > 0 => Ending::Unlawful(self.last),
            _ => ending,
        }
    }

    // The last text.
    fn close(&self, ending: Ending, text: &mut Out)
        requires { length text.old.text + LAST_LINES ≤ text.old.room }
        ensures { text.new ≡ with text.old (conduct_end self.now ending) }
    {
        match ending {
            Ending::Done => put_conduct(
                self.judge.unjudged_from(),
                self.judge.unplaced(),
                self.faults,
                text,
            ),
            _ => text.put(b""),
        }
    }
}

ghost use Rattle.judge_report.specs.ConductTexts.{fault_report};

impl LineFilter for ConductReport {
    ghost use Rattle.judge_report.specs.Conducts.{blames};

    ghost means = { blames };

    fn line(&mut self, number: u64, line: &[u8], text: &mut Out) -> Option<Ending> {
        self.take(number, line, text)
    }

    fn long(&mut self, number: u64, text: &mut Out) -> Option<Ending> {
        text.put(b"");
        Some(Ending::NoMark(number))
    }

    fn finish(&mut self, ending: Ending, text: &mut Out) -> Ending {
        self.close(ending, text);
        self.verdict(ending)
    }
}
