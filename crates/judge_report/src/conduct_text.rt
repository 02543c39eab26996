// The lines of a report on an engine's conduct.
ghost use Rattle.std.specs.Prelude.{◌≡◌, ◌+◌, ◌≤◌, length};
ghost use Rattle.line_io.specs.Out.{with};
ghost use Rattle.judge_report.specs.ConductTexts.{conduct_end_line, conduct_last_lines, conduct_rule_text, fault_line, fault_report, unjudged_line, unplaced_line};
ghost use Rattle.judge_report.specs.declared.report.TheConstants.{LAST_LINES};

use crate::report::LAST_LINES;
use crate::text::put_number;
use engine_conduct::{ConductFault, ConductRule};
use line_io::Out;

fn conduct_rule_text(rule: ConductRule) -> &'static [u8]
    ensures text { result.now ≡ conduct_rule_text rule }
    ensures short { length result.now ≤ 11 }
{
    match rule {
        ConductRule::Form => b"form",
        ConductRule::Unasked => b"unasked",
        ConductRule::Late => b"late",
        ConductRule::Declared => b"option",
        ConductRule::Infinite => b"infinite",
        ConductRule::Best => b"move",
        ConductRule::Pv => b"pv",
        ConductRule::SearchMoves => b"searchmoves",
        ConductRule::Ponder => b"ponder",
        ConductRule::Gone => b"gone",
    }
}

fn put_fault_line(line: u64, rule: ConductRule, out: &mut Out)
    requires { length out.old.text + 100 ≤ out.old.room }
    ensures { out.new ≡ with out.old (fault_line line rule) }
{
    put_number(b"fault at line ", line, out);
    out.put(b": ");
    out.put(conduct_rule_text(rule));
    out.put(b"\n");
}

/// Puts the line about a line that is blamed, if one is.
pub(crate) fn put_fault(fault: Option<ConductFault>, out: &mut Out)
    requires { length out.old.text + LAST_LINES ≤ out.old.room }
    ensures { out.new ≡ with out.old (fault_report fault) }
{
    match fault {
        Some(fault) => put_fault_line(fault.line, fault.rule, out),
        None => out.put(b""),
    }
}

// A word, a number, and the line feed.
fn put_counted(word: &[u8], number: u64, out: &mut Out)
    requires { length out.old.text + length word.now + 21 ≤ out.old.room }
    ensures text { out.new ≡ with out.old (counted_line word.now number) }
    ensures short { length out.new.text ≤ length out.old.text + length word.now + 21 }
{
    put_number(word, number, out);
    out.put(b"\n");
}

ghost use Rattle.judge_report.specs.ConductTexts.{counted_line};

fn put_unjudged(from: Option<u64>, out: &mut Out)
    requires { length out.old.text + 50 ≤ out.old.room }
    ensures text { out.new ≡ with out.old (unjudged_line from) }
    ensures short { length out.new.text ≤ length out.old.text + 50 }
{
    match from {
        Some(line) => put_counted(b"not judged from line ", line, out),
        None => out.put(b""),
    }
}

fn put_unplaced(count: u64, out: &mut Out)
    requires { length out.old.text + 60 ≤ out.old.room }
    ensures text { out.new ≡ with out.old (unplaced_line count) }
    ensures short { length out.new.text ≤ length out.old.text + 60 }
{
    match count {
        0 => out.put(b""),
        _ => put_counted(b"searches without a position: ", count, out),
    }
}

fn put_conduct_end(faults: u64, out: &mut Out)
    requires { length out.old.text + 60 ≤ out.old.room }
    ensures text { out.new ≡ with out.old (conduct_end_line faults) }
{
    match faults {
        0 => out.put(b"engine: no fault\n"),
        _ => put_counted(b"engine: faults: ", faults, out),
    }
}

/// Puts what comes last: from which line on nothing was judged, how many searches had no position, and how many faults
/// there are.
pub(crate) fn put_conduct(from: Option<u64>, unplaced: u64, faults: u64, out: &mut Out)
    requires { length out.old.text + LAST_LINES ≤ out.old.room }
    ensures { out.new ≡ with out.old (conduct_last_lines from unplaced faults) }
{
    put_unjudged(from, out);
    put_unplaced(unplaced, out);
    put_conduct_end(faults, out);
}
