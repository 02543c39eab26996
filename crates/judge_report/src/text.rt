// The lines of a report.
ghost use Rattle.std.specs.Prelude.{◌≡◌, ◌+◌, ◌≤◌, ◌++◌, decimal, length};
ghost use Rattle.line_io.specs.Out.{with};
ghost use Rattle.chess_board.specs.Text.{promotion_text, text_of_move};
ghost use Rattle.judge_report.specs.Reports.{report_before_end};
ghost use Rattle.judge_report.specs.Texts.{begun_text, count_line, crossings_line, end_text, search_end_text, kind_text, lawful_line, rule_text, search_report, shown_move_text, stop_text, unlawful_line};
ghost use Rattle.judge_report.specs.declared.report.TheConstants.{LAST_LINES};

use chess_board::{Kind, Move};
use itoa::Buffer;
use line_io::Out;
use protocol_tokens::GoKind;
use session_judge::{Judge, Rule, Search};

pub(crate) fn put_number(word: &[u8], number: u64, out: &mut Out)
    requires { length out.old.text + length word.now + 20 ≤ out.old.room }
    ensures text { out.new ≡ with out.old (word.now ++ decimal number) }
    ensures short { length out.new.text ≤ length out.old.text + length word.now + 20 }
{
    let mut digits = Buffer::new();
    out.put(word);
    out.put(digits.format(number).as_bytes());
}

fn kind_text(kind: GoKind) -> &'static [u8]
    ensures text { result.now ≡ kind_text kind }
    ensures short { length result.now ≤ 7 }
{
    match kind {
        GoKind::Move => b"move",
        GoKind::Ponder => b"ponder",
        GoKind::Analyse => b"analyse",
    }
}

/// The letter of the piece that a pawn becomes.
fn letter_of(occupant: Option<Kind>) -> &'static [u8]
    ensures text { result.now ≡ promotion_text occupant }
    ensures short { length result.now ≤ 1 }
{
    match occupant {
        Some(Kind::Queen) => b"q",
        Some(Kind::Rook) => b"r",
        Some(Kind::Bishop) => b"b",
        Some(Kind::Knight) => b"n",
        _ => b"",
    }
}

fn put_move(m: Move, out: &mut Out)
    requires { length out.old.text + 5 ≤ out.old.room }
    ensures text { out.new ≡ with out.old (text_of_move m) }
    ensures short { length out.new.text ≤ length out.old.text + 5 }
{
    let squares = [
        b'a' + m.from.file(),
        b'1' + m.from.rank(),
        b'a' + m.to.file(),
        b'1' + m.to.rank(),
    ];
    out.put(&squares);
    out.put(letter_of(m.promotion));
}

fn put_end(ended: Option<u64>, out: &mut Out)
    requires { length out.old.text + 28 ≤ out.old.room }
    ensures text { out.new ≡ with out.old (end_text ended) }
    ensures short { length out.new.text ≤ length out.old.text + 28 }
{
    match ended {
        Some(line) => put_number(b"to line ", line, out),
        None => out.put(b"open"),
    }
}

fn stop_text(stopped: bool) -> &'static [u8]
    ensures text { result.now ≡ stop_text stopped }
    ensures short { length result.now ≤ 11 }
{
    if stopped { b"stopped" } else { b"not stopped" }
}

fn put_shown(shown: Option<Move>, out: &mut Out)
    requires { length out.old.text + 5 ≤ out.old.room }
    ensures text { out.new ≡ with out.old (shown_move_text shown) }
    ensures short { length out.new.text ≤ length out.old.text + 5 }
{
    match shown {
        Some(m) => put_move(m, out),
        None => out.put(b"none"),
    }
}

// `search K: KIND, from line A`
fn put_begun(search: &Search, out: &mut Out)
    requires { length out.old.text + 70 ≤ out.old.room }
    ensures text { out.new ≡ with out.old (begun_text search.now) }
    ensures short { length out.new.text ≤ length out.old.text + 70 }
{
    put_number(b"search ", search.number, out);
    out.put(b": ");
    out.put(kind_text(search.kind));
    put_number(b", from line ", search.begun, out);
}

// `, END, STOP, M` and the line feed
fn put_ended(search: &Search, out: &mut Out)
    requires { length out.old.text + 60 ≤ out.old.room }
    ensures text { out.new ≡ with out.old (search_end_text search.now) }
    ensures short { length out.new.text ≤ length out.old.text + 60 }
{
    out.put(b", ");
    put_end(search.ended, out);
    out.put(b", ");
    out.put(stop_text(search.stopped));
    out.put(b", ");
    put_shown(search.shown, out);
    out.put(b"\n");
}

/// Puts the line of a search, if there is one.
pub(crate) fn put_search(search: Option<Search>, out: &mut Out)
    requires { length out.old.text + 130 ≤ out.old.room }
    ensures text { out.new ≡ with out.old (search_report search) }
    ensures short { length out.new.text ≤ length out.old.text + 130 }
{
    if let Some(search) = search {
        put_begun(&search, out);
        put_ended(&search, out);
    }
}

fn rule_text(rule: Rule) -> &'static [u8]
    ensures text { result.now ≡ rule_text rule }
    ensures short { length result.now ≤ 8 }
{
    match rule {
        Rule::First => b"first",
        Rule::Gone => b"gone",
        Rule::Quit => b"quit",
        Rule::Order => b"order",
        Rule::Busy => b"busy",
        Rule::Stop => b"stop",
        Rule::Hit => b"hit",
        Rule::Position => b"position",
        Rule::Move => b"move",
    }
}

// Puts the line about a mark that breaks a rule.
fn put_unlawful(line: u64, rule: Rule, out: &mut Out)
    requires { length out.old.text + 100 ≤ out.old.room }
    ensures { out.new ≡ with out.old (unlawful_line line rule) }
{
    put_number(b"unlawful at line ", line, out);
    out.put(b": ");
    out.put(rule_text(rule));
    out.put(b"\n");
}

// Puts the line about the orders that crossed.
fn put_count(crossings: u64, out: &mut Out)
    requires { length out.old.text + 40 ≤ out.old.room }
    ensures text { out.new ≡ with out.old (count_line crossings) }
    ensures short { length out.new.text ≤ length out.old.text + 40 }
{
    put_number(b"crossings: ", crossings, out);
    out.put(b"\n");
}

// Puts it if an order crossed.
fn put_crossings(crossings: u64, out: &mut Out)
    requires { length out.old.text + 40 ≤ out.old.room }
    ensures text { out.new ≡ with out.old (crossings_line crossings) }
    ensures short { length out.new.text ≤ length out.old.text + 40 }
{
    match crossings {
        0 => out.put(b""),
        _ => put_count(crossings, out),
    }
}

// Puts what comes before the last line.
fn put_sum(judge: &Judge, out: &mut Out)
    requires { length out.old.text + 170 ≤ out.old.room }
    ensures text { out.new ≡ with out.old (report_before_end judge.now) }
    ensures short { length out.new.text ≤ length out.old.text + 170 }
{
    put_search(judge.search(), out);
    put_crossings(judge.crossings(), out);
}

/// Puts what the judge found so far, and the line about a mark that breaks a rule.
pub(crate) fn put_refusal(judge: &Judge, line: u64, rule: Rule, out: &mut Out)
    requires { length out.old.text + LAST_LINES ≤ out.old.room }
    ensures { out.new ≡ with out.old (report_before_end judge.now ++ unlawful_line line rule) }
{
    put_sum(judge, out);
    put_unlawful(line, rule, out);
}

// Puts the line about a log in which no mark breaks a rule.
fn put_none_broken(out: &mut Out)
    requires { length out.old.text + 100 ≤ out.old.room }
    ensures { out.new ≡ with out.old lawful_line }
{
    out.put(b"lawful talk\n");
}

/// Puts what the judge found, and the line about a log in which no mark breaks a rule.
pub(crate) fn put_lawful(judge: &Judge, out: &mut Out)
    requires { length out.old.text + LAST_LINES ≤ out.old.room }
    ensures { out.new ≡ with out.old (report_before_end judge.now ++ lawful_line) }
{
    put_sum(judge, out);
    put_none_broken(out);
}
