// The numbers of a `go` order, and the lines that set the engine's clocks.
ghost use Rattle.std.specs.Prelude.{◌≡◌, ◌+◌, ◌/◌, ◌≤◌, ◌∷◌, [], length};
ghost use Rattle.line_io.specs.Out.{with};
ghost use Rattle.protocol_tokens.specs.Tokens.{tokens};
ghost use Rattle.driver_state_machine.specs.Clocks.{go_field_named, first_number, clocks_after_word, clocks_from, clocks_in, no_clocks};
ghost use Rattle.driver_state_machine.specs.Clocks.{capped, seconds_up, clock_lines, control_lines, depth_lines};
ghost use Rattle.driver_state_machine.specs.Clocks.{mine, theirs, increment};
ghost use Rattle.driver_state_machine.specs.Lines.{Level, Time, Otim, driver_line_text, lines_text, level_text};
ghost use Rattle.protocol_tokens.specs.Bytes.{digit_zero};
ghost use Rattle.protocol_tokens.specs.declared.numbers.TheConstants.{SECOND};

use crate::GoClocks;
use crate::down::{put_count, write_numbered};
use crate::numbers::natural;
use chess_board::Side;
use line_io::Out;
use protocol_tokens::{SECOND, named, next_token, read_signed};

/// The longest time that is written, in milliseconds.
const LONGEST: u64 = 599_999_000;

/// The largest number of moves to a time control, of seconds, and of plies.
const MOST_MOVES: u64 = 9_999;

const MOST_SECONDS: u64 = 999_999;

const MOST_PLIES: u64 = 999_999_999;

/// The words of a `go` order with numbers after them.
#[derive(Clone, Copy)]
pub(crate) enum GoField {
    WhiteTime,
    BlackTime,
    WhiteIncrement,
    BlackIncrement,
    MoveTime,
    MovesToGo,
    Depth,
    Other,
}

static GO_FIELDS: [(&[u8], GoField); 7] = [
    (b"wtime", GoField::WhiteTime),
    (b"btime", GoField::BlackTime),
    (b"winc", GoField::WhiteIncrement),
    (b"binc", GoField::BlackIncrement),
    (b"movetime", GoField::MoveTime),
    (b"movestogo", GoField::MovesToGo),
    (b"depth", GoField::Depth),
];

fn field_named(word: &[u8]) -> GoField
    ensures { result ≡ go_field_named word.now }
{
    named(&GO_FIELDS, word).unwrap_or(GoField::Other)
}

/// The number that a text begins with. A negative number counts as 0.
fn first_number(text: &[u8]) -> Option<u64>
    ensures { result ≡ first_number (tokens text.now) }
{
    Some(natural(read_signed(next_token(text)?.0)?))
}

/// The clocks read before, and the number after a word.
fn hear(field: GoField, clocks: GoClocks, text: &[u8]) -> GoClocks
    ensures { result ≡ clocks_after_word field clocks (tokens text.now) }
{
    let Some(n) = first_number(text) else {
        return clocks;
    };
    match field {
        GoField::WhiteTime => GoClocks { wtime: n, ..clocks },
        GoField::BlackTime => GoClocks { btime: n, ..clocks },
        GoField::WhiteIncrement => GoClocks { winc: n, ..clocks },
        GoField::BlackIncrement => GoClocks { binc: n, ..clocks },
        GoField::MoveTime => GoClocks {
            movetime: Some(n),
            ..clocks
        },
        GoField::MovesToGo => GoClocks {
            movestogo: n,
            ..clocks
        },
        GoField::Depth => GoClocks { depth: n, ..clocks },
        GoField::Other => clocks,
    }
}

/// The numbers of a `go` order (UCI, "go"): the last one after each word counts, and a negative one is 0. Other
/// tokens are ignored.
#[tactic(auto, unfolding(crate::specs::Clocks::clocks_in))]
pub fn read_clocks(line: &[u8]) -> GoClocks
    ensures { result ≡ clocks_in line.now }
{
    let mut clocks = GoClocks {
        wtime: LONGEST,
        btime: LONGEST,
        winc: 0,
        binc: 0,
        movetime: None,
        movestogo: 0,
        depth: 0,
    };
    let mut others = line;
    while let Some((word, after)) = next_token(others) {
        clocks = hear(field_named(word), clocks, after);
        others = after;
    }
    clocks
}

fn capped(time: u64) -> u64
    ensures value { result ≡ capped time }
    ensures most { result ≤ LONGEST }
{
    time.min(LONGEST)
}

/// Milliseconds as seconds, rounded up.
fn seconds_up(time: u64) -> u64
    ensures value { result ≡ seconds_up time }
{
    if time % SECOND == 0 {
        time / SECOND
    } else {
        time / SECOND + 1
    }
}

/// The ASCII digit of a number below 10.
fn digit(n: u64) -> u8
    requires { n < 10 }
    ensures { result ≡ digit_zero + n }
{
    b'0' + n as u8
}

ghost use Rattle.std.specs.Prelude.{◌<◌};

/// `level`: moves to the next time control, minutes and seconds, and the increment in seconds.
fn write_level(moves: u64, seconds: u64, increment: u64, out: &mut Out)
    requires room { length out.old.text + 72 ≤ out.old.room }
    ensures text { out.new ≡ with out.old (level_text moves seconds increment) }
    ensures short { length out.new.text ≤ length out.old.text + 72 }
{
    let rest = seconds % 60;
    out.put(b"level ");
    put_count(moves, out);
    out.put(b" ");
    put_count(seconds / 60, out);
    out.put(&[b':', digit(rest / 10), digit(rest % 10), b' ']);
    put_count(increment, out);
    out.put(b"\n");
}

fn mine(side: Side, clocks: &GoClocks) -> u64
    ensures { result ≡ mine side clocks.now }
{
    match side {
        Side::White => clocks.wtime,
        Side::Black => clocks.btime,
    }
}

fn theirs(side: Side, clocks: &GoClocks) -> u64
    ensures { result ≡ theirs side clocks.now }
{
    match side {
        Side::White => clocks.btime,
        Side::Black => clocks.wtime,
    }
}

fn increment(side: Side, clocks: &GoClocks) -> u64
    ensures { result ≡ increment side clocks.now }
{
    match side {
        Side::White => clocks.winc,
        Side::Black => clocks.binc,
    }
}

fn write_time(time: u64, out: &mut Out)
    requires room { length out.old.text + 26 ≤ out.old.room }
    ensures text { out.new ≡ with out.old (driver_line_text (Time (time / 10))) }
    ensures short { length out.new.text ≤ length out.old.text + 26 }
{
    write_numbered(b"time ", time / 10, out);
}

fn write_otim(time: u64, out: &mut Out)
    requires room { length out.old.text + 26 ≤ out.old.room }
    ensures text { out.new ≡ with out.old (driver_line_text (Otim (time / 10))) }
    ensures short { length out.new.text ≤ length out.old.text + 26 }
{
    write_numbered(b"otim ", time / 10, out);
}

/// The moves and the increment of a time control, and the clocks of the mover and of the other player.
fn put_times(moves: u64, own: u64, other: u64, increment: u64, out: &mut Out)
    requires room { length out.old.text + 124 ≤ out.old.room }
    ensures text { out.new
        ≡ with out.old (lines_text (Level moves (own / SECOND) increment
        ∷ Time (own / 10) ∷ Otim (other / 10) ∷ [])) }
    ensures short { length out.new.text ≤ length out.old.text + 124 }
{
    write_level(moves, own / SECOND, increment, out);
    write_time(own, out);
    write_otim(other, out);
}

/// The clocks of the mover and of the other player, in hundredths of a second.
fn write_times(side: Side, clocks: &GoClocks, out: &mut Out)
    requires room { length out.old.text + 124 ≤ out.old.room }
    ensures text { out.new ≡ with out.old (lines_text (control_lines side clocks.now None)) }
    ensures short { length out.new.text ≤ length out.old.text + 124 }
{
    put_times(
        clocks.movestogo.min(MOST_MOVES),
        capped(mine(side, clocks)),
        capped(theirs(side, clocks)),
        (increment(side, clocks) / SECOND).min(MOST_SECONDS),
        out,
    );
}

ghost use Rattle.std.specs.Prelude.{None};

fn write_control(side: Side, clocks: &GoClocks, out: &mut Out)
    requires room { length out.old.text + 160 ≤ out.old.room }
    ensures text { out.new
        ≡ with out.old (lines_text (control_lines side clocks.now clocks.now.movetime)) }
    ensures short { length out.new.text ≤ length out.old.text + 160 }
{
    match clocks.movetime {
        Some(time) => write_numbered(b"st ", seconds_up(time).min(MOST_SECONDS), out),
        None => write_times(side, clocks, out),
    }
}

fn write_depth(depth: u64, out: &mut Out)
    requires room { length out.old.text + 40 ≤ out.old.room }
    ensures text { out.new ≡ with out.old (lines_text (depth_lines depth)) }
    ensures short { length out.new.text ≤ length out.old.text + 40 }
{
    if depth != 0 {
        write_numbered(b"sd ", depth.min(MOST_PLIES), out);
    }
}

/// Writes the lines that set the clocks of an engine that plays a side.
pub fn write_clocks(side: Side, clocks: &GoClocks, out: &mut Out)
    requires room { length out.old.text + 200 ≤ out.old.room }
    ensures text { out.new ≡ with out.old (lines_text (clock_lines side clocks.now)) }
    ensures short { length out.new.text ≤ length out.old.text + 200 }
{
    write_control(side, clocks, out);
    write_depth(clocks.depth, out);
}
