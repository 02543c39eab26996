// Sessions, call by call: what each passes up to the interface, and to the engine.
ghost use Rattle.std.specs.Prelude.{◌≡◌, false};
ghost use Rattle.line_io.specs.Event.{has_feed};

use crate::expected::{expect_bytes, expect_true};
use crate::rows::three_of;
use cecp_driver::{
    Driver, DriverStep, EVENT_ROOM, LINE_LIMIT, put_marks, runs_are_sound, scripts_are_one,
    searches_are_on_the_ordered_game,
};
use driver_state_machine::moves_are_asked_for_once;
use judge_and_driver_laws::{engines_hear_the_ordered, lines_are_cecp};
use line_io::{Event, Out};
use std::alloc::Global;
use std::process::Abort;

fn gives(both: DriverStep, up: &str, child: &str) -> bool {
    both.up == up.as_bytes() && both.child == child.as_bytes()
}

/// True if a line with its mark, `x` of an order and `u` of a line of the engine, or `u.` of its
/// end, gives these lines up to the interface, and these to the engine.
fn plays_row(driver: &mut Driver, row: &str) -> bool {
    let (marked, up, child) = three_of(row);
    match marked.as_bytes() {
        [b'x', b' ', line @ ..] => line.len() <= LINE_LIMIT && gives(driver.order(line), up, child),
        [b'u', b' ', line @ ..] => line.len() <= LINE_LIMIT && gives(driver.heard(line), up, child),
        b"u." => gives(driver.ended(), up, child),
        _ => false,
    }
}

fn expect_played(rt: &impl Abort, driver: &mut Driver, rows: &str) {
    for row in rows.split(';') {
        expect_true(rt, row, plays_row(driver, row));
    }
}

// The beginning of each session.
const OPENING: &str = "\
    x uci||xboard\nprotover 2\n;\
    u feature ping=1 setboard=1 usermove=1 analyze=1 myname=\"Old\" done=1\
    |id name Old\nuciok\n\
    |accepted ping\naccepted setboard\naccepted usermove\naccepted analyze\naccepted myname\n\
    accepted done\n";

// A game in which the engine resigns, and a search that waits for its `pong`.
const A_GAME: &str = "\
    x position startpos moves e2e4||;\
    x go movetime 1500||new\nforce\npost\nusermove e2e4\nst 2\ngo\n;\
    u move e7e5|bestmove e7e5\n|;\
    x position startpos moves e2e4 e7e5 g1f3||;\
    x go movetime 1500||force\nusermove g1f3\nst 2\ngo\n;\
    u resign|bestmove 0000\n|force\nping 1\n;\
    x go depth 4||;\
    x stop||;\
    u pong 1||new\nforce\npost\nusermove e2e4\nusermove e7e5\nusermove g1f3\n\
    level 0 9999:59 0\ntime 59999900\notim 59999900\nsd 4\ngo\n?\n;\
    u.|bestmove 0000\n|";

// An analysis that the interface stops.
const AN_ANALYSIS: &str = "\
    x position startpos||;\
    x go infinite||new\nforce\npost\nanalyze\n;\
    u 9 25 100 5000 e4 e5|info depth 9 score cp 25 time 1000 nodes 5000 pv e2e4\n|;\
    x stop||exit\nping 1\n;\
    u 10 +30 120 6000 d4||;\
    u pong 1|bestmove e2e4\n|;\
    x quit||quit\n";

// Thinking lines with long moves, and two that report nothing: one of statistics, and one whose
// move is not legal.
const THINKING_LINES: &str = "\
    x position startpos moves e2e4 a7a6 d2d4 h7h6||;\
    x go infinite||new\nforce\npost\nusermove e2e4\nusermove a7a6\nusermove d2d4\n\
    usermove h7h6\nanalyze\n;\
    u stat01: 0 1014 3 37 38 g1f3||;\
    u   3    208     0     1628  Ng1-f3  Ng8-f6  Nb1-c3  \
    |info depth 3 score cp 208 time 0 nodes 1628 pv g1f3\n|;\
    u   9    154    32   143184  Nb1-c3  e7-e6  Ng1-f3  Ng8-f6  Bc1-f4\
    |info depth 9 score cp 154 time 320 nodes 143184 pv b1c3\n|;\
    u 10 150 51 232645 Nb8-c6||;\
    x stop||exit\nping 1\n;\
    u pong 1|bestmove b1c3\n|";

fn expect_session(rt: &impl Abort, alloc: Global, rows: &str) {
    let mut driver = Driver::make(alloc).expect(rt, "memory for the driver");
    expect_played(rt, &mut driver, OPENING);
    expect_played(rt, &mut driver, rows);
}

#[test]
fn sessions_are_played(rt: HostRuntime) {
    expect_session(&rt, rt.alloc(), A_GAME);
    expect_session(&rt, rt.alloc(), AN_ANALYSIS);
    expect_session(&rt, rt.alloc(), THINKING_LINES);
}

fn plays_line(driver: &mut Driver, line: &'static [u8], text: &mut Out) -> bool
    requires line { has_feed line.now ≡ false }
{
    let event = Event::Iface(line);
    if line.len() > LINE_LIMIT || !driver.may_come(&event) || text.spare() < EVENT_ROOM {
        return false;
    }
    driver.play(&event, text);
    true
}

fn takes_end(driver: &mut Driver) -> bool {
    let event = Event::EngineEnd;
    if !driver.may_come(&event) {
        return false;
    }
    driver.take(&event);
    true
}

// An order, the end of the engine, and an order after it.
fn expect_taken(rt: &impl Abort, driver: &mut Driver, text: &mut Out) {
    expect_true(rt, "uci", plays_line(driver, b"uci", text));
    let marks = b"x uci\nU xboard\nU protover 2\n".as_slice();
    expect_bytes(rt, "the marks of uci", text.bytes(), marks);
    expect_true(rt, "an end", takes_end(driver));
    expect_true(rt, "a second end", !takes_end(driver));
    expect_true(rt, "a long line", !driver.may_come(&Event::IfaceLong));
    expect_true(rt, "isready", plays_line(driver, b"isready", text));
    expect_bytes(rt, "the answer", driver.lines().up, b"readyok\n");
}

fn expect_events(rt: &impl Abort, alloc: Global) {
    let mut driver = Driver::make(alloc).expect(rt, "memory for the driver");
    let mut text = Out::make(alloc, 2 * EVENT_ROOM).expect(rt, "memory for the marks");
    expect_taken(rt, &mut driver, &mut text);
}

fn expect_marks(rt: &impl Abort, alloc: Global) {
    let mut text = Out::make(alloc, EVENT_ROOM).expect(rt, "memory for the marks");
    put_marks(&Event::EngineEnd, b"readyok\n", b"quit\n", &mut text);
    let marks = b"u.\nX readyok\nU quit\n".as_slice();
    expect_bytes(rt, "the marks of an end", text.bytes(), marks);
}

#[test]
fn events_are_played(rt: HostRuntime) {
    moves_are_asked_for_once();
    searches_are_on_the_ordered_game();
    runs_are_sound();
    scripts_are_one();
    lines_are_cecp();
    engines_hear_the_ordered();
    expect_events(&rt, rt.alloc());
    expect_marks(&rt, rt.alloc());
}
