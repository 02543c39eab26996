// Worked sessions: what comes, the lines up, and the lines to the engine.
ghost use Rattle.std.specs.Prelude.{◌≡◌, ◌≤◌, length, true, false};
ghost use Rattle.line_io.specs.Event.{has_feed};
ghost use Rattle.line_io.specs.declared.limits.TheConstants.{PEER_LINE};

use crate::expected::expect_true;
use crate::rows::three_of;
use engine_revival::{MOST_LINE, Revival, RevivalStep};
use std::alloc::Global;
use std::process::Abort;

fn is_line(line: &[u8]) -> bool
    ensures yes { result ≡ true → length line.now ≤ PEER_LINE }
    ensures no_feed { result ≡ true → has_feed line.now ≡ false }
{
    line.len() <= MOST_LINE && !line.contains(&b'\n')
}

// The output of an order, if it may come.
fn order<'a>(revival: &'a mut Revival, line: &[u8]) -> Option<RevivalStep<'a>> {
    if revival.awaits_next() || !is_line(line) {
        return None;
    }
    Some(revival.order(line))
}

fn heard<'a>(revival: &'a mut Revival, line: &[u8]) -> Option<RevivalStep<'a>> {
    if !revival.is_alive() || line.len() > MOST_LINE {
        return None;
    }
    Some(revival.heard(line))
}

// The output of the end of the life, if another one follows just if one is wanted.
fn ended(revival: &mut Revival, next: bool) -> Option<RevivalStep<'_>> {
    if !revival.is_alive() {
        return None;
    }
    match (revival.ended(), next) {
        (true, true) => Some(revival.begin()),
        (false, false) => Some(revival.over()),
        _ => None,
    }
}

// The output of this, if it may come.
fn answer<'a>(revival: &'a mut Revival, comes: &[u8]) -> Option<RevivalStep<'a>> {
    match comes {
        [b'x', b' ', line @ ..] => order(revival, line),
        [b'u', b' ', line @ ..] => heard(revival, line),
        b"u!" => ended(revival, true),
        b"u." => ended(revival, false),
        _ => None,
    }
}

// True if what comes gives these lines up, and these to the engine. An order comes after `x`, a
// line of the engine after `u`; at `u!` the life ends and another one begins, and at `u.` it ends
// and none follows.
fn gives(revival: &mut Revival, comes: &str, up: &str, child: &str) -> bool {
    match answer(revival, comes.as_bytes()) {
        Some(both) => both.up == up.as_bytes() && both.child == child.as_bytes(),
        None => false,
    }
}

// Each row: what comes, the lines up, and the lines to the engine. There is room for all of them.
fn expect_given(rt: &impl Abort, revival: &mut Revival, rows: &str) {
    for row in rows.split(';') {
        let (comes, up, child) = three_of(row);
        expect_true(rt, row, gives(revival, comes, up, child));
    }
    expect_true(rt, rows, !revival.full());
}

fn expect_session(rt: &impl Abort, alloc: Global, lives: u32, rows: &str) {
    let mut revival = Revival::make(alloc, lives).expect(rt, "memory for the revival");
    expect_given(rt, &mut revival, rows);
}

const SECOND_LIFE: &str = "\
    x uci||uci\n;\
    u uciok|uciok\n|;\
    x setoption name Hash value 8||;\
    x isready||setoption name Hash value 8\nisready\n;\
    u readyok|readyok\n|;\
    x position startpos||;\
    x go infinite||position startpos\ngo infinite\n;\
    u!||uci\n;\
    u uciok||setoption name Hash value 8\nposition startpos\ngo infinite\n;\
    u.||;\
    x stop|bestmove 0000\n|";

const NO_LIFE: &str = "\
    x uci||uci\n;\
    u.|uciok\n|;\
    x isready|readyok\n|";

// `isready` between a `position`, another one and `go`, and in the search in which a life ends.
const READY: &str = "\
    x uci||uci\n;\
    x isready||;\
    u uciok|uciok\n|isready\n;\
    u readyok|readyok\n|;\
    x position startpos||;\
    x isready||isready\n;\
    u readyok|readyok\n|;\
    x position startpos moves e2e4||;\
    x go infinite||position startpos moves e2e4\ngo infinite\n;\
    x isready||isready\n;\
    u!||uci\n;\
    x isready||;\
    u uciok||isready\nisready\nposition startpos moves e2e4\ngo infinite\n;\
    u readyok|readyok\n|;\
    x stop||stop\n;\
    u.|readyok\nbestmove 0000\n|;\
    x isready|readyok\n|";

const ONE_NAME: &str = "\
    x \tuci ||uci\n;\
    u uciok|uciok\n|;\
    x setoption   name  Skill   Level value 3||;\
    x setoption name\tskill level  value  5 ||;\
    x setoption name Path value /tb||;\
    x setoption name PATH value||;\
    x setoption name Clear  Hash||;\
    x isready ||setoption name\tskill level  value  5\nsetoption name PATH value\n\
    setoption name Clear  Hash\nisready\n;\
    u readyok|readyok\n|;\
    u!||uci\n;\
    u uciok||";

const NO_ORDERS: &str = "\
    x uci now||;\
    x uci||uci\n;\
    u uciok|uciok\n|;\
    x setoption Hash value 3||;\
    x setoption name||;\
    x go||;\
    x position  startpos moves e2e5||;\
    x position startpos e2e4||;\
    x isready please||;\
    x isready||isready\n;\
    x quit  now||quit\n";

#[test]
fn sessions(rt: HostRuntime) {
    expect_session(&rt, rt.alloc(), 2, SECOND_LIFE);
    expect_session(&rt, rt.alloc(), 1, NO_LIFE);
    expect_session(&rt, rt.alloc(), 2, READY);
    expect_session(&rt, rt.alloc(), 2, ONE_NAME);
    expect_session(&rt, rt.alloc(), 1, NO_ORDERS);
}

/// A `position` and a `go` as interfaces spell them, with white space at their ends, and both
/// without it.
const SEARCHES: &str = "\
    x position startpos moves e2e4 e7e5|x go wtime 60000 winc 1000 btime 59000 binc 1000\
    |position startpos moves e2e4 e7e5\ngo wtime 60000 winc 1000 btime 59000 binc 1000\n;\
    x position startpos|x go btime 0 wtime 0|position startpos\ngo btime 0 wtime 0\n;\
    x position startpos|x go depth 3|position startpos\ngo depth 3\n;\
    x position startpos moves d2d4|x go nodes 1000|position startpos moves d2d4\n\
    go nodes 1000\n;\
    x position startpos|x go|position startpos\ngo\n;\
    x  position startpos |x go \tmovetime  100\r|position startpos\ngo \tmovetime  100\n;\
    x position fen rnbqkbnr/pppppppp/8/8/4P3/8/PPPP1PPP/RNBQKBNR b KQkq e3 0 1\
    |x go movetime 100\
    |position fen rnbqkbnr/pppppppp/8/8/4P3/8/PPPP1PPP/RNBQKBNR b KQkq e3 0 1\n\
    go movetime 100\n;\
    x position   fen  4k3/8/8/8/8/8/4P3/4K3 w - - moves|x go wtime 60000 btime 60000\
    |position   fen  4k3/8/8/8/8/8/4P3/4K3 w - - moves\ngo wtime 60000 btime 60000\n;\
    x position startpos moves e2e5|x go infinite|position startpos moves e2e5\ngo infinite\n";

// A life is killed in mid-search: the next one gets the orders as they came, and its move is given
// up.
fn expect_search(rt: &impl Abort, alloc: Global, row: &str) {
    let (position, go, both) = three_of(row);
    let rows = format!(in alloc;
        "\
        x uci||uci\n;\
        u uciok|uciok\n|;\
        {position}||;\
        {go}||{both};\
        u!||uci\n;\
        u uciok||{both};\
        u bestmove e2e4|bestmove e2e4\n|"
    )
    .expect(rt, "memory for a session");
    expect_session(rt, alloc, 2, rows.as_str());
}

#[test]
fn searches_of_any_interface_go_on(rt: HostRuntime) {
    for row in SEARCHES.split(';') {
        expect_search(&rt, rt.alloc(), row);
    }
}
