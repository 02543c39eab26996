// The calls that no worked session makes.
use crate::expected::{expect_bytes, expect_true};
use engine_revival::{
    EVENT_ROOM, Revival, RevivalOrder, RevivalStep, lines_up_are_waited_for, lives_are_in_order,
    living_engines_are_heard, no_life_idles, own_orders_are_taken, put_marks, read_order,
    ready_is_answered, searches_are_given, talk_is_lawful,
};
use line_io::{Event, Out};
use protocol_tokens::GoKind;
use std::alloc::Global;
use std::process::Abort;

fn is_ponder(line: &[u8]) -> bool {
    matches!(
        read_order(line),
        Some(RevivalOrder::Go {
            kind: GoKind::Ponder,
            line: _
        })
    )
}

fn is_button(line: &[u8]) -> bool {
    matches!(
        read_order(line),
        Some(RevivalOrder::Button { name: _, line: _ })
    )
}

// The marks of an event.
fn expect_marks(rt: &impl Abort, alloc: Global) {
    let mut text = Out::make(alloc, EVENT_ROOM).expect(rt, "memory for the marks");
    let both = RevivalStep {
        up: b"uciok\n",
        child: b"isready\n",
    };
    put_marks(&Event::Engine(b"uciok"), both, &mut text);
    let marks = b"u uciok\nX uciok\nU isready\n".as_slice();
    expect_bytes(rt, "marks", text.bytes(), marks);
}

// An event that is played.
fn expect_event(rt: &impl Abort, alloc: Global, revival: &mut Revival) {
    let mut text = Out::make(alloc, EVENT_ROOM).expect(rt, "memory for the marks");
    let event = Event::EngineLong;
    expect_true(rt, "may happen", revival.may_happen(&event));
    revival.play(&event, &mut text);
    expect_bytes(rt, "an event", text.bytes(), b"u!\n");
}

fn expect_played(rt: &impl Abort, alloc: Global) {
    let mut revival = Revival::make(alloc, 1).expect(rt, "memory for the revival");
    expect_event(rt, alloc, &mut revival);
}

#[test]
fn calls_that_no_session_makes(rt: HostRuntime) {
    lives_are_in_order();
    lines_up_are_waited_for();
    living_engines_are_heard();
    no_life_idles();
    own_orders_are_taken();
    searches_are_given();
    ready_is_answered();
    talk_is_lawful();
    expect_true(&rt, "ponder", is_ponder(b"go depth 3 ponder"));
    expect_true(&rt, "button", is_button(b"setoption name  Clear Hash"));
    expect_true(&rt, "no name", read_order(b"setoption name").is_none());
    expect_marks(&rt, rt.alloc());
    expect_played(&rt, rt.alloc());
}
