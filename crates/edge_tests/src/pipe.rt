// Lines on their way through the channel.
ghost use Rattle.std.specs.Prelude.{◌≡◌, []};
ghost use Rattle.event_pipe.specs.Ends.{IsSender, IsReceiver, KeepsSender, KeepsReceiver, messages_sent};

use crate::expected::{expect, source_of};
use event_pipe::{Pipe, PipeSend, PipeTake, ReadEnd, read_pipe};
use line_io::{Event, ReadFault};
use std::alloc::Global;
use std::process::Abort;
use std::sync::Wait;

/// The text of a side: so many letters, and then these bytes, all in pieces; the reads that fail,
/// and how its reader ends.
#[derive(Clone, Copy)]
struct Given {
    letters: usize,
    bytes: &'static [u8],
    piece: usize,
    fails: &'static [u64],
    end: ReadEnd,
}

const NOTHING: Given = Given {
    letters: 0,
    bytes: b"",
    piece: 9,
    fails: &[],
    end: ReadEnd::Done,
};

/// The texts of the engine and of the interface, and the events of both, of which those of the interface
/// come first.
type Row = (Given, Given, &'static [Event<'static>]);

const ROWS: [Row; 3] = [
    // nothing comes after `quit`
    (
        Given {
            bytes: b"uciok\nbest",
            piece: 100,
            ..NOTHING
        },
        Given {
            bytes: b"ping 1\nquit\nping 2\n",
            piece: 3,
            ..NOTHING
        },
        &[
            Event::Iface(b"ping 1"),
            Event::Iface(b"quit"),
            Event::Engine(b"uciok"),
            Event::Engine(b"best"),
            Event::EngineEnd,
        ],
    ),
    // the line that was not read to its end is not sent
    (
        NOTHING,
        Given {
            bytes: b"xboard\nnew\n",
            fails: &[2],
            end: ReadEnd::Fault(ReadFault),
            ..NOTHING
        },
        &[Event::Iface(b"xboard"), Event::IfaceEnd, Event::EngineEnd],
    ),
    // a line of 65,537 bytes, and an empty one
    (
        Given {
            letters: 65_537,
            bytes: b"\n\n",
            piece: 5_000,
            ..NOTHING
        },
        NOTHING,
        &[
            Event::IfaceEnd,
            Event::EngineLong,
            Event::Engine(b""),
            Event::EngineEnd,
        ],
    ),
];

/// Sends the lines that a side gives.
fn send(rt: &(impl Abort + Wait), alloc: Global, given: &Given, to: &mut PipeSend)
    requires sender { IsSender to.old }
    requires fresh { messages_sent to.old ≡ [] }
    ensures { KeepsSender to.old to.new }
{
    let letters = (b'a', given.letters);
    let mut source = source_of(rt, alloc, letters, given.bytes, given.piece, given.fails);
    let end = read_pipe(rt, alloc, &mut source, to);
    expect(rt, end == given.end, "end", given.piece);
}

/// Takes the next events, and compares them.
fn take_all(rt: &(impl Abort + Wait), receiving_end: &mut PipeTake, events: &[Event], row: usize)
    requires { IsReceiver receiving_end.old }
    ensures { KeepsReceiver receiving_end.old receiving_end.new }
{
    for event in events {
        let sent = receiving_end.take(rt);
        expect(rt, sent.event() == *event, "row", row);
    }
}

fn expect_row(rt: &(impl Abort + Wait), alloc: Global, row: &Row, number: usize) {
    let (engine, iface, events) = row;
    let (mut input, mut child, mut receiving_end) = Pipe::make(alloc).expect(rt, "a channel");
    send(rt, alloc, iface, &mut input);
    send(rt, alloc, engine, &mut child);
    take_all(rt, &mut receiving_end, events, number);
    Pipe::finish(input, child, receiving_end);
}

#[test]
fn lines_arrive_in_order(rt: HostRuntime) {
    for (number, row) in ROWS.iter().enumerate() {
        expect_row(&rt, rt.alloc(), row, number);
    }
}
