// The mark of a line is sent to the log before its bytes are handed on, and the mark of an end
// before the sink is closed. A sink waits here until the log has the mark: were the mark sent after
// that, it would wait in vain, and say so in what it took.
use crate::expected::{expect_bytes, expect_true};
use crate::paced_sink::PacedSink;
use crate::tap::directions::{is_end, run_both};
use line_io::MemSink;
use paced_host::{DueText, PacedLog, PacedTexts};
use program_lifecycle::{HandedStreams, Interface};
use std::alloc::Global;
use std::process::Abort;
use std::sync::Wait;
use std::sync::atomic::AtomicU64;
use std::thread::Threads;

/// After how many lines of the log each call of the engine's input and of the output is due.
#[derive(Clone, Copy)]
struct Row {
    name: &'static str,
    engine: &'static [DueText],
    output: &'static [DueText],
}

const ROWS: [Row; 2] = [
    Row {
        name: "the engine's input waits for the log",
        engine: &[
            DueText {
                lines: 1,
                text: b"",
            },
            DueText {
                lines: 3,
                text: b"",
            },
        ],
        output: &[],
    },
    Row {
        name: "the output waits for the log",
        engine: &[],
        output: &[
            DueText {
                lines: 2,
                text: b"",
            },
            DueText {
                lines: 4,
                text: b"",
            },
        ],
    },
];

// By the lines of the log.
const BRIDGE: [DueText; 2] = [
    DueText {
        lines: 0,
        text: b"isready\n",
    },
    DueText {
        lines: 2,
        text: b"",
    },
];

// By the calls of its input that are over: it answers what it was given.
const ENGINE: [DueText; 2] = [
    DueText {
        lines: 1,
        text: b"readyok\n",
    },
    DueText {
        lines: 2,
        text: b"",
    },
];

const LOG: &[u8] = b"\
    U isready\n\
    u readyok\n\
    x.\n\
    u.\n";

/// The numbers of lines that the log took, and of calls of the engine's input and of the output that are
/// over.
#[derive(Drop)]
struct Counts {
    lines: AtomicU64,
    orders: AtomicU64,
    answers: AtomicU64,
}

type TapInterface<'a> = Interface<PacedTexts<'a>, PacedSink<'a>>;

type TapStreams<'a> = HandedStreams<PacedTexts<'a>, PacedSink<'a>, PacedLog<'a>>;

fn make_interface<'a>(alloc: Global, row: &Row, counts: &'a Counts) -> TapInterface<'a> {
    let dues = PacedTexts::new(&counts.lines, row.output);
    Interface {
        input: PacedTexts::new(&counts.lines, &BRIDGE),
        output: PacedSink::new(alloc, dues, &counts.answers, b""),
    }
}

fn make_streams<'a>(
    rt: &impl Abort,
    alloc: Global,
    row: &Row,
    counts: &'a Counts,
) -> TapStreams<'a> {
    let log = MemSink::make(alloc, 1_000, &[]).expect(rt, "memory for a log");
    let dues = PacedTexts::new(&counts.lines, row.engine);
    HandedStreams {
        source: PacedTexts::new(&counts.orders, &ENGINE),
        engine: PacedSink::new(alloc, dues, &counts.orders, b""),
        log: Some(PacedLog::new(log, &counts.lines)),
    }
}

// Runs both directions between these, and compares what each took.
fn expect_taken<R: Threads + Wait + Sync + Abort>(
    rt: &R,
    alloc: Global,
    name: &str,
    interface: &mut TapInterface,
    handed: &mut TapStreams,
) {
    let end = run_both(rt, alloc, interface, handed);
    expect_bytes(rt, name, handed.engine.bytes(), b"isready\n");
    expect_bytes(rt, name, interface.output.bytes(), b"readyok\n");
    match &handed.log {
        Some(log) => expect_bytes(rt, name, log.sink.taken(), LOG),
        None => expect_true(rt, name, false),
    }
    let is_done = is_end(&end.bridge, false) && is_end(&end.engine, false);
    expect_true(rt, name, is_done && !end.log_failed);
}

fn expect_order<R: Threads + Wait + Sync + Abort>(
    rt: &R,
    alloc: Global,
    row: &Row,
    counts: &Counts,
) {
    let mut interface = make_interface(alloc, row, counts);
    let mut handed = make_streams(rt, alloc, row, counts);
    expect_taken(rt, alloc, row.name, &mut interface, &mut handed);
}

#[test]
fn marks_come_before_their_bytes(rt: HostRuntime) {
    for row in &ROWS {
        let counts = Counts {
            lines: AtomicU64::new(0),
            orders: AtomicU64::new(0),
            answers: AtomicU64::new(0),
        };
        expect_order(&rt, rt.alloc(), row, &counts);
    }
}
