// Runs of a session of a ping and `quit`, and arguments that ask for one or are refused.
use crate::expected::{expect, expect_bytes};
use crate::program::{BridgeRun, Counts, Given, run_bridge};
use bridge_runner::refuse_for_memory;
use child_engine::Fails;
use line_io::MemSink;
use paced_host::DueText;
use std::alloc::Global;
use std::process::Abort;
use std::sync::Wait;
use std::thread::Threads;

pub const ENGINE: &[u8] = b"uciok\nreadyok\n";

/// An interface that asks for an answer and quits, in pieces of five bytes as its engine.
pub const PING: Given = Given {
    arguments: "toy",
    awaits_answers: false,
    iface: &[
        DueText {
            lines: 0,
            text: b"ping ",
        },
        DueText {
            lines: 0,
            text: b"3\nqui",
        },
        DueText {
            lines: 0,
            text: b"t\n",
        },
    ],
    engine: ENGINE,
    piece: 5,
    engine_ends: &[],
    diag_fails: &[],
};

const PONG: &[u8] = b"pong 3\n";

const PONG_AND_END: &[u8] = b"pong 3\ntellusererror Engine ended\n";

const END_AND_PONG: &[u8] = b"tellusererror Engine ended\npong 3\n";

/// True if the ping was answered. The end of the engine is reported if it came before `quit`.
pub fn is_answered(run: &BridgeRun) -> bool {
    let output = run.output.sink.taken();
    output == PONG || output == PONG_AND_END || output == END_AND_PONG
}

/// Words that the program refuses, with nothing written but the diagnostic.
const REFUSED: &[&str] = &[
    "",
    "--ResignMoves|1001|toy",
    "--Resign|maybe|toy",
    "--help",
    "toy|-c",
];

/// Words that it takes.
const TAKEN: &[&str] = &[
    "toy",
    "--Resign|true|--ResignMoves=1000|--ResignScore|0|toy",
    "--ShowPonder=false|--LogFile|a.log|toy|a|b",
    "toy|--|-c|--x",
];

// Runs the program with these arguments, and compares its status and its diagnostic. With the status 0
// the ping is answered, and with another nothing is written.
fn expect_arguments<R: Threads + Wait + Sync + Abort>(
    rt: &R,
    alloc: Global,
    arguments: &'static str,
    code: u8,
    diag: &[u8],
) {
    let counts = Counts::new();
    let given = Given { arguments, ..PING };
    let run = run_bridge(rt, alloc, &given, &Fails::default(), &counts);
    let is_wanted = if code == 0 {
        is_answered(&run)
    } else {
        run.output.sink.taken().is_empty()
    };
    expect(
        rt,
        run.code == code && is_wanted,
        arguments,
        usize::from(code),
    );
    expect_bytes(rt, run.diag.taken(), diag);
}

fn expect_each<R: Threads + Wait + Sync + Abort>(
    rt: &R,
    alloc: Global,
    texts: &[&'static str],
    code: u8,
    diag: &[u8],
) {
    for arguments in texts {
        expect_arguments(rt, alloc, *arguments, code, diag);
    }
}

#[test]
fn arguments_are_refused_or_taken(rt: HostRuntime) {
    expect_each(&rt, rt.alloc(), REFUSED, 2, b"bridge: usage\n");
    expect_each(&rt, rt.alloc(), TAKEN, 0, b"");
}

#[test]
fn no_memory_is_reported(rt: HostRuntime) {
    let mut diag = MemSink::make(rt.alloc(), 100, &[]).expect(&rt, "memory for the diagnostic");
    assert_eq!(rt; refuse_for_memory(&mut diag).code, 3);
    expect_bytes(&rt, diag.taken(), b"bridge: no memory\n");
}
