// The program over a host in memory.
use crate::expected::{expect_bytes, expect_true};
use crate::programs::Program;
use crate::runs::{Peers, WholeLog, expect_log, expect_runs};
use crate::streams::sink;
use paced_host::DueText;
use std::alloc::Global;
use std::process::Abort;
use tap_runner::{logs_are_whole, refuse_for_memory};

// The bridge in pieces of five, at once. The engine waits for nothing.
const AT_ONCE: Peers = Peers {
    program: Program::Tap,
    iface: &[
        DueText {
            lines: 0,
            text: b"uci\ni",
        },
        DueText {
            lines: 0,
            text: b"sread",
        },
        DueText {
            lines: 0,
            text: b"y\nqui",
        },
        DueText {
            lines: 0,
            text: b"t\n",
        },
    ],
    engine: b"id name Toy\nuciok\nready",
    piece: 5,
    reads: &[],
};

// The last text of the bridge is its end.
const PACED: Peers = Peers {
    program: Program::Tap,
    iface: &[
        DueText {
            lines: 0,
            text: b"uci\n",
        },
        DueText {
            lines: 2,
            text: b"quit\n",
        },
        DueText {
            lines: 3,
            text: b"",
        },
    ],
    engine: b"uciok\n",
    piece: 100,
    reads: &[1, 4],
};

const ROWS: &str = "\
    bytes are handed on|t.log,engine||0|id name Toy\nuciok\nready|;\
    no engine is named|t.log||2||tap: usage\n;\
    the start fails|t.log,engine|start|8||tap: engine start failed\n;\
    the log is not opened|t.log,engine|log|9|id name Toy\nuciok\nready|tap: log failed\n;\
    a read fails|t.log,engine|read|6||tap: engine reading failed\n;\
    a write fails|t.log,engine|write|7|id name Toy\nuciok\nready|tap: engine writing failed\n";

const SESSION: &str = "a whole session has one log|t.log,engine,-x y||0|uciok\n|";

const LOG: WholeLog = WholeLog {
    name: "t.log",
    engines: 1,
    text: b"U uci\nu uciok\nU quit\nx.\nu.\n",
};

fn expect_refusal_for_memory(rt: &impl Abort, alloc: Global) {
    let mut diag = sink(rt, alloc, 1_000, &[]);
    let status = refuse_for_memory(&mut diag);
    let name = "no memory for words";
    expect_true(rt, name, status.code == 3);
    expect_bytes(rt, name, diag.taken(), b"tap: no memory\n");
}

#[test]
fn each_run_answers_and_writes(rt: HostRuntime) {
    logs_are_whole();
    expect_runs(&rt, rt.alloc(), &AT_ONCE, ROWS);
    expect_log(&rt, rt.alloc(), &PACED, SESSION, &LOG);
    expect_refusal_for_memory(&rt, rt.alloc());
}
