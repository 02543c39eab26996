// The program over a host in memory.
use crate::expected::{expect_bytes, expect_true};
use crate::programs::Program;
use crate::runs::{Peers, WholeLog, expect_log, expect_runs};
use crate::streams::{sink, words_of};
use paced_host::DueText;
use reviver_runner::{logs_are_whole, read_arguments, refuse_for_memory};
use std::alloc::Global;
use std::process::Abort;

// In pieces of five, at once.
const AT_ONCE: Peers = Peers {
    program: Program::Reviver,
    iface: &[
        DueText {
            lines: 0,
            text: b"uci\nq",
        },
        DueText {
            lines: 0,
            text: b"uit\n",
        },
    ],
    engine: b"uciok\n",
    piece: 5,
    reads: &[],
};

// Each life ends in the search.
const PACED: Peers = Peers {
    program: Program::Reviver,
    iface: &[
        DueText {
            lines: 0,
            text: b"uci\n",
        },
        DueText {
            lines: 4,
            text: b"position startpos\ngo infinite\n",
        },
        DueText {
            lines: 14,
            text: b"stop\n",
        },
        DueText {
            lines: 16,
            text: b"quit\n",
        },
    ],
    engine: b"uciok\n",
    piece: 100,
    reads: &[2, 8],
};

// The last one: nine lives, no log, and an engine with one argument.
const ROWS: &str = "\
    no words|||2|*|reviver: usage\n;\
    no engine|2,a.log||2|*|reviver: usage\n;\
    no life|0,a.log,toy||2|*|reviver: usage\n;\
    two digits|10,a.log,toy||2|*|reviver: usage\n;\
    no digit|two,a.log,toy||2|*|reviver: usage\n;\
    an empty word|,a.log,toy||2|*|reviver: usage\n;\
    a word that is no text|1,a.log,\\xff||2|*|reviver: usage\n;\
    words that are taken|9,-,toy,--deep||0|*|";

const SESSION: &str = "a whole session has one log|2,r.log,engine,-x y||0|*|";

const LOG: WholeLog = WholeLog {
    name: "r.log",
    engines: 2,
    text: b"\
        x uci\n\
        U uci\n\
        u uciok\n\
        X uciok\n\
        x position startpos\n\
        x go infinite\n\
        U position startpos\n\
        U go infinite\n\
        u!\n\
        U uci\n\
        u uciok\n\
        U position startpos\n\
        U go infinite\n\
        u!\n\
        x stop\n\
        X bestmove 0000\n\
        x quit\n",
};

// True if the arguments that are taken are read as what they ask for.
fn are_read(rt: &impl Abort, alloc: Global) -> bool {
    let arguments = words_of(rt, alloc, "9,-,toy,--deep");
    match read_arguments(alloc, arguments.as_slice()) {
        Ok(request) => {
            request.lives == 9 && request.log_name.as_str() == "-" && request.engine.len() == 2
        }
        Err(_) => false,
    }
}

fn expect_refusal_for_memory(rt: &impl Abort, alloc: Global) {
    let mut diag = sink(rt, alloc, 1_000, &[]);
    let status = refuse_for_memory(&mut diag);
    let name = "no memory for words";
    expect_true(rt, name, status.code == 3);
    expect_bytes(rt, name, diag.taken(), b"reviver: no memory\n");
}

#[test]
fn each_run_answers_and_writes(rt: HostRuntime) {
    logs_are_whole();
    expect_runs(&rt, rt.alloc(), &AT_ONCE, ROWS);
    expect_log(&rt, rt.alloc(), &PACED, SESSION, &LOG);
    expect_true(&rt, "words are read", are_read(&rt, rt.alloc()));
    expect_refusal_for_memory(&rt, rt.alloc());
}
