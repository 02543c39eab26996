// The program over a host in memory.
use crate::expected::{expect_bytes, expect_true};
use crate::programs::Program;
use crate::rows::three_of;
use crate::runs::{Peers, WholeLog, expect_log, expect_runs};
use crate::streams::{sink, words_of};
use driver_runner::{logs_are_whole, refuse_for_memory};
use paced_host::DueText;
use program_command_line::{ArgumentsRefusal, EngineRequest, read_arguments};
use std::alloc::Global;
use std::process::Abort;

// In pieces of five.
const AT_ONCE: Peers = Peers {
    program: Program::Driver,
    iface: &[
        DueText {
            lines: 0,
            text: b"uci\ni",
        },
        DueText {
            lines: 0,
            text: b"sread",
        },
        DueText {
            lines: 0,
            text: b"y\nqui",
        },
        DueText {
            lines: 0,
            text: b"t\n",
        },
    ],
    engine: b"feature ping=1 setboard=1 done=1\n",
    piece: 5,
    reads: &[],
};

// The features are what the engine's first read gives, its move what the second one does, and then
// it ends.
const PACED: Peers = Peers {
    program: Program::Driver,
    iface: &[
        DueText {
            lines: 0,
            text: b"uci\n",
        },
        DueText {
            lines: 12,
            text: b"position startpos moves e2e4\ngo movetime 1500\n",
        },
        DueText {
            lines: 22,
            text: b"quit\n",
        },
    ],
    engine: b"\
        feature ping=1 setboard=1 usermove=1 analyze=1 myname=\"Old\" done=1\n\
        move e7e5\n",
    piece: 67,
    reads: &[3, 20, 24],
};

const ROWS: &str = "\
    no words|||2||driver: usage\n;\
    no engine|d.log||2||driver: usage\n;\
    an engine that is no text|d.log,\\xff||2||driver: usage\n;\
    a log that is no text|\\xff,engine||2||driver: usage\n;\
    an engine|d.log,engine||0|*|;\
    words with dashes|--LogFile,--,-x,||0|*|;\
    an empty word|,--help||0|*|;\
    the start fails|d.log,engine|start|8||driver: engine start failed\n;\
    the log is not opened|d.log,engine|log|9|*|driver: log failed\n;\
    a read fails|d.log,engine|read|6|*|driver: engine reading failed\n;\
    a write fails|d.log,engine|write|7|*|driver: engine writing failed\n;\
    the wait fails|d.log,engine|wait|10|*|driver: engine wait failed\n";

const SESSION: &str = "\
    a whole session has one log|d.log,engine,-x y||0|id name Old\nuciok\nbestmove e7e5\n|";

const LOG: WholeLog = WholeLog {
    name: "d.log",
    engines: 1,
    text: b"\
        x uci\n\
        U xboard\n\
        U protover 2\n\
        u feature ping=1 setboard=1 usermove=1 analyze=1 myname=\"Old\" done=1\n\
        X id name Old\n\
        X uciok\n\
        U accepted ping\n\
        U accepted setboard\n\
        U accepted usermove\n\
        U accepted analyze\n\
        U accepted myname\n\
        U accepted done\n\
        x position startpos moves e2e4\n\
        x go movetime 1500\n\
        U new\n\
        U force\n\
        U post\n\
        U usermove e2e4\n\
        U st 2\n\
        U go\n\
        u move e7e5\n\
        X bestmove e7e5\n\
        x quit\n\
        U quit\n\
        u.\n",
};

// True if these arguments ask for nothing since they are not the program's.
fn are_refused(alloc: Global, arguments: &[Vec<u8>]) -> bool {
    match read_arguments(alloc, arguments) {
        Ok(_) => false,
        Err(refusal) => refusal == ArgumentsRefusal::Usage,
    }
}

// The arguments of a row are refused just if its status is 2.
fn expect_refusals(rt: &impl Abort, alloc: Global, rows: &str) {
    for row in rows.split(';') {
        let (_, arguments, others) = three_of(row);
        let (_, code, _) = three_of(others);
        let arguments = words_of(rt, alloc, arguments);
        let is_refused = are_refused(alloc, arguments.as_slice());
        expect_true(rt, row, is_refused == (code == "2"));
    }
}

// True if this log and an engine of these two arguments are asked for.
fn asks_for(request: &EngineRequest, log_name: &str, program: &str, argument: &str) -> bool {
    let [first, second] = request.engine.as_slice() else {
        return false;
    };
    request.log_name.as_str() == log_name
        && first.as_str() == program
        && second.as_str() == argument
}

fn are_read(rt: &impl Abort, alloc: Global) -> bool {
    let arguments = words_of(rt, alloc, "d.log,--,-x");
    match read_arguments(alloc, arguments.as_slice()) {
        Ok(request) => asks_for(&request, "d.log", "--", "-x"),
        Err(_) => false,
    }
}

fn expect_refusal_for_memory(rt: &impl Abort, alloc: Global) {
    let mut diag = sink(rt, alloc, 1_000, &[]);
    let status = refuse_for_memory(&mut diag);
    let name = "no memory for words";
    expect_true(rt, name, status.code == 3);
    expect_bytes(rt, name, diag.taken(), b"driver: no memory\n");
}

#[test]
fn each_run_answers_and_writes(rt: HostRuntime) {
    logs_are_whole();
    expect_runs(&rt, rt.alloc(), &AT_ONCE, ROWS);
    expect_log(&rt, rt.alloc(), &PACED, SESSION, &LOG);
    expect_refusals(&rt, rt.alloc(), ROWS);
    expect_refusals(&rt, rt.alloc(), SESSION);
    expect_true(&rt, "words are read", are_read(&rt, rt.alloc()));
    expect_refusal_for_memory(&rt, rt.alloc());
}
