// Each call to the outside refused in turn.
use crate::expected::expect;
use crate::ping::{PING, is_answered};
use crate::program::{BridgeRun, Counts, Given, run_bridge};
use child_engine::Fails;
use std::alloc::Global;
use std::process::Abort;
use std::sync::Wait;
use std::thread::Threads;

const FIRST_STEP: &[u8] = b"\
    #2 Resign=false ResignMoves=3 ResignScore=600 ShowPonder=true\n\
    # 0\n\
    U uci\n\
    # 1\n";

/// The compared parts of a run some of whose calls fail.
#[derive(Clone, Copy)]
struct FailingRun {
    code: u8,
    is_answered: bool,
    /// The interface got nothing.
    is_silent: bool,
    /// The engine got the first of its orders.
    begins_session: bool,
    /// The count of log lines that begin a step or the log.
    marks: u64,
    /// The log is what comes first in it, or begins with that.
    fits_first_step: bool,
}

// True if these are the first of the orders that the engine gets in some order of events.
fn begins_a_session(wrote: &[u8]) -> bool {
    b"uci\nisready\nquit\n".starts_with(wrote) || b"uci\nquit\n".starts_with(wrote)
}

// The number of lines that begin a log's step or a log: no other text of these sessions has the sign.
fn marks_in(log: &[u8]) -> u64 {
    let mut marks = 0_u64;
    for byte in log {
        if *byte == b'#' {
            marks = marks.saturating_add(1);
        }
    }
    marks
}

fn fits_first_step(log: &[u8]) -> bool {
    log.starts_with(FIRST_STEP) || FIRST_STEP.starts_with(log)
}

// The compared parts of this run.
fn seen_of(run: &BridgeRun) -> FailingRun {
    let log = run.host.logged();
    FailingRun {
        code: run.code,
        is_answered: is_answered(run),
        is_silent: run.output.sink.taken().is_empty(),
        begins_session: begins_a_session(run.host.wrote()),
        marks: marks_in(log),
        fits_first_step: fits_first_step(log),
    }
}

// The diagnostic fails too, and changes no status.
fn run_failing<R: Threads + Wait + Sync + Abort>(
    rt: &R,
    alloc: Global,
    fails: &Fails,
) -> FailingRun {
    let counts = Counts::new();
    let given = Given {
        diag_fails: &[1],
        ..PING
    };
    let run = run_bridge(rt, alloc, &given, fails, &counts);
    seen_of(&run)
}

// Compares the status. If the engine is not started, nothing is written; else the ping is answered.
fn expect_once<R: Threads + Wait + Sync + Abort>(
    rt: &R,
    alloc: Global,
    call: &str,
    fails: &Fails,
    code: u8,
) {
    let run = run_failing(rt, alloc, fails);
    let writes_as_wanted = if fails.start {
        run.is_silent
    } else {
        run.is_answered
    };
    expect(rt, run.code == code && writes_as_wanted, call, 1);
}

#[test]
fn calls_that_fail_once(rt: HostRuntime) {
    let none = Fails::default();
    expect_once(
        &rt,
        rt.alloc(),
        "start",
        &Fails {
            start: true,
            ..none
        },
        8,
    );
    expect_once(&rt, rt.alloc(), "log", &Fails { log: true, ..none }, 9);
    expect_once(&rt, rt.alloc(), "wait", &Fails { wait: true, ..none }, 10);
}

// The engine's 14 bytes and its end are four reads.
fn fits_failing_read(run: FailingRun, number: u64) -> bool {
    let code = if number <= 4 { 6 } else { 0 };
    run.code == code && run.begins_session
}

// The engine gets `uci`, then `isready` or `quit`, and `quit` after `isready` if it comes
// before the engine's end.
fn fits_failing_write(run: FailingRun, number: u64) -> bool {
    let code = run.code;
    (code == 7 || code == 0 && number > 2) && (code == 0 || number < 4) && run.begins_session
}

// The start, two lines of each side and the engine's end are six steps, after the first line.
fn fits_failing_log_write(run: FailingRun, number: u64) -> bool {
    let code = if number <= 6 { 9 } else { 0 };
    let marks = if number == 1 { 0 } else { number.min(7) };
    run.code == code && run.marks == marks && run.fits_first_step
}

#[test]
fn each_read_that_fails(rt: HostRuntime) {
    for number in 1..=12 {
        let fails = Fails {
            reads: &[number],
            ..Fails::default()
        };
        let run = run_failing(&rt, rt.alloc(), &fails);
        let holds = run.is_answered && fits_failing_read(run, number);
        expect(&rt, holds, "read", number as usize);
    }
}

#[test]
fn each_write_that_fails(rt: HostRuntime) {
    for number in 1..=12 {
        let fails = Fails {
            writes: &[number],
            ..Fails::default()
        };
        let run = run_failing(&rt, rt.alloc(), &fails);
        let holds = run.is_answered && fits_failing_write(run, number);
        expect(&rt, holds, "write", number as usize);
    }
}

#[test]
fn each_log_write_that_fails(rt: HostRuntime) {
    for number in 1..=12 {
        let fails = Fails {
            logs: &[number],
            ..Fails::default()
        };
        let run = run_failing(&rt, rt.alloc(), &fails);
        let holds = run.is_answered && fits_failing_log_write(run, number);
        expect(&rt, holds, "log write", number as usize);
    }
}
