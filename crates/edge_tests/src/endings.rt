// Endings and what is reported of them, and threads.
use crate::expected::{expect, expect_bytes};
use event_pipe::{ReadEnd, join_three};
use line_io::{MemSink, ReadFault};
use program_command_line::ArgumentsRefusal;
use program_lifecycle::{
    Failures, ProgramEnding, TriedThreads, either, has_failed, has_lacked_memory, only_memory,
    only_start, report_ending,
};
use std::process::Abort;

fn expect_code(rt: &impl Abort, ending: ProgramEnding, code: u8) {
    expect(rt, ending.code() == code, "code", usize::from(code));
}

fn expect_end(rt: &impl Abort, end: ReadEnd, failed: bool, lacked_memory: bool) {
    let is_as_reported = has_failed(end) == failed && has_lacked_memory(end) == lacked_memory;
    expect(rt, is_as_reported, "end", 0);
}

// Two calls that failed.
fn failures() -> Failures {
    Failures {
        engine_write: true,
        log: true,
        ..Failures::default()
    }
}

#[test]
fn the_first_failure_is_reported(rt: HostRuntime) {
    let mut diag = MemSink::make(rt.alloc(), 100, &[]).expect(&rt, "a diagnostic");
    report_ending(b"driver", ProgramEnding::of(failures()), &mut diag);
    report_ending(b"driver", ProgramEnding::of(Failures::default()), &mut diag);
    expect_bytes(&rt, diag.taken(), b"driver: engine writing failed\n");
    expect_code(&rt, ProgramEnding::of(failures()), 7);
    expect_code(&rt, ProgramEnding::of(only_memory()), 3);
    expect_code(&rt, ProgramEnding::of(only_start()), 8);
    expect_code(&rt, ProgramEnding::from(ArgumentsRefusal::Usage), 2);
    expect_code(&rt, ProgramEnding::from(ArgumentsRefusal::NoMemory), 3);
    expect(
        &rt,
        either(false, true) && !either(false, false),
        "either",
        0,
    );
}

// Readers end in three ways.
#[test]
fn readers_end(rt: HostRuntime) {
    expect_end(&rt, ReadEnd::Fault(ReadFault), true, false);
    expect_end(&rt, ReadEnd::NoMemory, false, true);
    expect_end(&rt, ReadEnd::Done, false, false);
}

// Threads are tried; each of the three is called once, and its answer stands in its place.
#[test]
fn three_are_called_side_by_side(rt: HostRuntime) {
    let threads = TriedThreads::ask(&rt);
    expect(&rt, threads.were_given(), "threads", 3);
    threads.join(&rt);
    let answers = join_three(&rt, &mut || 1u8, &mut || 2u8, &mut || 3u8);
    expect(&rt, answers == (1, 2, 3), "threads", 3);
}
