// A run over a host in memory whose log can be but one, written out to the byte.
use crate::expected::{expect_bytes, words_of};
use crate::program::Counts;
use child_engine::{Fails, LogPlace, MemHost};
use line_io::MemSink;
use paced_host::{DueText, PacedHost, PacedLog, PacedTexts};
use program_lifecycle::Interface;
use std::alloc::Global;
use std::process::Abort;
use std::sync::Wait;
use std::thread::Threads;
use wineravine_runner::{ProgramCall, refuse_for_memory, wineravine_main};

/// The text that the engine says at once, in one piece.
const ENGINE: &[u8] = b"\
    id name Toy\n\
    option name Style type combo default Normal var Solid var Normal\n\
    option name Clear type button\n\
    uciok\n\
    readyok\n";

// The engine's bytes come at once, and its end once the log has what it got last.
const ENGINE_ENDS: &[u64] = &[0, 29];

// The interface speaks once the log has so many lines.
const INPUT: &[DueText] = &[DueText {
    lines: 23,
    text: b"ping 3\nquit\n",
}];

const WORDS: &str = "--LogFile=w.log|--Option|Style=Solid|--Option=Nope=1|--Option|Clear|toy|-x";

const OUTPUT: &[u8] = b"Error (unknown option): option Nope=1\npong 3\n";

const LOG: &[u8] = b"\
    #3 Resign=false ResignMoves=3 ResignScore=600 ShowPonder=true EarlySettings=true \
    ResignWhenGone=true HandleDraws=true ShowSan=true StrengthOptions=true FenceStops=true \
    ResultReasons=true TimeMargin=20 PlainTexts=true PathOptions=true RepeatThinking=true\n\
    # 0\n\
    U uci\n\
    # 1\n\
    x option Style=Solid\n\
    # 2\n\
    x option Nope=1\n\
    # 3\n\
    x option Clear\n\
    # 4\n\
    u id name Toy\n\
    # 5\n\
    u option name Style type combo default Normal var Solid var Normal\n\
    # 6\n\
    u option name Clear type button\n\
    # 7\n\
    u uciok\n\
    X Error (unknown option): option Nope=1\n\
    U setoption name Style value Solid\n\
    U setoption name Clear\n\
    U isready\n\
    # 8\n\
    u readyok\n\
    # 9\n\
    x ping 3\n\
    X pong 3\n\
    # 10\n\
    x quit\n\
    U quit\n\
    # 11\n\
    u.\n";

/// Runs the program, compares its status and what it writes, and gives back the host.
fn run_program<'a, R: Threads + Wait + Sync + Abort>(
    rt: &R,
    alloc: Global,
    counts: &'a Counts,
) -> PacedHost<'a> {
    let arguments = words_of(rt, alloc, WORDS);
    let host = MemHost::make(alloc, ENGINE, 200, 10_000, &Fails::default()).expect(rt, "memory");
    let mut host = PacedHost::new(alloc, host, &counts.log, ENGINE_ENDS);
    let output = MemSink::make(alloc, 5_000, &[]).expect(rt, "memory");
    let mut interface = Interface {
        input: PacedTexts::new(&counts.log, INPUT),
        output: PacedLog::new(output, &counts.output),
    };
    let mut diag = MemSink::make(alloc, 1_000, &[]).expect(rt, "memory");
    let call = ProgramCall {
        arguments: arguments.as_slice(),
        process_id: 77,
    };
    let status = wineravine_main(rt, alloc, &call, &mut interface, &mut host, &mut diag);
    assert_eq!(rt; status.code, 0);
    expect_bytes(rt, interface.output.sink.taken(), OUTPUT);
    expect_bytes(rt, diag.taken(), b"");
    host
}

#[test]
fn options_come_before_the_first_line_of_an_engine_that_talks_at_once(rt: HostRuntime) {
    let counts = Counts::new();
    let host = run_program(&rt, rt.alloc(), &counts);
    expect_bytes(&rt, host.logged(), LOG);
    assert!(rt; host.was_asked_for(1, &["toy", "-x"], &LogPlace::File("w.log")));
}

#[test]
fn no_memory_is_reported(rt: HostRuntime) {
    let mut diag = MemSink::make(rt.alloc(), 100, &[]).expect(&rt, "memory");
    assert_eq!(rt; refuse_for_memory(&mut diag).code, 3);
    expect_bytes(&rt, diag.taken(), b"wineravine: no memory\n");
}
