// Runs over a host in memory whose log and answers can be but one, written out to the byte.
use crate::expected::expect_bytes;
use crate::program::{Counts, Given, run_bridge};
use bridge_runner::logs_are_whole;
use child_engine::{Fails, LogPlace};
use paced_host::DueText;
use std::alloc::Global;
use std::process::Abort;
use std::sync::Wait;
use std::thread::Threads;

/// The input of a run and the writes to the engine that fail; then its status, what the interface is
/// answered, and its log.
#[derive(Clone, Copy)]
struct ExactSession {
    given: Given,
    failing_writes: &'static [u64],
    code: u8,
    answers: &'static [u8],
    log: &'static [u8],
}

fn expect_session<R: Threads + Wait + Sync + Abort>(rt: &R, alloc: Global, session: &ExactSession) {
    let counts = Counts::new();
    let fails = Fails {
        writes: session.failing_writes,
        ..Fails::default()
    };
    let run = run_bridge(rt, alloc, &session.given, &fails, &counts);
    expect_bytes(rt, run.host.logged(), session.log);
    expect_bytes(rt, run.output.sink.taken(), session.answers);
    assert!(rt;
        run.host
            .was_asked_for(1, &["toy", "-x y"], &LogPlace::File("b.log"))
    );
    assert_eq!(rt; run.code, session.code);
}

/// An engine's bytes come in one piece, and then its end.
const GIVEN: Given = Given {
    arguments: "--LogFile|b.log|--|toy|-x y",
    awaits_answers: false,
    iface: &[],
    engine: b"uciok\n",
    piece: 100,
    engine_ends: &[],
    diag_fails: &[],
};

// The interface waits for `u readyok` in the log.
const WHOLE: ExactSession = ExactSession {
    given: Given {
        iface: &[DueText {
            lines: 8,
            text: b"ping 3\nquit\n",
        }],
        engine: b"uciok\nreadyok\n",
        engine_ends: &[0, 14],
        ..GIVEN
    },
    failing_writes: &[],
    code: 0,
    answers: b"pong 3\n",
    log: WHOLE_LOG,
};

const WHOLE_LOG: &[u8] = b"\
    #2 Resign=false ResignMoves=3 ResignScore=600 ShowPonder=true\n\
    # 0\n\
    U uci\n\
    # 1\n\
    u uciok\n\
    U isready\n\
    # 2\n\
    u readyok\n\
    # 3\n\
    x ping 3\n\
    X pong 3\n\
    # 4\n\
    x quit\n\
    U quit\n\
    # 5\n\
    u.\n";

#[test]
fn a_whole_session_has_one_log(rt: HostRuntime) {
    logs_are_whole();
    expect_session(&rt, rt.alloc(), &WHOLE);
}

// The second write to the engine fails, and the interface quits once the log has the engine's end.
const REFUSED: ExactSession = ExactSession {
    given: Given {
        iface: &[DueText {
            lines: 11,
            text: b"quit\n",
        }],
        engine_ends: &[0, 0],
        ..GIVEN
    },
    failing_writes: &[2],
    code: 7,
    answers: b"tellusererror Engine ended\n",
    log: REFUSED_LOG,
};

const REFUSED_LOG: &[u8] = b"\
    #2 Resign=false ResignMoves=3 ResignScore=600 ShowPonder=true\n\
    # 0\n\
    U uci\n\
    # 1\n\
    u uciok\n\
    U isready\n\
    # 2\n\
    u?\n\
    X tellusererror Engine ended\n\
    # 3\n\
    u.\n\
    # 4\n\
    x quit\n";

#[test]
fn an_engine_that_takes_no_more(rt: HostRuntime) {
    expect_session(&rt, rt.alloc(), &REFUSED);
}

// The interface waits for `feature done=1` before its ping, and for the pong before it quits. Each
// event waits for what came of the one before, so a step that is late is waited for in vain.
const ANSWERED: ExactSession = ExactSession {
    given: Given {
        awaits_answers: true,
        iface: &[
            DueText {
                lines: 0,
                text: b"xboard\nprotover 2\n",
            },
            DueText {
                lines: 18,
                text: b"ping 1\n",
            },
            DueText {
                lines: 19,
                text: b"quit\n",
            },
        ],
        engine_ends: &[8, 34],
        ..GIVEN
    },
    failing_writes: &[],
    code: 0,
    answers: b"\
        feature done=0\n\
        feature myname=\"UCI engine\"\n\
        feature ping=1\n\
        feature setboard=1\n\
        feature playother=1\n\
        feature san=0\n\
        feature usermove=1\n\
        feature time=1\n\
        feature draw=1\n\
        feature sigint=0\n\
        feature sigterm=0\n\
        feature reuse=1\n\
        feature analyze=1\n\
        feature variants=\"normal\"\n\
        feature colors=0\n\
        feature memory=0\n\
        feature smp=0\n\
        feature done=1\n\
        pong 1\n",
    log: ANSWERED_LOG,
};

const ANSWERED_LOG: &[u8] = b"\
    #2 Resign=false ResignMoves=3 ResignScore=600 ShowPonder=true\n\
    # 0\n\
    U uci\n\
    # 1\n\
    x xboard\n\
    # 2\n\
    x protover 2\n\
    X feature done=0\n\
    # 3\n\
    u uciok\n\
    X feature myname=\"UCI engine\"\n\
    X feature ping=1\n\
    X feature setboard=1\n\
    X feature playother=1\n\
    X feature san=0\n\
    X feature usermove=1\n\
    X feature time=1\n\
    X feature draw=1\n\
    X feature sigint=0\n\
    X feature sigterm=0\n\
    X feature reuse=1\n\
    X feature analyze=1\n\
    X feature variants=\"normal\"\n\
    X feature colors=0\n\
    X feature memory=0\n\
    X feature smp=0\n\
    X feature done=1\n\
    U isready\n\
    # 4\n\
    x ping 1\n\
    X pong 1\n\
    # 5\n\
    x quit\n\
    U quit\n\
    # 6\n\
    u.\n";

#[test]
fn an_interface_waits_for_its_answers(rt: HostRuntime) {
    expect_session(&rt, rt.alloc(), &ANSWERED);
}
