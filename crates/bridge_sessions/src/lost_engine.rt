// The output to the log and to both sides if the engine is lost.
ghost use Rattle.std.specs.Prelude.{◌≡◌, ◌≤◌, []};
ghost use Rattle.event_pipe.specs.Ends.{IsSender, IsFreshReceiver, messages_sent};
ghost use Rattle.event_loop.specs.declared.mediator.TheConstants.{TURN_ROOM};

use crate::expected::expect_bytes;
use crate::fresh_session::make_session;
use event_loop::{Mediator, TURN_ROOM, Turns, mediate};
use event_pipe::{Pipe, PipeSend, read_pipe};
use line_io::{MemSink, MemSource, Out};
use program_lifecycle::LoopEnd;
use std::alloc::Global;
use std::process::Abort;
use std::sync::Wait;

const LOG: &[u8] = b"\
    #2 Resign=false ResignMoves=3 ResignScore=600 ShowPonder=true\n\
    # 0\n\
    U uci\n\
    # 1\n\
    u uciok\n\
    U isready\n\
    # 2\n\
    u?\n\
    X tellusererror Engine ended\n\
    # 3\n\
    u.\n\
    # 4\n\
    x quit\n";

/// The sinks of a loop.
#[derive(Drop)]
struct Sinks {
    output: MemSink,
    engine: MemSink,
    log: Option<MemSink>,
}

// The engine's second write fails.
fn make_sinks(rt: &impl Abort, alloc: Global) -> Sinks {
    Sinks {
        output: MemSink::make(alloc, 1_000, &[]).expect(rt, "memory for the output"),
        engine: MemSink::make(alloc, 1_000, &[2]).expect(rt, "memory for the engine's input"),
        log: Some(MemSink::make(alloc, 1_000, &[]).expect(rt, "memory for the log")),
    }
}

// Puts these lines into the channel.
fn read_lines<R: Wait + Abort>(rt: &R, alloc: Global, lines: &[u8], to: &mut PipeSend)
    requires sender { IsSender to.old }
    requires fresh { messages_sent to.old ≡ [] }
{
    let mut source = MemSource::make(alloc, lines, 7, &[]).expect(rt, "memory for the lines");
    let _end = read_pipe(rt, alloc, &mut source, to);
}

// Has a mediator take what is in the channel.
fn mediate_all<M: Mediator + Drop, R: Wait>(rt: &R, turns: Turns<M>, sinks: &mut Sinks) -> LoopEnd
    requires mediator { M.means.fresh turns.mediator }
    requires receiving_end { IsFreshReceiver turns.receiving_end }
    requires room { TURN_ROOM ≤ turns.text.room }
{
    let mut turns = turns;
    mediate(
        rt,
        &mut turns,
        b"",
        &mut sinks.output,
        &mut sinks.engine,
        &mut sinks.log,
    )
}

// Runs the loop over these lines: those of the engine come first.
fn run_loop<M: Mediator + Drop, R: Wait + Abort>(
    rt: &R,
    alloc: Global,
    mediator: M,
    lines: (&[u8], &[u8]),
    sinks: &mut Sinks,
) -> LoopEnd
    requires { M.means.fresh mediator }
{
    let (mut iface, mut child, receiving_end) = Pipe::make(alloc).expect(
        rt,
        "memory for the channel",
    );
    read_lines(rt, alloc, lines.0, &mut child);
    read_lines(rt, alloc, lines.1, &mut iface);
    let turns = Turns {
        mediator,
        receiving_end,
        text: Out::make(alloc, TURN_ROOM).expect(rt, "memory for the log's text"),
    };
    mediate_all(rt, turns, sinks)
}

// Runs the loop with a session, whose engine says `uciok` before the interface quits.
fn run_session<R: Wait + Abort>(rt: &R, alloc: Global, sinks: &mut Sinks) -> LoopEnd {
    let session = make_session(alloc).expect(rt, "memory for the core");
    run_loop(rt, alloc, session, (b"uciok\n", b"quit\n"), sinks)
}

// That the engine is lost is the very next step after the write that fails.
#[test]
fn a_lost_engine_is_logged(rt: HostRuntime) {
    let mut sinks = make_sinks(&rt, rt.alloc());
    let end = run_session(&rt, rt.alloc(), &mut sinks);
    assert!(rt; end.engine && !end.output && !end.log);
    expect_bytes(&rt, sinks.engine.taken(), b"uci\n");
    expect_bytes(&rt, sinks.output.taken(), b"tellusererror Engine ended\n");
    let Some(log) = &sinks.log else {
        panic!(rt; "there is no log")
    };
    expect_bytes(&rt, log.taken(), LOG);
}
