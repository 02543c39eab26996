// The loop and both pipes over sources and sinks in memory.
ghost use Rattle.std.specs.Prelude.{◌≡◌, []};
ghost use Rattle.event_pipe.specs.Ends.{IsSender, IsFreshReceiver, messages_sent};
ghost use Rattle.event_loop.specs.Ran.{MediatorIsReady};
ghost use Rattle.driver_runner.specs.Drives.{driving_meaning};
ghost use Rattle.runner_sessions.specs.Ready.{IsLogReady};

use crate::expected::{expect_bytes, expect_true};
use crate::streams::{letters_before, sink, source};
use cecp_driver::Driver;
use driver_runner::Driving;
use event_loop::{MediatorParts, RunEnd, TURN_ROOM, Turns, mediate, run_pipes};
use event_pipe::{Pipe, PipeSend, PipeTake, ReadEnd, read_pipe};
use line_io::{MemSink, MemSource, Out};
use program_lifecycle::{HandedStreams, Interface, LoopEnd};
use std::alloc::Global;
use std::process::Abort;
use std::sync::Wait;
use std::thread::Threads;

const LOG: &[u8] = b"\
    x uci\n\
    U xboard\n\
    U protover 2\n\
    x isready\n\
    X readyok\n\
    x.\n\
    U quit\n\
    u feature ping=1\n\
    u.\n";

// The parts that a run needs.
fn make_turns(rt: &impl Abort, alloc: Global, receiving_end: PipeTake) -> Turns<Driving>
    ensures receiving_end { result.receiving_end ≡ receiving_end }
    ensures ready { IsLogReady result.mediator result.text }
{
    let text = Out::make(alloc, TURN_ROOM).expect(rt, "memory for the marks");
    let driver = Driver::make(alloc).expect(rt, "memory for the driver");
    Turns {
        mediator: Driving { driver },
        receiving_end,
        text,
    }
}

const NOTHING_FAILED: LoopEnd = LoopEnd {
    output: false,
    engine: false,
    log: false,
};

/// The sinks of a loop.
#[derive(Drop)]
struct Sinks {
    output: MemSink,
    engine: MemSink,
    log: Option<MemSink>,
}

// The engine's second write fails, that of `quit`.
fn make_sinks(rt: &impl Abort, alloc: Global) -> Sinks {
    Sinks {
        output: sink(rt, alloc, 1_000, &[]),
        engine: sink(rt, alloc, 1_000, &[2]),
        log: Some(sink(rt, alloc, 1_000, &[])),
    }
}

// Puts these lines into the channel.
fn read_lines<R: Wait + Abort>(rt: &R, alloc: Global, lines: &[u8], to: PipeSend)
    requires sender { IsSender to }
    requires fresh { messages_sent to ≡ [] }
{
    let mut to = to;
    let mut input = source(rt, alloc, lines, 7_000, &[]);
    let _end = read_pipe(rt, alloc, &mut input, &mut to);
}

// Runs the loop over what is in the channel.
fn mediate_all<R: Wait + Abort>(
    rt: &R,
    alloc: Global,
    receiving_end: PipeTake,
    sinks: &mut Sinks,
) -> LoopEnd
    requires receiving_end { IsFreshReceiver receiving_end }
{
    let mut turns = make_turns(rt, alloc, receiving_end);
    mediate(
        rt,
        &mut turns,
        b"",
        &mut sinks.output,
        &mut sinks.engine,
        &mut sinks.log,
    )
}

// Runs the loop over these lines of the interface, and a line of the engine behind them.
fn run_loop<R: Wait + Abort>(rt: &R, alloc: Global, lines: &[u8], sinks: &mut Sinks) -> LoopEnd {
    let (iface, child, receiving_end) = Pipe::make(alloc).expect(rt, "memory for the channel");
    read_lines(rt, alloc, lines, iface);
    read_lines(rt, alloc, b"feature ping=1\n", child);
    mediate_all(rt, alloc, receiving_end, sinks)
}

// A line of 65,537 bytes, and two orders after it, which come before the engine's line.
#[test]
fn long_lines_are_passed_over(rt: HostRuntime) {
    let lines = letters_before(&rt, rt.alloc(), 65_537, b"\nuci\nisready\n");
    let mut sinks = make_sinks(&rt, rt.alloc());
    let end = run_loop(&rt, rt.alloc(), lines.as_slice(), &mut sinks);
    let wanted = LoopEnd {
        engine: true,
        ..NOTHING_FAILED
    };
    expect_true(&rt, "the engine's sink fails", end == wanted);
    expect_bytes(&rt, "up", sinks.output.taken(), b"readyok\n");
    expect_bytes(&rt, "down", sinks.engine.taken(), b"xboard\nprotover 2\n");
    match &sinks.log {
        Some(log) => expect_bytes(&rt, "the log", log.taken(), LOG),
        None => expect_true(&rt, "there is a log", false),
    }
}

// The parts that a run of both pipes needs.
fn make_parts(rt: &impl Abort, alloc: Global) -> MediatorParts<Driving>
    ensures { MediatorIsReady driving_meaning result }
{
    let (iface, engine, receiving_end) = Pipe::make(alloc).expect(rt, "memory for the channel");
    MediatorParts {
        iface,
        engine,
        turns: make_turns(rt, alloc, receiving_end),
    }
}

// Runs both pipes between these streams.
fn run_both<R: Threads + Wait + Sync + Abort>(
    rt: &R,
    alloc: Global,
    interface: &mut Interface<MemSource, MemSink>,
    handed: &mut HandedStreams<MemSource, MemSink, MemSink>,
) -> RunEnd {
    let parts = make_parts(rt, alloc);
    run_pipes(rt, alloc, parts, b"", interface, handed).end
}

#[test]
fn both_pipes_are_read(rt: HostRuntime) {
    let alloc = rt.alloc();
    let mut interface = Interface {
        input: source(&rt, alloc, b"uci\nquit\n", 3, &[]),
        output: sink(&rt, alloc, 1_000, &[]),
    };
    let mut handed = HandedStreams {
        source: source(&rt, alloc, b"", 3, &[]),
        engine: sink(&rt, alloc, 1_000, &[]),
        log: None,
    };
    let end = run_both(&rt, alloc, &mut interface, &mut handed);
    let wanted = RunEnd {
        iface: ReadEnd::Done,
        engine: ReadEnd::Done,
        done: NOTHING_FAILED,
    };
    expect_true(&rt, "both are read", end == wanted);
}
