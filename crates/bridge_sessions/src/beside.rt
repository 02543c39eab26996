// Both readers run beside the loop: the interface and the engine wait for one another, so a run
// that reads one of them to its end before the other never ends.
ghost use Rattle.std.specs.Prelude.{IfOk};
ghost use Rattle.child_engine.specs.Memory.{memory_ledger};
ghost use Rattle.child_engine.specs.Hosts.{HostIsUnused};

use crate::expected::{expect_bytes, words_of};
use crate::fresh_session::make_session;
use crate::waiting_host::{ENGINE, ENGINE_WAITS, PIECE, WaitingHost};
use bridge_runner::bridge_main;
use child_engine::{Fails, MemHost};
use event_loop::{Mediator, MediatorParts, RunEnd, TURN_ROOM, Turns, run_pipes};
use event_pipe::{Pipe, ReadEnd};
use line_io::{MemSink, MemSource, NoMemory, Out};
use paced_host::{PacedLog, PacedSource};
use program_lifecycle::{HandedStreams, Interface};
use std::alloc::Global;
use std::process::Abort;
use std::sync::Wait;
use std::sync::atomic::{AtomicU64, Ordering};
use std::thread::Threads;

/// The number of orders in all: `uci`, `isready` and `quit`.
const ORDERS: u64 = 3;

// An interface that quits once the engine's input took `isready`.
fn make_interface<'a>(
    rt: &impl Abort,
    alloc: Global,
    orders: &'a AtomicU64,
) -> Interface<PacedSource<'a>, MemSink> {
    let quit = MemSource::make(alloc, b"quit\n", 5, &[]).expect(rt, "memory");
    Interface {
        input: PacedSource::new(quit, orders, &[2]),
        output: MemSink::make(alloc, 1_000, &[]).expect(rt, "memory"),
    }
}

// The streams of an engine that waits for its orders.
fn make_streams<'a>(
    rt: &impl Abort,
    alloc: Global,
    orders: &'a AtomicU64,
) -> HandedStreams<PacedSource<'a>, PacedLog<'a>, MemSink> {
    let says = MemSource::make(alloc, ENGINE, PIECE, &[]).expect(rt, "memory");
    let log_sink = MemSink::make(alloc, 100, &[]).expect(rt, "memory");
    HandedStreams {
        source: PacedSource::new(says, orders, ENGINE_WAITS),
        engine: PacedLog::new(log_sink, orders),
        log: None,
    }
}

// Runs both pipes with this mediator.
fn run_both<M: Mediator + Send + Drop, R: Threads + Wait + Sync + Abort>(
    rt: &R,
    alloc: Global,
    mediator: M,
    interface: &mut Interface<PacedSource<'_>, MemSink>,
    streams: &mut HandedStreams<PacedSource<'_>, PacedLog<'_>, MemSink>,
) -> RunEnd
    requires { M.means.fresh mediator }
{
    let text = Out::make(alloc, TURN_ROOM).expect(rt, "memory");
    let (iface, engine, receiving_end) = Pipe::make(alloc).expect(rt, "memory");
    let parts = MediatorParts {
        iface,
        engine,
        turns: Turns {
            mediator,
            receiving_end,
            text,
        },
    };
    run_pipes(rt, alloc, parts, b"", interface, streams).end
}

// Runs both pipes with a session.
fn run_session<R: Threads + Wait + Sync + Abort>(
    rt: &R,
    alloc: Global,
    interface: &mut Interface<PacedSource<'_>, MemSink>,
    streams: &mut HandedStreams<PacedSource<'_>, PacedLog<'_>, MemSink>,
) -> RunEnd {
    let session = make_session(alloc).expect(rt, "memory");
    run_both(rt, alloc, session, interface, streams)
}

#[test]
fn readers_run_beside(rt: HostRuntime) {
    let orders = AtomicU64::new(0);
    let mut interface = make_interface(&rt, rt.alloc(), &orders);
    let mut streams = make_streams(&rt, rt.alloc(), &orders);
    let end = run_session(&rt, rt.alloc(), &mut interface, &mut streams);
    assert!(rt; end.iface == ReadEnd::Done && end.engine == ReadEnd::Done);
    assert!(rt; interface.input.missed().is_none() && streams.source.missed().is_none());
    assert!(rt; orders.load(Ordering::SeqCst) == ORDERS);
}

// A host whose engine waits for its orders.
fn make_host(alloc: Global, orders: &AtomicU64) -> Result<WaitingHost<'_>, NoMemory>
    ensures { IfOk result (λ h. HostIsUnused (memory_ledger h.host)) }
{
    let host = MemHost::make(alloc, ENGINE, PIECE, 1_000, &Fails::default())?;
    Ok(WaitingHost::new(host, orders))
}

/// The status of a run, its diagnostic, and whether a side waited for orders in vain.
#[derive(Drop)]
struct ProgramRun {
    code: u8,
    diag: MemSink,
    has_missed: bool,
}

// Runs the program for an interface and over an engine that wait for one another.
fn run_program<R: Threads + Wait + Sync + Abort>(
    rt: &R,
    alloc: Global,
    orders: &AtomicU64,
) -> ProgramRun {
    let arguments = words_of(rt, alloc, "toy");
    let mut interface = make_interface(rt, alloc, orders);
    let mut host = make_host(alloc, orders).expect(rt, "memory");
    let mut diag = MemSink::make(alloc, 1_000, &[]).expect(rt, "memory");
    let arguments = arguments.as_slice();
    let status = bridge_main(rt, alloc, arguments, &mut interface, &mut host, &mut diag);
    ProgramRun {
        code: status.code,
        diag,
        has_missed: interface.input.missed().is_some() || host.has_missed(),
    }
}

#[test]
fn bridge_runs_beside(rt: HostRuntime) {
    let orders = AtomicU64::new(0);
    let run = run_program(&rt, rt.alloc(), &orders);
    assert_eq!(rt; run.code, 0);
    expect_bytes(&rt, run.diag.taken(), b"");
    assert!(rt; !run.has_missed);
    assert!(rt; orders.load(Ordering::SeqCst) == ORDERS);
}
