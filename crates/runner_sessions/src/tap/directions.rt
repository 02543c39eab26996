// Both directions and the log, over sources and sinks in memory.
ghost use Rattle.std.specs.Prelude.{◌≡◌, ◌<◌, [], vec_len};
ghost use Rattle.event_pipe.specs.Ends.{IsSender, IsFreshSender, IsFreshReceiver, messages_sent};
ghost use Rattle.event_pipe.specs.declared.message.Peer.TheVariants as peers;
ghost use Rattle.tap_runner.specs.Hearing.{no_open_line};
ghost use Rattle.tap_runner.specs.Parts.{TapPartsAreReady};

use crate::expected::{expect_bytes, expect_true};
use crate::streams::{letters_before, sink, source};
use child_engine::ClosableSink;
use event_pipe::{Peer, Pipe, PipeSend, PipeTake};
use line_io::{MemSink, MemSource, Out, Sink, Source};
use program_lifecycle::{HandedStreams, Interface};
use std::alloc::Global;
use std::process::Abort;
use std::sync::Wait;
use std::thread::Threads;
use tap_runner::{
    Direction, LOG_ROOM, OpenLine, PassEnd, TapEnd, TapMessage, TapParts, hand_on, keep_log,
    run_tap,
};

/// The texts of both peers; the writes of the engine's bytes that fail; what the bridge gets, and the log.
#[derive(Clone, Copy)]
struct Row {
    name: &'static str,
    // So many letters come before what the bridge says.
    letters: usize,
    bridge: &'static [u8],
    engine: &'static [u8],
    failing: &'static [u64],
    output: &'static [u8],
    log: &'static [u8],
}

const BRIDGE: &[u8] = b"uci\r\n\nquit\nuci";

const ENGINE: &[u8] = b"id name Toy\0\nuciok\n";

const ROWS: [Row; 2] = [
    Row {
        name: "lines are logged",
        letters: 0,
        bridge: BRIDGE,
        engine: ENGINE,
        failing: &[],
        output: ENGINE,
        log: b"\
            U uci\r\n\
            U \n\
            U quit\n\
            U uci\n\
            x.\n\
            u id name Toy\0\n\
            u uciok\n\
            u.\n",
    },
    Row {
        name: "a long line is handed on, and a write that fails ends its direction",
        letters: 65_535,
        bridge: b"\nuci\n",
        engine: b"uciok\n",
        failing: &[1],
        output: b"",
        log: b"x!\nU uci\nx.\nu uciok\nu.\n",
    },
];

// The parts that a direction needs.
fn make_way(rt: &impl Abort, alloc: Global, peer: Peer, to: PipeSend<TapMessage>) -> Direction
    ensures to { result.to ≡ to }
    ensures part { result.part ≡ no_open_line peer }
    ensures room { 0 < vec_len result.buf }
{
    Direction {
        to,
        part: OpenLine::make(alloc, peer).expect(rt, "memory for a line"),
        buf: vec![in alloc; 0; 100].expect(rt, "memory for reads"),
    }
}

// Hands on these bytes in pieces of seven.
fn pass<R: Wait + Abort>(
    rt: &R,
    alloc: Global,
    bytes: &[u8],
    sink: &mut MemSink,
    peer: Peer,
    to: PipeSend<TapMessage>,
) -> PassEnd
    requires sender { IsSender to }
    requires peer { to.peer ≡ peer }
    requires unsent { messages_sent to ≡ [] }
{
    let mut source = source(rt, alloc, bytes, 7, &[]);
    let mut way = make_way(rt, alloc, peer, to);
    hand_on(rt, alloc, &mut source, sink, &mut way)
}

// Keeps a log of what is in the channel.
fn keep_all<R: Wait + Abort>(
    rt: &R,
    alloc: Global,
    receiving_end: PipeTake<TapMessage>,
    log: &mut Option<MemSink>,
)
    requires { IsFreshReceiver receiving_end }
{
    let mut receiving_end = receiving_end;
    let mut text = Out::make(alloc, LOG_ROOM).expect(rt, "memory for a mark");
    let _failed = keep_log(rt, &mut receiving_end, log, &mut text);
}

// Compares what a log is made of what is in the channel.
fn expect_log<R: Wait + Abort>(
    rt: &R,
    alloc: Global,
    row: &Row,
    receiving_end: PipeTake<TapMessage>,
)
    requires { IsFreshReceiver receiving_end }
{
    let mut log = Some(sink(rt, alloc, 1_000, &[]));
    keep_all(rt, alloc, receiving_end, &mut log);
    match &log {
        Some(log) => expect_bytes(rt, row.name, log.taken(), row.log),
        None => expect_true(rt, row.name, false),
    }
}

/// True if no read and no memory was refused, and no write, or one.
pub fn is_end(end: &PassEnd, write_failed: bool) -> bool {
    !end.read_failed && end.write_failed == write_failed && !end.has_lacked_memory
}

// Hands on what the bridge says.
fn expect_down<R: Wait + Abort>(rt: &R, alloc: Global, row: &Row, to: PipeSend<TapMessage>)
    requires { IsFreshSender to peers.Iface }
{
    let bytes = letters_before(rt, alloc, row.letters, row.bridge);
    let mut engine = sink(rt, alloc, 70_000, &[]);
    let down = pass(rt, alloc, bytes.as_slice(), &mut engine, Peer::Iface, to);
    expect_true(rt, row.name, is_end(&down, false));
    expect_bytes(rt, row.name, engine.taken(), bytes.as_slice());
}

// Hands on what the engine says.
fn expect_up<R: Wait + Abort>(rt: &R, alloc: Global, row: &Row, to: PipeSend<TapMessage>)
    requires { IsFreshSender to peers.Engine }
{
    let mut output = sink(rt, alloc, 100, row.failing);
    let up = pass(rt, alloc, row.engine, &mut output, Peer::Engine, to);
    expect_true(rt, row.name, is_end(&up, !row.failing.is_empty()));
    expect_bytes(rt, row.name, output.taken(), row.output);
}

fn expect_passed<R: Wait + Abort>(rt: &R, alloc: Global, row: &Row) {
    let (bridge, child, receiving_end) = Pipe::make(alloc).expect(rt, "memory for the channel");
    expect_down(rt, alloc, row, bridge);
    expect_up(rt, alloc, row, child);
    expect_log(rt, alloc, row, receiving_end);
}

#[test]
fn bytes_are_handed_on_and_lines_are_logged(rt: HostRuntime) {
    for row in &ROWS {
        expect_passed(&rt, rt.alloc(), row);
    }
}

// The parts that a run of both directions needs.
fn make_parts(rt: &impl Abort, alloc: Global) -> TapParts
    ensures { TapPartsAreReady result }
{
    let (bridge, child, receiving_end) = Pipe::make(alloc).expect(rt, "memory for the channel");
    TapParts {
        down: make_way(rt, alloc, Peer::Iface, bridge),
        up: make_way(rt, alloc, Peer::Engine, child),
        receiving_end,
        text: Out::make(alloc, LOG_ROOM).expect(rt, "memory for a mark"),
    }
}

/// Runs both directions between these sinks and sources.
pub fn run_both<
    I: Source + Send,
    S: Source + Send,
    O: ClosableSink + Send,
    E: ClosableSink + Send,
    L: Sink + Send,
    R: Threads + Wait + Sync + Abort,
>(
    rt: &R,
    alloc: Global,
    interface: &mut Interface<I, O>,
    handed: &mut HandedStreams<S, E, L>,
) -> TapEnd {
    run_tap(rt, alloc, make_parts(rt, alloc), interface, handed)
}

// The engine's second read fails.
fn expect_both<R: Threads + Wait + Sync + Abort>(
    rt: &R,
    alloc: Global,
    interface: &mut Interface<MemSource, MemSink>,
    handed: &mut HandedStreams<MemSource, MemSink, MemSink>,
) {
    let end = run_both(rt, alloc, interface, handed);
    let failed = !end.bridge.read_failed && end.engine.read_failed && !end.log_failed;
    expect_true(rt, "both directions", failed);
    expect_bytes(rt, "down", handed.engine.taken(), BRIDGE);
    expect_bytes(rt, "up", interface.output.taken(), b"id ");
}

#[test]
fn both_directions_run(rt: HostRuntime) {
    let alloc = rt.alloc();
    let mut interface = Interface {
        input: source(&rt, alloc, BRIDGE, 3, &[]),
        output: sink(&rt, alloc, 100, &[]),
    };
    let mut handed = HandedStreams {
        source: source(&rt, alloc, ENGINE, 3, &[2]),
        engine: sink(&rt, alloc, 100, &[]),
        log: None,
    };
    expect_both(&rt, alloc, &mut interface, &mut handed);
}
