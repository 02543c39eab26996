// Lives over the channel.
ghost use Rattle.std.specs.Prelude.{◌≡◌, ◌≤◌, [], true, false};
ghost use Rattle.engine_revival.specs.Steps.{is_alive};
ghost use Rattle.engine_revival.specs.declared.script.TheConstants.{EVENT_ROOM};
ghost use Rattle.event_pipe.specs.Ends.{IsSender, IsReceiver, KeepsSender, KeepsReceiver, messages_sent};
ghost use Rattle.reviver_runner.specs.Messages.{events_sent};
ghost use Rattle.event_pipe.specs.Events.{has_last_event};
ghost use Rattle.event_pipe.specs.declared.message.Peer.TheVariants as peers;
ghost use Rattle.reviver_runner.specs.Looped.{IsReadyLoop, KeepsLoop};

use crate::expected::{expect_bytes, expect_true};
use crate::streams::{letters_before, sink, source};
use engine_revival::{EVENT_ROOM, Revival};
use event_pipe::{Pipe, PipeSend, PipeTake, ReadEnd, read_messages};
use line_io::{MemSink, MemSource, Out};
use program_lifecycle::LoopEnd;
use reviver_runner::{LifeMessage, LifeRun, MarkedLog, RevivalLoop, one_life, read_life};
use std::alloc::Global;
use std::process::Abort;
use std::sync::Wait;
use std::thread::Threads;

fn is_line(message: &LifeMessage, line: &[u8]) -> bool {
    match message {
        LifeMessage::Line(bytes) => bytes.bytes() == line,
        _ => false,
    }
}

// Expects that this line is the next in the channel.
fn expect_line<R: Wait + Abort>(rt: &R, from: &mut PipeTake<LifeMessage>, line: &[u8])
    requires { IsReceiver from.old }
    ensures { KeepsReceiver from.old from.new }
{
    let message = from.take(rt);
    expect_true(rt, "a line", is_line(&message, line));
}

// Expects that a life's end is the next in the channel.
fn expect_end<R: Wait + Abort>(rt: &R, from: &mut PipeTake<LifeMessage>)
    requires { IsReceiver from.old }
    ensures { KeepsReceiver from.old from.new }
{
    let message = from.take(rt);
    expect_true(rt, "the end", matches!(message, LifeMessage::LifeEnd));
}

// Reads a line of 65,537 bytes, a short one and one with no end.
fn expect_lines<R: Wait + Abort>(rt: &R, alloc: Global, to: &mut PipeSend<LifeMessage>)
    requires sender { IsSender to.old }
    requires engine { to.old.peer ≡ peers.Engine }
    requires going { has_last_event (events_sent to.old) ≡ false }
    ensures { KeepsSender to.old to.new }
{
    let lines = letters_before(rt, alloc, 65_537, b"\nuciok\nbest");
    let mut source = source(rt, alloc, lines.as_slice(), 5_000, &[]);
    let end = read_life(rt, alloc, &mut source, to);
    expect_true(rt, "the lines are read", end == ReadEnd::Done);
}

#[test]
fn a_life_is_read_to_its_end(rt: HostRuntime) {
    let alloc = rt.alloc();
    let (iface, mut child, mut receiving_end) = Pipe::make(alloc).expect(
        &rt,
        "memory for the channel",
    );
    expect_lines(&rt, alloc, &mut child);
    expect_line(&rt, &mut receiving_end, b"uciok");
    expect_line(&rt, &mut receiving_end, b"best");
    expect_end(&rt, &mut receiving_end);
    Pipe::finish(iface, child, receiving_end);
}

// A log, and the room for the marks of an event.
fn make_marks(rt: &impl Abort, alloc: Global) -> MarkedLog<MemSink>
    ensures { EVENT_ROOM ≤ result.text.room }
{
    MarkedLog {
        log: Some(sink(rt, alloc, 1_000, &[])),
        text: Out::make(alloc, EVENT_ROOM).expect(rt, "memory for the marks"),
    }
}

// A revival before its first order.
fn make_loop(rt: &impl Abort, alloc: Global, from: PipeTake<LifeMessage>) -> RevivalLoop<MemSink>
    ensures from { result.from ≡ from }
    ensures alive { is_alive result.revival.state.life ≡ true }
    ensures room { EVENT_ROOM ≤ result.marks.text.room }
{
    let marks = make_marks(rt, alloc);
    RevivalLoop {
        revival: Revival::make(alloc, 1).expect(rt, "memory for the revival"),
        from,
        marks,
        failed: LoopEnd {
            output: false,
            engine: false,
            log: false,
        },
    }
}

const LOG: &[u8] = b"x uci\nU uci\nx.\nU quit\nu id name E\nX id name E\nu uciok\nX uciok\n";

fn expect_log(rt: &impl Abort, log: &Option<MemSink>) {
    match log {
        Some(log) => expect_bytes(rt, "the log", log.taken(), LOG),
        None => expect_true(rt, "there is a log", false),
    }
}

// Runs a life to its end, and compares what becomes of the revival and of the log. The end of the
// interface is `quit`.
fn expect_heard<R: Threads + Wait + Sync + Abort>(
    rt: &R,
    alloc: Global,
    looping: &mut RevivalLoop<MemSink>,
    to: &mut PipeSend<LifeMessage>,
    run: &mut LifeRun<MemSource, MemSink>,
    output: &mut MemSink,
)
    requires alive { is_alive looping.old.revival.state.life ≡ true }
    requires ready { IsReadyLoop looping.old }
    requires sender { IsSender to.old }
    requires engine { to.old.peer ≡ peers.Engine }
    requires going { has_last_event (events_sent to.old) ≡ false }
    ensures sender { KeepsSender to.old to.new }
    ensures keeps { KeepsLoop looping.old looping.new }
{
    let end = one_life(rt, alloc, looping, to, run, output);
    expect_true(rt, "the engine is read", end == ReadEnd::Done);
    expect_true(rt, "it has quit", looping.revival.has_quit());
    expect_log(rt, &looping.marks.log);
}

// Reads what the interface says.
fn expect_interface<R: Wait + Abort>(
    rt: &R,
    alloc: Global,
    input: &mut MemSource,
    to: &mut PipeSend<LifeMessage>,
)
    requires sender { IsSender to.old }
    requires interface { to.old.peer ≡ peers.Iface }
    requires fresh { messages_sent to.old ≡ [] }
    ensures { KeepsSender to.old to.new }
{
    let end = read_messages(rt, alloc, input, to);
    expect_true(rt, "the interface is read", end == ReadEnd::Done);
}

// A revival hears what the interface says, and a life.
fn expect_life<R: Threads + Wait + Sync + Abort>(
    rt: &R,
    alloc: Global,
    run: &mut LifeRun<MemSource, MemSink>,
    output: &mut MemSink,
    input: &mut MemSource,
) {
    let (mut iface, mut to, from) = Pipe::make(alloc).expect(rt, "memory for the channel");
    expect_interface(rt, alloc, input, &mut iface);
    let mut looping = make_loop(rt, alloc, from);
    expect_heard(rt, alloc, &mut looping, &mut to, run, output);
    Pipe::finish(iface, to, looping.from);
}

#[test]
fn one_life_is_heard(rt: HostRuntime) {
    let alloc = rt.alloc();
    let mut input = source(&rt, alloc, b"uci\n", 100, &[]);
    let mut run = LifeRun {
        source: source(&rt, alloc, b"id name E\nuciok\n", 7, &[]),
        sink: sink(&rt, alloc, 1_000, &[]),
    };
    let mut output = sink(&rt, alloc, 1_000, &[]);
    expect_life(&rt, alloc, &mut run, &mut output, &mut input);
    expect_bytes(&rt, "up", output.taken(), b"id name E\nuciok\n");
    expect_bytes(&rt, "to the engine", run.sink.taken(), b"uci\nquit\n");
}
