// All lives beside the interface's reader.
ghost use Rattle.std.specs.Prelude.{◌≡◌, ◌≤◌, [], length, map, string_bytes, is_some, false, true};
ghost use Rattle.std.specs.VecDeque.{deque_len, deque_capacity};
ghost use Rattle.engine_revival.specs.declared.words.LifeState.TheVariants as life;
ghost use Rattle.event_pipe.specs.Arrivals.{Arrived};
ghost use Rattle.event_pipe.specs.Ends.{IsFreshSender, KeepsSender, KeepsReceiver};
ghost use Rattle.reviver_runner.specs.Messages.{events_sent};
ghost use Rattle.event_pipe.specs.declared.message.Peer.TheVariants as peers;
ghost use Rattle.reviver_runner.specs.Looped.{loop_reports};
ghost use Rattle.program_lifecycle.specs.Streams.{log_state};
ghost use Rattle.reviver_runner.specs.Lives.{IsBegun, host_shown};
ghost use Rattle.reviver_runner.specs.Parts.{IsMade, ReviverKeepsEnds};
ghost use Rattle.reviver_runner.specs.Ran.{MayGo, ReviverMayGoOn, MayRun, HasRun, RanLives, RanAll};

use crate::drain::drain;
use crate::lives::{AllRuns, LivesTally};
use crate::parts::{MadeParts, ReviverParts, UpperReader};
use crate::starting::ReadyLives;
use crate::turns::{NextLife, life_turn};
use crate::{LifeRun, MarkedLog, RevivalLoop};
use child_engine::{ClosableSink, Host, HostFault};
use event_pipe::{Pipe, ReadEnd, read_messages};
use line_io::{Sink, Source};
use program_lifecycle::{Interface, LoopEnd};
use std::alloc::Global;
use std::collections::VecDeque;
use std::sync::Wait;
use std::thread::{Threads, join_mut};

/// The results of the interface's reader and of the activity of the lives.
#[derive(Clone, Copy)]
pub(crate) struct LivesEnd {
    pub upper: ReadEnd,
    pub tally: LivesTally,
    /// Why a life that might have begun was not started.
    pub start: Option<HostFault>,
    pub failed: LoopEnd,
}

/// A run of all lives whose runs and log are not closed yet.
pub(crate) struct LivesOutcome<S, K, P, L> {
    pub end: LivesEnd,
    pub ended: VecDeque<LifeRun<S, K>>,
    pub processes: VecDeque<P>,
    pub log: Option<L>,
}

// Runs the lives in turn, until none follows, and reports why not.
fn run_lives<O: Sink + Send, H: Host, R: Threads + Wait + Sync>(
    rt: &R,
    host: &mut H,
    first: LifeRun<H::EngineSource, H::EngineSink>,
    runs: &mut AllRuns<H::EngineSource, H::EngineSink>,
    parts: &mut ReviverParts<H::Log, H::EngineProcess>,
    output: &mut O,
) -> Option<HostFault>
where
    H::EngineSource: Drop,
    H::EngineSink: ClosableSink + Drop,
    H::EngineProcess: Drop,
    requires runs { ReviverMayGoOn (H.ledger host.old) runs.old }
    requires parts { MayGo parts.old.looping.revival.state.lives parts.old }
    requires begun { IsBegun (H.ledger host.old).says (H.ledger host.old).sinks_report
        (H.EngineSource.state first.source) (H.EngineSink.state first.sink) false [] }
    ensures keeps { ReviverKeepsEnds parts.old parts.new }
    ensures processes { deque_len parts.new.processes ≡ deque_len runs.new.ended }
    ensures over { parts.new.looping.revival.state.life ≡ life.Over }
    ensures ran { RanLives H.EngineSource.state H.EngineSink.state
        (map string_bytes runs.old.arguments.items)
        (host_shown H.ledger H.faults H.asked host.old)
        (host_shown H.ledger H.faults H.asked host.new)
        (loop_reports O.state H.Log.state parts.old.looping output.old)
        (loop_reports O.state H.Log.state parts.new.looping output.new)
        (events_sent parts.new.to) runs.new.ended.items runs.new.tally result }
{
    let mut run = first;
    for _ in rt.forever() {
        match life_turn(rt, host, run, runs, parts, output) {
            NextLife::Life(next) => run = next,
            NextLife::Over => return None,
            NextLife::Refused(fault) => return Some(fault),
        }
    }
    unreachable!()
}

// The lives, and then the interface until it has ended. It reports why no other life was started.
fn run_all<O: Sink + Send, H: Host, R: Threads + Wait + Sync>(
    rt: &R,
    host: &mut H,
    runs: &mut AllRuns<H::EngineSource, H::EngineSink>,
    parts: &mut ReviverParts<H::Log, H::EngineProcess>,
    output: &mut O,
) -> Option<HostFault>
where
    H::EngineSource: Drop,
    H::EngineSink: ClosableSink + Drop,
    H::EngineProcess: Drop,
    requires runs { MayRun H.EngineSource.state H.EngineSink.state (H.ledger host.old) runs.old }
    requires parts { MayGo parts.old.looping.revival.state.lives parts.old }
    ensures sender { KeepsSender parts.old.to parts.new.to }
    ensures receiving_end { KeepsReceiver parts.old.looping.from parts.new.looping.from }
    ensures kept { is_some parts.new.looping.marks.log ≡ is_some parts.old.looping.marks.log }
    ensures processes { deque_len parts.new.processes ≡ deque_len runs.new.ended }
    ensures quit { parts.new.looping.revival.state.quit ≡ true }
    ensures ran { RanAll H.EngineSource.state H.EngineSink.state
        (map string_bytes runs.old.arguments.items)
        (host_shown H.ledger H.faults H.asked host.old)
        (host_shown H.ledger H.faults H.asked host.new)
        (loop_reports O.state H.Log.state parts.old.looping output.old)
        (loop_reports O.state H.Log.state parts.new.looping output.new)
        (events_sent parts.new.to) runs.new.ended.items runs.new.tally result }
{
    let Some(first) = runs.first.take() else {
        unreachable!()
    };
    let start = run_lives(rt, host, first, runs, parts, output);
    drain(rt, &mut parts.looping, output);
    start
}

// The interface's reader beside the lives.
fn run_beside<I: Source + Send, O: Sink + Send, H: Host + Send, R: Threads + Wait + Sync>(
    rt: &R,
    host: &mut H,
    runs: &mut AllRuns<H::EngineSource, H::EngineSink>,
    parts: &mut ReviverParts<H::Log, H::EngineProcess>,
    reader: &mut UpperReader,
    interface: &mut Interface<I, O>,
) -> (ReadEnd, Option<HostFault>)
where
    H::EngineSource: Drop,
    H::EngineSink: ClosableSink + Drop,
    H::EngineProcess: Drop + Send,
    requires iface { IsFreshSender reader.old.iface peers.Iface }
    requires runs { MayRun H.EngineSource.state H.EngineSink.state (H.ledger host.old) runs.old }
    requires parts { MayGo parts.old.looping.revival.state.lives parts.old }
    ensures iface { KeepsSender reader.old.iface reader.new.iface }
    ensures arrived { Arrived peers.Iface
        (I.state interface.old.input) (I.state interface.new.input)
        (events_sent reader.new.iface) result.0 }
    ensures sender { KeepsSender parts.old.to parts.new.to }
    ensures receiving_end { KeepsReceiver parts.old.looping.from parts.new.looping.from }
    ensures kept { is_some parts.new.looping.marks.log ≡ is_some parts.old.looping.marks.log }
    ensures processes { deque_len parts.new.processes ≡ deque_len runs.new.ended }
    ensures quit { parts.new.looping.revival.state.quit ≡ true }
    ensures ran { RanAll H.EngineSource.state H.EngineSink.state
        (map string_bytes runs.old.arguments.items)
        (host_shown H.ledger H.faults H.asked host.old)
        (host_shown H.ledger H.faults H.asked host.new)
        (loop_reports O.state H.Log.state parts.old.looping interface.old.output)
        (loop_reports O.state H.Log.state parts.new.looping interface.new.output)
        (events_sent parts.new.to) runs.new.ended.items runs.new.tally result.1 }
{
    let Interface { input, output } = interface;
    join_mut(
        rt,
        &mut ||
            requires { IsFreshSender reader.now.iface peers.Iface }
        { read_messages(rt, reader.alloc, input, &mut reader.iface) },
        &mut ||
            requires { MayRun H.EngineSource.state H.EngineSink.state (H.ledger host.now) runs.now
                × MayGo parts.now.looping.revival.state.lives parts.now }
        { run_all(rt, host, runs, parts, output) },
    )
}

/// Runs the lives of an engine that was started, beside the interface, into a log that may be
/// missing.
pub(crate) fn run_opened<
    I: Source + Send,
    O: Sink + Send,
    H: Host + Send,
    R: Threads + Wait + Sync,
>(
    rt: &R,
    alloc: Global,
    ready: ReadyLives<H::EngineSource, H::EngineSink, H::EngineProcess>,
    log: Option<H::Log>,
    interface: &mut Interface<I, O>,
    host: &mut H,
) -> LivesOutcome<H::EngineSource, H::EngineSink, H::EngineProcess, H::Log>
where
    H::EngineSource: Drop,
    H::EngineSink: ClosableSink + Drop,
    H::EngineProcess: Drop + Send,
    requires made { IsMade ready.made.revival.state.lives ready.made }
    requires some { 1 ≤ ready.made.revival.state.lives }
    requires few { ready.made.revival.state.lives ≤ 9 }
    requires may { MayRun H.EngineSource.state H.EngineSink.state (H.ledger host.old) ready.runs }
    requires process { deque_len ready.processes ≡ 1 }
    requires room { 10 ≤ deque_capacity ready.processes }
    ensures processes { length result.processes.items ≡ length result.ended.items }
    ensures kept { is_some result.log ≡ is_some log }
    ensures ran { HasRun H.EngineSource.state H.EngineSink.state ready.made.revival.state.lives
        (map string_bytes ready.runs.arguments.items)
        (I.state interface.old.input) (I.state interface.new.input)
        (O.state interface.old.output) (O.state interface.new.output)
        (log_state H.Log.state log) (log_state H.Log.state result.log)
        (host_shown H.ledger H.faults H.asked host.old)
        (host_shown H.ledger H.faults H.asked host.new)
        result.ended.items result.end }
{
    let ReadyLives {
        made,
        mut runs,
        processes,
    } = ready;
    let MadeParts {
        revival,
        text,
        iface,
        to,
        from,
    } = made;
    let mut reader = UpperReader { alloc, iface };
    let mut parts = ReviverParts {
        alloc,
        to,
        looping: RevivalLoop {
            revival,
            from,
            marks: MarkedLog { log, text },
            failed: LoopEnd {
                output: false,
                engine: false,
                log: false,
            },
        },
        processes,
    };
    let (upper, start) = run_beside(rt, host, &mut runs, &mut parts, &mut reader, interface);
    let ReviverParts {
        alloc: _,
        to,
        looping,
        processes,
    } = parts;
    let RevivalLoop {
        revival: _revival,
        from,
        marks,
        failed,
    } = looping;
    let MarkedLog { log, text: _text } = marks;
    Pipe::finish(reader.iface, to, from);
    let AllRuns {
        arguments: _,
        first: _,
        ended,
        tally,
    } = runs;
    LivesOutcome {
        end: LivesEnd {
            upper,
            tally,
            start,
            failed,
        },
        ended,
        processes,
        log,
    }
}
