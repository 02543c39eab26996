// One run of all lives over a host.
ghost use Rattle.std.specs.Prelude.{◌≡◌, ◌≤◌, ◌<◌, length, map, string_bytes, true};
ghost use Rattle.std.specs.VecDeque.{deque_len, deque_capacity};
ghost use Rattle.child_engine.specs.Hosts.{HostIsUnused, IsStarted};
ghost use Rattle.child_engine.specs.Places.{log_file};
ghost use Rattle.program_lifecycle.specs.Asked.{AsksFor, AsksMore};
ghost use Rattle.program_lifecycle.specs.Outside.{outside_of};
ghost use Rattle.reviver_runner.specs.Parts.{IsMade};
ghost use Rattle.reviver_runner.specs.Ran.{MayRun, ReviverLeaves};

use crate::closing::close_everything;
use crate::outcome::{LivesOutcome, run_opened};
use crate::starting::{ReadyLives, start};
use child_engine::{ClosableSink, Host, LogPlace};
use line_io::{Sink, Source};
use program_command_line::EngineRequest;
use program_lifecycle::{
    Failures, Interface, Opened, either, has_failed, has_lacked_memory, is_open_failure,
    is_open_memory, open_log,
};
use std::alloc::Global;
use std::sync::Wait;
use std::thread::Threads;

// The run of an engine that was started.
fn run_started<I: Source + Send, O: Sink + Send, H: Host + Send, R: Threads + Wait + Sync>(
    rt: &R,
    alloc: Global,
    ready: ReadyLives<H::EngineSource, H::EngineSink, H::EngineProcess>,
    log_name: &str,
    interface: &mut Interface<I, O>,
    host: &mut H,
) -> Failures
where
    H::EngineSource: Drop,
    H::EngineSink: ClosableSink + Drop,
    H::EngineProcess: Drop + Send,
    requires made { IsMade ready.made.revival.state.lives ready.made }
    requires some { 1 ≤ ready.made.revival.state.lives }
    requires few { ready.made.revival.state.lives ≤ 9 }
    requires may { MayRun H.EngineSource.state H.EngineSink.state (H.ledger host.old) ready.runs }
    requires process { deque_len ready.processes ≡ 1 }
    requires room { 10 ≤ deque_capacity ready.processes }
    requires ledger { IsStarted (H.ledger host.old) }
    ensures leaves { ReviverLeaves ready.made.revival.state.lives
        (outside_of I.state O.state H.faults H.ledger interface.old host.old)
        (outside_of I.state O.state H.faults H.ledger interface.new host.new)
        result }
    ensures asked { AsksMore (map string_bytes ready.runs.arguments.items)
        (log_file log_name.now)
        (H.asked host.old) (H.asked host.new) (H.ledger host.old) (H.ledger host.new) result }
{
    let Opened { log, fault } = open_log(host, alloc, &LogPlace::File(log_name));
    let LivesOutcome {
        end,
        ended,
        processes,
        log,
    } = run_opened(rt, alloc, ready, log, interface, host);
    let waiting_failed = close_everything(host, ended, processes, log);
    let memory = either(is_open_memory(fault), is_open_memory(end.start));
    Failures {
        memory: either(
            memory,
            either(has_lacked_memory(end.upper), end.tally.memory),
        ),
        iface_read: has_failed(end.upper),
        iface_write: end.failed.output,
        engine_read: end.tally.engine_read,
        engine_write: end.tally.engine_write,
        engine_start: is_open_failure(end.start),
        log: either(is_open_failure(fault), end.failed.log),
        engine_wait: waiting_failed,
    }
}

/// Starts an engine and opens the log, runs the engine's lives beside the interface, at most this
/// many, and closes the runs, in their order, and the log. Of each life the clauses of `one_life`
/// hold. A log that cannot be opened is left out. If the host does not start an engine again,
/// there is no life more, and what stands in for it answers the interface until that has ended.
pub fn revive_run<I: Source + Send, O: Sink + Send, H: Host + Send, R: Threads + Wait + Sync>(
    rt: &R,
    alloc: Global,
    lives: u32,
    request: EngineRequest,
    interface: &mut Interface<I, O>,
    host: &mut H,
) -> Failures
where
    H::EngineSource: Drop,
    H::EngineSink: ClosableSink + Drop,
    H::EngineProcess: Drop + Send,
    requires arguments { 0 < length request.engine.items }
    requires some { 1 ≤ lives }
    requires few { lives ≤ 9 }
    requires unused { HostIsUnused (H.ledger host.old) }
    ensures leaves { ReviverLeaves lives
        (outside_of I.state O.state H.faults H.ledger interface.old host.old)
        (outside_of I.state O.state H.faults H.ledger interface.new host.new)
        result }
    ensures asked { AsksFor (map string_bytes request.engine.items)
        (log_file (string_bytes request.log_name))
        (H.asked host.old) (H.asked host.new) (H.ledger host.new) result }
{
    let EngineRequest { log_name, engine } = request;
    match start(rt, alloc, lives, engine, host) {
        Ok(ready) => run_started(rt, alloc, ready, log_name.as_str(), interface, host),
        Err(failures) => failures,
    }
}
