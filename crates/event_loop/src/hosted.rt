// One run of a mediator over a host.
ghost use Rattle.std.specs.Prelude.{◌≡◌, ◌<◌, length, map, string_bytes, IfOk, IfErr, OnOk, OnErr};
ghost use Rattle.child_engine.specs.Asked.{and_engines};
ghost use Rattle.child_engine.specs.Places.{asked_place};
ghost use Rattle.child_engine.specs.Hosts.{HostIsUnused, IsStarted, fresh_source, fresh_sink, with_run};
ghost use Rattle.program_lifecycle.specs.Asked.{AsksFor, OpensLogs, engines_asked_by};
ghost use Rattle.program_lifecycle.specs.Early.{FailuresAreEarly};
ghost use Rattle.program_lifecycle.specs.Outside.{outside_of};
ghost use Rattle.event_loop.specs.First.{AreOpening};
ghost use Rattle.event_loop.specs.Ran.{MediatorIsReady};
ghost use Rattle.event_loop.specs.Mediated.{MediatorLeaves};

use crate::hosted_parts::make_parts;
use crate::{Mediator, MediatorParts, MediatorRun, RunRequest, run_pipes};
use child_engine::{Host, Started};
use line_io::{Sink, Source};
use program_lifecycle::{
    Failures, HandedStreams, Interface, Opened, close_log, either, has_failed, has_lacked_memory,
    is_open_failure, is_open_memory, only_memory, open_log, start_engine,
};
use std::alloc::Global;
use std::sync::Wait;
use std::thread::Threads;

// The parts that a run needs, and the engine that was started.
struct ReadyMediator<M, S, K, P> {
    parts: MediatorParts<M>,
    run: Started<S, K, P>,
}

// The run of an engine that was started.
fn run_started<
    M: Mediator + Send + Drop,
    I: Source + Send,
    O: Sink + Send,
    H: Host,
    R: Threads + Wait + Sync,
>(
    rt: &R,
    alloc: Global,
    ready: ReadyMediator<M, H::EngineSource, H::EngineSink, H::EngineProcess>,
    request: &RunRequest,
    interface: &mut Interface<I, O>,
    host: &mut H,
) -> Failures
    requires parts { MediatorIsReady M.means ready.parts }
    requires first { AreOpening request.now.first.now }
    requires source { H.EngineSource.state ready.run.source ≡ fresh_source (H.ledger
        host.old).says }
    requires sink { H.EngineSink.state ready.run.sink ≡ fresh_sink (H.ledger
        host.old).sinks_report }
    requires ledger { IsStarted (H.ledger host.old) }
    ensures leaves { MediatorLeaves M.means ready.parts.turns.mediator request.now.first.now
        (outside_of I.state O.state H.faults H.ledger interface.old host.old)
        (outside_of I.state O.state H.faults H.ledger interface.new host.new)
        result }
    ensures asked { OpensLogs (asked_place request.now.log) (H.asked host.old) (H.asked host.new)
        (H.ledger host.old) (H.ledger host.new) result }
{
    let ReadyMediator { parts, run } = ready;
    let Started {
        source,
        sink,
        process,
    } = run;
    let Opened { log, fault } = open_log(host, alloc, &request.log);
    let mut handed = HandedStreams {
        source,
        engine: sink,
        log,
    };
    let MediatorRun { mediator: _, end } = run_pipes(
        rt,
        alloc,
        parts,
        request.first,
        interface,
        &mut handed,
    );
    let HandedStreams {
        source,
        engine: sink,
        log,
    } = handed;
    let waited = host.close(Started {
        source,
        sink,
        process,
    });
    close_log(host, log);
    Failures {
        memory: either(
            is_open_memory(fault),
            either(has_lacked_memory(end.iface), has_lacked_memory(end.engine)),
        ),
        iface_read: has_failed(end.iface),
        iface_write: end.done.output,
        engine_read: has_failed(end.engine),
        engine_write: end.done.engine,
        engine_start: false,
        log: either(is_open_failure(fault), end.done.log),
        engine_wait: waited.is_err(),
    }
}

// Takes the memory of a run, and starts the engine.
fn start<M: Mediator + Drop, H: Host, R: Threads>(
    rt: &R,
    alloc: Global,
    mediator: M,
    arguments: &[String],
    host: &mut H,
) -> Result<ReadyMediator<M, H::EngineSource, H::EngineSink, H::EngineProcess>, Failures>
    requires fresh { M.means.fresh mediator }
    requires arguments { 0 < length arguments.now }
    requires unused { HostIsUnused (H.ledger host.old) }
    ensures parts { IfOk result (λ ready. MediatorIsReady M.means ready.parts) }
    ensures same { IfOk result (λ ready. ready.parts.turns.mediator ≡ mediator) }
    ensures source { IfOk result (λ ready.
        H.EngineSource.state ready.run.source ≡ fresh_source (H.ledger host.old).says) }
    ensures sink { IfOk result (λ ready.
        H.EngineSink.state ready.run.sink ≡ fresh_sink (H.ledger host.old).sinks_report) }
    ensures ledger { OnOk result (H.ledger host.new ≡ with_run (H.ledger host.old)) }
    ensures faults { OnOk result (H.faults host.new ≡ H.faults host.old) }
    ensures unstarted { OnErr result (H.ledger host.new ≡ H.ledger host.old) }
    ensures asked { H.asked host.new
        ≡ and_engines (engines_asked_by result) (map string_bytes arguments.now) (H.asked
        host.old) }
    ensures early { IfErr result (FailuresAreEarly (H.faults host.old) (H.faults host.new)) }
{
    let Ok(parts) = make_parts(alloc, mediator) else {
        return Err(only_memory());
    };
    match start_engine(rt, alloc, arguments, host) {
        Ok(run) => Ok(ReadyMediator { parts, run }),
        Err(failures) => Err(failures),
    }
}

/// Starts the engine, opens the log, runs both pipes, and closes the run and the log. A log that
/// cannot be opened is left out. The mediator takes the first lines as the interface's, before all
/// that comes from either peer.
pub fn run_mediator<
    M: Mediator + Send + Drop,
    I: Source + Send,
    O: Sink + Send,
    H: Host,
    R: Threads + Wait + Sync,
>(
    rt: &R,
    alloc: Global,
    mediator: M,
    request: &RunRequest,
    interface: &mut Interface<I, O>,
    host: &mut H,
) -> Failures
    requires fresh { M.means.fresh mediator }
    requires first { AreOpening request.now.first.now }
    requires arguments { 0 < length request.now.engine.now }
    requires unused { HostIsUnused (H.ledger host.old) }
    ensures leaves { MediatorLeaves M.means mediator request.now.first.now
        (outside_of I.state O.state H.faults H.ledger interface.old host.old)
        (outside_of I.state O.state H.faults H.ledger interface.new host.new)
        result }
    ensures asked { AsksFor (map string_bytes request.now.engine.now) (asked_place request.now.log)
        (H.asked host.old) (H.asked host.new) (H.ledger host.new) result }
{
    match start(rt, alloc, mediator, request.engine, host) {
        Ok(ready) => run_started(rt, alloc, ready, request, interface, host),
        Err(failures) => failures,
    }
}
