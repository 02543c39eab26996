// One run of the tap over a host.
ghost use Rattle.std.specs.Prelude.{◌≡◌, ◌<◌, length, map, string_bytes, IfOk, IfErr, OnOk, OnErr};
ghost use Rattle.child_engine.specs.Asked.{and_engines};
ghost use Rattle.child_engine.specs.Hosts.{HostIsUnused, IsStarted, fresh_source, fresh_sink, WasSinkClosed, with_run};
ghost use Rattle.child_engine.specs.Places.{log_file};
ghost use Rattle.program_lifecycle.specs.Asked.{AsksFor, OpensLogs, engines_asked_by};
ghost use Rattle.program_lifecycle.specs.Early.{FailuresAreEarly};
ghost use Rattle.program_lifecycle.specs.Outside.{outside_of};
ghost use Rattle.tap_runner.specs.Parts.{TapPartsAreReady};
ghost use Rattle.tap_runner.specs.Tapped.{TapLeaves};

use crate::parts::make_parts;
use crate::{TapParts, run_tap};
use child_engine::{ClosableSink, Host, LogPlace, Started};
use line_io::Source;
use program_command_line::EngineRequest;
use program_lifecycle::{
    Failures, HandedStreams, Interface, Opened, close_log, either, is_open_failure, is_open_memory,
    only_memory, open_log, start_engine,
};
use std::alloc::Global;
use std::sync::Wait;
use std::thread::Threads;

// The parts that a run needs, and the engine that was started.
struct ReadyTap<S, K, P> {
    parts: TapParts,
    run: Started<S, K, P>,
}

// The run of an engine that was started.
fn run_started<I: Source + Send, O: ClosableSink + Send, H: Host, R: Threads + Wait + Sync>(
    rt: &R,
    alloc: Global,
    ready: ReadyTap<H::EngineSource, H::EngineSink, H::EngineProcess>,
    log_name: &str,
    interface: &mut Interface<I, O>,
    host: &mut H,
) -> Failures
where
    H::EngineSink: ClosableSink,
    requires parts { TapPartsAreReady ready.parts }
    requires source { H.EngineSource.state ready.run.source ≡ fresh_source (H.ledger
        host.old).says }
    requires sink { H.EngineSink.state ready.run.sink ≡ fresh_sink (H.ledger
        host.old).sinks_report }
    requires ledger { IsStarted (H.ledger host.old) }
    ensures leaves { TapLeaves (O.is_sink_closed interface.new.output)
        (WasSinkClosed H.EngineSink.state H.EngineSink.is_sink_closed)
        (outside_of I.state O.state H.faults H.ledger interface.old host.old)
        (outside_of I.state O.state H.faults H.ledger interface.new host.new)
        result }
    ensures asked { OpensLogs (log_file log_name.now) (H.asked host.old) (H.asked host.new)
        (H.ledger host.old) (H.ledger host.new) result }
{
    let ReadyTap { parts, run } = ready;
    let Started {
        source,
        sink,
        process,
    } = run;
    let Opened { log, fault } = open_log(host, alloc, &LogPlace::File(log_name));
    let mut handed = HandedStreams {
        source,
        engine: sink,
        log,
    };
    let end = run_tap(rt, alloc, parts, interface, &mut handed);
    let HandedStreams {
        source,
        engine,
        log,
    } = handed;
    let waited = host.close(Started {
        source,
        sink: engine,
        process,
    });
    close_log(host, log);
    Failures {
        memory: either(
            is_open_memory(fault),
            either(end.bridge.has_lacked_memory, end.engine.has_lacked_memory),
        ),
        iface_read: end.bridge.read_failed,
        iface_write: end.engine.write_failed,
        engine_read: end.engine.read_failed,
        engine_write: end.bridge.write_failed,
        engine_start: false,
        log: either(is_open_failure(fault), end.log_failed),
        engine_wait: waited.is_err(),
    }
}

// Takes the memory of a run, and starts the engine.
fn start<H: Host, R: Threads>(
    rt: &R,
    alloc: Global,
    arguments: &[String],
    host: &mut H,
) -> Result<ReadyTap<H::EngineSource, H::EngineSink, H::EngineProcess>, Failures>
    requires arguments { 0 < length arguments.now }
    requires unused { HostIsUnused (H.ledger host.old) }
    ensures parts { IfOk result (λ ready. TapPartsAreReady ready.parts) }
    ensures source { IfOk result (λ ready.
        H.EngineSource.state ready.run.source ≡ fresh_source (H.ledger host.old).says) }
    ensures sink { IfOk result (λ ready.
        H.EngineSink.state ready.run.sink ≡ fresh_sink (H.ledger host.old).sinks_report) }
    ensures ledger { OnOk result (H.ledger host.new ≡ with_run (H.ledger host.old)) }
    ensures faults { OnOk result (H.faults host.new ≡ H.faults host.old) }
    ensures unstarted { OnErr result (H.ledger host.new ≡ H.ledger host.old) }
    ensures asked { H.asked host.new
        ≡ and_engines (engines_asked_by result) (map string_bytes arguments.now) (H.asked
        host.old) }
    ensures early { IfErr result (FailuresAreEarly (H.faults host.old) (H.faults host.new)) }
{
    let Ok(parts) = make_parts(alloc) else {
        return Err(only_memory());
    };
    match start_engine(rt, alloc, arguments, host) {
        Ok(run) => Ok(ReadyTap { parts, run }),
        Err(failures) => Err(failures),
    }
}

/// Starts the engine, opens the log, hands on what the bridge and the engine write, and closes the
/// run and the log. A log that cannot be opened is left out.
pub fn tap_run<I: Source + Send, O: ClosableSink + Send, H: Host, R: Threads + Wait + Sync>(
    rt: &R,
    alloc: Global,
    request: &EngineRequest,
    interface: &mut Interface<I, O>,
    host: &mut H,
) -> Failures
where
    H::EngineSink: ClosableSink,
    requires arguments { 0 < length request.now.engine.items }
    requires unused { HostIsUnused (H.ledger host.old) }
    ensures leaves { TapLeaves (O.is_sink_closed interface.new.output)
        (WasSinkClosed H.EngineSink.state H.EngineSink.is_sink_closed)
        (outside_of I.state O.state H.faults H.ledger interface.old host.old)
        (outside_of I.state O.state H.faults H.ledger interface.new host.new)
        result }
    ensures asked { AsksFor (map string_bytes request.now.engine.items)
        (log_file (string_bytes request.now.log_name))
        (H.asked host.old) (H.asked host.new) (H.ledger host.new) result }
{
    match start(rt, alloc, request.engine.as_slice(), host) {
        Ok(ready) => { run_started(rt, alloc, ready, request.log_name.as_str(), interface, host) }
        Err(failures) => failures,
    }
}
