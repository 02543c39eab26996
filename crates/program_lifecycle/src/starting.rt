// The start of an engine.
ghost use Rattle.std.specs.Prelude.{◌≡◌, ◌<◌, length, map, string_bytes, IfOk, IfErr, OnOk, OnErr};
ghost use Rattle.child_engine.specs.Asked.{and_engines};
ghost use Rattle.child_engine.specs.Hosts.{HostIsUnused, fresh_source, fresh_sink, with_run};
ghost use Rattle.program_lifecycle.specs.Asked.{engines_asked_by};
ghost use Rattle.program_lifecycle.specs.Early.{FailuresAreEarly};

use crate::{Failures, TriedThreads, only_memory, only_start};
use child_engine::{Host, HostFault, Started};
use std::alloc::Global;
use std::thread::Threads;

/// Starts an engine, if the system gives the threads of its run.
pub fn start_engine<H: Host, R: Threads>(
    rt: &R,
    alloc: Global,
    arguments: &[String],
    host: &mut H,
) -> Result<Started<H::EngineSource, H::EngineSink, H::EngineProcess>, Failures>
    requires arguments { 0 < length arguments.now }
    requires unused { HostIsUnused (H.ledger host.old) }
    ensures source { IfOk result (λ run.
        H.EngineSource.state run.source ≡ fresh_source (H.ledger host.old).says) }
    ensures sink { IfOk result (λ run.
        H.EngineSink.state run.sink ≡ fresh_sink (H.ledger host.old).sinks_report) }
    ensures ledger { OnOk result (H.ledger host.new ≡ with_run (H.ledger host.old)) }
    ensures faults { OnOk result (H.faults host.new ≡ H.faults host.old) }
    ensures unstarted { OnErr result (H.ledger host.new ≡ H.ledger host.old) }
    ensures asked { H.asked host.new
        ≡ and_engines (engines_asked_by result) (map string_bytes arguments.now) (H.asked
        host.old) }
    ensures early { IfErr result (FailuresAreEarly (H.faults host.old) (H.faults host.new)) }
{
    let threads = TriedThreads::ask(rt);
    if !threads.were_given() {
        threads.join(rt);
        return Err(only_memory());
    }
    let started = host.start(alloc, arguments);
    threads.join(rt);
    match started {
        Ok(run) => Ok(run),
        Err(HostFault::NoMemory) => Err(only_memory()),
        Err(HostFault::Failed) => Err(only_start()),
    }
}
