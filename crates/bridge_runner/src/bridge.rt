// One run of the bridge.
ghost use Rattle.std.specs.Prelude.{◌<◌, length, map, string_bytes};
ghost use Rattle.policy_rules.specs.SettingRules.Policy.{IsProper};
ghost use Rattle.child_engine.specs.Hosts.{HostIsUnused};
ghost use Rattle.child_engine.specs.Places.{asked_place};
ghost use Rattle.program_lifecycle.specs.Asked.{AsksFor};
ghost use Rattle.program_lifecycle.specs.Outside.{outside_of};
ghost use Rattle.event_loop.specs.First.{AreOpening};
ghost use Rattle.bridge_runner.specs.Bridged.{BridgeLeaves};

use crate::Session;
use child_engine::Host;
use event_loop::{RunRequest, run_mediator};
use line_io::{Sink, Source};
use policy_rules::Settings;
use program_lifecycle::{Failures, Interface, only_memory};
use std::alloc::Global;
use std::sync::Wait;
use std::thread::Threads;

/// Starts the engine, opens the log, runs both pipes, and closes the run and the log. A log that
/// cannot be opened is left out. The first lines are stepped as the interface's, right after Open.
pub fn bridge_run<I: Source + Send, O: Sink + Send, H: Host, R: Threads + Wait + Sync>(
    rt: &R,
    alloc: Global,
    settings: &Settings,
    request: &RunRequest,
    interface: &mut Interface<I, O>,
    host: &mut H,
) -> Failures
    requires proper { IsProper settings.now }
    requires first { AreOpening request.now.first.now }
    requires arguments { 0 < length request.now.engine.now }
    requires unused { HostIsUnused (H.ledger host.old) }
    ensures leaves { BridgeLeaves settings.now request.now.first.now
        (outside_of I.state O.state H.faults H.ledger interface.old host.old)
        (outside_of I.state O.state H.faults H.ledger interface.new host.new)
        result }
    ensures asked { AsksFor (map string_bytes request.now.engine.now) (asked_place request.now.log)
        (H.asked host.old) (H.asked host.new) (H.ledger host.new) result }
{
    match Session::make(alloc, settings) {
        Ok(session) => run_mediator(rt, alloc, session, request, interface, host),
        Err(_) => only_memory(),
    }
}
