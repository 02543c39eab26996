// A run of the bridge, and what holds of it by the laws of lawful traces.
ghost use Rattle.std.specs.Prelude.{◌≡◌, ◌<◌, length, map, string_bytes};
ghost use Rattle.policy_rules.specs.SettingRules.Policy.{IsProper};
ghost use Rattle.child_engine.specs.Hosts.{HostIsUnused};
ghost use Rattle.child_engine.specs.Places.{asked_place};
ghost use Rattle.program_lifecycle.specs.Asked.{AsksFor};
ghost use Rattle.program_lifecycle.specs.Outside.{outside_of};
ghost use Rattle.event_loop.specs.First.{AreOpening};
ghost use Rattle.bridge_runner.specs.Program.{BridgeRuns};

use crate::bridge_run;
use child_engine::Host;
use event_loop::RunRequest;
use line_io::{Sink, Source};
use policy_rules::Settings;
use program_lifecycle::{Failures, Interface};
use std::alloc::Global;
use std::sync::Wait;
use std::thread::Threads;
use trace_laws::laws_hold;
use trace_scripts::scripts_have_one_trace;

/// The run of a bridge with these settings, whose interface says the first lines before all that
/// the input gives.
pub fn run_bridge<I: Source + Send, O: Sink + Send, H: Host, R: Threads + Wait + Sync>(
    rt: &R,
    alloc: Global,
    settings: &Settings,
    request: &RunRequest,
    interface: &mut Interface<I, O>,
    host: &mut H,
) -> Failures
    requires proper { IsProper settings.now }
    requires first { AreOpening request.now.first.now }
    requires engine { 0 < length request.now.engine.now }
    requires unused { HostIsUnused (H.ledger host.old) }
    ensures runs { BridgeRuns settings.now request.now.first.now
        (outside_of I.state O.state H.faults H.ledger interface.old host.old)
        (outside_of I.state O.state H.faults H.ledger interface.new host.new)
        result }
    ensures asked { AsksFor (map string_bytes request.now.engine.now) (asked_place request.now.log)
        (H.asked host.old) (H.asked host.new) (H.ledger host.new) result }
{
    laws_hold(*settings);
    scripts_have_one_trace(*settings);
    bridge_run(rt, alloc, settings, request, interface, host)
}
