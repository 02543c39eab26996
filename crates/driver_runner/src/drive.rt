// One run of the driver over a host.
ghost use Rattle.std.specs.Prelude.{◌<◌, length, map, string_bytes};
ghost use Rattle.child_engine.specs.Hosts.{HostIsUnused};
ghost use Rattle.child_engine.specs.Places.{log_file};
ghost use Rattle.program_lifecycle.specs.Asked.{AsksFor};
ghost use Rattle.program_lifecycle.specs.Outside.{outside_of};
ghost use Rattle.driver_runner.specs.Driven.{DriverLeaves};

use crate::Driving;
use cecp_driver::Driver;
use child_engine::{Host, LogPlace};
use event_loop::{RunRequest, run_mediator};
use line_io::{Sink, Source};
use program_lifecycle::{Failures, Interface, only_memory};
use std::alloc::Global;
use std::sync::Wait;
use std::thread::Threads;

/// Starts the engine, opens the log, runs both pipes, and closes the run and the log. A log that
/// cannot be opened is left out.
pub fn drive_run<I: Source + Send, O: Sink + Send, H: Host, R: Threads + Wait + Sync>(
    rt: &R,
    alloc: Global,
    log_name: &str,
    arguments: &[String],
    interface: &mut Interface<I, O>,
    host: &mut H,
) -> Failures
    requires arguments { 0 < length arguments.now }
    requires unused { HostIsUnused (H.ledger host.old) }
    ensures leaves { DriverLeaves
        (outside_of I.state O.state H.faults H.ledger interface.old host.old)
        (outside_of I.state O.state H.faults H.ledger interface.new host.new)
        result }
    ensures asked { AsksFor (map string_bytes arguments.now) (log_file log_name.now)
        (H.asked host.old) (H.asked host.new) (H.ledger host.new) result }
{
    match Driver::make(alloc) {
        Ok(driver) => {
            let request = RunRequest {
                first: b"",
                log: LogPlace::File(log_name),
                engine: arguments,
            };
            run_mediator(rt, alloc, Driving { driver }, &request, interface, host)
        }
        Err(_) => only_memory(),
    }
}
