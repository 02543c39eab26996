// A log that may be missing.
ghost use Rattle.std.specs.Prelude.{◌≡◌, ◌+◌, ◌++◌, length, true, None};
ghost use Rattle.event_pipe.specs.Counts.{CountsFault};
ghost use Rattle.child_engine.specs.Asked.{and_logs};
ghost use Rattle.child_engine.specs.Hosts.{RisesBy};
ghost use Rattle.child_engine.specs.Places.{asked_place};
ghost use Rattle.program_lifecycle.specs.Streams.{log_state};
ghost use Rattle.program_lifecycle.specs.Asked.{logs_asked_by};
ghost use Rattle.program_lifecycle.specs.Logs.{log_count, fresh_log, shown_logs, is_failed, is_no_memory};

use child_engine::{Host, HostFault, LogPlace};
use std::alloc::Global;

/// A log, or why there is none.
pub struct Opened<L> {
    pub log: Option<L>,
    pub fault: Option<HostFault>,
}

/// Opens the log at this place. A log that cannot be opened is left out.
pub fn open_log<H: Host>(host: &mut H, alloc: Global, place: &LogPlace) -> Opened<H::Log>
    requires { (H.ledger host.old).logs_out ≡ 0 }
    ensures ledger { H.ledger host.new
        ≡ record (H.ledger host.old) { logs_out = log_count result.log } }
    ensures asked { H.asked host.new
        ≡ and_logs (logs_asked_by result.fault) (asked_place place.now) (H.asked host.old) }
    ensures fresh { log_state H.Log.state result.log
        ≡ fresh_log (H.ledger host.old).sinks_report (log_count result.log) }
    ensures cause { CountsFault (H.faults host.old).logs (H.faults host.new).logs
        (is_failed result.fault) }
    ensures others { H.faults host.new
        ≡ record (H.faults host.old) { logs = (H.faults host.new).logs } }
    ensures some { result.fault ≡ None → log_count result.log ≡ 1 }
    ensures none { is_no_memory result.fault ≡ true → log_count result.log ≡ 0 }
{
    match host.open_log(alloc, place) {
        Ok(log) => Opened {
            log: Some(log),
            fault: None,
        },
        Err(fault) => Opened {
            log: None,
            fault: Some(fault),
        },
    }
}

/// Hands a log back to its host, if there is one.
pub fn close_log<H: Host>(host: &mut H, log: Option<H::Log>)
    requires { length (H.ledger host.old).logs + log_count log ≡ (H.ledger host.old).logs_out }
    ensures ledger { H.ledger host.new ≡ record (H.ledger host.old)
        { logs = (H.ledger host.old).logs ++ shown_logs H.Log.state log } }
    ensures asked { H.asked host.new ≡ H.asked host.old }
    ensures cause { RisesBy (log_state H.Log.state log).faults
        (H.faults host.old).logs (H.faults host.new).logs }
    ensures others { H.faults host.new
        ≡ record (H.faults host.old) { logs = (H.faults host.new).logs } }
{
    if let Some(log) = log {
        host.close_log(log);
    }
}

/// True if opening the log failed, other than by lack of memory.
pub fn is_open_failure(fault: Option<HostFault>) -> bool
    ensures { result ≡ is_failed fault }
{
    matches!(fault, Some(HostFault::Failed))
}

/// True if there was no memory to open the log.
pub fn is_open_memory(fault: Option<HostFault>) -> bool
    ensures { result ≡ is_no_memory fault }
{
    matches!(fault, Some(HostFault::NoMemory))
}
