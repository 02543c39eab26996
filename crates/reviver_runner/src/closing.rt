// Closing the runs.
ghost use Rattle.std.specs.Prelude.{◌≡◌, ◌+◌, length};
ghost use Rattle.program_lifecycle.specs.Logs.{log_count, shown_logs};
ghost use Rattle.program_lifecycle.specs.Streams.{log_state};
ghost use Rattle.reviver_runner.specs.Closing.{ClosesAll, ClosesEverything, HasClosed, run_source_faults, run_sink_faults, shown_runs};

use crate::LifeRun;
use child_engine::{Host, Started};
use program_lifecycle::{close_log, either};
use std::collections::VecDeque;

// Closes the runs in their order, and reports whether waiting for one failed.
fn close_all<H: Host>(
    host: &mut H,
    runs: VecDeque<LifeRun<H::EngineSource, H::EngineSink>>,
    processes: VecDeque<H::EngineProcess>,
) -> bool
where
    H::EngineSource: Drop,
    H::EngineSink: Drop,
    H::EngineProcess: Drop,
    requires processes { length processes.items ≡ length runs.items }
    requires out { length (H.ledger host.old).runs + length runs.items
        ≡ (H.ledger host.old).runs_out }
    ensures ledger { HasClosed (H.ledger host.old) (H.ledger host.new)
        (shown_runs H.EngineSource.state H.EngineSink.state runs.items) }
    ensures counts { ClosesAll (H.faults host.old) (H.faults host.new)
        (run_source_faults H.EngineSource.state runs.items)
        (run_sink_faults H.EngineSink.state runs.items) result }
    ensures asked { H.asked host.new ≡ H.asked host.old }
{
    let mut left = runs;
    let mut processes = processes;
    let mut failed = false;
    while let Some(run) = left.pop_front() {
        let Some(process) = processes.pop_front() else {
            unreachable!()
        };
        let LifeRun { source, sink } = run;
        let waited = host.close(Started {
            source,
            sink,
            process,
        });
        failed = either(failed, waited.is_err());
    }
    failed
}

/// Closes the runs in their order, and then the log if there is one, and reports whether waiting for
/// a run failed.
pub(crate) fn close_everything<H: Host>(
    host: &mut H,
    runs: VecDeque<LifeRun<H::EngineSource, H::EngineSink>>,
    processes: VecDeque<H::EngineProcess>,
    log: Option<H::Log>,
) -> bool
where
    H::EngineSource: Drop,
    H::EngineSink: Drop,
    H::EngineProcess: Drop,
    requires processes { length processes.items ≡ length runs.items }
    requires out { length (H.ledger host.old).runs + length runs.items
        ≡ (H.ledger host.old).runs_out }
    requires logs { length (H.ledger host.old).logs + log_count log ≡ (H.ledger host.old).logs_out }
    ensures closes { ClosesEverything (H.ledger host.old) (H.ledger host.new)
        (H.faults host.old) (H.faults host.new)
        (shown_runs H.EngineSource.state H.EngineSink.state runs.items)
        (run_source_faults H.EngineSource.state runs.items) (run_sink_faults H.EngineSink.state
        runs.items)
        (log_state H.Log.state log).faults (shown_logs H.Log.state log) result }
    ensures asked { H.asked host.new ≡ H.asked host.old }
{
    let failed = close_all(host, runs, processes);
    close_log(host, log);
    failed
}
