// The start of a run: its memory, and the first engine.
ghost use Rattle.std.specs.Prelude.{◌≡◌, ◌≤◌, ◌<◌, length, map, string_bytes, IfOk, IfErr, OnOk, OnErr};
ghost use Rattle.std.specs.VecDeque.{deque_len, deque_capacity};
ghost use Rattle.child_engine.specs.Asked.{and_engines};
ghost use Rattle.child_engine.specs.Hosts.{HostIsUnused, with_run};
ghost use Rattle.program_lifecycle.specs.Asked.{engines_asked_by};
ghost use Rattle.program_lifecycle.specs.Early.{FailuresAreEarly};
ghost use Rattle.reviver_runner.specs.Parts.{IsMade};
ghost use Rattle.reviver_runner.specs.Ran.{MayRun};

use crate::LifeRun;
use crate::lives::{AllRuns, LivesTally};
use crate::parts::{MadeParts, make_parts};
use child_engine::{ClosableSink, Host, Started};
use line_io::NoMemory;
use program_lifecycle::{Failures, only_memory, start_engine};
use std::alloc::Global;
use std::collections::VecDeque;
use std::thread::Threads;

// The parts that a run needs beside its host, and the engine that was started first.
pub(crate) struct ReadyLives<S, K, P> {
    pub made: MadeParts,
    pub runs: AllRuns<S, K>,
    pub processes: VecDeque<P>,
}

// The room of all lives, before an engine is started.
struct LivesRoom<S, K, P> {
    made: MadeParts,
    ended: VecDeque<LifeRun<S, K>>,
    processes: VecDeque<P>,
}

// Takes the memory of a run.
fn make_room<S: Drop, K: Drop, P: Drop>(
    alloc: Global,
    lives: u32,
) -> Result<LivesRoom<S, K, P>, NoMemory>
    ensures made { IfOk result (λ room. IsMade lives room.made) }
    ensures none { IfOk result (λ room. deque_len room.ended ≡ 0) }
    ensures space { IfOk result (λ room. 9 ≤ deque_capacity room.ended) }
    ensures no_process { IfOk result (λ room. deque_len room.processes ≡ 0) }
    ensures room { IfOk result (λ room. 10 ≤ deque_capacity room.processes) }
{
    let ended = VecDeque::with_capacity(alloc, 9)?;
    let processes = VecDeque::with_capacity(alloc, 10)?;
    let made = make_parts(alloc, lives)?;
    Ok(LivesRoom {
        made,
        ended,
        processes,
    })
}

// Takes the memory of a run, and starts the first engine.
pub(crate) fn start<H: Host, R: Threads>(
    rt: &R,
    alloc: Global,
    lives: u32,
    arguments: Vec<String>,
    host: &mut H,
) -> Result<ReadyLives<H::EngineSource, H::EngineSink, H::EngineProcess>, Failures>
where
    H::EngineSource: Drop,
    H::EngineSink: ClosableSink + Drop,
    H::EngineProcess: Drop,
    requires arguments { 0 < length arguments.items }
    requires unused { HostIsUnused (H.ledger host.old) }
    ensures made { IfOk result (λ ready. IsMade lives ready.made) }
    ensures may { IfOk result (λ ready. MayRun H.EngineSource.state H.EngineSink.state
        (H.ledger host.new) ready.runs) }
    ensures arguments { IfOk result (λ ready. ready.runs.arguments ≡ arguments) }
    ensures process { IfOk result (λ ready. deque_len ready.processes ≡ 1) }
    ensures room { IfOk result (λ ready. 10 ≤ deque_capacity ready.processes) }
    ensures ledger { OnOk result (H.ledger host.new ≡ with_run (H.ledger host.old)) }
    ensures faults { OnOk result (H.faults host.new ≡ H.faults host.old) }
    ensures unstarted { OnErr result (H.ledger host.new ≡ H.ledger host.old) }
    ensures asked { H.asked host.new ≡ and_engines (engines_asked_by result)
        (map string_bytes arguments.items) (H.asked host.old) }
    ensures early { IfErr result (FailuresAreEarly (H.faults host.old) (H.faults host.new)) }
{
    let Ok(room) = make_room(alloc, lives) else {
        return Err(only_memory());
    };
    let LivesRoom {
        made,
        ended,
        mut processes,
    } = room;
    match start_engine(rt, alloc, arguments.as_slice(), host) {
        Ok(run) => {
            let Started {
                source,
                sink,
                process,
            } = run;
            processes.push_back_reserved(process);
            let first = Some(LifeRun { source, sink });
            Ok(ReadyLives {
                made,
                runs: AllRuns {
                    arguments,
                    first,
                    ended,
                    tally: LivesTally::none(),
                },
                processes,
            })
        }
        Err(failures) => Err(failures),
    }
}
