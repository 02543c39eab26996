// From one life to the next.
ghost use Rattle.std.specs.Prelude.{◌≡◌, ◌≤◌, ◌<◌, ◌+◌, length, map, string_bytes, true, false};
ghost use Rattle.std.specs.VecDeque.{deque_len, deque_capacity};
ghost use Rattle.line_io.specs.Event.{event_of, EngineLong};
ghost use Rattle.engine_revival.specs.Calls as calls;
ghost use Rattle.engine_revival.specs.Calls.{may_call, revival_after, up_of, child_of};
ghost use Rattle.engine_revival.specs.Steps.{is_alive};
ghost use Rattle.engine_revival.specs.declared.script.TheConstants.{EVENT_ROOM};
ghost use Rattle.reviver_runner.specs.Messages.{events_sent};
ghost use Rattle.event_pipe.specs.Message.{is_good};
ghost use Rattle.program_lifecycle.specs.Asked.{StartsEngines};
ghost use Rattle.script_lines.specs.StepText.{marks_of_written};
ghost use Rattle.program_lifecycle.specs.Streams.{sinks, log_state, Offered};
ghost use Rattle.reviver_runner.specs.Looped.{KeepsMarks, Offers, loop_reports};
ghost use Rattle.reviver_runner.specs.Lives.{LifeGoesOn, Ended, LivesOn, Continues, Hands, host_shown, is_failed_start, lives_in};
ghost use Rattle.reviver_runner.specs.Parts.{ReviverPartsAreReady, ReviverKeepsEnds};

use crate::lives::AllRuns;
use crate::parts::ReviverParts;
use crate::{LifeRun, RevivalLoop, offer_all, one_life};
use child_engine::{ClosableSink, Host, HostFault, Started};
use line_io::{Event, NullSink, Sink};
use program_lifecycle::LoopEnd;
use std::alloc::Global;
use std::collections::VecDeque;
use std::sync::Wait;
use std::thread::Threads;

/// The sequel to a life.
pub(crate) enum NextLife<S, K> {
    Life(LifeRun<S, K>),
    /// No other life may begin.
    Over,
    /// Another life might begin, but the host did not start it.
    Refused(HostFault),
}

// Begins another life, and offers what its beginning gives. Nothing was written to it before.
fn offer_begin<K: Sink, O: Sink, L: Sink>(
    looping: &mut RevivalLoop<L>,
    child: &mut K,
    output: &mut O,
)
    requires may { may_call looping.old.revival.state calls.Begin ≡ true }
    requires room { EVENT_ROOM ≤ looping.old.marks.text.room }
    ensures from { looping.new.from ≡ looping.old.from }
    ensures marks { KeepsMarks looping.old.marks looping.new.marks }
    ensures state { looping.new.revival.state ≡ revival_after looping.old.revival.state
        calls.Begin }
    ensures offers { Offers (up_of looping.old.revival.state calls.Begin)
        (child_of looping.old.revival.state calls.Begin)
        (marks_of_written EngineLong (up_of looping.old.revival.state calls.Begin)
        (child_of looping.old.revival.state calls.Begin))
        (sinks (O.state output.old) (K.state child.old) (log_state L.state looping.old.marks.log))
        (sinks (O.state output.new) (K.state child.new) (log_state L.state looping.new.marks.log))
        (record looping.old.failed { engine = false }) looping.new.failed }
{
    let RevivalLoop {
        revival,
        from: _,
        marks,
        failed,
    } = looping;
    let fresh = LoopEnd {
        engine: false,
        ..*failed
    };
    let both = revival.begin();
    *failed = offer_all(&Event::EngineLong, both, child, output, marks, fresh);
}

// Ends the lives, and offers what follows of it. The mark is that of the last life's end.
fn offer_over<O: Sink, L: Sink>(looping: &mut RevivalLoop<L>, mark: &Event, output: &mut O)
    requires may { may_call looping.old.revival.state calls.Over ≡ true }
    requires good { is_good (event_of mark.now) ≡ true }
    requires room { EVENT_ROOM ≤ looping.old.marks.text.room }
    ensures from { looping.new.from ≡ looping.old.from }
    ensures marks { KeepsMarks looping.old.marks looping.new.marks }
    ensures state { looping.new.revival.state ≡ revival_after looping.old.revival.state calls.Over }
    ensures output { Offered looping.old.failed.output looping.new.failed.output
        (O.state output.old) (O.state output.new) (up_of looping.old.revival.state calls.Over) }
    ensures log { Offered looping.old.failed.log looping.new.failed.log
        (log_state L.state looping.old.marks.log) (log_state L.state looping.new.marks.log)
        (marks_of_written (event_of mark.now) (up_of looping.old.revival.state calls.Over)
        (child_of looping.old.revival.state calls.Over)) }
{
    let RevivalLoop {
        revival,
        from: _,
        marks,
        failed,
    } = looping;
    let both = revival.over();
    let mut nobody = NullSink::new();
    *failed = offer_all(mark, both, &mut nobody, output, marks, *failed);
}

// The sequel to a life's end: another life, or none.
#[tactic(auto, using(program_lifecycle::proofs::Asked::starts_none, program_lifecycle::proofs::Asked::starts_one, program_lifecycle::proofs::Asked::starts_failed))]
fn after_life<O: Sink, H: Host>(
    alloc: Global,
    arguments: &[String],
    host: &mut H,
    processes: &mut VecDeque<H::EngineProcess>,
    looping: &mut RevivalLoop<H::Log>,
    output: &mut O,
) -> NextLife<H::EngineSource, H::EngineSink>
    requires alive { is_alive looping.old.revival.state.life ≡ true }
    requires arguments { 0 < length arguments.now }
    requires few { (H.ledger host.old).runs_out < 10 }
    requires room { EVENT_ROOM ≤ looping.old.marks.text.room }
    requires space { deque_len processes.old < deque_capacity processes.old }
    ensures space { deque_capacity processes.new ≡ deque_capacity processes.old }
    ensures processes { deque_len processes.new ≡ deque_len processes.old + lives_in result }
    ensures from { looping.new.from ≡ looping.old.from }
    ensures marks { KeepsMarks looping.old.marks looping.new.marks }
    ensures ended { Ended H.EngineSource.state H.EngineSink.state
        (H.ledger host.old).says (H.ledger host.old).sinks_report
        (loop_reports O.state H.Log.state looping.old output.old)
        (loop_reports O.state H.Log.state looping.new output.new) result }
    ensures host { Hands (host_shown H.ledger H.faults H.asked host.old)
        (host_shown H.ledger H.faults H.asked host.new) result }
    ensures asked { StartsEngines (map string_bytes arguments.now) (H.asked host.old) (H.asked
        host.new)
        (H.ledger host.old) (H.ledger host.new) (is_failed_start result) }
{
    if !looping.revival.ended() {
        offer_over(looping, &Event::EngineLong, output);
        return NextLife::Over;
    }
    match host.start(alloc, arguments) {
        Ok(run) => {
            let Started {
                source,
                mut sink,
                process,
            } = run;
            processes.push_back_reserved(process);
            offer_begin(looping, &mut sink, output);
            NextLife::Life(LifeRun { source, sink })
        }
        Err(fault) => {
            offer_over(looping, &Event::EngineEnd, output);
            NextLife::Refused(fault)
        }
    }
}

// One life, and what follows of its end.
pub(crate) fn life_turn<O: Sink + Send, H: Host, R: Threads + Wait + Sync>(
    rt: &R,
    host: &mut H,
    run: LifeRun<H::EngineSource, H::EngineSink>,
    runs: &mut AllRuns<H::EngineSource, H::EngineSink>,
    parts: &mut ReviverParts<H::Log, H::EngineProcess>,
    output: &mut O,
) -> NextLife<H::EngineSource, H::EngineSink>
where
    H::EngineSource: Drop,
    H::EngineSink: ClosableSink + Drop,
    H::EngineProcess: Drop,
    requires arguments { 0 < length runs.old.arguments.items }
    requires few { (H.ledger host.old).runs_out < 10 }
    requires space { deque_len runs.old.ended < deque_capacity runs.old.ended }
    requires ready { ReviverPartsAreReady parts.old }
    requires room { deque_len parts.old.processes < deque_capacity parts.old.processes }
    requires goes { LifeGoesOn parts.old.looping.revival.state (deque_len runs.old.ended) }
    ensures keeps { ReviverKeepsEnds parts.old parts.new }
    ensures processes { deque_len parts.new.processes
        ≡ deque_len parts.old.processes + lives_in result }
    ensures arguments { runs.new.arguments ≡ runs.old.arguments }
    ensures space { deque_capacity runs.new.ended ≡ deque_capacity runs.old.ended }
    ensures lived { LivesOn H.EngineSource.state H.EngineSink.state
        (H.ledger host.old).says (H.ledger host.old).sinks_report
        (loop_reports O.state H.Log.state parts.old.looping output.old)
        (loop_reports O.state H.Log.state parts.new.looping output.new)
        (events_sent parts.old.to) (events_sent parts.new.to) runs.old.ended.items
        runs.new.ended.items
        runs.old.tally runs.new.tally run result }
    ensures next { Continues parts.new.looping.revival.state (deque_len runs.new.ended) result }
    ensures host { Hands (host_shown H.ledger H.faults H.asked host.old)
        (host_shown H.ledger H.faults H.asked host.new) result }
    ensures asked { StartsEngines (map string_bytes runs.old.arguments.items)
        (H.asked host.old) (H.asked host.new)
        (H.ledger host.old) (H.ledger host.new) (is_failed_start result) }
{
    let ReviverParts {
        alloc,
        to,
        looping,
        processes,
    } = parts;
    let AllRuns {
        arguments,
        first: _,
        ended,
        tally,
    } = runs;
    let mut run = run;
    let end = one_life(rt, *alloc, looping, to, &mut run, output);
    *tally = tally.with(end, looping.failed.engine);
    ended.push_back_reserved(run);
    after_life(
        *alloc,
        arguments.as_slice(),
        host,
        processes,
        looping,
        output,
    )
}
