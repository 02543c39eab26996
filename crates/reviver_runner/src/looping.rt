// The loop of a life: each event that comes is heard by the revival, whose lines go up, to the life
// and into the log.
ghost use Rattle.std.specs.Prelude.{◌≡◌, ◌≤◌, is_some, true, false};
ghost use Rattle.line_io.specs.Event.{event_of};
ghost use Rattle.line_io.specs.Source.{Received};
ghost use Rattle.script_lines.specs.StepText.{marks_of_written};
ghost use Rattle.engine_revival.specs.Marks.{HaveRoom};
ghost use Rattle.engine_revival.specs.Script.{may_happen, revival_state_after, revival_event_text};
ghost use Rattle.engine_revival.specs.Steps.{is_alive};
ghost use Rattle.engine_revival.specs.declared.script.TheConstants.{EVENT_ROOM};
ghost use Rattle.event_pipe.specs.Message.{is_good};
ghost use Rattle.program_lifecycle.specs.Streams.{sinks, log_state};
ghost use Rattle.reviver_runner.specs.Looped.{IsReadyLoop, KeepsLoop, KeepsMarks, Offers, LoopState, loop_reports, Going, GoesOrEnds, LoopedLife};
ghost use Rattle.reviver_runner.specs.Played.{event_up, event_child, is_heard};

use crate::LifeMessage;
use child_engine::ClosableSink;
use engine_revival::{Revival, RevivalStep, put_marks};
use event_pipe::PipeTake;
use line_io::{Event, Out, Sink};
use program_lifecycle::{LoopEnd, offer, offer_log};
use std::sync::Wait;

/// A log that may be missing, and the room for the marks of an event.
#[derive(Drop)]
pub struct MarkedLog<L> {
    pub log: Option<L>,
    pub text: Out,
}

/// The hearer of the lives of an engine: the revival, the end of the channel that it hears by, the log,
/// and which sinks have failed.
#[derive(Drop)]
pub struct RevivalLoop<L> {
    pub revival: Revival,
    pub from: PipeTake<LifeMessage>,
    pub marks: MarkedLog<L>,
    pub failed: LoopEnd,
}

/// Offers the lines that a call gave for an event to the life and to the interface, and then the
/// marks of both to the log, which nobody waits for; each unless it failed before.
pub fn offer_all<K: Sink, O: Sink, L: Sink>(
    event: &Event,
    both: RevivalStep,
    child: &mut K,
    output: &mut O,
    marks: &mut MarkedLog<L>,
    failed: LoopEnd,
) -> LoopEnd
    requires good { is_good (event_of event.now) ≡ true }
    requires marks { HaveRoom both.up.now both.child.now }
    requires room { EVENT_ROOM ≤ marks.old.text.room }
    ensures offers { Offers both.entry.up.now both.entry.child.now
        (marks_of_written (event_of event.now) both.entry.up.now both.entry.child.now)
        (sinks (O.state output.old) (K.state child.old) (log_state L.state marks.old.log))
        (sinks (O.state output.new) (K.state child.new) (log_state L.state marks.new.log))
        failed result }
    ensures keeps { KeepsMarks marks.old marks.new }
{
    let MarkedLog { log, text } = marks;
    text.clear();
    put_marks(event, both, text);
    LoopEnd {
        engine: offer(child, both.child, failed.engine),
        output: offer(output, both.up, failed.output),
        log: offer_log(log, text.bytes(), failed.log),
    }
}

/// Has the revival hear an order or a line, and offers what it gives.
pub fn hear<K: Sink, O: Sink, L: Sink>(
    revival: &mut Revival,
    event: &Event,
    child: &mut K,
    output: &mut O,
    marks: &mut MarkedLog<L>,
    failed: LoopEnd,
) -> LoopEnd
    requires may { may_happen revival.old.state (event_of event.now) ≡ true }
    requires heard { is_heard (event_of event.now) ≡ true }
    requires good { is_good (event_of event.now) ≡ true }
    requires room { EVENT_ROOM ≤ marks.old.text.room }
    ensures state { revival.new.state ≡ revival_state_after revival.old.state (event_of event.now) }
    ensures offers { Offers (event_up revival.old.state (event_of event.now))
        (event_child revival.old.state (event_of event.now))
        (revival_event_text revival.old.state (event_of event.now))
        (sinks (O.state output.old) (K.state child.old) (log_state L.state marks.old.log))
        (sinks (O.state output.new) (K.state child.new) (log_state L.state marks.new.log))
        failed result }
    ensures keeps { KeepsMarks marks.old marks.new }
{
    match event {
        Event::Iface(line) => {
            let both = revival.order(line);
            offer_all(event, both, child, output, marks, failed)
        }
        Event::IfaceEnd => {
            let both = revival.order(b"quit");
            offer_all(event, both, child, output, marks, failed)
        }
        Event::Engine(line) => {
            let both = revival.heard(line);
            offer_all(event, both, child, output, marks, failed)
        }
        _ => failed,
    }
}

// Once `quit` was accepted nothing more is written to the life: its input is closed, so that it can
// end also if it got no order.
fn close_sink_at_quit<K: ClosableSink>(revival: &Revival, child: &mut K)
    ensures shown { K.state child.new ≡ K.state child.old }
    ensures close_sink { revival.now.state.quit ≡ true → K.is_sink_closed child.new }
    ensures kept { revival.now.state.quit ≡ false → child.new ≡ child.old }
{
    if revival.has_quit() {
        child.close_sink();
    }
}

// Takes a message and has the revival hear its event. It reports whether the life goes on.
fn hear_next<K: ClosableSink, O: Sink, L: Sink, R: Wait>(
    rt: &R,
    looping: &mut RevivalLoop<L>,
    child: &mut K,
    output: &mut O,
) -> bool
    requires alive { is_alive looping.old.revival.state.life ≡ true }
    requires ready { IsReadyLoop looping.old }
    ensures keeps { KeepsLoop looping.old looping.new }
    ensures alive { is_alive looping.new.revival.state.life ≡ true }
    ensures close_sink { (looping.old.revival.state.quit ≡ true → K.is_sink_closed child.old)
        → looping.new.revival.state.quit ≡ true → K.is_sink_closed child.new }
    ensures next { (first : LoopState) (sink : Received)
        → Going first (loop_reports O.state L.state looping.old output.old) sink (K.state child.old)
        → GoesOrEnds result first (loop_reports O.state L.state looping.new output.new)
        sink (K.state child.new) }
{
    let RevivalLoop {
        revival,
        from,
        marks,
        failed,
    } = looping;
    let message = from.take(rt);
    match message.heard() {
        Some(event) => {
            *failed = hear(revival, &event, child, output, marks, *failed);
            close_sink_at_quit(revival, child);
            true
        }
        None => !message.is_life_end(),
    }
}

/// Has the revival hear each event that comes, until the life's end is taken. The interface's long
/// lines are ignored.
pub(crate) fn life_loop<K: ClosableSink, O: Sink, L: Sink, R: Wait>(
    rt: &R,
    looping: &mut RevivalLoop<L>,
    child: &mut K,
    output: &mut O,
)
    requires alive { is_alive looping.old.revival.state.life ≡ true }
    requires ready { IsReadyLoop looping.old }
    ensures keeps { KeepsLoop looping.old looping.new }
    ensures alive { is_alive looping.new.revival.state.life ≡ true }
    ensures close_sink { looping.old.revival.state.quit ≡ false
        → looping.new.revival.state.quit ≡ true → K.is_sink_closed child.new }
    ensures looped { LoopedLife (loop_reports O.state L.state looping.old output.old)
        (loop_reports O.state L.state looping.new output.new) (K.state child.old)
        (K.state child.new) }
{
    for _ in rt.forever() {
        if !hear_next(rt, looping, child, output) {
            return;
        }
    }
    unreachable!()
}
