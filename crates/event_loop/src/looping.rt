// The loop: the mediator takes each event that comes, and its lines go to both sides and the log.
ghost use Rattle.std.specs.Prelude.{◌≡◌, ◌≤◌, ◌&&◌, ◌++◌, true, is_some};
ghost use Rattle.line_io.specs.Event.{event_of};
ghost use Rattle.line_io.specs.Lines.{piece_of};
ghost use Rattle.event_pipe.specs.Arrivals.{line_limit, piece_event};
ghost use Rattle.event_pipe.specs.Ends.{IsFreshReceiver, KeepsReceiver, messages_taken};
ghost use Rattle.event_pipe.specs.Message.{is_good};
ghost use Rattle.event_pipe.specs.declared.message.Peer.TheVariants as peers;
ghost use Rattle.program_lifecycle.specs.Streams.{sinks_of};
ghost use Rattle.event_loop.specs.First.{AreOpening, first_events};
ghost use Rattle.event_loop.specs.Looped.{Looped};
ghost use Rattle.event_loop.specs.Meaning.{Allows};
ghost use Rattle.event_loop.specs.Reached.{AllOffered, Receives, Stepped, sides_ended_by};
ghost use Rattle.event_loop.specs.declared.mediator.TheConstants.{TURN_ROOM};

use crate::{Mediator, Turns};
use event_pipe::Peer;
use line_io::{Event, PEER_LINE, Sink, split_line};
use program_lifecycle::{LoopEnd, offer, offer_log};
use protocol_tokens::is_quit;
use std::sync::Wait;

/// The sides that have ended.
#[derive(Clone, Copy)]
pub struct Sides {
    pub iface: bool,
    pub engine: bool,
}

impl Sides {
    // The same after an event.
    fn after(self, event: &Event) -> Sides
        ensures { result ≡ sides_ended_by self (event_of event.now) }
    {
        match event {
            Event::Iface(line) => Sides {
                iface: self.iface || is_quit(line),
                engine: self.engine,
            },
            Event::IfaceEnd => Sides {
                iface: true,
                engine: self.engine,
            },
            Event::EngineEnd => Sides {
                iface: self.iface,
                engine: true,
            },
            _ => self,
        }
    }

    fn have_both_ended(self) -> bool
        ensures { result ≡ (self.iface && self.engine) }
    {
        self.iface && self.engine
    }
}

// The output of the last turn is offered: to the log, to the interface and to the engine.
fn offer_turn<M: Mediator, O: Sink, E: Sink, L: Sink>(
    turns: &Turns<M>,
    output: &mut O,
    engine: &mut E,
    log: &mut Option<L>,
    at: LoopEnd,
) -> LoopEnd
    ensures offered { AllOffered (M.means.gave turns.now.mediator peers.Iface)
        (M.means.gave turns.now.mediator peers.Engine) turns.now.text.text
        (sinks_of O.state E.state L.state output.old engine.old log.old)
        (sinks_of O.state E.state L.state output.new engine.new log.new)
        at result }
    ensures kept { is_some log.new ≡ is_some log.old }
{
    let log_failed = offer_log(log, turns.text.bytes(), at.log);
    let output_failed = offer(output, turns.mediator.given(Peer::Iface), at.output);
    let engine_failed = offer(engine, turns.mediator.given(Peer::Engine), at.engine);
    LoopEnd {
        output: output_failed,
        engine: engine_failed,
        log: log_failed,
    }
}

// The mediator takes an event, and what it gives is offered.
fn loop_step<M: Mediator, O: Sink, E: Sink, L: Sink>(
    turns: &mut Turns<M>,
    event: &Event,
    output: &mut O,
    engine: &mut E,
    log: &mut Option<L>,
    at: LoopEnd,
) -> LoopEnd
    requires may { M.means.may turns.old.mediator (event_of event.now) ≡ true }
    requires good { is_good (event_of event.now) ≡ true }
    requires room { TURN_ROOM ≤ turns.old.text.room }
    ensures step { Stepped M.means (event_of event.now) turns.old.mediator turns.new.mediator
        (sinks_of O.state E.state L.state output.old engine.old log.old)
        (sinks_of O.state E.state L.state output.new engine.new log.new)
        at result }
    ensures room { turns.new.text.room ≡ turns.old.text.room }
    ensures receiving_end { turns.new.receiving_end ≡ turns.old.receiving_end }
    ensures kept { is_some log.new ≡ is_some log.old }
{
    turns.text.clear();
    turns.mediator.step(event, &mut turns.text);
    offer_turn(turns, output, engine, log, at)
}

// A received event: the mediator takes it, if it takes such events.
fn receive<M: Mediator, O: Sink, E: Sink, L: Sink>(
    turns: &mut Turns<M>,
    event: &Event,
    output: &mut O,
    engine: &mut E,
    log: &mut Option<L>,
    at: LoopEnd,
) -> LoopEnd
    requires good { is_good (event_of event.now) ≡ true }
    requires room { TURN_ROOM ≤ turns.old.text.room }
    ensures allows { Allows M.means turns.old.mediator (event_of event.now) }
    ensures came { Receives M.means (event_of event.now) turns.old.mediator turns.new.mediator
        (sinks_of O.state E.state L.state output.old engine.old log.old)
        (sinks_of O.state E.state L.state output.new engine.new log.new)
        at result }
    ensures room { turns.new.text.room ≡ turns.old.text.room }
    ensures receiving_end { turns.new.receiving_end ≡ turns.old.receiving_end }
    ensures kept { is_some log.new ≡ is_some log.old }
{
    if !turns.mediator.may(event) {
        return at;
    }
    loop_step(turns, event, output, engine, log, at)
}

// The write to this side failed, and the mediator has not taken that event yet.
fn owes<M: Mediator>(failed: bool, mediator: &M, event: &Event) -> bool
    ensures is { result ≡ (failed && M.means.may mediator.now (event_of event.now)) }
    ensures allows { Allows M.means mediator.now (event_of event.now) }
{
    let may = mediator.may(event);
    failed && may
}

// A line of the interface, as an event.
fn line_event(line: &[u8]) -> Event<'_>
    ensures { event_of result ≡ piece_event peers.Iface (piece_of line_limit line.now) }
{
    if line.len() <= PEER_LINE {
        Event::Iface(line)
    } else {
        Event::IfaceLong
    }
}

/// Has the mediator take the first lines as the interface's and then each event that comes, until
/// both sides have ended.
pub fn mediate<M: Mediator, O: Sink, E: Sink, L: Sink, R: Wait>(
    rt: &R,
    turns: &mut Turns<M>,
    first: &[u8],
    output: &mut O,
    engine: &mut E,
    log: &mut Option<L>,
) -> LoopEnd
    requires mediator { M.means.fresh turns.old.mediator }
    requires first { AreOpening first.now }
    requires receiving_end { IsFreshReceiver turns.old.receiving_end }
    requires room { TURN_ROOM ≤ turns.old.text.room }
    ensures receiving_end { KeepsReceiver turns.old.receiving_end turns.new.receiving_end }
    ensures kept { is_some log.new ≡ is_some log.old }
    ensures looped { Looped M.means turns.old.mediator turns.new.mediator
        (first_events first.now ++ messages_taken turns.new.receiving_end)
        (sinks_of O.state E.state L.state output.old engine.old log.old)
        (sinks_of O.state E.state L.state output.new engine.new log.new)
        result }
{
    turns.text.clear();
    turns.mediator.begin(&mut turns.text);
    let none_failed = LoopEnd {
        output: false,
        engine: false,
        log: false,
    };
    let mut at = offer_turn(turns, output, engine, log, none_failed);
    let mut sides = Sides {
        iface: false,
        engine: false,
    };
    let mut rest = first;
    for _ in rt.forever() {
        if owes(at.output, &turns.mediator, &Event::IfaceLost) {
            at = loop_step(turns, &Event::IfaceLost, output, engine, log, at);
        } else if owes(at.engine, &turns.mediator, &Event::EngineLost) {
            at = loop_step(turns, &Event::EngineLost, output, engine, log, at);
        } else if !rest.is_empty() {
            let (line, after) = split_line(rest);
            let event = line_event(line);
            sides = sides.after(&event);
            at = receive(turns, &event, output, engine, log, at);
            rest = after;
        } else if sides.have_both_ended() {
            return at;
        } else {
            let sent = turns.receiving_end.take(rt);
            let event = sent.event();
            sides = sides.after(&event);
            at = receive(turns, &event, output, engine, log, at);
        }
    }
    unreachable!()
}
