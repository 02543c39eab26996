// The messages of the lives.
ghost use Rattle.std.specs.Prelude.{◌≡◌, true, false, IfSome, IfNone};
ghost use Rattle.line_io.specs.Event.{event_of};
ghost use Rattle.reviver_runner.specs.Messages.{script_event, is_life_end};
ghost use Rattle.reviver_runner.specs.Played.{is_heard, is_order};

use event_pipe::{Bytes, Message, MessageBody, Peer, ReaderMessage};
use line_io::Event;

/// A message of the lives.
#[derive(Drop)]
pub enum LifeMessage {
    /// A line of the interface, a long one, or the interface's end.
    Iface(MessageBody),
    /// A line of the present life.
    Line(Bytes),
    /// The end of the present life.
    LifeEnd,
}

impl Message for LifeMessage {
    ghost use Rattle.reviver_runner.specs.Messages.{life_meaning};

    ghost means = { life_meaning };
}

impl ReaderMessage for LifeMessage {
    ghost use Rattle.std.specs.Prelude.{◌≡◌};
    ghost use Rattle.event_pipe.specs.declared.message.Peer.TheVariants as peers;
    ghost use Rattle.reviver_runner.specs.Messages.{script_event, life_messages_stand};

    ghost event = { script_event };

    ghost may_read = { λ peer. peer ≡ peers.Iface };

    ghost stands = { life_messages_stand };

    fn of_reader(_peer: Peer, what: MessageBody) -> LifeMessage {
        LifeMessage::Iface(what)
    }
}

impl LifeMessage {
    /// The event that the revival hears: an order, the end of the orders, or a line of the life.
    pub(crate) fn heard(&self) -> Option<Event<'_>>
        ensures is { IfSome result (λ e. event_of e ≡ script_event self.now) }
        ensures heard { IfSome result (λ e. is_heard (event_of e) ≡ true) }
        ensures other { IfNone result (is_heard (script_event self.now) ≡ false) }
    {
        match self {
            LifeMessage::Line(line) => Some(Event::Engine(line.bytes())),
            _ => self.order(),
        }
    }

    /// An order or the end of the orders.
    pub(crate) fn order(&self) -> Option<Event<'_>>
        ensures is { IfSome result (λ e. event_of e ≡ script_event self.now) }
        ensures order { IfSome result (λ e. is_order (event_of e) ≡ true) }
        ensures other { IfNone result (is_order (script_event self.now) ≡ false) }
    {
        match self {
            LifeMessage::Iface(MessageBody::Line(line)) => Some(Event::Iface(line.bytes())),
            LifeMessage::Iface(MessageBody::End) => Some(Event::IfaceEnd),
            _ => None,
        }
    }

    /// True for the end of a life.
    pub(crate) fn is_life_end(&self) -> bool
        ensures { result ≡ is_life_end self.now }
    {
        matches!(self, LifeMessage::LifeEnd)
    }
}
