// The mediator between two peers.
ghost use Rattle.std.specs.Prelude.{◌≡◌, ◌+◌, ◌≤◌, length, true};
ghost use Rattle.line_io.specs.Event.{event_of};
ghost use Rattle.event_pipe.specs.Message.{is_good};
ghost use Rattle.event_loop.specs.Meaning.{MediatorMeaning, Opens, MediatorSteps, Allows};
ghost use Rattle.event_loop.specs.declared.mediator.TheConstants.{TURN_ROOM};

use event_pipe::Peer;
use line_io::{Event, Out, SCRIPT_LINE};

/// Room for what is put into the log for a turn, the first among them.
pub const TURN_ROOM: usize = 16 * SCRIPT_LINE + 1_024;

/// The mediator between two peers: it takes one event of them at a time, and gives lines to both.
pub trait Mediator {
    /// Its behaviour, turn by turn.
    ghost means: { MediatorMeaning Self };

    /// Begins, and puts what stands first in the log.
    fn begin(&mut self, text: &mut Out)
        requires fresh { means.fresh self.old }
        requires room { length text.old.text + TURN_ROOM ≤ text.old.room }
        ensures { Opens means self.old text.old self.new text.new };

    /// True if the event may come now.
    fn may(&self, event: &Event) -> bool
        ensures is { result ≡ means.may self.now (event_of event.now) }
        ensures allows { Allows means self.now (event_of event.now) };

    /// Takes the event, and puts for the log what came of it.
    fn step(&mut self, event: &Event, text: &mut Out)
        requires may { means.may self.old (event_of event.now) ≡ true }
        requires good { is_good (event_of event.now) ≡ true }
        requires room { length text.old.text + TURN_ROOM ≤ text.old.room }
        ensures { MediatorSteps means (event_of event.now) self.old text.old self.new text.new };

    /// The lines that the last turn gave to this peer.
    fn given(&self, peer: Peer) -> &[u8]
        ensures { result.now ≡ means.gave self.now peer };
}
