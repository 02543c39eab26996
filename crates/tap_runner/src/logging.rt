// The log: what goes through the channel, in the order in which it comes.
ghost use Rattle.std.specs.Prelude.{◌≡◌, ◌≤◌, ◌&&◌, ◌++◌, ◌∷◌, ◌+◌, [], length, is_some};
ghost use Rattle.event_pipe.specs.Ends.{IsFreshReceiver, KeepsReceiver, messages_taken};
ghost use Rattle.program_lifecycle.specs.Streams.{log_state, Offered};
ghost use Rattle.tap_runner.specs.Marks.{log_of_message};
ghost use Rattle.tap_runner.specs.Logging.{Logged, tap_ends_after, mark_length};
ghost use Rattle.line_io.specs.Lines.{line_feed};
ghost use Rattle.tap_runner.specs.declared.part.TheConstants.{MARK_ROOM};
ghost use Rattle.tap_runner.specs.declared.logging.TheConstants.{LOG_ROOM};

use crate::{TapMark, TapMessage};
use event_pipe::{Peer, PipeTake};
use line_io::{Out, PEER_LINE, Sink};
use program_lifecycle::offer_log;
use std::sync::Wait;

/// The room for a mark in the log.
pub const LOG_ROOM: usize = PEER_LINE + 1;

/// The sides that have ended.
#[derive(Clone, Copy)]
pub struct EndedSides {
    pub bridge: bool,
    pub engine: bool,
}

impl EndedSides {
    // The same after a message.
    fn after(self, message: &TapMessage) -> EndedSides
        ensures { result ≡ tap_ends_after self message.now }
    {
        match (message.peer, &message.mark) {
            (Peer::Iface, TapMark::End) => EndedSides {
                bridge: true,
                engine: self.engine,
            },
            (Peer::Engine, TapMark::End) => EndedSides {
                bridge: self.bridge,
                engine: true,
            },
            _ => self,
        }
    }

    fn have_both_come(self) -> bool
        ensures { result ≡ (self.bridge && self.engine) }
    {
        self.bridge && self.engine
    }
}

// A mark, on a line of its own.
fn put_mark(text: &mut Out, mark: &[u8])
    requires empty { text.old.text ≡ [] }
    requires room { length mark.now + 1 ≤ text.old.room }
    ensures text { text.new.text ≡ mark.now ++ line_feed ∷ [] }
    ensures room { text.new.room ≡ text.old.room }
{
    text.put(mark);
    text.put(b"\n");
}

// The log's text for a message.
fn put_logged(text: &mut Out, message: &TapMessage)
    requires short { mark_length message.now.mark ≤ MARK_ROOM }
    requires room { LOG_ROOM ≤ text.old.room }
    ensures text { text.new.text ≡ log_of_message message.now }
    ensures room { text.new.room ≡ text.old.room }
{
    text.clear();
    match (message.peer, &message.mark) {
        (_, TapMark::Line(mark)) => put_mark(text, mark.bytes()),
        (Peer::Iface, TapMark::Long) => text.put(b"x!\n"),
        (Peer::Iface, TapMark::End) => text.put(b"x.\n"),
        (Peer::Engine, TapMark::Long) => text.put(b"u!\n"),
        (Peer::Engine, TapMark::End) => text.put(b"u.\n"),
    }
}

// Offers the log what stands in it for a message.
fn log_message<L: Sink>(
    log: &mut Option<L>,
    message: &TapMessage,
    text: &mut Out,
    failed: bool,
) -> bool
    requires short { mark_length message.now.mark ≤ MARK_ROOM }
    requires room { LOG_ROOM ≤ text.old.room }
    ensures offered { Offered failed result (log_state L.state log.old)
        (log_state L.state log.new) (log_of_message message.now) }
    ensures kept { is_some log.new ≡ is_some log.old }
    ensures room { text.new.room ≡ text.old.room }
{
    put_logged(text, message);
    offer_log(log, text.bytes(), failed)
}

/// Writes what comes through the channel into the log, until both sides have ended, and reports
/// whether that failed.
pub fn keep_log<L: Sink, R: Wait>(
    rt: &R,
    from: &mut PipeTake<TapMessage>,
    log: &mut Option<L>,
    text: &mut Out,
) -> bool
    requires receiving_end { IsFreshReceiver from.old }
    requires room { LOG_ROOM ≤ text.old.room }
    ensures receiving_end { KeepsReceiver from.old from.new }
    ensures kept { is_some log.new ≡ is_some log.old }
    ensures logged { Logged (messages_taken from.new)
        (log_state L.state log.old) (log_state L.state log.new) result }
{
    let mut failed = false;
    let mut ends = EndedSides {
        bridge: false,
        engine: false,
    };
    for _ in rt.forever() {
        if ends.have_both_come() {
            return failed;
        }
        let message = from.take(rt);
        ends = ends.after(&message);
        failed = log_message(log, &message, text, failed);
    }
    unreachable!()
}
