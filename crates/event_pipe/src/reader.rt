// A reader: it sends the lines of its source.
ghost use Rattle.std.specs.Prelude.{◌≡◌, ◌++◌, ◌∷◌, ℕ, List, [], map, true, false, IfOk};
ghost use Rattle.line_io.specs.Lines.{empty_reader};
ghost use Rattle.event_pipe.specs.Message.{sent_event, is_last_event, is_good};
ghost use Rattle.event_pipe.specs.Events.{has_last_event};
ghost use Rattle.event_pipe.specs.Ends.{IsSender, KeepsSender, messages_sent};
ghost use Rattle.event_pipe.specs.Arrivals.{line_limit, ReaderTurnDone, Arrived};
ghost use Rattle.event_pipe.specs.declared.message.MessageBody.TheVariants as says;

use crate::{Bytes, MessageBody, Peer, PipeSend, ReaderMessage};
use line_io::{Item, Lines, PEER_LINE, ReadFault, Source, lines_of_all_calls};
use protocol_tokens::is_quit;
use std::alloc::Global;
use std::sync::Wait;

/// The end of a reader.
#[derive(Clone, Copy, Debug, PartialEq, Eq)]
pub enum ReadEnd {
    /// All that its source has was sent, or all up to the interface's `quit`.
    Done,
    /// Its source failed.
    Fault(ReadFault),
    /// There was no memory for a line.
    NoMemory,
}

/// The outcome of one turn of a reader.
#[derive(Clone, Copy)]
pub enum ReaderTurn {
    More,
    Done,
    Quit,
    Fault,
    NoMemory,
}

// The line is its side's last.
fn is_last(peer: Peer, line: &[u8]) -> bool
    ensures { result ≡ is_last_event (sent_event peer (says.Line line.now)) }
{
    match peer {
        Peer::Iface => is_quit(line),
        Peer::Engine => false,
    }
}

// Sends the message for an event of the sender's peer.
fn send_event<M: ReaderMessage, R: Wait>(rt: &R, to: &mut PipeSend<M>, what: MessageBody)
    requires sender { IsSender to.old }
    requires may { M.may_read to.old.peer }
    requires ended { has_last_event (map M.event (messages_sent to.old)) ≡ false }
    requires good { is_good (sent_event to.old.peer what) ≡ true }
    ensures keeps { KeepsSender to.old to.new }
    ensures adds { map M.event (messages_sent to.new)
        ≡ map M.event (messages_sent to.old) ++ sent_event to.old.peer what ∷ [] }
{
    let message = M::of_reader(to.peer, what);
    to.send(rt, message);
}

// Reads once at most, and sends the next line if there is one.
fn read_turn<S: Source, M: ReaderMessage, R: Wait>(
    rt: &R,
    alloc: Global,
    lines: &mut Lines,
    source: &mut S,
    to: &mut PipeSend<M>,
) -> ReaderTurn
    requires sender { IsSender to.old }
    requires may { M.may_read to.old.peer }
    requires going { has_last_event (map M.event (messages_sent to.old)) ≡ false }
    requires limit { lines.old.limit ≡ line_limit }
    ensures keeps { KeepsSender to.old to.new }
    ensures goes { ReaderTurnDone to.old.peer lines.old lines.new (S.state source.old) (S.state
        source.new)
        (map M.event (messages_sent to.old)) (map M.event (messages_sent to.new)) result }
{
    match lines.next(source) {
        Err(_) => {
            send_event(rt, to, MessageBody::End);
            ReaderTurn::Fault
        }
        Ok(Item::More) => ReaderTurn::More,
        Ok(Item::End) => {
            send_event(rt, to, MessageBody::End);
            ReaderTurn::Done
        }
        Ok(Item::Long) => {
            send_event(rt, to, MessageBody::Long);
            ReaderTurn::More
        }
        Ok(Item::Line(line)) => {
            let Ok(bytes) = Bytes::make(alloc, line) else {
                send_event(rt, to, MessageBody::End);
                return ReaderTurn::NoMemory;
            };
            let last = is_last(to.peer, line);
            send_event(rt, to, MessageBody::Line(bytes));
            if last {
                return ReaderTurn::Quit;
            }
            ReaderTurn::More
        }
    }
}

/// Sends each line of the source, and its end last, as messages that stand for these events. The
/// interface's reader ends after a line that spells `quit`.
pub fn read_messages<S: Source, M: ReaderMessage, R: Wait>(
    rt: &R,
    alloc: Global,
    source: &mut S,
    to: &mut PipeSend<M>,
) -> ReadEnd
    requires sender { IsSender to.old }
    requires may { M.may_read to.old.peer }
    requires fresh { messages_sent to.old ≡ [] }
    ensures keeps { KeepsSender to.old to.new }
    ensures arrived { Arrived to.old.peer (S.state source.old) (S.state source.new)
        (map M.event (messages_sent to.new)) result }
{
    lines_of_all_calls();
    let Ok(mut lines) = Lines::make(alloc, PEER_LINE) else {
        send_event(rt, to, MessageBody::End);
        return ReadEnd::NoMemory;
    };
    for _ in rt.forever() {
        match read_turn(rt, alloc, &mut lines, source, to) {
            ReaderTurn::More => {}
            ReaderTurn::Done => return ReadEnd::Done,
            ReaderTurn::Quit => return ReadEnd::Done,
            ReaderTurn::Fault => return ReadEnd::Fault(ReadFault),
            ReaderTurn::NoMemory => return ReadEnd::NoMemory,
        }
    }
    unreachable!()
}

/// Sends each line of the source, and its end last. The interface's reader ends after a line that
/// spells `quit`.
pub fn read_pipe<S: Source, R: Wait>(
    rt: &R,
    alloc: Global,
    source: &mut S,
    to: &mut PipeSend,
) -> ReadEnd
    requires sender { IsSender to.old }
    requires fresh { messages_sent to.old ≡ [] }
    ensures keeps { KeepsSender to.old to.new }
    ensures arrived { Arrived to.old.peer (S.state source.old) (S.state source.new)
        (messages_sent to.new) result }
{
    read_messages(rt, alloc, source, to)
}
