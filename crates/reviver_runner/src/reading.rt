// The reader of a life: it sends the lines of its engine, and the life's end.
ghost use Rattle.std.specs.Prelude.{◌≡◌, ◌++◌, ◌∷◌, [], false, true};
ghost use Rattle.event_pipe.specs.Message.{role_of_event, is_good};
ghost use Rattle.event_pipe.specs.Events.{has_last_event};
ghost use Rattle.event_pipe.specs.Ends.{IsSender, KeepsSender};
ghost use Rattle.reviver_runner.specs.Messages.{events_sent, script_event};
ghost use Rattle.event_pipe.specs.Arrivals.{line_limit};
ghost use Rattle.event_pipe.specs.declared.message.Peer.TheVariants as peers;
ghost use Rattle.reviver_runner.specs.Reading.{ReadingTurnDone, ReadLines, ReadLife};

use crate::LifeMessage;
use event_pipe::{Bytes, PipeSend, ReadEnd};
use line_io::{Item, Lines, PEER_LINE, ReadFault, Source, lines_of_all_calls};
use std::alloc::Global;
use std::sync::Wait;

/// The result of one turn.
#[derive(Clone, Copy)]
pub enum ReadingTurn {
    /// There may be more lines.
    More,
    /// The engine's output has ended.
    Done,
    /// A read failed.
    Fault,
    /// There was no memory for a line.
    NoMemory,
}

// Sends a message of the present life.
fn send_event<R: Wait>(rt: &R, to: &mut PipeSend<LifeMessage>, message: LifeMessage)
    requires sender { IsSender to.old }
    requires engine { to.old.peer ≡ peers.Engine }
    requires of_life { role_of_event (script_event message) ≡ 2 }
    requires going { has_last_event (events_sent to.old) ≡ false }
    requires good { is_good (script_event message) ≡ true }
    ensures keeps { KeepsSender to.old to.new }
    ensures adds { events_sent to.new ≡ events_sent to.old ++ script_event message ∷ [] }
{
    to.send(rt, message);
}

// Reads once at most, and sends the next line if there is one.
fn read_turn<S: Source, R: Wait>(
    rt: &R,
    alloc: Global,
    lines: &mut Lines,
    source: &mut S,
    to: &mut PipeSend<LifeMessage>,
) -> ReadingTurn
    requires sender { IsSender to.old }
    requires engine { to.old.peer ≡ peers.Engine }
    requires going { has_last_event (events_sent to.old) ≡ false }
    requires limit { lines.old.limit ≡ line_limit }
    ensures keeps { KeepsSender to.old to.new }
    ensures goes { ReadingTurnDone lines.old lines.new (S.state source.old) (S.state source.new)
        (events_sent to.old) (events_sent to.new) result }
{
    match lines.next(source) {
        Err(_) => ReadingTurn::Fault,
        Ok(Item::End) => ReadingTurn::Done,
        Ok(Item::More) => ReadingTurn::More,
        Ok(Item::Long) => ReadingTurn::More,
        Ok(Item::Line(line)) => {
            let Ok(bytes) = Bytes::make(alloc, line) else {
                return ReadingTurn::NoMemory;
            };
            send_event(rt, to, LifeMessage::Line(bytes));
            ReadingTurn::More
        }
    }
}

// Sends each line of the source.
fn read_lines<S: Source, R: Wait>(
    rt: &R,
    alloc: Global,
    source: &mut S,
    to: &mut PipeSend<LifeMessage>,
) -> ReadEnd
    requires sender { IsSender to.old }
    requires engine { to.old.peer ≡ peers.Engine }
    requires going { has_last_event (events_sent to.old) ≡ false }
    ensures keeps { KeepsSender to.old to.new }
    ensures going { has_last_event (events_sent to.new) ≡ false }
    ensures read { ReadLines (S.state source.old) (S.state source.new)
        (events_sent to.old) (events_sent to.new) result }
{
    lines_of_all_calls();
    let Ok(mut lines) = Lines::make(alloc, PEER_LINE) else {
        return ReadEnd::NoMemory;
    };
    for _ in rt.forever() {
        match read_turn(rt, alloc, &mut lines, source, to) {
            ReadingTurn::More => {}
            ReadingTurn::Done => return ReadEnd::Done,
            ReadingTurn::Fault => return ReadEnd::Fault(ReadFault),
            ReadingTurn::NoMemory => return ReadEnd::NoMemory,
        }
    }
    unreachable!()
}

/// Sends each line of a life's source, and then the life's end, behind which another life may follow.
/// Lines that are longer than a line may be are ignored.
pub fn read_life<S: Source, R: Wait>(
    rt: &R,
    alloc: Global,
    source: &mut S,
    to: &mut PipeSend<LifeMessage>,
) -> ReadEnd
    requires sender { IsSender to.old }
    requires engine { to.old.peer ≡ peers.Engine }
    requires going { has_last_event (events_sent to.old) ≡ false }
    ensures keeps { KeepsSender to.old to.new }
    ensures going { has_last_event (events_sent to.new) ≡ false }
    ensures read { ReadLife (S.state source.old) (S.state source.new)
        (events_sent to.old) (events_sent to.new) result }
{
    let end = read_lines(rt, alloc, source, to);
    send_event(rt, to, LifeMessage::LifeEnd);
    end
}
