// The messages to the log.
use event_pipe::{Bytes, Message, Peer};

/// A part of the log: the mark of a line, a line that is too long, or the end of its side.
#[derive(Drop)]
pub enum TapMark {
    Line(Bytes),
    Long,
    End,
}

/// A message to the log. The bridge has the place of the interface in the channel.
#[derive(Drop)]
pub struct TapMessage {
    pub peer: Peer,
    pub mark: TapMark,
}

impl Message for TapMessage {
    ghost use Rattle.tap_runner.specs.Messages.{tap_meaning};

    ghost means = { tap_meaning };
}
