// The orders of the interface.
ghost use Rattle.std.specs.Prelude.{◌≡◌};
ghost use Rattle.protocol_tokens.specs.Tokens.{first_token};
ghost use Rattle.driver_state_machine.specs.Words.{order_word_in};

use protocol_tokens::{named, split_token};

/// An order by its first token (UCI, "GUI to engine").
#[derive(Clone, Copy)]
pub enum OrderWord {
    Quit,
    Uci,
    IsReady,
    Position,
    Go,
    Stop,
    PonderHit,
    /// Any other line.
    Other,
}

static ORDER_WORDS: [(&[u8], OrderWord); 7] = [
    (b"quit", OrderWord::Quit),
    (b"uci", OrderWord::Uci),
    (b"isready", OrderWord::IsReady),
    (b"position", OrderWord::Position),
    (b"go", OrderWord::Go),
    (b"stop", OrderWord::Stop),
    (b"ponderhit", OrderWord::PonderHit),
];

/// The kind of order that a line is.
pub fn read_ordered(line: &[u8]) -> OrderWord
    ensures { result ≡ order_word_in (first_token line.now) }
{
    named(&ORDER_WORDS, split_token(line).0).unwrap_or(OrderWord::Other)
}
