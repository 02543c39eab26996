//! The end of a game.
ghost use Rattle.std.specs.Prelude.{◌≡◌};
ghost use Rattle.game_record.specs.Ending.{is_same, state_of, ended_by};

use chess_board::{Position, State};

/// The end of a game: mate (article 5.1.1), stalemate (5.2.1), a dead position (5.2.2) of two kings with no piece
/// or one bishop or knight alone, the third occurrence of a position (9.2), or 100 moves of both sides
/// without a pawn's move or a capture (9.3). The last two end a game here without a claim.
#[derive(Clone, Copy, PartialEq, Eq)]
pub enum GameEnd {
    Mate,
    Stale,
    Dead,
    Repetition,
    Fifty,
}

/// True if two positions count as the same for repetition.
pub(crate) fn is_same(p: &Position, q: &Position) -> bool
    ensures { result ≡ is_same p.now q.now }
{
    p.same(q)
}

/// The state of a position.
pub(crate) fn state_of(p: &Position) -> State
    ensures { result ≡ state_of p.now }
{
    p.state()
}

/// The end in a position that stood so often.
pub(crate) fn ended_by(state: State, repeats: u32, half: u32) -> Option<GameEnd>
    ensures { result ≡ ended_by state repeats half }
{
    match state {
        State::Mate => Some(GameEnd::Mate),
        State::Stale => Some(GameEnd::Stale),
        State::Dead => Some(GameEnd::Dead),
        State::Open if repeats >= 3 => Some(GameEnd::Repetition),
        State::Open if half >= 100 => Some(GameEnd::Fifty),
        State::Open => None,
    }
}
