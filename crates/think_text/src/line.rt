// The moves of a thinking line.
ghost use Rattle.std.specs.Prelude.{◌≡◌, ◌+◌, ◌≤◌, ◌∷◌, [], true, length, MatchOption};
ghost use Rattle.line_io.specs.Out.{with};
ghost use Rattle.protocol_tokens.specs.Tokens.{tokens};
ghost use Rattle.chess_board.specs.Place.{legal};
ghost use Rattle.uci_lines.specs.Moves.{longest_move_run};
ghost use Rattle.think_text.specs.Line.{legal_run, position_after_pv_move, spaced_moves, written};
ghost use Rattle.protocol_tokens.specs.Bytes.{blank};

use crate::texts::put_move;
use cecp_lines::Spelling;
use chess_board::{Move, Position};
use line_io::Out;
use uci_lines::next_move;

/// The move that the engine ponders on, and the position in which it would be played.
#[derive(Clone, Copy)]
pub struct Pondered {
    pub before: Position,
    pub hint: Move,
}

/// A legal move of a text of moves.
#[derive(Drop)]
pub(crate) struct NextMove<'a> {
    pub m: Move,
    /// The position after it.
    pub after: Position,
    /// The text after it.
    pub others: &'a [u8],
}

/// The first move of a text of moves, if it is legal.
pub(crate) fn next_legal<'a>(moves: &'a [u8], at: &Position) -> Option<NextMove<'a>>
    ensures { MatchOption result
        (legal_run at.now (longest_move_run (tokens moves.now)) ≡ [])
        (λ next. (legal at.now next.m ≡ true)
        × (next.after ≡ position_after_pv_move at.now next.m)
        × (legal_run at.now (longest_move_run (tokens moves.now))
        ≡ next.m ∷ legal_run (position_after_pv_move at.now next.m) (longest_move_run (tokens
        next.others.now)))) }
{
    let (m, others) = next_move(moves)?;
    let after = at.try_play(m)?;
    Some(NextMove { m, after, others })
}

/// Writes a move of a position after a blank.
fn write_spaced(spelling: Spelling, at: &Position, m: Move, out: &mut Out)
    requires legal { legal at.now m ≡ true }
    requires room { length out.old.text + length (blank ∷ written spelling at.now m)
        ≤ out.old.room }
    ensures { out.new ≡ with out.old (blank ∷ written spelling at.now m) }
{
    out.put(b" ");
    put_move(spelling, at, m, out);
}

/// Writes each move after a blank, as long as each is legal in its turn.
pub(crate) fn write_moves(spelling: Spelling, moves: &[u8], at: &Position, out: &mut Out)
    requires { length out.old.text
        + length (spaced_moves spelling at.now (legal_run at.now (longest_move_run (tokens
        moves.now))))
        ≤ out.old.room }
    ensures { out.new
        ≡ with out.old (spaced_moves spelling at.now (legal_run at.now (longest_move_run (tokens
        moves.now)))) }
{
    let mut position = *at;
    let mut others = moves;
    while let Some(next) = next_legal(others, &position) {
        write_spaced(spelling, &position, next.m, out);
        position = next.after;
        others = next.others;
    }
}
