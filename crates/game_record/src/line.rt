//! The `position` line.
ghost use Rattle.std.specs.Prelude.{◌≡◌, ◌+◌, ◌<◌, ◌≤◌, ◌↔◌, IsTrue, ◌++◌, ◌∷◌, length, IfSome, codes};
ghost use Rattle.std.specs.Option.{option_map};
ghost use Rattle.std.specs.List.{AllByRecursion};
ghost use Rattle.chess_board.specs.Text.{IsOfficer, text_of_move};
ghost use Rattle.line_io.specs.Out.{with};
ghost use Rattle.game_record.specs.Game.{ply_of, plies_of, IsPlayablePly, current_position};
ghost use Rattle.game_record.specs.Line.{game_start_text, spaced_plies, plies_and_hint, game_moves_text, game_position_text};
ghost use Rattle.protocol_tokens.specs.Bytes.{blank};

use crate::game::Game;
use chess_board::{Move, Position, write_move};
use fen_text::write_fen;
use line_io::Out;

fn write_start(p: &Position, out: &mut Out)
    requires { length out.old.text + length (game_start_text p.now) ≤ out.old.room }
    ensures { out.new ≡ with out.old (game_start_text p.now) }
{
    if p.is_standard() {
        out.put(b"startpos");
    } else {
        out.put(b"fen ");
        out.put(write_fen(p).as_slice());
    }
}

/// Writes a move after a blank.
fn write_spaced(m: Move, out: &mut Out)
    requires officer { IsOfficer m.promotion }
    requires room { length out.old.text + length (blank ∷ text_of_move m) ≤ out.old.room }
    ensures { out.new ≡ with out.old (blank ∷ text_of_move m) }
{
    out.put(b" ");
    out.put(write_move(m).as_slice());
}

/// Writes each move after a blank.
fn write_moves(moves: &[Move], out: &mut Out)
    requires officers { AllByRecursion (λ m. IsOfficer m.promotion) (plies_of moves.now) }
    requires room { length out.old.text + length (spaced_plies (plies_of moves.now))
        ≤ out.old.room }
    ensures { out.new ≡ with out.old (spaced_plies (plies_of moves.now)) }
{
    for m in moves {
        write_spaced(*m, out);
    }
}

/// True if there is a move.
fn has_moves(moves: &[Move], hint: Option<Move>) -> bool
    ensures { IsTrue result
        ↔ (0 < length (plies_and_hint (plies_of moves.now) (option_map ply_of hint))) }
{
    !moves.is_empty() || hint.is_some()
}

/// Writes the moves and the one that may follow.
fn write_moves_and_hint(moves: &[Move], hint: Option<Move>, out: &mut Out)
    requires officers { AllByRecursion (λ m. IsOfficer m.promotion) (plies_of moves.now) }
    requires officer { IfSome hint (λ m. IsOfficer m.promotion) }
    requires room { length out.old.text
        + length (game_moves_text (plies_and_hint (plies_of moves.now) (option_map ply_of hint)))
        ≤ out.old.room }
    ensures { out.new
        ≡ with out.old (game_moves_text (plies_and_hint (plies_of moves.now) (option_map ply_of
        hint))) }
{
    if !has_moves(moves, hint) {
        return;
    }
    out.put(b" moves");
    write_moves(moves, out);
    match hint {
        Some(m) => write_spaced(m, out),
        None => {}
    }
}

impl Game {
    /// Writes the `position` line of the game, with a move that may follow, and no line feed (UCI, April 2006).
    pub fn write_position(&self, hint: Option<Move>, out: &mut Out)
        requires legal { IfSome hint (λ m. IsPlayablePly (current_position self.now) (ply_of m)) }
        requires room { length out.old.text
            + length (game_position_text self.now (option_map ply_of hint)) ≤ out.old.room }
        ensures { out.new ≡ with out.old (game_position_text self.now (option_map ply_of hint)) }
    {
        out.put(b"position ");
        write_start(self.start(), out);
        write_moves_and_hint(self.moves(), hint, out);
    }
}
