//! Laws about the definitions that contracts cite, each a clause of a function that does nothing.
ghost use Rattle.std.specs.Prelude.{◌≡◌, ◌↔◌, ◌≤◌, IsTrue, length};
ghost use Rattle.chess_board.specs.Laws.{AttacksLaw, LegalLaw};
ghost use Rattle.chess_board.specs.Lawful.{BuildLaw, NormalCastlingLaw};
ghost use Rattle.chess_board.specs.Played.{PlayLaw};
ghost use Rattle.chess_board.specs.Text.{text_of_move, LegalIsWritten, MoveTextReadsBack, SpellsOneMove};

use crate::board::Move;
use crate::position::Position;

/// Moves compare by value.
pub fn equal_moves(a: Move, b: Move) -> bool
    ensures { IsTrue result ↔ (a ≡ b) }
{
    a == b
}

/// Positions compare by value.
pub fn equal_positions(a: &Position, b: &Position) -> bool
    ensures { IsTrue result ↔ (a.now ≡ b.now) }
{
    a.facts();
    b.facts();
    *a == *b
}

/// The test for attacks decides the relation of the Laws (article 3.1.2).
pub fn attacks_are_lawful()
    ensures { AttacksLaw }
{}

/// The test for legal moves decides the relation of the Laws (article 3.10.1).
pub fn legality_is_lawful()
    ensures { LegalLaw }
{}

/// In normal chess castling is that of article 3.8.2, square by square.
pub fn normal_castling_is_lawful()
    ensures { NormalCastlingLaw }
{}

/// The answer of `Position::build` is what the Laws say.
pub fn building_is_lawful()
    ensures { BuildLaw }
{}

/// The position that `Position::play` leaves is what the Laws say.
pub fn playing_is_lawful()
    ensures { PlayLaw }
{}

/// The text of a move has four or five bytes.
pub fn move_texts_are_short(m: Move)
    ensures least { 4 ≤ length (text_of_move m) }
    ensures most { length (text_of_move m) ≤ 5 }
{}

/// A text spells at most one move, the text of a move spells it, and every legal move has a text.
pub fn move_texts_are_exact()
    ensures one { SpellsOneMove }
    ensures back { MoveTextReadsBack }
    ensures written { LegalIsWritten }
{}
