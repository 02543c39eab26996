// Lines with moves.
ghost use Rattle.std.specs.Prelude.{◌≡◌, ◌++◌, ◌+◌, ◌≤◌, length, codes};
ghost use Rattle.chess_board.specs.Text.{IsOfficer, text_of_move};

use arrayvec::ArrayVec;
use chess_board::{Move, move_texts_are_short, write_move};

/// A line that a drill sends.
pub type Line = ArrayVec<u8, 72>;

/// Words, and a move after them.
pub fn line_with(words: &[u8], m: Move) -> Line
    requires officer { IsOfficer m.promotion }
    requires short { length words.now ≤ 48 }
    ensures text { result.items ≡ words.now ++ text_of_move m }
    ensures short { length result.items ≤ length words.now + 5 }
{
    move_texts_are_short(m);
    let mut line = ArrayVec::new();
    let _ = line.try_extend_from_slice(words);
    let _ = line.try_extend_from_slice(write_move(m).as_slice());
    line
}

/// An answer with a hint.
pub fn answer_with(best: Move, hint: Move) -> Line
    requires best { IsOfficer best.promotion }
    requires hint { IsOfficer hint.promotion }
    ensures { result.items
        ≡ codes "bestmove " ++ (text_of_move best ++ (codes " ponder " ++ text_of_move hint)) }
{
    let mut line = line_with(b"bestmove ", best);
    let behind = line_with(b" ponder ", hint);
    let _ = line.try_extend_from_slice(behind.as_slice());
    line
}
