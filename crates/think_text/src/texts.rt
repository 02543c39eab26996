// Moves as texts.
ghost use Rattle.std.specs.Prelude.{◌≡◌, ◌+◌, ◌≤◌, true, length};
ghost use Rattle.std.specs.Option.{option_map};
ghost use Rattle.line_io.specs.Out.{with};
ghost use Rattle.chess_board.specs.Place.{legal};
ghost use Rattle.chess_board.specs.Text.{text_of_move};
ghost use Rattle.cecp_lines.specs.Replies.{IsWritable};
ghost use Rattle.think_text.specs.Line.{IsPlayableAsHint, hint_text, written};

use crate::Pondered;
use arrayvec::ArrayVec;
use cecp_lines::Spelling;
use chess_board::{Move, Position, write_move};
use line_io::Out;
use san_text::write_san;

/// A move by its squares.
fn squares_of(m: Move) -> ArrayVec<u8, 7>
    requires { IsWritable m }
    ensures { result.items ≡ text_of_move m }
{
    let mut text = ArrayVec::new();
    let _ = text.try_extend_from_slice(write_move(m).as_slice());
    text
}

/// A move of a position.
pub(crate) fn written(spelling: Spelling, at: &Position, m: Move) -> ArrayVec<u8, 7>
    requires { legal at.now m ≡ true }
    ensures { result.items ≡ written spelling at.now m }
{
    match spelling {
        Spelling::Coordinates => squares_of(m),
        Spelling::San => write_san(at, m),
    }
}

/// Writes a move of a position.
pub(crate) fn put_move(spelling: Spelling, at: &Position, m: Move, out: &mut Out)
    requires legal { legal at.now m ≡ true }
    requires room { length out.old.text + length (written spelling at.now m) ≤ out.old.room }
    ensures { out.new ≡ with out.old (written spelling at.now m) }
{
    match spelling {
        Spelling::Coordinates => out.put(write_move(m).as_slice()),
        Spelling::San => out.put(write_san(at, m).as_slice()),
    }
}

/// A hint, in the position before it.
pub(crate) fn hint_text(spelling: Spelling, hint: Option<Pondered>) -> Option<ArrayVec<u8, 7>>
    requires { IsPlayableAsHint hint }
    ensures { option_map (λ text. text.items) result ≡ hint_text spelling hint }
{
    match hint {
        Some(hint) => Some(written(spelling, &hint.before, hint.hint)),
        None => None,
    }
}

/// The bytes of a text, if there is one.
pub(crate) fn bytes_of(text: &Option<ArrayVec<u8, 7>>) -> Option<&[u8]>
    ensures { option_map (λ bytes. bytes.now) result ≡ option_map (λ text. text.items) text.now }
{
    match text {
        Some(text) => Some(text.as_slice()),
        None => None,
    }
}
