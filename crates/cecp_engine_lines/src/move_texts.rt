// Moves as replies write them.
ghost use Rattle.std.specs.Prelude.{◌≡◌};
ghost use Rattle.std.specs.Option.{option_map};
ghost use Rattle.cecp_engine_lines.specs.ReplyReading.{written_move, is_move_text, are_moves, is_hint, have_spelling, spelling_of_moves};

use crate::san::is_san;
use crate::written_numbers::space_at;
use cecp_lines::Spelling;
use chess_board::{Move, read_move, write_move};

/// A move with its promotion letter in lower case.
pub(crate) fn read_written_move(text: &[u8]) -> Option<Move>
    ensures { result ≡ written_move text.now }
{
    let m = read_move(text)?;
    if write_move(m).as_slice() == text {
        Some(m)
    } else {
        None
    }
}

/// True if a text is a move in a spelling.
fn is_move_text(spelling: Spelling, text: &[u8]) -> bool
    ensures { result ≡ is_move_text spelling text.now }
{
    match spelling {
        Spelling::Coordinates => read_written_move(text).is_some(),
        Spelling::San => is_san(text),
    }
}

/// True if the text is moves in a spelling, with one blank between.
fn is_move_list(spelling: Spelling, text: &[u8]) -> bool
    ensures { result ≡ are_moves spelling text.now }
{
    let mut rest = text;
    while let Some(at) = space_at(rest) {
        if !is_move_text(spelling, &rest[..at]) {
            return false;
        }
        (_, rest) = rest.split_at(at + 1);
    }
    is_move_text(spelling, rest)
}

/// True if a hint, if there is one, is a move in a spelling.
fn is_hint(spelling: Spelling, hint: Option<&[u8]>) -> bool
    ensures { result ≡ is_hint spelling (option_map (λ h. h.now) hint.entry) }
{
    match hint {
        Some(text) => is_move_text(spelling, text),
        None => true,
    }
}

fn have_spelling(spelling: Spelling, hint: Option<&[u8]>, pv: &[u8]) -> bool
    ensures { result ≡ have_spelling spelling (option_map (λ h. h.now) hint.entry) pv.now }
{
    is_hint(spelling, hint) && is_move_list(spelling, pv)
}

/// The spelling of the hint and the moves of a thinking line.
pub(crate) fn spelling_of(hint: Option<&[u8]>, pv: &[u8]) -> Option<Spelling>
    ensures { result ≡ spelling_of_moves (option_map (λ h. h.now) hint.entry) pv.now }
{
    if have_spelling(Spelling::Coordinates, hint, pv) {
        Some(Spelling::Coordinates)
    } else if have_spelling(Spelling::San, hint, pv) {
        Some(Spelling::San)
    } else {
        None
    }
}
