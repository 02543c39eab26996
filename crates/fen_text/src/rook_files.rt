//! The castling field of a Chess960 text.
ghost use Rattle.std.specs.Prelude.{◌≡◌, ◌<◌, ◌==◌, ◌&&◌, ◌||◌, Some, None};
ghost use Rattle.std.specs.List.{list_all};
ghost use Rattle.std.specs.Option.{option_and_then};
ghost use Rattle.chess_board.specs.Board.{each_below};
ghost use Rattle.chess_board.specs.Rules.{is_beyond};
ghost use Rattle.fen_text.specs.Seen.{optional_bytes};
ghost use Rattle.fen_text.specs.RookFiles.{on_first_rank, has_king, has_rook, is_only_king, is_no_other_king, king_file, is_no_rook_beyond, is_outermost, names_rook, rook_beyond, named_rook, file_letter, wing_letter, one_of, right_in, is_castling_letter, is_there_once, are_different, are_castling_letters, fischer_letters_of, fischer_rights_of};
ghost use Rattle.fen_text.specs.CastlingField.{CastlingFieldLaw};

use crate::squares::Occupant;
use chess_board::{Kind, Rights, Side, Variant, Wing};

/// What stands on a file of a side's first rank.
fn on_first_rank(pieces: &[Occupant; 64], side: Side, file: u8) -> Occupant
    requires { file < 8 }
    ensures { result ≡ on_first_rank pieces.now side file }
{
    match side {
        Side::White => pieces[usize::from(file)],
        Side::Black => pieces[usize::from(56 + file)],
    }
}

fn has_king(pieces: &[Occupant; 64], side: Side, file: u8) -> bool
    requires { file < 8 }
    ensures { result ≡ has_king pieces.now side file }
{
    on_first_rank(pieces, side, file) == Some((side, Kind::King))
}

fn has_rook(pieces: &[Occupant; 64], side: Side, file: u8) -> bool
    requires { file < 8 }
    ensures { result ≡ has_rook pieces.now side file }
{
    on_first_rank(pieces, side, file) == Some((side, Kind::Rook))
}

/// True if a file is the king's own, or no king of the side stands on it.
fn is_no_other_king(pieces: &[Occupant; 64], side: Side, king: u8, file: u8) -> bool
    requires { file < 8 }
    ensures { result ≡ is_no_other_king pieces.now side king file }
{
    file == king || !has_king(pieces, side, file)
}

/// True if no king of the side stands on another file.
fn is_king_alone(pieces: &[Occupant; 64], side: Side, king: u8) -> bool
    ensures { result ≡ each_below 8 (is_no_other_king pieces.now side king) }
{
    for file in 0..8 {
        if !is_no_other_king(pieces, side, king, file) {
            return false;
        }
    }
    true
}

#[tactic(auto, unfolding(crate::specs::RookFiles::is_only_king))]
fn is_only_king(pieces: &[Occupant; 64], side: Side, king: u8) -> bool
    requires { king < 8 }
    ensures { result ≡ is_only_king pieces.now side king }
{
    has_king(pieces, side, king) && is_king_alone(pieces, side, king)
}

/// The file of the side's one king on its first rank.
fn king_file(pieces: &[Occupant; 64], side: Side) -> Option<u8>
    ensures { result ≡ king_file pieces.now side }
{
    let mut found = None;
    for king in 0..8 {
        if is_only_king(pieces, side, king) {
            found = Some(king);
        }
    }
    found
}

/// True if a file lies beyond another towards a wing.
fn is_beyond(wing: Wing, king: u8, rook: u8) -> bool
    ensures { result ≡ is_beyond wing king rook }
{
    match wing {
        Wing::HSide => king < rook,
        Wing::ASide => rook < king,
    }
}

/// True if no rook of the side stands beyond a file.
fn is_outermost(pieces: &[Occupant; 64], side: Side, wing: Wing, rook: u8) -> bool
    ensures { result ≡ is_outermost pieces.now side wing rook }
{
    for file in 0..8 {
        if is_beyond(wing, rook, file) && has_rook(pieces, side, file) {
            return false;
        }
    }
    true
}

/// The letter of a rook's file.
fn file_letter(side: Side, file: u8) -> u8
    requires { file < 8 }
    ensures { result ≡ file_letter side file }
{
    match side {
        Side::White => b'A' + file,
        Side::Black => b'a' + file,
    }
}

/// The letter of a wing.
fn wing_letter(side: Side, wing: Wing) -> u8
    ensures { result ≡ wing_letter side wing }
{
    match (side, wing) {
        (Side::White, Wing::HSide) => b'K',
        (Side::White, Wing::ASide) => b'Q',
        (Side::Black, Wing::HSide) => b'k',
        (Side::Black, Wing::ASide) => b'q',
    }
}

/// True if a letter names the right to castle with the rook of a file.
#[tactic(auto, unfolding(crate::specs::RookFiles::names_rook))]
fn names_rook(
    pieces: &[Occupant; 64],
    side: Side,
    wing: Wing,
    letter: u8,
    king: u8,
    rook: u8,
) -> bool
    requires { rook < 8 }
    ensures { result ≡ names_rook pieces.now side wing letter king rook }
{
    has_rook(pieces, side, rook)
        && is_beyond(wing, king, rook)
        && (letter == file_letter(side, rook)
            || (letter == wing_letter(side, wing) && is_outermost(pieces, side, wing, rook)))
}

/// The file of the rook beyond a king whose right a letter names.
fn rook_beyond(pieces: &[Occupant; 64], side: Side, wing: Wing, letter: u8, king: u8) -> Option<u8>
    ensures { result ≡ rook_beyond pieces.now side wing letter king }
{
    let mut found = None;
    for rook in 0..8 {
        if names_rook(pieces, side, wing, letter, king, rook) {
            found = Some(rook);
        }
    }
    found
}

/// The file of the rook whose right on a wing a letter names.
fn named_rook(pieces: &[Occupant; 64], side: Side, wing: Wing, letter: u8) -> Option<u8>
    ensures { result ≡ named_rook pieces.now side wing letter }
{
    rook_beyond(pieces, side, wing, letter, king_file(pieces, side)?)
}

/// A right and one more: two are too many.
fn one_of(right: Option<u8>, named: Option<u8>) -> Option<Option<u8>>
    ensures { result ≡ one_of right named }
{
    match (right, named) {
        (None, _) => Some(named),
        (Some(_), None) => Some(right),
        (Some(_), Some(_)) => None,
    }
}

/// The right that the letters name on a wing.
fn read_right(pieces: &[Occupant; 64], side: Side, wing: Wing, field: &[u8]) -> Option<Option<u8>>
    ensures { result ≡ right_in pieces.now side wing (Some None) field.now }
{
    let mut right = None;
    for letter in field {
        right = one_of(right, named_rook(pieces, side, wing, *letter))?;
    }
    Some(right)
}

fn is_castling_letter(letter: u8) -> bool
    ensures { result ≡ is_castling_letter letter }
{
    matches!(letter, b'K' | b'Q' | b'k' | b'q' | b'A'..=b'H' | b'a'..=b'h')
}

fn is_there_once(letter: u8, field: &[u8]) -> bool
    ensures { result ≡ is_there_once field.now letter }
{
    field.iter().filter(|b| **b == letter).count() == 1
}

/// True if all are letters of the field.
fn are_letters(field: &[u8]) -> bool
    ensures { result ≡ list_all is_castling_letter field.now }
{
    field.iter().all(|b| is_castling_letter(*b))
}

/// True if each is there once.
fn are_different(field: &[u8]) -> bool
    ensures { result ≡ are_different field.now }
{
    field.iter().all(|b| is_there_once(*b, field))
}

/// True if all are letters of the field, each there once.
fn are_castling_letters(field: &[u8]) -> bool
    ensures { result ≡ are_castling_letters field.now }
{
    are_letters(field) && are_different(field)
}

/// The rights that letters name, if no two name one.
fn read_letters(pieces: &[Occupant; 64], field: &[u8]) -> Option<Rights>
    ensures { result ≡ fischer_letters_of pieces.now field.now }
{
    if !are_castling_letters(field) {
        return None;
    }
    let wk = read_right(pieces, Side::White, Wing::HSide, field)?;
    let wq = read_right(pieces, Side::White, Wing::ASide, field)?;
    let bk = read_right(pieces, Side::Black, Wing::HSide, field)?;
    let bq = read_right(pieces, Side::Black, Wing::ASide, field)?;
    Some(Rights {
        variant: Variant::Fischer,
        wk,
        wq,
        bk,
        bq,
    })
}

/// The rights of a Chess960 text.
pub(crate) fn read_fischer_rights(pieces: &[Occupant; 64], field: Option<&[u8]>) -> Option<Rights>
    ensures { result ≡ option_and_then (fischer_rights_of pieces.now) (optional_bytes field.entry) }
{
    match field? {
        [] => None,
        [b'-'] => Some(Rights {
            variant: Variant::Fischer,
            wk: None,
            wq: None,
            bk: None,
            bq: None,
        }),
        letters => read_letters(pieces, letters),
    }
}

/// The castling field of a Chess960 text is read as the rights that it spells, in words.
pub fn castling_fields_are_exact()
    ensures { CastlingFieldLaw }
{}
