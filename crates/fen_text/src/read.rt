//! Reading a text.
ghost use Rattle.std.specs.Prelude.{◌≡◌};
ghost use Rattle.std.specs.Option.{option_and_then};
ghost use Rattle.chess_board.specs.declared.board.Variant.TheVariants.{Normal};
ghost use Rattle.fen_text.specs.Seen.{optional_bytes};
ghost use Rattle.fen_text.specs.Fen.{rights_by, position_of, position_by};
ghost use Rattle.fen_text.specs.Written.{FenIsNormal, FenIsOfVariant};

use crate::fault::FenFault;
use crate::fields::{nth_field, read_count_or, read_en_passant, read_rights, read_side};
use crate::rook_files::read_fischer_rights;
use crate::squares::{Occupant, read_board};
use chess_board::{Position, Rights, Variant};

/// The rights that the castling field of a variant spells beside a board.
fn read_rights_by(variant: Variant, pieces: &[Occupant; 64], field: Option<&[u8]>) -> Option<Rights>
    ensures { result ≡ option_and_then (rights_by variant pieces.now) (optional_bytes field.entry) }
{
    match variant {
        Variant::Normal => read_rights(field),
        Variant::Fischer => read_fischer_rights(pieces, field),
    }
}

/// The position of a variant that a text spells, or its first fault.
#[tactic(auto, unfolding(crate::specs::Fen::position_by))]
fn read_position(variant: Variant, text: &[u8]) -> Result<Position, FenFault>
    ensures { result ≡ position_by variant text.now }
{
    let board = read_board(nth_field(text, 0)).ok_or(FenFault::Board)?;
    let side = read_side(nth_field(text, 1)).ok_or(FenFault::Side)?;
    let rights = read_rights_by(variant, &board, nth_field(text, 2)).ok_or(FenFault::Castling)?;
    let passant = read_en_passant(nth_field(text, 3)).ok_or(FenFault::EnPassant)?;
    let half = read_count_or(0, nth_field(text, 4)).ok_or(FenFault::Half)?;
    let full = read_count_or(1, nth_field(text, 5)).ok_or(FenFault::Full)?;
    if nth_field(text, 6).is_some() {
        return Err(FenFault::Full);
    }
    match Position::build(&board, side, rights, passant, half, full) {
        Ok(position) => Ok(position),
        Err(fault) => Err(FenFault::of(fault)),
    }
}

/// The position that a text spells, or the fault of its first field that spells nothing (PGN
/// standard, section 16.1, with the half-move and full-move counts or the full-move count alone
/// left out if they are 0 and 1). Fields stand between blanks, tabs and carriage returns.
pub fn read_fen(text: &[u8]) -> Result<Position, FenFault>
    ensures { result ≡ position_of text.now }
{
    read_fen_by(Variant::Normal, text)
}

/// The position of a variant that a text spells, or its first fault. Of normal chess it is what `read_fen` reads.
///
/// In Chess960 a letter of the castling field names the right to castle with a rook that stands beyond the
/// side's one king on its first rank: A to H the rook of that file, K and Q the outermost one of the wing. Black's
/// letters are small. A letter that names none is dropped. A letter that is there twice, two letters
/// that name a right of one side and wing, and any other byte are the fault `Castling`.
pub fn read_fen_by(variant: Variant, text: &[u8]) -> Result<Position, FenFault>
    ensures value { result ≡ position_by variant text.now }
    ensures normal { variant ≡ Normal → result ≡ position_of text.now }
{
    read_position(variant, text)
}

/// A text that `read_fen` reads spells a position of normal chess.
pub fn read_is_normal()
    ensures { FenIsNormal }
{}

/// A text that `read_fen_by` reads spells a position of the variant.
pub fn read_is_of_variant()
    ensures { FenIsOfVariant }
{}
