// Moves in long algebraic form.
ghost use Rattle.std.specs.Prelude.{◌≡◌, ◌||◌, ◌==◌};
ghost use Rattle.std.specs.Option.{option_map};
ghost use Rattle.san_text.specs.LongForm.{is_link, way_of, way_read, moved_by, long_read, IsLongRead};

use crate::pieces::kind_at;
use crate::spelling::{file_named, kind_named, rank_named, read_square, unmarked};
use chess_board::{Kind, Move, Position, Square};

fn is_link(byte: u8) -> bool
    ensures { result ≡ is_link byte }
{
    byte == b'-' || byte == b'x'
}

// The square that is left, `-` or `x`, the square reached, and what a pawn becomes.
fn read_way(text: &[u8]) -> Option<Move>
    ensures { option_map way_of result ≡ way_read text.now }
{
    let [file, rank, link, rest @ ..] = text else {
        return None;
    };
    if !is_link(*link) {
        return None;
    }
    let file = file_named(*file)?;
    let rank = rank_named(*rank)?;
    let target = read_square(rest)?;
    Some(Move {
        from: Square::at(file, rank)?,
        to: target.to,
        promotion: target.promotion,
    })
}

// The legal move of a piece of such a kind.
fn read_moved(at: &Position, kind: Kind, text: &[u8]) -> Option<Move>
    ensures { option_map way_of result ≡ moved_by at.now kind (way_read text.now) }
{
    let m = read_way(text)?;
    if kind_at(at, m.from) == kind && at.legal(m) {
        Some(m)
    } else {
        None
    }
}

// The legal move of an officer after its letter, or of a pawn.
fn read_piece(at: &Position, text: &[u8]) -> Option<Move>
    ensures { option_map way_of result ≡ long_read at.now text.now }
{
    let [letter, rest @ ..] = text else {
        return None;
    };
    match kind_named(*letter) {
        Some(kind) => read_moved(at, kind, rest),
        None => read_moved(at, Kind::Pawn, text),
    }
}

/// The legal move that a text is in long algebraic form: `Nb1-c3`, `e4xd5`, `e7-e8=Q+`.
///
/// The form is the letter of the piece (a pawn has none), the square that it leaves, `-` or `x`, the
/// square reached, and the letter of what a pawn becomes, with or without `=` before it. Signs `+`,
/// `#`, `!` and `?` at the end are dropped. Whether there is a `-` or an `x` is not compared.
pub fn read_long_form(at: &Position, text: &[u8]) -> Option<Move>
    ensures { IsLongRead at.now text.now result }
{
    read_piece(at, unmarked(text))
}
