//! The board of a text.
ghost use Rattle.std.specs.Prelude.{◌≡◌, ◌+◌, ◌-◌, ◌≤◌, ◌++◌, ◌↔◌, IsOk, OnOk, replicate, ◌<◌, ◌==◌, length, nat_lt, OnSome, IfNone};
ghost use Rattle.std.specs.List.{slice_get};
ghost use Rattle.std.specs.Option.{option_and_then};
ghost use Rattle.fen_text.specs.Seen.{optional_bytes};
ghost use Rattle.chess_board.specs.Play.{fits_board};
ghost use Rattle.fen_text.specs.Squares.{kind_of_letter, piece_of_letter, squares_of, squares_in, pieces_if_both, HasMoreThan, rank_in_text, ranks_in, is_slash, pieces_in_field, board_in_field};

use arrayvec::{ArrayVec, CapacityError};
use chess_board::{BuildFault, Kind, Position, Rights, Side, Variant};

/// The occupant of a square.
pub(crate) type Occupant = Option<(Side, Kind)>;

const EMPTY_RANK: [Occupant; 8] = [None; 8];

/// The kind that a capital letter names.
fn kind_of(letter: u8) -> Option<Kind>
    ensures { result ≡ kind_of_letter letter }
{
    match letter {
        b'P' => Some(Kind::Pawn),
        b'N' => Some(Kind::Knight),
        b'B' => Some(Kind::Bishop),
        b'R' => Some(Kind::Rook),
        b'Q' => Some(Kind::Queen),
        b'K' => Some(Kind::King),
        _ => None,
    }
}

fn piece_of_letter(letter: u8) -> Option<(Side, Kind)>
    ensures { result ≡ piece_of_letter letter }
{
    if letter < b'a' {
        Some((Side::White, kind_of(letter)?))
    } else {
        Some((Side::Black, kind_of(letter - (b'a' - b'A'))?))
    }
}

/// Puts empty squares after those before them, if there is room.
fn put_empty(count: usize, row: &mut ArrayVec<Occupant, 8>) -> Result<(), CapacityError>
    requires { count ≤ 8 }
    ensures room { IsOk result ↔ (length row.old.items + count ≤ 8) }
    ensures items { OnOk result (row.new.items ≡ row.old.items ++ replicate count None) }
{
    row.try_extend_from_slice(&EMPTY_RANK[..count])
}

/// Puts the squares that a byte of a rank stands for after those before it, if there is room.
fn put_squares(byte: u8, row: &mut ArrayVec<Occupant, 8>) -> Option<()>
    ensures some { OnSome result
        (pieces_if_both (Some row.old.items) (squares_of byte) ≡ Some row.new.items) }
    ensures none { IfNone result (HasMoreThan 8
        (pieces_if_both (Some row.old.items) (squares_of byte))) }
{
    match byte {
        b'1'..=b'8' => put_empty(usize::from(byte - b'0'), row).ok(),
        _ => row.try_push(Some(piece_of_letter(byte)?)).ok(),
    }
}

/// The eight squares of a rank.
fn read_rank(rank: &[u8]) -> Option<[Occupant; 8]>
    ensures { result ≡ rank_in_text rank.now }
{
    let mut row = ArrayVec::new();
    for byte in rank {
        put_squares(*byte, &mut row)?;
    }
    row.into_inner().ok()
}

fn count_ranks(field: &[u8]) -> usize
    ensures { result ≡ length (ranks_in field.now) }
{
    field.split(|b| *b == b'/').count()
}

/// The rank with this number in the text, counted from 0.
fn nth_rank(field: &[u8], n: usize) -> Option<&[u8]>
    ensures { optional_bytes result ≡ slice_get (ranks_in field.now) n }
{
    field.split(|b| *b == b'/').nth(n)
}

/// The occupants of the squares, by eight ranks, of which the text has the eighth first.
fn read_squares(field: &[u8]) -> Option<[Occupant; 64]>
    ensures { result ≡ pieces_in_field field.now }
{
    if count_ranks(field) != 8 {
        return None;
    }
    let mut squares = ArrayVec::<Occupant, 64>::new();
    for rank in 0..8 {
        let row = read_rank(nth_rank(field, 7 - rank)?)?;
        // There is room for eight ranks.
        let _ = squares.try_extend_from_slice(&row);
    }
    squares.into_inner().ok()
}

/// True if a position may have these pieces, apart from its kings.
fn fits(pieces: &[Occupant; 64]) -> bool
    ensures { result ≡ fits_board pieces.now }
{
    let rights = Rights {
        variant: Variant::Normal,
        wk: None,
        wq: None,
        bk: None,
        bq: None,
    };
    let built = Position::build(pieces, Side::White, rights, None, 0, 1);
    !matches!(built, Err(BuildFault::Board))
}

pub(crate) fn read_board(field: Option<&[u8]>) -> Option<[Occupant; 64]>
    ensures { result ≡ option_and_then board_in_field (optional_bytes field.entry) }
{
    let pieces = read_squares(field?)?;
    if fits(&pieces) { Some(pieces) } else { None }
}
