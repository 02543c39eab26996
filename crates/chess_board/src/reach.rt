//! Where pieces could go on an empty board, as sets of squares: bit s of a number stands for the square s.
ghost use Rattle.std.specs.Prelude.{◌≡◌, ◌<◌, ◌≤◌, ◌&&◌, ℕ, false, not, slice_index_or};
ghost use Rattle.chess_board.specs.Reach.{form, has, IsSetOf};

use crate::board::{Kind, Side, Square};
use crate::slides::{DIAGONALS, LINES, STRAIGHTS};
use crate::steps::{BLACK_PAWN_WAYS, JUMPS, KING_WAYS, WHITE_PAWN_WAYS};

/// True if a square is in a set.
pub(crate) fn is_in(set: u64, at: Square) -> bool
    ensures { result ≡ has set at.index }
{
    set >> at.index & 1 == 1
}

/// The squares of a set that are not in another.
pub(crate) fn without(set: u64, other: u64) -> u64
    ensures { (s : ℕ) → s < 64 → has result s ≡ (has set s && not (has other s)) }
{
    set & !other
}

/// A table's row for a square.
fn row(table: &[u64; 64], from: Square) -> u64
    ensures { result ≡ slice_index_or table.now from.index 0 }
{
    table[from.index as usize]
}

/// The squares that a piece could go to on an empty board, but for castling.
pub(crate) fn ways_of(side: Side, kind: Kind, from: Square) -> u64
    ensures { IsSetOf (form side kind from.index) result }
{
    match kind {
        Kind::Pawn => match side {
            Side::White => row(&WHITE_PAWN_WAYS, from),
            Side::Black => row(&BLACK_PAWN_WAYS, from),
        },
        Kind::Knight => row(&JUMPS, from),
        Kind::King => row(&KING_WAYS, from),
        Kind::Bishop => row(&DIAGONALS, from),
        Kind::Rook => row(&STRAIGHTS, from),
        Kind::Queen => row(&LINES, from),
    }
}

/// The first square of a set from a number on, or 64 if there is none.
pub(crate) fn next_in(set: u64, from: u8) -> u8
    requires { from ≤ 64 }
    ensures on { (from ≤ result) × (result ≤ 64) }
    ensures passed { (s : ℕ) → from ≤ s → s < result → has set s ≡ false }
{
    if from >= 64 {
        return 64;
    }
    let rest = set >> from;
    if rest == 0 {
        return 64;
    }
    from + rest.trailing_zeros() as u8
}
