//! The pieces that shield a square from attacks along lines.
ghost use Rattle.std.specs.Prelude.{◌≡◌, ◌<◌, ℕ, None, false, slice_set, true};
ghost use Rattle.chess_board.specs.declared.board.Side.{Side as AnySide};
ghost use Rattle.chess_board.specs.Attack.{is_clear, ShareALine};
ghost use Rattle.chess_board.specs.Reach.{has, Shields};

use crate::attack::{distance_of, is_on_line, near_of, step_on};
use crate::board::{Side, Square};
use crate::pieces::{Board, placed};
use crate::reach::next_in;

/// The first piece on the way from a square to another, as a set: with any other piece away the way is no clearer.
fn shield_between(board: &Board, from: Square, to: Square) -> u64
    requires { ShareALine from.index to.index }
    ensures { (s : ℕ) → has result s ≡ false → s < 64
        → is_clear (slice_set board.now s None) from.index to.index ≡ true
        → is_clear board.now from.index to.index ≡ true }
{
    for step in 1..distance_of(from, to) {
        let at = step_on(from, to, step);
        if !board.is_free(at) {
            return placed(0, at, true);
        }
    }
    0
}

/// The piece that may shield a square from an attack from another, as a set.
fn shield_from(board: &Board, from: Square, to: Square) -> u64
    ensures { (side : AnySide) → Shields board.now side from.index to.index result }
{
    if is_on_line(from, to) {
        shield_between(board, from, to)
    } else {
        0
    }
}

/// Squares such that no piece on any other shields a square from an attack of a side: the first piece on the way of each
/// piece that could attack it on an empty board.
pub(crate) fn shields_of(board: &Board, side: Side, at: Square) -> u64
    ensures { (from : ℕ) → from < 64 → Shields board.now side from at.index result }
{
    let near = near_of(board, side, at);
    let mut shields = 0u64;
    let mut index = next_in(near, 0);
    while index < 64 {
        shields |= shield_from(board, Square { index }, at);
        index = next_in(near, index + 1);
    }
    shields
}
