//! Castling (article 3.8.2, Guidelines II): with which rook, over which squares, and what it leaves.
ghost use Rattle.std.specs.Prelude.{◌≡◌, ◌<◌, ◌||◌, ◌&&◌, ◌==◌, ℕ, IsTrue, IfSome, Some, not};
ghost use Rattle.chess_board.specs.Board.{each_below, square_at};
ghost use Rattle.chess_board.specs.Reach.{could_castle, spells_right, IsSetOf};
ghost use Rattle.chess_board.specs.Rules.{first_rank, right_of, is_beyond, is_on_file, king_aim, rook_aim, castling_file, is_from_to, is_passable, is_safe, may_castle_with, may_castle, castling_of, castling_rook, pieces_after_castling};

use crate::attack::is_attacked_by;
use crate::board::{Kind, Side, Square, Variant, Wing};
use crate::pieces::{Board, placed};
use crate::setup::Setup;

/// The rank on which a side's king and rooks begin.
fn first_rank_of(side: Side) -> u8
    ensures value { result ≡ first_rank side }
    ensures low { result < 8 }
{
    match side {
        Side::White => 0,
        Side::Black => 7,
    }
}

/// The square of a file on a side's first rank.
pub(crate) fn first_rank_square(side: Side, file: u8) -> Square
    requires { file < 8 }
    ensures { result.index ≡ square_at file (first_rank side) }
{
    Square {
        index: first_rank_of(side) * 8 + file,
    }
}

/// True if a square is that of a file on a side's first rank.
pub(crate) fn is_on_first_rank(side: Side, file: u8, at: Square) -> bool
    ensures { result ≡ is_on_file side file at.index }
{
    at.rank() == first_rank_of(side) && at.file() == file
}

/// True if a file lies beyond another towards a wing.
pub(crate) fn is_file_beyond(wing: Wing, king: u8, rook: u8) -> bool
    ensures { result ≡ is_beyond wing king rook }
{
    match wing {
        Wing::HSide => king < rook,
        Wing::ASide => rook < king,
    }
}

/// The file that the king reaches when he castles.
fn king_aim_of(wing: Wing) -> u8
    ensures value { result ≡ king_aim wing }
    ensures low { result < 8 }
{
    match wing {
        Wing::HSide => 6,
        Wing::ASide => 2,
    }
}

/// The file that the rook reaches when the king castles.
fn rook_aim_of(wing: Wing) -> u8
    ensures value { result ≡ rook_aim wing }
    ensures low { result < 8 }
{
    match wing {
        Wing::HSide => 5,
        Wing::ASide => 3,
    }
}

/// The file whose square spells castling with the rook of a file.
fn castling_file_of(variant: Variant, wing: Wing, rook: u8) -> u8
    requires { rook < 8 }
    ensures value { result ≡ castling_file variant wing rook }
    ensures low { result < 8 }
{
    match variant {
        Variant::Normal => king_aim_of(wing),
        Variant::Fischer => rook,
    }
}

/// True if a file is one of those from one to another, the ends included.
fn is_between(a: u8, b: u8, file: u8) -> bool
    ensures { result ≡ is_from_to a b file }
{
    (a <= file && file <= b) || (b <= file && file <= a)
}

/// True if a square of the first rank is empty, but for king and rook, if one of them passes it.
fn is_free_to_castle(board: &Board, side: Side, wing: Wing, king: u8, rook: u8, file: u8) -> bool
    requires { file < 8 }
    ensures { result ≡ is_passable board.now side wing king rook file }
{
    !(is_between(king, king_aim_of(wing), file) || is_between(rook, rook_aim_of(wing), file))
        || file == king
        || file == rook
        || board.is_free(first_rank_square(side, file))
}

/// True if all squares that king and rook pass are empty, but for them.
fn is_way_free(board: &Board, side: Side, wing: Wing, king: u8, rook: u8) -> bool
    ensures { result ≡ each_below 8 (is_passable board.now side wing king rook) }
{
    for file in 0..8 {
        if !is_free_to_castle(board, side, wing, king, rook, file) {
            return false;
        }
    }
    true
}

/// True if a square of the first rank is not attacked, if the king passes it.
fn is_safe_to_castle(board: &Board, side: Side, wing: Wing, king: u8, file: u8) -> bool
    requires { file < 8 }
    ensures { result ≡ is_safe board.now side wing king file }
{
    !is_between(king, king_aim_of(wing), file)
        || !is_attacked_by(board, side.other(), first_rank_square(side, file))
}

/// True if no square that the king passes is attacked.
fn is_way_safe(board: &Board, side: Side, wing: Wing, king: u8) -> bool
    ensures { result ≡ each_below 8 (is_safe board.now side wing king) }
{
    for file in 0..8 {
        if !is_safe_to_castle(board, side, wing, king, file) {
            return false;
        }
    }
    true
}

/// True if the king may castle so with the rook of a file (article 3.8.2, Guidelines II).
#[tactic(auto, unfolding(crate::specs::Rules::may_castle_with))]
fn castles_with(setup: &Setup, wing: Wing, from: Square, to: Square, rook: u8) -> bool
    ensures { result ≡ may_castle_with setup.now wing from.index to.index rook }
{
    let side = setup.side;
    let king = from.file();
    rook < 8
        && is_on_first_rank(side, castling_file_of(setup.rights.variant, wing, rook), to)
        && from.rank() == first_rank_of(side)
        && is_file_beyond(wing, king, rook)
        && is_way_free(&setup.board, side, wing, king, rook)
        && is_way_safe(&setup.board, side, wing, king)
}

/// True if the king may castle so on a wing, by the right that is held.
#[tactic(auto, unfolding(crate::specs::Rules::may_castle))]
fn castles_on(setup: &Setup, wing: Wing, from: Square, to: Square) -> bool
    ensures { result ≡ may_castle setup.now wing from.index to.index }
{
    match setup.rights.rook(setup.side, wing) {
        None => false,
        Some(rook) => castles_with(setup, wing, from, to, rook),
    }
}

/// The wing on which a move castles, if it does.
#[tactic(auto, using(crate::proofs::Ends::castling_off))]
pub(crate) fn castling_wing(setup: &Setup, kind: Kind, from: Square, to: Square) -> Option<Wing>
    ensures value { result ≡ castling_of setup.now kind from.index to.index }
    ensures castles { IfSome result (λ wing. IsTrue (may_castle setup.now wing from.index
        to.index)) }
{
    if kind != Kind::King {
        return None;
    }
    if to.rank() != first_rank_of(setup.side) {
        return None;
    }
    if castles_on(setup, Wing::HSide, from, to) {
        Some(Wing::HSide)
    } else if castles_on(setup, Wing::ASide, from, to) {
        Some(Wing::ASide)
    } else {
        None
    }
}

/// The board after castling.
pub(crate) fn board_castled(setup: &Setup, wing: Wing, from: Square, rook: Square) -> Board
    ensures { result ≡ pieces_after_castling setup.now.pieces setup.now.side wing from.index
        rook.index }
{
    let side = setup.side;
    let mut board = setup.board;
    board.put(from, None);
    board.put(rook, None);
    board.put(
        first_rank_square(side, king_aim_of(wing)),
        Some((side, Kind::King)),
    );
    board.put(
        first_rank_square(side, rook_aim_of(wing)),
        Some((side, Kind::Rook)),
    );
    board
}

/// The square of the rook with which the king castles.
pub(crate) fn castling_rook_of(setup: &Setup, wing: Wing, from: Square, to: Square) -> Square
    requires { IsTrue (may_castle setup.now wing from.index to.index) }
    ensures { result.index ≡ castling_rook setup.now wing }
{
    let file = setup.rights.rook(setup.side, wing).unwrap_or(0);
    first_rank_square(setup.side, file)
}

/// The square that spells castling with the rook of a file, as a set.
fn spelling_square(setup: &Setup, wing: Wing, rook: u8) -> u64
    ensures { IsSetOf (λ s. spells_right setup.now wing s (Some rook)) result }
{
    if rook >= 8 {
        return 0;
    }
    let file = castling_file_of(setup.rights.variant, wing, rook);
    placed(0, first_rank_square(setup.side, file), true)
}

/// The square that spells castling on a wing, as a set, if the side on move holds the right.
fn castling_square(setup: &Setup, wing: Wing) -> u64
    ensures { IsSetOf (λ s. spells_right setup.now wing s
        (right_of setup.now.rights setup.now.side wing)) result }
{
    match setup.rights.rook(setup.side, wing) {
        None => 0,
        Some(rook) => spelling_square(setup, wing, rook),
    }
}

/// The squares that spell castling, for the king of the side on move.
pub(crate) fn castling_squares(setup: &Setup, kind: Kind) -> u64
    ensures { IsSetOf (could_castle setup.now kind) result }
{
    if kind == Kind::King {
        castling_square(setup, Wing::HSide) | castling_square(setup, Wing::ASide)
    } else {
        0
    }
}
