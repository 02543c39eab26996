// Equal positions and equal moves.
ghost use Rattle.std.specs.Prelude.{◌≡◌, ◌&&◌, ◌==◌};
ghost use Rattle.game_record.specs.Game.{ply_of};
ghost use Rattle.game_record.specs.Ending.{is_same};
ghost use Rattle.cecp_driver.specs.Same.{same_position, same_ply};

use chess_board::{Move, Position};

/// True if two positions are the same for repetition.
fn is_same(a: &Position, b: &Position) -> bool
    ensures { result ≡ is_same a.now b.now }
{
    a.same(b)
}

/// True if two positions are the same, with their counts.
pub(crate) fn is_same_position(a: &Position, b: &Position) -> bool
    ensures { result ≡ same_position a.now b.now }
{
    is_same(a, b) && (a.half() == b.half() && a.full() == b.full())
}

pub(crate) fn is_same_move(a: Move, b: Move) -> bool
    ensures { result ≡ same_ply (ply_of a) (ply_of b) }
{
    (a.from.index == b.from.index && a.to.index == b.to.index) && a.promotion == b.promotion
}
