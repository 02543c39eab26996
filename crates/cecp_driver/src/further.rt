// The moves by which a game goes on.
ghost use Rattle.std.specs.Prelude.{◌≡◌, ◌≤◌, length, IfSome};
ghost use Rattle.std.specs.Option.{option_map};
ghost use Rattle.std.specs.List.{AllByRecursion};
ghost use Rattle.chess_board.specs.Text.{IsOfficer};
ghost use Rattle.game_record.specs.Game.{plies_of};
ghost use Rattle.cecp_driver.specs.SetUp.{further};

use crate::same::is_same_move;
use chess_board::Move;

/// The moves after those that are known. None if the moves do not begin with these.
pub(crate) fn further_moves<'a>(known: &[Move], moves: &'a [Move]) -> Option<&'a [Move]>
    ensures value { option_map (λ r. plies_of r.now) result
        ≡ further (plies_of known.now) (plies_of moves.now) }
    ensures few { IfSome result (λ r. length r.now ≤ length moves.now) }
    ensures officers { AllByRecursion (λ m. IsOfficer m.promotion) (plies_of moves.now)
        → IfSome result (λ r. AllByRecursion (λ m. IsOfficer m.promotion) (plies_of r.now)) }
{
    let mut left = known;
    let mut rest = moves;
    while let [k, ks @ ..] = left {
        let [m, ms @ ..] = rest else {
            return None;
        };
        if !is_same_move(*k, *m) {
            return None;
        }
        left = ks;
        rest = ms;
    }
    Some(rest)
}
