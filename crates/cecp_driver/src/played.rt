// The moves of a set-up.
ghost use Rattle.std.specs.Prelude.{◌≡◌, ◌+◌, ◌*◌, ◌≤◌, length};
ghost use Rattle.std.specs.List.{AllByRecursion};
ghost use Rattle.line_io.specs.Out.{with};
ghost use Rattle.chess_board.specs.Text.{IsOfficer};
ghost use Rattle.game_record.specs.Game.{plies_of};
ghost use Rattle.driver_state_machine.specs.Lines.{lines_text};
ghost use Rattle.cecp_driver.specs.SetUp.{ply_lines};

use chess_board::Move;
use driver_state_machine::write_moved;
use line_io::Out;

/// Writes each move.
pub(crate) fn write_played(moves: &[Move], has_usermove: bool, out: &mut Out)
    requires officers { AllByRecursion (λ m. IsOfficer m.promotion) (plies_of moves.now) }
    requires room { length out.old.text + 15 * length moves.now ≤ out.old.room }
    ensures text { out.new
        ≡ with out.old (lines_text (ply_lines has_usermove (plies_of moves.now))) }
    ensures short { length out.new.text ≤ length out.old.text + 15 * length moves.now }
{
    let mut rest = moves;
    while let [m, others @ ..] = rest {
        write_moved(*m, has_usermove, out);
        rest = others;
    }
}
