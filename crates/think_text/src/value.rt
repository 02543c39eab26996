// The value of a score.
ghost use Rattle.std.specs.Prelude.{◌≡◌};
ghost use Rattle.uci_lines.specs.Scores.{IsCentis};
ghost use Rattle.think_text.specs.Line.{value_of};

use uci_lines::Score;

/// The value of a mate, in hundredths of a pawn.
const MATE: i64 = 100_000;

/// A score in hundredths of a pawn.
pub(crate) fn value_of(score: Score) -> i64
    requires { IsCentis score }
    ensures { result ≡ value_of score }
{
    match score {
        Score::Cp(score) => score,
        Score::Mate(moves) => {
            if moves > 0 {
                MATE + moves
            } else {
                -(MATE - moves)
            }
        }
    }
}
