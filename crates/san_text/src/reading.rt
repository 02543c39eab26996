// Texts as moves of a position.
ghost use Rattle.std.specs.Prelude.{◌≡◌, ℕ};
ghost use Rattle.chess_board.specs.declared.board.Move.{Move as AnyMove};
ghost use Rattle.chess_board.specs.Laws.{IsLegal};
ghost use Rattle.san_text.specs.Fit.{agrees, allows, SanReads};
ghost use Rattle.san_text.specs.Writing.{IsSan};
ghost use Rattle.san_text.specs.Spelling.{Goes, plain_spelling, plain_target};

use crate::SanFault;
use crate::pieces::{castles_long, castles_short, kind_at};
use crate::spelling::{SanSpelling, Target, read_spelling};
use chess_board::{Kind, Move, Position};

// A file or rank that is given agrees, and one that is not given agrees with each.
fn allows(given: Option<u8>, number: u8) -> bool
    ensures { result ≡ allows given number }
{
    match given {
        Some(given) => given == number,
        None => true,
    }
}

// True if a move that is not castling agrees with what is given of its piece and its target.
fn goes_so(
    at: &Position,
    m: Move,
    kind: Kind,
    file: Option<u8>,
    rank: Option<u8>,
    target: &Target,
) -> bool
    ensures { result ≡ agrees at.now (Goes kind file rank (plain_target target.now)) m }
{
    let castles = castles_short(at, m) || castles_long(at, m);
    let occupant = !castles && kind_at(at, m.from) == kind;
    let origin = allows(file, m.from.file()) && allows(rank, m.from.rank());
    let arrival = m.to.index == target.to.index && m.promotion == target.promotion;
    occupant && (origin && arrival)
}

// True if a move agrees with a spelling.
fn agrees(at: &Position, spelling: &SanSpelling, m: Move) -> bool
    ensures { result ≡ agrees at.now (plain_spelling spelling.now) m }
{
    match spelling {
        SanSpelling::Short => castles_short(at, m),
        SanSpelling::Long => castles_long(at, m),
        SanSpelling::Goes {
            kind,
            file,
            rank,
            target,
        } => goes_so(at, m, *kind, *file, *rank, target),
    }
}

/// The one legal move that fits a text.
///
/// A legal move fits if its piece, the file and rank that are given, the square reached and the
/// promotion agree with the text. Castling fits its own texts alone. Whether there is an `x`, or a sign of
/// check or mate, is not compared.
pub fn read_san(at: &Position, text: &[u8]) -> Result<Move, SanFault>
    ensures read { SanReads at.now text.now result }
    ensures written { (m : AnyMove) → IsLegal at.now m.from.index m.to.index m.promotion
        → IsSan at.now m text.now → result ≡ Ok m }
{
    let Some(spelling) = read_spelling(text) else {
        return Err(SanFault::BadSan);
    };
    let mut found = None;
    for m in at.moves().as_slice() {
        if agrees(at, &spelling, *m) {
            if found.is_some() {
                return Err(SanFault::Ambiguous);
            }
            found = Some(*m);
        }
    }
    found.ok_or(SanFault::NoFit)
}
