// The nature of a move in its position.
ghost use Rattle.std.specs.Prelude.{◌≡◌, ◌≤◌, ◌&&◌, ◌==◌, true, false};
ghost use Rattle.chess_board.specs.Board.{is_king_kind};
ghost use Rattle.chess_board.specs.Rules.{king_home};
ghost use Rattle.chess_board.specs.declared.board.Variant.TheVariants.{Normal, Fischer};
ghost use Rattle.san_text.specs.Writing.{kind_at, castles_to, castles_on, castles_short, castles_long, move_captures, is_rival, has_rival, is_within};

use chess_board::{Kind, Move, Position, Side, Square, Variant, Wing};

/// The kind of the piece on a square; a pawn if there is none.
pub fn kind_at(at: &Position, square: Square) -> Kind
    ensures { result ≡ kind_at at.now square.index }
{
    match at.piece(square) {
        Some((_, kind)) => kind,
        None => Kind::Pawn,
    }
}

// Where the king of the side on move begins.
fn king_home(at: &Position) -> u8
    ensures { result ≡ king_home at.now.side }
{
    match at.side() {
        Side::White => 4,
        Side::Black => 60,
    }
}

fn is_king(at: &Position, square: Square) -> bool
    ensures { result ≡ is_king_kind (kind_at at.now square.index) }
{
    matches!(kind_at(at, square), Kind::King)
}

// True if the king goes two squares from home towards a rook.
fn goes_two_squares(at: &Position, wing: Wing, m: Move) -> bool
    ensures { result ≡ castles_to at.now Normal wing m.from.index m.to.index }
{
    let home = king_home(at);
    match wing {
        Wing::HSide => m.from.index == home && m.to.index == home + 2,
        Wing::ASide => m.from.index == home && m.to.index + 2 == home,
    }
}

// True if the king goes to a piece of his own side on this wing.
fn goes_to_his_rook(at: &Position, wing: Wing, m: Move) -> bool
    ensures { result ≡ castles_to at.now Fischer wing m.from.index m.to.index }
{
    let Some((side, _)) = at.piece(m.to) else {
        return false;
    };
    let beyond = match wing {
        Wing::HSide => m.from.file() < m.to.file(),
        Wing::ASide => m.to.file() < m.from.file(),
    };
    side == at.side() && beyond
}

fn castles_on(at: &Position, wing: Wing, m: Move) -> bool
    ensures { result ≡ castles_on at.now wing m }
{
    if !is_king(at, m.from) {
        return false;
    }
    match at.variant() {
        Variant::Normal => goes_two_squares(at, wing, m),
        Variant::Fischer => goes_to_his_rook(at, wing, m),
    }
}

/// True if the king castles on the h-side.
pub fn castles_short(at: &Position, m: Move) -> bool
    ensures { result ≡ castles_short at.now m }
{
    castles_on(at, Wing::HSide, m)
}

/// True if the king castles on the a-side.
pub fn castles_long(at: &Position, m: Move) -> bool
    ensures { result ≡ castles_long at.now m }
{
    castles_on(at, Wing::ASide, m)
}

/// True if a piece is captured, also en passant, when a pawn leaves its file for an empty square.
pub fn is_capture(at: &Position, m: Move) -> bool
    ensures { result ≡ move_captures at.now m }
{
    let pawn = matches!(kind_at(at, m.from), Kind::Pawn);
    at.piece(m.to).is_some() || (pawn && m.from.file() != m.to.file())
}

// True if another piece of the kind and side may legally go there, from this square.
fn is_rival(at: &Position, m: Move, square: Square) -> bool
    ensures { result ≡ is_rival at.now m square.index }
{
    if square.index == m.from.index {
        return false;
    }
    if kind_at(at, square) != kind_at(at, m.from) {
        return false;
    }
    at.legal(Move {
        from: square,
        to: m.to,
        promotion: m.promotion,
    })
}

/// The squares on which other pieces are looked for.
#[derive(Clone, Copy)]
pub enum RivalSquares {
    Board,
    File,
    Rank,
}

fn is_within(within: RivalSquares, a: Square, b: Square) -> bool
    ensures { result ≡ is_within within a.index b.index }
{
    match within {
        RivalSquares::Board => true,
        RivalSquares::File => a.file() == b.file(),
        RivalSquares::Rank => a.rank() == b.rank(),
    }
}

/// True if another piece of the kind and side, on the board, or on the piece's file or rank, may legally
/// go there.
pub fn has_rival(at: &Position, m: Move, within: RivalSquares) -> bool
    ensures { result ≡ has_rival at.now m within }
{
    for index in 0..64 {
        let square = Square { index };
        if is_within(within, square, m.from) && is_rival(at, m, square) {
            return true;
        }
    }
    false
}
