// Moves as texts.
ghost use Rattle.std.specs.Prelude.{◌≡◌, ◌+◌, ◌≤◌, ◌<◌, ◌++◌, ◌∷◌, [], length};
ghost use Rattle.arrayvec.specs.ArrayVec.{array_vec_len};
ghost use Rattle.chess_board.specs.Laws.{IsLegal};
ghost use Rattle.san_text.specs.Fit.{FitsAlone};
ghost use Rattle.san_text.specs.Writing.{letter, file_letter, rank_digit, distinction, origin, promotion_letters, body, kind_at, san_of_move, IsCheckMark, IsSan};

use crate::pieces::{RivalSquares, castles_long, castles_short, has_rival, is_capture, kind_at};
use arrayvec::ArrayVec;
use chess_board::{Kind, Move, Position, Square, State};

// The letter of a piece: a pawn has none.
fn letter(kind: Kind) -> &'static [u8]
    ensures { result.now ≡ letter kind }
{
    match kind {
        Kind::Pawn => b"",
        Kind::Knight => b"N",
        Kind::Bishop => b"B",
        Kind::Rook => b"R",
        Kind::Queen => b"Q",
        Kind::King => b"K",
    }
}

fn promotion_letters(promotion: Option<Kind>) -> &'static [u8]
    ensures { result.now ≡ promotion_letters promotion }
{
    match promotion {
        None => b"",
        Some(Kind::Pawn) => b"=",
        Some(Kind::Knight) => b"=N",
        Some(Kind::Bishop) => b"=B",
        Some(Kind::Rook) => b"=R",
        Some(Kind::Queen) => b"=Q",
        Some(Kind::King) => b"=K",
    }
}

// The distinction of the piece from others of its kind that may go there: nothing, a file, a rank, or both.
fn distinction(at: &Position, m: Move) -> ArrayVec<u8, 2>
    ensures { result.items ≡ distinction at.now m }
{
    let mut text = ArrayVec::new();
    if !has_rival(at, m, RivalSquares::Board) {
        return text;
    }
    if !has_rival(at, m, RivalSquares::File) {
        text.push(b'a' + m.from.file());
        return text;
    }
    if !has_rival(at, m, RivalSquares::Rank) {
        text.push(b'1' + m.from.rank());
        return text;
    }
    text.push(b'a' + m.from.file());
    text.push(b'1' + m.from.rank());
    text
}

// Where the piece comes from: a pawn's file if it captures, another piece's distinction.
fn origin(at: &Position, m: Move) -> ArrayVec<u8, 2>
    ensures { result.items ≡ origin at.now m }
{
    if !matches!(kind_at(at, m.from), Kind::Pawn) {
        return distinction(at, m);
    }
    let mut text = ArrayVec::new();
    if is_capture(at, m) {
        text.push(b'a' + m.from.file());
    }
    text
}

fn put(text: &mut ArrayVec<u8, 7>, piece: &[u8])
    requires { array_vec_len text.old + length piece.now ≤ 7 }
    ensures items { text.new.items ≡ text.old.items ++ piece.now }
    ensures len { array_vec_len text.new ≡ array_vec_len text.old + length piece.now }
{
    let _ = text.try_extend_from_slice(piece);
}

fn put_square(text: &mut ArrayVec<u8, 7>, square: Square)
    requires { array_vec_len text.old + 2 ≤ 7 }
    ensures items { text.new.items
        ≡ text.old.items ++ file_letter square.index ∷ rank_digit square.index ∷ [] }
    ensures len { array_vec_len text.new ≡ array_vec_len text.old + 2 }
{
    text.push(b'a' + square.file());
    text.push(b'1' + square.rank());
}

// The text without a sign of check or mate.
fn body(at: &Position, m: Move) -> ArrayVec<u8, 7>
    requires { IsLegal at.now m.from.index m.to.index m.promotion }
    ensures items { result.items ≡ body at.now m }
    ensures room { array_vec_len result ≤ 6 }
{
    let mut text = ArrayVec::new();
    if castles_short(at, m) {
        put(&mut text, b"O-O");
        return text;
    }
    if castles_long(at, m) {
        put(&mut text, b"O-O-O");
        return text;
    }
    put(&mut text, letter(kind_at(at, m.from)));
    put(&mut text, origin(at, m).as_slice());
    if is_capture(at, m) {
        text.push(b'x');
    }
    put_square(&mut text, m.to);
    put(&mut text, promotion_letters(m.promotion));
    text
}

// `#` if the side on move is mated, else `+` if it is in check.
fn mark(after: &Position) -> &'static [u8]
    ensures fits { IsCheckMark after.now result.now }
    ensures short { length result.now ≤ 1 }
{
    match after.state() {
        State::Mate => b"#",
        State::Stale => b"",
        State::Open | State::Dead => { if after.in_check() { b"+" } else { b"" } }
    }
}

/// The text of a legal move.
///
/// Castling is `O-O` on the h-side and `O-O-O` on the a-side. A pawn's move is its file and `x` if it captures, the square
/// reached, and `=` with the letter of the piece that it becomes. Another piece's move is its letter of
/// `KQRBN`, what distinguishes it from others that may go there, `x` if it captures, and the square
/// reached. `#` follows if the move mates, else `+` if it checks.
pub fn write_san(at: &Position, m: Move) -> ArrayVec<u8, 7>
    requires { IsLegal at.now m.from.index m.to.index m.promotion }
    ensures written { IsSan at.now m result.items }
    ensures text { result.items ≡ san_of_move at.now m }
    ensures alone { FitsAlone at.now result.items m }
{
    let mut text = body(at, m);
    put(&mut text, mark(&at.play(m)));
    text
}
