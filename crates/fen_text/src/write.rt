//! Writing a text.
ghost use Rattle.std.specs.Prelude.{◌≡◌, ◌+◌, ◌*◌, ◌<◌, ◌≤◌, ◌∷◌, ◌++◌, [], length, Some, Ok, IfSome, decimal};
ghost use Rattle.std.specs.Option.{option_map};
ghost use Rattle.chess_board.specs.declared.board.Variant.TheVariants.{Normal};
ghost use Rattle.chess_board.specs.Board.{Pieces};
ghost use Rattle.chess_board.specs.Play.{IsPosition, top_count};
ghost use Rattle.fen_text.specs.Fen.{position_of, position_by};
ghost use Rattle.fen_text.specs.Written.{letter_of, empty_run, rank_text, rank_row, board_text, side_text, right_text, rights_text, AreFiles, en_passant_text, position_fen, FenIsShort, FenReadsBack, FenReadsBackBy};

use crate::squares::Occupant;
use arrayvec::ArrayVec;
use chess_board::{Kind, Position, Rights, Side, Square, Variant};
use itoa::Buffer;

type Text = ArrayVec<u8, 96>;

fn letter_of(side: Side, kind: Kind) -> u8
    ensures value { result ≡ letter_of side kind }
{
    let letter = match kind {
        Kind::Pawn => b'P',
        Kind::Knight => b'N',
        Kind::Bishop => b'B',
        Kind::Rook => b'R',
        Kind::Queen => b'Q',
        Kind::King => b'K',
    };
    match side {
        Side::White => letter,
        Side::Black => letter + (b'a' - b'A'),
    }
}

/// Writes how many squares are empty, if some are.
fn write_run(empty: u8, text: &mut Text)
    requires few { empty ≤ 8 }
    requires room { length text.old.items + empty ≤ 96 }
    ensures text { text.new.items ≡ text.old.items ++ empty_run empty }
    ensures short { length text.new.items ≤ length text.old.items + empty }
{
    if empty > 0 {
        text.push(b'0' + empty);
    }
}

/// Writes a piece after the empty squares before it, or counts one more of these.
fn write_square(occupant: Occupant, empty: u8, text: &mut Text) -> u8
    requires few { empty < 8 }
    requires room { length text.old.items + empty < 96 }
    ensures text { (squares : Pieces)
        → text.new.items ++ rank_text result squares
        ≡ text.old.items ++ rank_text empty (occupant ∷ squares) }
    ensures short { length text.new.items + result ≤ length text.old.items + empty + 1 }
    ensures counted { result ≤ empty + 1 }
{
    match occupant {
        None => empty + 1,
        Some((side, kind)) => {
            write_run(empty, text);
            text.push(letter_of(side, kind));
            0
        }
    }
}

fn write_rank(p: &Position, rank: u8, text: &mut Text)
    requires pieces { length p.now.pieces ≡ 64 }
    requires rank { rank < 8 }
    requires room { length text.old.items + 8 ≤ 96 }
    ensures text { text.new.items ≡ text.old.items ++ rank_text 0 (rank_row p.now.pieces rank) }
    ensures short { length text.new.items ≤ length text.old.items + 8 }
{
    let mut empty = 0;
    for file in 0..8 {
        let at = Square {
            index: rank * 8 + file,
        };
        empty = write_square(p.piece(at), empty, text);
    }
    write_run(empty, text);
}

fn write_board(p: &Position, text: &mut Text)
    requires pieces { length p.now.pieces ≡ 64 }
    requires room { length text.old.items + 71 ≤ 96 }
    ensures text { text.new.items ≡ text.old.items ++ board_text p.now.pieces }
    ensures short { length text.new.items ≤ length text.old.items + 71 }
{
    write_rank(p, 7, text);
    for rank in (0..7).rev() {
        text.push(b'/');
        write_rank(p, rank, text);
    }
}

fn side_letter(side: Side) -> u8
    ensures { result ∷ [] ≡ side_text side }
{
    match side {
        Side::White => b'w',
        Side::Black => b'b',
    }
}

/// The letter of a right: in normal chess that of its wing, in Chess960 that of the rook's file.
fn right_letter(variant: Variant, wing: u8, a: u8, file: u8) -> u8
    requires { (a ≤ 97) × (file < 8) }
    ensures { result ∷ [] ≡ right_text variant wing a (Some file) }
{
    match variant {
        Variant::Normal => wing,
        Variant::Fischer => a + file,
    }
}

fn write_right(variant: Variant, wing: u8, a: u8, right: Option<u8>, text: &mut Text)
    requires file { (a ≤ 97) × IfSome right (λ file. file < 8) }
    requires room { length text.old.items < 96 }
    ensures text { text.new.items ≡ text.old.items ++ right_text variant wing a right }
    ensures short { length text.new.items ≤ length text.old.items + 1 }
{
    if let Some(file) = right {
        text.push(right_letter(variant, wing, a, file));
    }
}

fn write_rights(rights: Rights, text: &mut Text)
    requires files { AreFiles rights }
    requires room { length text.old.items + 4 ≤ 96 }
    ensures text { text.new.items ≡ text.old.items ++ rights_text rights }
    ensures short { length text.new.items ≤ length text.old.items + 4 }
{
    let variant = rights.variant;
    if (rights.wk.is_some() || rights.wq.is_some())
        || (rights.bk.is_some() || rights.bq.is_some())
    {
        write_right(variant, b'K', b'A', rights.wk, text);
        write_right(variant, b'Q', b'A', rights.wq, text);
        write_right(variant, b'k', b'a', rights.bk, text);
        write_right(variant, b'q', b'a', rights.bq, text);
    } else {
        text.push(b'-');
    }
}

fn write_en_passant(passant: Option<Square>, text: &mut Text)
    requires { length text.old.items + 2 ≤ 96 }
    ensures text { text.new.items
        ≡ text.old.items ++ en_passant_text (option_map (λ s. s.index) passant) }
    ensures short { length text.new.items ≤ length text.old.items + 2 }
{
    match passant {
        None => text.push(b'-'),
        Some(square) => {
            text.push(b'a' + square.file());
            text.push(b'1' + square.rank());
        }
    }
}

fn write_count(count: u32, text: &mut Text)
    requires small { count ≤ top_count }
    requires room { length text.old.items + 5 ≤ 96 }
    ensures text { text.new.items ≡ text.old.items ++ decimal count }
    ensures short { length text.new.items ≤ length text.old.items + 5 }
{
    let mut buffer = Buffer::new();
    // There is room for five digits.
    let _ = text.try_extend_from_slice(buffer.format(count).as_bytes());
}

/// The text of a position: six fields with one blank between (PGN standard, section 16.1). In Chess960 a right is
/// written as the letter of its rook's file.
pub fn write_fen(p: &Position) -> ArrayVec<u8, 96>
    ensures text { result.items ≡ position_fen p.now }
    ensures read_back { p.now.rights.variant ≡ Normal → position_of result.items ≡ Ok p.now }
    ensures read_back_by { position_by p.now.rights.variant result.items ≡ Ok p.now }
{
    p.facts();
    let mut text = ArrayVec::new();
    write_board(p, &mut text);
    text.push(b' ');
    text.push(side_letter(p.side()));
    text.push(b' ');
    write_rights(p.rights(), &mut text);
    text.push(b' ');
    write_en_passant(p.passant(), &mut text);
    text.push(b' ');
    write_count(p.half(), &mut text);
    text.push(b' ');
    write_count(p.full(), &mut text);
    text
}

/// No text of a position has more than 93 bytes.
pub fn written_is_short()
    ensures { FenIsShort }
{}

/// The text written of a position of normal chess spells it.
pub fn written_reads_back()
    ensures { FenReadsBack }
{}

/// The text written of a position spells it, if it is read by the position's variant.
pub fn written_reads_back_by()
    ensures { FenReadsBackBy }
{}
