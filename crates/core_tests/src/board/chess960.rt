//! Positions of Chess960: castling as the king takes his rook, what it leaves, and their texts.
ghost use Rattle.std.specs.Prelude.{◌<◌};

use super::positions::move_of;
use chess_board::{Kind, Position, Rights, Side, Square, Variant, Wing, normal_castling_is_lawful};
use fen_text::{
    FenFault, castling_fields_are_exact, read_fen, read_fen_by, read_is_of_variant, write_fen,
    written_reads_back_by,
};
use san_text::{
    SanFault, castlings_are_written, moves_have_one_text, read_san, texts_tell_moves_apart,
    write_san,
};
use std::process::Abort;

/// White's king, a rook of White on b1 or g1, and Black's king on e8; White may castle with the rook.
fn castler(rt: &impl Abort, king: usize, rook: usize, right: Rights) -> Position
    requires king { king < 64 }
    requires rook { rook < 64 }
{
    let mut board = [None; 64];
    board[king] = Some((Side::White, Kind::King));
    board[rook] = Some((Side::White, Kind::Rook));
    board[60] = Some((Side::Black, Kind::King));
    Position::build(&board, Side::White, right, None, 0, 1).expect(rt, "a position")
}

/// No right.
fn no_rights() -> Rights {
    Rights {
        variant: Variant::Fischer,
        wk: None,
        wq: None,
        bk: None,
        bq: None,
    }
}

#[test]
fn starts_as_one_of_960(rt: HostRuntime) {
    let start = Position::fischer_start();
    assert!(rt; start.variant() == Variant::Fischer && !start.is_standard());
    assert!(rt; start.rights().rook(Side::Black, Wing::ASide) == Some(0));
    assert!(rt; start.moves().as_slice().len() == 20);
    normal_castling_is_lawful();
}

#[test]
fn king_takes_his_rook(rt: HostRuntime) {
    let mut right = no_rights();
    right.wk = Some(6);
    let before = castler(&rt, 5, 6, right);
    let castles = move_of(&rt, "f1g1");
    assert!(rt; before.legal(castles));
    let after = before.play(castles);
    let f1 = Square::at(5, 0).expect(&rt, "f1");
    let g1 = Square::at(6, 0).expect(&rt, "g1");
    assert!(rt; after.piece(g1) == Some((Side::White, Kind::King)));
    assert!(rt; after.piece(f1) == Some((Side::White, Kind::Rook)));
    assert!(rt; after.half() == 1 && after.rights().wk.is_none());
}

#[test]
fn king_stays_and_castles(rt: HostRuntime) {
    let mut right = no_rights();
    right.wq = Some(1);
    let moves = castler(&rt, 2, 1, right).moves();
    let castles = move_of(&rt, "c1b1");
    assert!(rt; moves.as_slice().len() == 13 && moves.as_slice().get(8).copied() == Some(castles));
}

#[test]
fn right_of_another_rook_is_dropped(rt: HostRuntime) {
    let mut right = no_rights();
    right.wk = Some(7);
    assert!(rt; castler(&rt, 5, 6, right).rights().wk.is_none());
}

/// True if a text of Chess960 is read, and written so.
fn is_read_as(rt: &impl Abort, text: &str, written: &str) -> bool {
    let position = read_fen_by(Variant::Fischer, text.as_bytes()).expect(rt, text);
    position.facts();
    write_fen(&position).as_slice() == written.as_bytes()
}

/// True if the castling field of a text of Chess960 is its fault.
fn is_castling_fault(text: &[u8]) -> bool {
    matches!(read_fen_by(Variant::Fischer, text), Err(FenFault::Castling))
}

#[test]
fn letters_name_rooks(rt: HostRuntime) {
    let outer = "4k3/8/8/8/8/8/8/1R2K1RR w HB - 0 1";
    assert!(rt; is_read_as(&rt, "4k3/8/8/8/8/8/8/1R2K1RR w KQkq - 0 1", outer));
    let inner = "4k3/8/8/8/8/8/8/1R2K1RR w GB - 0 1";
    assert!(rt; is_read_as(&rt, "4k3/8/8/8/8/8/8/1R2K1RR w BG -", inner));
    let none = "4k3/8/8/8/8/8/8/1R2K1RR w - - 0 1";
    assert!(rt; is_read_as(&rt, "4k3/8/8/8/8/8/8/1R2K1RR w EAhb -", none));
    let black = "1r1rk3/8/8/8/8/8/4K3/RR5R b d - 0 1";
    assert!(rt; is_read_as(&rt, "1r1rk3/8/8/8/8/8/4K3/RR5R b KAd - 0 1", black));
    read_is_of_variant();
    written_reads_back_by();
}

#[test]
fn letters_that_name_no_right_by_themselves(rt: HostRuntime) {
    assert!(rt; is_castling_fault(b"4k3/8/8/8/8/8/8/1R2K1RR w GH - 0 1"));
    assert!(rt; is_castling_fault(b"4k3/8/8/8/8/8/8/1R2K1RR w KH - 0 1"));
    assert!(rt; is_castling_fault(b"4k3/8/8/8/8/8/8/1R2K1RR w GG - 0 1"));
    assert!(rt; is_castling_fault(b"4k3/8/8/8/8/8/8/1R2K1RR w I - 0 1"));
    assert!(rt; is_castling_fault(b"4k3/8/8/8/8/8/8/1R2K1RR w K- - 0 1"));
    assert!(rt; is_castling_fault(b"1r1rk3/8/8/8/8/8/4K3/RR5R b KQdQ - 0 1"));
    let normal = read_fen(b"4k3/8/8/8/8/8/8/R3K2R w HA - 0 1");
    assert!(rt; matches!(normal, Err(FenFault::Castling)));
    castling_fields_are_exact();
}

#[test]
fn letters_of_one_of_two_kings_are_dropped(rt: HostRuntime) {
    let text = b"4k3/8/8/8/8/8/8/R1K1K1RR w GH - 0 1".as_slice();
    let read = read_fen_by(Variant::Fischer, text);
    assert!(rt; matches!(read, Err(FenFault::Kings)));
}

#[test]
fn castling_is_written_by_its_wing(rt: HostRuntime) {
    let mut right = no_rights();
    right.wk = Some(6);
    let at = castler(&rt, 5, 6, right);
    let castles = move_of(&rt, "f1g1");
    assert!(rt; at.legal(castles));
    assert!(rt; write_san(&at, castles).as_slice() == b"O-O".as_slice());
    assert!(rt; read_san(&at, b"O-O") == Ok(castles));
    assert!(rt; read_san(&at, b"Kg1") == Err(SanFault::NoFit));
    castlings_are_written();
    moves_have_one_text();
    texts_tell_moves_apart();
}

#[test]
fn king_that_stays_is_written_as_castling(rt: HostRuntime) {
    let mut right = no_rights();
    right.wq = Some(1);
    let at = castler(&rt, 2, 1, right);
    let castles = move_of(&rt, "c1b1");
    assert!(rt; at.legal(castles));
    assert!(rt; write_san(&at, castles).as_slice() == b"O-O-O".as_slice());
    assert!(rt; read_san(&at, b"O-O-O") == Ok(castles));
    assert!(rt; read_san(&at, b"O-O") == Err(SanFault::NoFit));
}
