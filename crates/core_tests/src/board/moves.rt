//! The answers of the board, and the limits of its counts.
use super::positions::move_of;
use chess_board::{Kind, Position, Side, Square, equal_positions};
use std::process::Abort;

#[test]
fn squares_are_named(rt: HostRuntime) {
    let f3 = Square::at(5, 2).expect(&rt, "f3");
    assert!(rt; Square::at(8, 0).is_none());
    assert!(rt; f3.file() == 5 && f3.rank() == 2);
}

/// The pieces of the start position, whose turn it is, and what is attacked.
fn check_pieces(rt: &impl Abort, start: &Position) {
    let e1 = Square::at(4, 0).expect(rt, "e1");
    let f3 = Square::at(5, 2).expect(rt, "f3");
    assert!(rt; start.piece(e1) == Some((Side::White, Kind::King)));
    assert!(rt; start.side().other() == Side::Black);
    assert!(rt; start.attacked(f3, Side::White) && !start.attacked(f3, Side::Black));
}

/// The moves that may be made at the start position.
fn check_moves(rt: &impl Abort, start: &Position) {
    assert!(rt; start.moves().as_slice().first().copied() == Some(move_of(rt, "a2a3")));
    assert!(rt; start.try_play(move_of(rt, "b7a8q")).is_none());
}

#[test]
fn stands_at_the_start(rt: HostRuntime) {
    let start = Position::start();
    check_pieces(&rt, &start);
    assert!(rt; start.rights().wk == Some(7) && start.rights().bq == Some(0));
    assert!(rt; !start.in_check());
    assert!(rt; equal_positions(&start, &Position::start()) && start.is_standard());
    check_moves(&rt, &start);
    start.facts();
}

#[test]
fn counts_have_limits(rt: HostRuntime) {
    let mut board = [None; 64];
    board[4] = Some((Side::White, Kind::King));
    board[7] = Some((Side::White, Kind::Rook));
    board[60] = Some((Side::Black, Kind::King));
    let rights = Position::start().rights();
    let counted = Position::build(&board, Side::White, rights, None, 100_000, 0).expect(
        &rt,
        "a position",
    );
    assert!(rt; counted.half() == 99_999 && counted.full() == 1);
    assert!(rt; counted.rights().wk.is_some() && counted.rights().wq.is_none());
}
