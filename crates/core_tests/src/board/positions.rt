//! Positions and moves of texts.
use chess_board::{Move, Position, read_move};
use fen_text::read_fen;
use std::process::Abort;

pub fn position_of(rt: &impl Abort, text: &str) -> Position {
    read_fen(text.as_bytes()).expect(rt, text)
}

pub fn move_of(rt: &impl Abort, text: &str) -> Move {
    read_move(text.as_bytes()).expect(rt, text)
}
