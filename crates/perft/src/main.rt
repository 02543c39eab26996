//! The program `perft`: counts the lines of play from positions.
//!
//! Each line of the input is a depth from 1 to 9, a blank and a FEN. For each it writes how many lines of so many
//! legal moves there are, or that the line is wrong.
#![tactic(auto)]

use chess_board::Position;
use fen_text::read_fen;
use std::io;

/// The number of lines of so many legal moves from a position, and one more move.
fn count_lines(position: &Position, more: u8) -> u64 {
    let moves = position.moves();
    if more == 0 {
        return moves.len() as u64;
    }
    let mut count = 0u64;
    for m in moves.as_slice() {
        if let Some(after) = position.try_play(*m) {
            count = count.saturating_add(count_lines(&after, more - 1));
        }
    }
    count
}

/// The count that a line asks for.
fn count_for(line: &[u8]) -> Option<u64> {
    match line {
        [digit @ b'1'..=b'9', b' ', fen @ ..] => {
            let position = read_fen(fen).ok()?;
            Some(count_lines(&position, *digit - b'1'))
        }
        _ => None,
    }
}

fn main(rt: HostRuntime) -> io::Result<()> {
    for line in rt.lines(rt.alloc()) {
        match count_for(line?.as_bytes()) {
            Some(count) => println!(rt; "{count}")?,
            None => println!(rt; "a wrong line")?,
        }
    }
    Ok(())
}
