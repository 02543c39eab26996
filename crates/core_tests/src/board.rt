//! The board and its texts: what no program shows of them. Moves, positions and games that `replay` shows are in
//! `scripts/dev/worked`, and counts of lines of play are the input of the program `perft`.
mod chess960;
mod game;
mod moves;
pub(crate) mod positions;
mod san;
