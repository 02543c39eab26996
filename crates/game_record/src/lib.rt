//! The record of a game: its start, its moves, repetitions and the end (FIDE Laws of Chess, articles
//! 5.1, 5.2, 9.2 and 9.3), and the `position` line that gives it to an engine.
//!
//! A game takes all its memory when it is made.
//!
//! `try_play` plays a legal move, and refuses any other, or one more than `MOST_PLIES`; `undo` refuses to take
//! back more moves than there are; what is refused changes nothing. `repeats` and `ended` say how often the
//! present position has stood, and how the game has ended, if it has. `write_position` writes the start and
//! all moves, in at most `POSITION_TEXT` bytes.
//!
//! An example, which a test runs on the runtime `rt`:
//!
//! ```
//! let mut game = Game::make(rt.alloc()).expect(&rt, "memory for a game");
//! let opening = read_move(b"e2e4").expect(&rt, "a move text");
//! assert!(rt; game.try_play(opening) == Ok(()));
//! assert!(rt; game.try_play(opening) == Err(PlayFault::Illegal));
//! let mut line = Out::make(rt.alloc(), POSITION_TEXT).expect(&rt, "memory for a line");
//! game.facts();
//! assert!(rt; line.spare() >= POSITION_TEXT);
//! game.write_position(None, &mut line);
//! assert!(rt; line.bytes() == b"position startpos moves e2e4".as_slice());
//! assert!(rt; game.undo(1) == Ok(()) && game.plies() == 0);
//! assert!(rt; game.undo(1) == Err(NoMove));
//! ```
#![tactic(auto)]

mod ending;
mod game;
mod laws;
mod line;

pub use ending::GameEnd;
pub use game::{Game, MOST_PLIES, NoMove, POSITION_TEXT, PlayFault};
pub use laws::{
    endings_are_lawful, position_lines_are_short, sameness_is_lawful, standard_start_is_one,
    states_are_lawful,
};
