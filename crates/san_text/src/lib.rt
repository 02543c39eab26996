//! Moves in standard algebraic notation, `Nf3`, `exd6`, `e8=Q+`, `O-O`, and in long algebraic form, `Ng1-f3`, which
//! is only read; and the text of a game: a tag with its start, if that is not the standard one, and a line with its
//! moves, their numbers and the result.
//!
//! The spelling of the notation is that of appendix C of the FIDE Laws of Chess, with the distinctions of the export
//! format of the PGN standard (8.2.3); the text of a game is that of its sections 8.2 and 9.7.2. No call takes memory.
//!
//! `read_san` gives the one legal move that fits a text, or says that the text has no spelling, that no legal
//! move fits, or that more than one does. `write_san` writes of a legal move the one text that the standard
//! gives it, of at most seven bytes, which fits that move alone. `write_game` writes the moves of a game with
//! their numbers and the result, in at most `GAME_ROOM` bytes.
//!
//! An example, which a test runs on the runtime `rt`:
//!
//! ```
//! let start = Position::start();
//! let knight = read_san(&start, b"Nf3").expect(&rt, "a legal move");
//! assert!(rt; Some(knight) == read_move(b"g1f3"));
//! assert!(rt; start.legal(knight));
//! assert!(rt; write_san(&start, knight).as_slice() == b"Nf3".as_slice());
//! assert!(rt; read_san(&start, b"Nd4") == Err(SanFault::NoFit));
//! assert!(rt; read_san(&start, b"knight") == Err(SanFault::BadSan));
//! ```
#![tactic(auto)]

mod fault;
mod game;
mod game_laws;
mod game_parts;
mod laws;
mod long_form;
mod pieces;
mod reading;
mod spelling;
mod writing;

pub use fault::SanFault;
pub use game::{GAME_ROOM, write_game};
pub use game_laws::sans_are_lawful;
pub use laws::{castlings_are_written, moves_have_one_text, texts_tell_moves_apart};
pub use long_form::read_long_form;
pub use reading::read_san;
pub use writing::write_san;
