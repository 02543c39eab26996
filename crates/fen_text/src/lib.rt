//! Positions as texts: the Forsyth-Edwards Notation (FEN) of the PGN standard, section 16.1.
//!
//! A text has six fields between blanks, tabs and carriage returns: board, side on move, castling
//! rights, en passant square, half-move count, full-move count.
//!
//! `read_fen` answers with the position of normal chess that a text spells, or with the fault of the first field
//! that spells nothing or, if each spells something, of a position that cannot be. `read_fen_by` reads by a
//! variant: in Chess960 the castling field has letters of wings or of rooks' files (X-FEN and Shredder-FEN).
//! `write_fen` writes at most 93 bytes, which are read by the position's variant as the same position. So
//! different ones of a variant have different texts.
//!
//! An example, which a test runs on the runtime `rt`:
//!
//! ```
//! let text = b"4k3/8/8/8/8/8/4P3/4K3 w - - 0 1".as_slice();
//! let position = read_fen(text).expect(&rt, "a position");
//! assert!(rt; position.moves().as_slice().len() == 6);
//! assert!(rt; write_fen(&position).as_slice() == text);
//! let refused = read_fen(b"4k3/8/8/8/8/8/4P3/4K3 white - -");
//! assert!(rt; matches!(refused, Err(FenFault::Side)));
//! ```
#![tactic(auto)]

mod fault;
mod fields;
mod read;
mod rook_files;
mod squares;
mod write;

pub use fault::FenFault;
pub use read::{read_fen, read_fen_by, read_is_normal, read_is_of_variant};
pub use rook_files::castling_fields_are_exact;
pub use write::{write_fen, written_is_short, written_reads_back, written_reads_back_by};
