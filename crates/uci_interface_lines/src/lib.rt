//! The engine's side of the Universal Chess Interface, April 2006: what an engine says, as it writes it, and two
//! orders as any interface may spell them, the kind of a `go` and what a `position` line says. `uci_lines` is the
//! bridge's side: it reads what an engine says, and writes and reads orders in one spelling.
//!
//! `spoken` reads a `position` line if and only if it says a position and moves that are legal in their turn, and
//! `spoken_by` does so by the rules of a variant.
//! `go_kind` tells the kind of a `go` by its tokens, wherever they stand. What `write_engine` writes of a message
//! that some line spells is read by `read_engine` as that message, and is at most 256 bytes longer than that line.
//!
//! An example, which a test runs on the runtime `rt`:
//!
//! ```
//! match spoken(b"position startpos moves e2e4") {
//!     Some(said) => assert!(rt;
//!         said.end.side() == Side::Black && said.moves == b"e2e4".as_slice()
//!     ),
//!     None => panic!(rt; "no position"),
//! }
//! assert!(rt; spoken(b"position startpos moves e2e5").is_none());
//! assert!(rt; go_kind(b"go wtime 60000 ponder") == GoKind::Ponder);
//! let mut line = Out::make(rt.alloc(), 200).expect(&rt, "memory for a line");
//! write_engine(&EngineMsg::ReadyOk, &mut line);
//! assert!(rt; line.bytes() == b"readyok".as_slice());
//! ```
#![tactic(auto)]

mod canonical;
mod kind;
mod laws;
mod line;
mod moves;
mod read;
mod words;

pub use canonical::write_engine;
pub use kind::go_kind;
pub use laws::{written_messages_are_read_again, written_messages_fit_the_line};
pub use line::Spoken;
pub use moves::play_all;
pub use read::{spoken, spoken_by};
