//! A driver between a UCI interface and a CECP engine (UCI, April 2006; Chess Engine Communication Protocol,
//! version 2): it takes the interface's orders and the engine's lines, and gives the lines to both.
//!
//! The engine must send `feature` with `ping=1`, `setboard=1` and at last `done=1`.
//!
//! Each move in a `bestmove` or an `info` is legal in the position of the last accepted `go`, and each accepted
//! `go` gets one `bestmove`, but for one that is open. Wherever `go` or `analyze` is written, the game that the
//! engine has is the ordered one. A list of events has one script alone.
//!
//! An example, which a test runs on the runtime `rt`:
//!
//! ```
//! let mut driver = Driver::make(rt.alloc()).expect(&rt, "memory");
//! assert!(rt; driver.order(b"uci").child == b"xboard\nprotover 2\n".as_slice());
//! let named = driver.heard(b"feature ping=1 setboard=1 usermove=1 myname=\"Old\" done=1");
//! assert!(rt; named.up == b"id name Old\nuciok\n".as_slice());
//! assert!(rt;
//!     driver
//!         .order(b"position startpos moves e2e4")
//!         .child
//!         .is_empty()
//! );
//! let begun = driver.order(b"go movetime 1500");
//! assert!(rt; begun.child == b"new\nforce\npost\nusermove e2e4\nst 2\ngo\n".as_slice());
//! assert!(rt; driver.heard(b"move e7e5").up == b"bestmove e7e5\n".as_slice());
//! ```
#![tactic(auto)]

mod actions;
mod driver;
mod features;
mod further;
mod laws;
mod ordered;
mod played;
mod same;
mod script;
mod sent_game;

pub use driver::{DOWN_ROOM, Driver, DriverStep, LINE_LIMIT, UP_ROOM};
pub use laws::{runs_are_sound, scripts_are_one, searches_are_on_the_ordered_game};
pub use script::{EVENT_ROOM, put_marks};
