//! The lines that a chess interface and this program exchange by the Chess Engine
//! Communication Protocol, version 2.
//!
//! `read_iface` reads a message if and only if the line spells it, and says of any other line whether its command
//! is unknown or its argument bad. A line spells at most one message, and it spells `quit` if and only if that
//! is its first token. `write_reply` writes the text of a reply, of at most 128 bytes besides those that it borrows.
//!
//! An example, which a test runs on the runtime `rt`:
//!
//! ```
//! match read_iface(b"usermove e2e4") {
//!     Ok(IfaceMsg::UserMove(opening)) => assert!(rt; Some(opening) == read_move(b"e2e4")),
//!     _ => panic!(rt; "no move"),
//! }
//! assert!(rt; matches!(read_iface(b"ping one"), Err(IfaceFault::BadArgument)));
//! assert!(rt; matches!(read_iface(b"pingpong"), Err(IfaceFault::UnknownCommand)));
//! let mut line = Out::make(rt.alloc(), 200).expect(&rt, "memory for a line");
//! write_reply(&Reply::Pong(1), &mut line);
//! assert!(rt; line.bytes() == b"pong 1".as_slice());
//! ```
#![tactic(auto)]

mod iface;
mod laws;
mod losses;
mod read;
mod reply;
mod reply_write;
mod words;

pub use iface::{IfaceFault, IfaceMsg};
pub use laws::{lines_are_unambiguous, replies_are_short};
pub use losses::{is_quotable, quoted};
pub use read::read_iface;
pub use reply::{Loss, Outcome, Reason, Reply, Spelling, UserError};
pub use reply_write::write_reply;
