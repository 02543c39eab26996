//! The interface's side of the Chess Engine Communication Protocol, version 2: what an interface says, as it
//! writes it, and what an engine replies, as it reads it. The bridge itself only goes the other way, with
//! `cecp_lines`.
//!
//! `write_iface` writes a message in one spelling, with one blank between its parts. `read_iface` of
//! `cecp_lines` reads what is written as the same message. `read_reply` reads a reply if and only if the line is
//! its text.
//!
//! An example, which a test runs on the runtime `rt`:
//!
//! ```
//! let mut line = Out::make(rt.alloc(), 200).expect(&rt, "memory for a line");
//! write_iface(&IfaceMsg::New, &mut line);
//! assert!(rt; line.bytes() == b"new".as_slice());
//! assert!(rt; read_reply(b"pong 7") == Some(Reply::Pong(7)));
//! assert!(rt; read_reply(b"resign") == Some(Reply::Resign));
//! assert!(rt; read_reply(b"pong seven").is_none());
//! ```
#![tactic(auto)]

mod laws;
mod move_texts;
mod reply_read;
mod san;
mod write;
mod written_numbers;

pub use laws::written_messages_are_read_again;
pub use reply_read::read_reply;
pub use write::write_iface;
