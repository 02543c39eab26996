//! The lines of a chess engine: what it says, and the orders to it (Universal Chess Interface, April 2006).
//!
//! `read_engine` reads of each line the one message that the line spells, which may be `Nothing`. `write_order`
//! writes the text of an order. `read_order` reads a line if and only if it is the text of an order that may be
//! written, and as that order.
//!
//! An example, which a test runs on the runtime `rt`:
//!
//! ```
//! let depth = match read_engine(b"info depth 9 score cp 25 pv e2e4 e7e5") {
//!     EngineMsg::Info(info) => info.depth,
//!     _ => None,
//! };
//! assert!(rt; depth == Some(9));
//! ```
#![tactic(auto)]

mod behind;
mod cut;
mod engine;
mod info;
mod laws;
mod messages;
mod moves;
mod option;
mod order_read;
mod orders;
mod range;
mod written;

pub use engine::{answer_text, read_engine};
pub use laws::lines_say_one_message;
pub use messages::{EngineMsg, Info, OptionKind, OptionMsg, Score};
pub use moves::next_move;
pub use option::next_value;
pub use order_read::{BadOrder, positions_may_stand, read_order};
pub use orders::{GoControl, Order, write_order};
pub use protocol_tokens::GoKind;
