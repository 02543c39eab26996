//! An engine that may die: it is started again, with its settings and its search, and looks like one engine.
//!
//! The lines to each life, with those heard from it, are a dialogue in order, in which nothing comes after `quit`
//! and nothing reaches a life that has ended. A line is passed up only if it is waited for, so a search gets one
//! `bestmove` at most. A life that is given a search gets the orders of the open one as they came and, unless a
//! setting had no room, the line that set each option last.
//!
//! An example, which a test runs on the runtime `rt`:
//!
//! ```
//! let mut revival = Revival::make(rt.alloc(), 2).expect(&rt, "memory");
//! assert!(rt; !revival.awaits_next());
//! assert!(rt; revival.order(b"uci").child == b"uci\n".as_slice());
//! assert!(rt; revival.is_alive());
//! assert!(rt; revival.heard(b"uciok").up == b"uciok\n".as_slice());
//! assert!(rt; !revival.awaits_next());
//! assert!(rt; revival.order(b"position startpos").child.is_empty());
//! assert!(rt; !revival.awaits_next());
//! let search = b"position startpos\ngo infinite\n".as_slice();
//! assert!(rt; revival.order(b"go infinite").child == search);
//! assert!(rt; revival.is_alive());
//! assert!(rt; revival.ended());
//! assert!(rt; revival.begin().child == b"uci\n".as_slice());
//! assert!(rt; revival.is_alive());
//! assert!(rt; revival.heard(b"uciok").child == search);
//! ```
#![tactic(auto)]

mod laws;
mod life;
mod names;
mod order_list;
mod orders;
mod revival;
mod script;
mod state;
mod words;
mod written_lines;

pub use laws::{
    lines_up_are_waited_for, lives_are_in_order, living_engines_are_heard, no_life_idles,
    own_orders_are_taken, presses_are_given, ready_is_answered, searches_are_given, talk_is_lawful,
};
pub use order_list::{MOST_BYTES, MOST_ORDERS};
pub use orders::{RevivalOrder, read_order};
pub use revival::{MARKS_ROOM, Revival, RevivalStep};
pub use script::{EVENT_ROOM, put_marks};
pub use state::{MOST_LINE, MOST_READY};
pub use words::{DialogueState, LifeSaid, LifeState, said_in};
