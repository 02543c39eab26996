//! The desk: what comes of an event, what it changes, what it asks of the engine, and what is written to the interface.
#![tactic(auto)]

mod after;
mod answers;
mod ask;
mod call;
mod change;
mod desk;
mod early;
mod effect;
mod events;
mod mode;
mod name;
mod orders;
mod pings;
mod refuse;
mod sizes;

pub use answers::put_pongs;
pub use call::is_gone;
pub use desk::Desk;
pub use early::{EARLY_BYTES, Early, MOST_EARLY};
pub use effect::{AskedOrders, Context, Decision, Effect, EventEffect, Refusal};
pub use mode::Mode;
pub use name::EngineName;
pub use orders::{put_chosen, put_order};
pub use pings::{MOST_PINGS, Pings};
pub use sizes::{SHORT_REPLY, STEP_ORDERS, STEP_REPLIES, THINKING_LINE};
