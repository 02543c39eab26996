//! The core of the bridge: one event in, lines to both peers out.
#![tactic(auto)]

mod ends;
mod laws;
mod session;
mod steps;

pub use ends::Ends;
pub use laws::{interface_alone, moves_are_shown_in_time};
pub use session::{Core, Step, ended_sides_get_nothing, one_dialogue};
