//! A script of either version as a session: what its lines say, in order, and a core that is stepped
//! for each of its events.
#![tactic(auto)]

mod player;
mod stage;

pub use player::Player;
pub use stage::{LineSaid, ScriptStage};
