//! Commands of the program `replay`: what its arguments ask for, and how a script is replayed, a log checked, the legal
//! moves of a position listed, and a drill played.
#![tactic(auto)]

mod check;
mod command;
mod expected_lines;
mod moves;
mod play;
mod run;
mod settings;
mod verdict;

pub use check::run_check;
pub use command::{ReplayCommand, read_command};
pub use moves::list_moves;
pub use play::play_drill;
pub use run::run_replay;
