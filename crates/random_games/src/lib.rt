//! A large session made from a number: the core plays games of drawn legal moves, and what it wrote is counted.
#![tactic(auto)]

mod dialogue;
mod generator;
mod laws;
mod lines;
mod round;
mod run;
mod session;
mod tally;

pub use generator::MODULUS;
pub use laws::drills_are_one;
pub use run::{MOST_ROUNDS, drill_line};
