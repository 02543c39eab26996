//! The program `replay` as a function of its arguments and its streams: it replays, checks, migrates and judges recorded
//! sessions, writes their games, plays them to a revived engine and to a driver, lists legal moves, and plays drills.
#![tactic(auto)]

mod replay;

pub use replay::{refuse_for_memory, replay_main};
