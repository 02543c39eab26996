//! An engine whose answers stand in a script.
#![tactic(auto)]

mod answering;
mod block;
mod ending;
mod line;
mod queue;
mod run;
mod script;

pub use ending::ScriptedEnding;
pub use run::scripted_main;
pub use script::{ScriptFault, Scripted};
