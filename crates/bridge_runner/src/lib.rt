//! One run of the bridge over a host: a session whose turns are the steps of a lawful trace, and
//! whose log is the script; and the program `bridge`: arguments, the run that they ask for, and how it
//! is reported.
#![tactic(auto)]

mod bridge;
mod laws;
mod main_call;
mod mediating;
mod running;
mod session;

pub use bridge::bridge_run;
pub use laws::logs_are_whole;
pub use main_call::{bridge_main, refuse_for_memory};
pub use running::run_bridge;
pub use session::Session;
