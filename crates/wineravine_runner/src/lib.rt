//! The program `wineravine`: arguments, the run that they ask for, and how it is reported to a person.
#![tactic(auto)]

mod log_names;
mod main_call;
mod reporting;

pub use main_call::{ProgramCall, refuse_for_memory, wineravine_main};
