//! The running driver: a UCI interface's orders and a CECP engine's lines go to the driver, and what
//! it gives goes to the interface, to the engine and into the log, over any host; and the program
//! `driver`: arguments, the run that they ask for, and how it is reported.
#![tactic(auto)]

mod drive;
mod driving;
mod laws;
mod main_call;

pub use drive::drive_run;
pub use driving::Driving;
pub use laws::logs_are_whole;
pub use main_call::{drive_main, refuse_for_memory};
