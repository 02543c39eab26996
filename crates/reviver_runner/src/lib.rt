//! An engine that is started again, over a host: one life, its lines beside the interface's orders, into the revival;
//! one run of all lives, beside the interface's reader; and the program `reviver`: arguments, the run that they ask for,
//! and how it is reported.
#![tactic(auto)]

mod arguments;
mod closing;
mod drain;
mod laws;
mod life;
mod lives;
mod looping;
mod main_call;
mod message;
mod outcome;
mod parts;
mod reading;
mod run;
mod starting;
mod turns;

pub use arguments::{ReviverRequest, read_arguments};
pub use laws::logs_are_whole;
pub use life::{LifeRun, one_life};
pub use looping::{MarkedLog, RevivalLoop, hear, offer_all};
pub use main_call::{refuse_for_memory, revive_main};
pub use message::LifeMessage;
pub use reading::read_life;
pub use run::revive_run;
