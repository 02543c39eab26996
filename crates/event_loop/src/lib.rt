//! The mediator between two peers, and the loop that runs it: each event that comes is a turn, whose
//! lines go to both peers and into the log; and one run of it over any host.
#![tactic(auto)]

mod hosted;
mod hosted_parts;
mod laws;
mod looping;
mod mediator;
mod parts;
mod request;
mod run;

pub use hosted::run_mediator;
pub use laws::first_lines_join;
pub use looping::mediate;
pub use mediator::{Mediator, TURN_ROOM};
pub use parts::{MediatorParts, Turns};
pub use request::RunRequest;
pub use run::{MediatorRun, RunEnd, run_pipes};
