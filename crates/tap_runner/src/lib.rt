//! Between a bridge and its engine: what each writes is handed on to the other as it comes, and the lines of both go
//! through one channel into a log; and the program `tap`: arguments, the run that they ask for, and how it is reported.
#![tactic(auto)]

mod laws;
mod logging;
mod main_call;
mod message;
mod part;
mod parts;
mod passing;
mod run;
mod tap;

pub use laws::logs_are_whole;
pub use logging::{LOG_ROOM, keep_log};
pub use main_call::{refuse_for_memory, tap_main};
pub use message::{TapMark, TapMessage};
pub use part::OpenLine;
pub use parts::TapParts;
pub use passing::{Direction, PassEnd, hand_on};
pub use run::{TapEnd, run_tap};
pub use tap::tap_run;
