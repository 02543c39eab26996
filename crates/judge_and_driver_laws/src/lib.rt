//! Laws on the talk with an engine. In the log of a lawful trace the judge finds no mark that breaks a rule, if it takes the log
//! for the bridge's own, or for that of a tap that heard an answer only before `stop`, `ponderhit` and `quit`; and what the
//! lines say that a driver writes to its engine, as an engine reads them (Chess Engine Communication Protocol, version 2).
#![tactic(auto)]

mod driver_laws;
mod judge_laws;

pub use driver_laws::{engines_hear_the_ordered, lines_are_cecp};
pub use judge_laws::{logs_are_clean, scripts_are_clean, taps_are_clean};
