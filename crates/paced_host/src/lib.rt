//! For tests: a host in memory whose sources wait for what its log took, so that a run over it has
//! one log. A run in which one waits in vain has another log: a line of it says what did not come.
//! An interface that is a `PacedSource` says it by `missed` alone.
#![tactic(auto)]

mod host;
mod log;
mod missed;
mod source;

pub use host::PacedHost;
pub use log::PacedLog;
pub use source::{DueText, PacedSource, PacedTexts};
