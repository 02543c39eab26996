//! The clocks of a session, and the `go` line that they give.
#![tactic(auto)]

mod clocks;
mod laws;
mod request;

pub use clocks::Clocks;
pub use laws::{clocks_stay_short, searches_are_short};
pub use request::SearchRequest;
