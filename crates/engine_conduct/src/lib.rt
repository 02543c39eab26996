//! The judge of an engine's own conduct: which of its lines breaks a sentence of UCI's description (April 2006). It hears
//! the marks of the log of any bridge, or of a tap, one by one, and goes on behind a fault.
//!
//! A log has an order before the engine can have read it, and a line of the engine after the engine wrote it. So the
//! engine had read a first part of the orders that stand before its line, and perhaps not all. A line is blamed only if
//! it is a fault whatever that part was: an order counts from its place on where it excuses, and what a search forbids
//! counts only where its `go` alone forbids it.
#![tactic(auto)]

mod broken;
mod declared;
mod form;
mod judge;
mod known;
mod listed;
mod orders;
mod rule;
mod runs;
mod search;
mod words;

pub use judge::{EngineJudge, no_innocent_is_blamed};
pub use known::{Due, Hearing, Known, LongLines};
pub use listed::MOST_LISTED;
pub use orders::{Castling, PlayedGame};
pub use rule::{ConductFault, ConductRule};
pub use search::{DueSearch, OpenSearch, Pondering, SearchEnd};
