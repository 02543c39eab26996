//! Common to the programs over a host: the streams and the host that a program begins with, and those of a run;
//! threads that are tried, the start of an engine, a log that may be missing; what a loop offers to its sinks, of
//! which one that failed gets nothing more; what failed, how a program ends and reports it.
#![tactic(auto)]

mod ending;
mod failures;
mod log;
mod offering;
mod readers;
mod start;
mod starting;
mod streams;
mod threads;

pub use ending::{ProgramEnding, finish, report_ending};
pub use failures::{Failures, either, only_memory, only_start};
pub use log::{Opened, close_log, is_open_failure, is_open_memory, open_log};
pub use offering::{LoopEnd, offer, offer_log};
pub use readers::{has_failed, has_lacked_memory};
pub use start::ProgramStart;
pub use starting::start_engine;
pub use streams::{HandedStreams, Interface};
pub use threads::TriedThreads;
