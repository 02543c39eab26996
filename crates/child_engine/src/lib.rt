//! Hosts: where a program gets its engine and its log from.
#![tactic(auto)]

mod closing;
mod copies;
mod host;
mod input;
mod mem_files;
mod memory;
mod new_files;
mod pipe_sink;
mod places;
mod process;
mod real;
mod real_files;
mod steady;

pub use closing::{ClosableSink, Closing};
pub use host::{Faults, Host, HostFault, Started};
pub use input::EngineInput;
pub use memory::{Fails, MemHost};
pub use new_files::NewFiles;
pub use pipe_sink::PipeSink;
pub use places::{AskedLog, LogPlace, MOST_NEW_LOGS, NewLog};
pub use process::RealProcess;
pub use real::RealHost;
pub use steady::SteadyHost;
