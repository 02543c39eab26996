//! Commands over scripts that run no core. `migrate` turns a script of version 1 into one with a header;
//! `revive` plays one to an engine that is started again; `drive` plays one of a UCI interface and a CECP
//! engine to a driver between both, and writes its script (UCI, April 2006; Chess Engine Communication
//! Protocol, version 2).
#![tactic(auto)]

mod driver_filter;
mod driving;
mod migration;
mod revival;
mod reviver;
mod run;

pub use driving::run_drive;
pub use revival::run_revive;
pub use reviver::Reviver;
pub use run::migrate;
