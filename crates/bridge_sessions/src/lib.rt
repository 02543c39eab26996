//! Sessions of the running bridge, as `bridge` and as `wineravine`: its readers beside the loop,
//! and both programs whole over hosts in memory.
#![tactic(auto)]

#[cfg(test)]
mod beside;
#[cfg(test)]
mod exact_log;
#[cfg(test)]
mod expected;
#[cfg(test)]
mod fresh_session;
#[cfg(test)]
mod lost_engine;
#[cfg(test)]
mod ping;
#[cfg(test)]
mod program;
#[cfg(test)]
mod refused_calls;
#[cfg(test)]
mod waiting_host;
#[cfg(test)]
mod whole_log;
#[cfg(test)]
mod wineravine;
