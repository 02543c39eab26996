//! Tests of the running driver, reviver and tap: their loops and readers over sources and sinks in
//! memory, whole runs over hosts in memory, and sessions of what they run, call by call.
#![tactic(auto)]

#[cfg(test)]
mod driver;
#[cfg(test)]
mod examples;
#[cfg(test)]
mod expected;
#[cfg(test)]
mod paced_sink;
#[cfg(test)]
mod programs;
#[cfg(test)]
mod reviver;
#[cfg(test)]
mod rows;
#[cfg(test)]
mod runs;
#[cfg(test)]
mod streams;
#[cfg(test)]
mod talking_host;
#[cfg(test)]
mod talks;
#[cfg(test)]
mod tap;
