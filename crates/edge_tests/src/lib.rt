//! Sources, sinks, the channel, arguments, hosts and the scripted engine, over bytes in memory; and hosts
//! over real programs.
#![tactic(auto)]

#[cfg(test)]
mod closing;
#[cfg(test)]
mod consumers;
#[cfg(test)]
mod edges;
#[cfg(test)]
mod endings;
#[cfg(test)]
mod expected;
#[cfg(test)]
mod hosts;
#[cfg(test)]
mod lines;
#[cfg(test)]
mod pipe;
#[cfg(test)]
mod scripted;
#[cfg(test)]
mod sinks;
