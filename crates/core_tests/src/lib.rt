//! Tests of crates below the programs, for what no session shows: the board and its texts, the protocols, the
//! tables, the dialogue, scripts and logs; and their laws.
#![tactic(auto)]

#[cfg(test)]
mod board;
#[cfg(test)]
mod dialogue;
#[cfg(test)]
mod examples;
#[cfg(test)]
mod expect;
#[cfg(test)]
mod grammar;
#[cfg(test)]
mod laws;
#[cfg(test)]
mod rows;
#[cfg(test)]
mod scripts;
#[cfg(test)]
mod tables;
