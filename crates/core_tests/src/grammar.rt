//! The lines of both protocols and of scripts, as peers write them and spelled out by hand.
mod engine_side;
mod iface_side;
mod orders;
mod script;
mod talk;
mod uci;
mod words;
