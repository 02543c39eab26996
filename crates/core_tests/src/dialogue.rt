//! The dialogue with the engine, the desk and the core: what no session that the program `replay` plays shows of them,
//! and their laws.
mod adapter;
mod desk;
mod epochs;
mod laws;
