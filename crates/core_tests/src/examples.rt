//! An example of each library that README names: `scripts/dev/examples --write` puts them into the libraries' heads.
mod board;
mod dialogue;
mod engine_lines;
mod games;
mod interface_lines;
mod streams;
