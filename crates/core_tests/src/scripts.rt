//! The program `replay`: inputs in pieces, reads and writes that fail, and the laws of scripts and logs.
mod conduct;
mod laws;
mod replayed;
mod streams;
