// The tap.
mod directions;
mod order;
mod program;
