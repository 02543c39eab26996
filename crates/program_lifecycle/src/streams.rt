// The streams of a run.

/// The interface's streams: its lines come from `input`, and what it is given goes to `output`.
#[derive(Drop)]
pub struct Interface<I, O> {
    pub input: I,
    pub output: O,
}

/// The parts that a host handed out for a run: the engine's output and input, and a log that may be missing.
#[derive(Drop)]
pub struct HandedStreams<S, E, L> {
    pub source: S,
    pub engine: E,
    pub log: Option<L>,
}
