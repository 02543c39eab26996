// The request for a run.
use child_engine::LogPlace;

/// The request for a run.
#[derive(Clone, Copy)]
pub struct RunRequest<'a> {
    /// Lines that the mediator takes as the interface's, before all that comes from either peer.
    pub first: &'a [u8],
    pub log: LogPlace<'a>,
    /// The engine's program and its arguments.
    pub engine: &'a [String],
}
