// The lives that have ended.
ghost use Rattle.std.specs.Prelude.{◌≡◌, ◌||◌};
ghost use Rattle.event_pipe.specs.Arrivals.{is_read_fault};
ghost use Rattle.program_lifecycle.specs.Readers.{lacked_memory};
ghost use Rattle.reviver_runner.specs.Lives.{empty_tally};

use crate::LifeRun;
use event_pipe::ReadEnd;
use program_lifecycle::{has_failed, has_lacked_memory};
use std::collections::VecDeque;

/// The failures in the lives so far: reading or writing in one of them, or memory for a line.
#[derive(Clone, Copy)]
pub(crate) struct LivesTally {
    pub engine_read: bool,
    pub engine_write: bool,
    pub memory: bool,
}

impl LivesTally {
    /// Nothing failed.
    pub(crate) fn none() -> LivesTally
        ensures { result ≡ empty_tally }
    {
        LivesTally {
            engine_read: false,
            engine_write: false,
            memory: false,
        }
    }

    /// With one more life.
    pub(crate) fn with(self, end: ReadEnd, write_failed: bool) -> LivesTally
        ensures read { result.engine_read ≡ (self.engine_read || is_read_fault end) }
        ensures write { result.engine_write ≡ (self.engine_write || write_failed) }
        ensures memory { result.memory ≡ (self.memory || lacked_memory end) }
    {
        LivesTally {
            engine_read: self.engine_read || has_failed(end),
            engine_write: self.engine_write || write_failed,
            memory: self.memory || has_lacked_memory(end),
        }
    }
}

/// The arguments that start an engine, the run of the first life, before it goes on, the runs of the
/// lives that have ended, and what failed in these.
#[derive(Drop)]
pub(crate) struct AllRuns<S, K> {
    pub arguments: Vec<String>,
    pub first: Option<LifeRun<S, K>>,
    pub ended: VecDeque<LifeRun<S, K>>,
    pub tally: LivesTally,
}
