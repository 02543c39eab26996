// A sink over the pipe into an engine.
ghost use Rattle.std.specs.Prelude.{◌≡◌};
ghost use Rattle.child_engine.specs.Hosts.{HoldsOn};
ghost use Rattle.child_engine.specs.Real.{real_mute_sink};

use crate::{ClosableSink, Closing, EngineInput};
use std::io::Write;

/// A sink over the pipe `P` into an engine: its type says when the pipe is closed, so that the engine
/// meets the end of its input. It reports no bytes.
pub trait PipeSink<P>: ClosableSink {
    /// Over a pipe that it holds, with no fault counted.
    fn over(pipe: P) -> Self
        ensures shown { Self.state result ≡ real_mute_sink 0 }
        ensures held { HoldsOn Self.is_sink_closed result };

    /// The count of failed writes.
    fn faults(&self) -> u64
        ensures { Self.state self.now ≡ real_mute_sink result };
}

/// The pipe is closed once it took the line `quit`.
impl<P: Write + Drop> PipeSink<P> for EngineInput<P> {
    fn over(pipe: P) -> Self {
        EngineInput::new(pipe)
    }

    fn faults(&self) -> u64 {
        EngineInput::faults(self)
    }
}

/// The pipe is closed when the sink is told so.
impl<P: Write + Drop> PipeSink<P> for Closing<P> {
    fn over(pipe: P) -> Self {
        Closing::new(pipe)
    }

    fn faults(&self) -> u64 {
        Closing::faults(self)
    }
}
