// The failures of a run.
ghost use Rattle.std.specs.Prelude.{◌≡◌, ◌||◌};
ghost use Rattle.program_lifecycle.specs.Early.{only_memory, only_start};

/// The failures of a run of a program over a host.
#[derive(Clone, Copy, Default)]
pub struct Failures {
    /// Before the engine was started there was no memory for the run, for a thread of each reader
    /// or for the engine's command; or later none to open the log or for a line in transit.
    pub memory: bool,
    pub iface_read: bool,
    pub iface_write: bool,
    pub engine_read: bool,
    pub engine_write: bool,
    pub engine_start: bool,
    pub log: bool,
    pub engine_wait: bool,
}

/// True if one of two calls failed. It stands for `||` where each way through a run would have to be
/// proved twice.
pub fn either(one: bool, other: bool) -> bool
    ensures { result ≡ (one || other) }
{
    one || other
}

/// There was no memory, and nothing else failed.
pub fn only_memory() -> Failures
    ensures { result ≡ only_memory }
{
    Failures {
        memory: true,
        ..Failures::default()
    }
}

/// The engine could not be started, and nothing else failed.
pub fn only_start() -> Failures
    ensures { result ≡ only_start }
{
    Failures {
        engine_start: true,
        ..Failures::default()
    }
}
