// A session: a core with the number of its next step.
ghost use Rattle.std.specs.Prelude.{◌<◌, ◌^◌};

use adapter_core::Core;

/// A core with the number of its next step.
#[derive(Drop)]
pub struct Session {
    pub(crate) core: Core,
    pub(crate) next: u64,
    ghost below: { next < 10 ^ 18 },
}
