// Why arguments ask for nothing.
use std::alloc::AllocError;

/// Why the arguments of a program ask for nothing.
#[derive(Clone, Copy, Debug, PartialEq, Eq)]
pub enum ArgumentsRefusal {
    Usage,
    NoMemory,
}

impl From<AllocError> for ArgumentsRefusal {
    ghost use Rattle.std.specs.Prelude.{◌≡◌};
    ghost use Rattle.program_command_line.specs.declared.arguments.refusal.ArgumentsRefusal.TheVariants as refusals;

    ghost from_gives = { λ e r. r ≡ refusals.NoMemory };

    fn from(_: AllocError) -> Self {
        ArgumentsRefusal::NoMemory
    }
}
