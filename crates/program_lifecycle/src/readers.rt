// The end of a reader.
ghost use Rattle.std.specs.Prelude.{◌≡◌};
ghost use Rattle.event_pipe.specs.Arrivals.{is_read_fault};
ghost use Rattle.program_lifecycle.specs.Readers.{lacked_memory};

use event_pipe::ReadEnd;

/// True if reading failed.
pub fn has_failed(end: ReadEnd) -> bool
    ensures { result ≡ is_read_fault end }
{
    matches!(end, ReadEnd::Fault(_))
}

/// True if there was no memory for a line.
pub fn has_lacked_memory(end: ReadEnd) -> bool
    ensures { result ≡ lacked_memory end }
{
    matches!(end, ReadEnd::NoMemory)
}
