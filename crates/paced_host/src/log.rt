// A log that shows how many lines it took.
ghost use Rattle.std.specs.Prelude.{◌≡◌};

use line_io::{Failed, MemSink, Sink};
use std::sync::atomic::{AtomicU64, Ordering};

// The number of line feeds.
fn feeds_in(piece: &[u8]) -> u64 {
    let mut count: u64 = 0;
    for byte in piece {
        if *byte == b'\n' {
            count = count.saturating_add(1);
        }
    }
    count
}

/// A log in memory that shows to all threads how many lines it took.
#[derive(Drop)]
pub struct PacedLog<'a> {
    pub sink: MemSink,
    lines: &'a AtomicU64,
    count: u64,
}

impl<'a> PacedLog<'a> {
    pub fn new(sink: MemSink, lines: &'a AtomicU64) -> PacedLog<'a>
        ensures { result.sink ≡ sink }
    {
        PacedLog {
            sink,
            lines,
            count: 0,
        }
    }
}

impl<'a> Sink for PacedLog<'a> {
    ghost use Rattle.child_engine.specs.Memory.{shown_by_sink};

    ghost state = { λ s. shown_by_sink s.sink };

    fn write(&mut self, piece: &[u8]) -> Result<usize, Failed> {
        let taken = self.sink.write(piece)?;
        self.count = self.count.saturating_add(feeds_in(&piece[..taken]));
        self.lines.store(self.count, Ordering::SeqCst);
        Ok(taken)
    }
}
