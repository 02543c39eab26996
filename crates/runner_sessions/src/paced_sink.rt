// A sink that waits, and shows what it took.
use child_engine::ClosableSink;
use line_io::{Failed, Sink, Source};
use paced_host::{DueText, PacedTexts};
use std::alloc::Global;
use std::sync::atomic::{AtomicU64, Ordering};

/// A sink that keeps what it took, as far as there is memory. Its k-th call, of writes and of the
/// closing, waits for the k-th of its texts, which are to be empty; in front of what came with a
/// call that waited in vain it keeps a line that says so. It shows to all threads how many calls
/// are over that brought a piece with this end.
#[derive(Drop)]
pub struct PacedSink<'a> {
    dues: PacedTexts<'a>,
    calls: &'a AtomicU64,
    end: &'static [u8],
    bytes: Vec<u8>,
}

impl<'a> PacedSink<'a> {
    pub fn new(
        alloc: Global,
        dues: PacedTexts<'a>,
        calls: &'a AtomicU64,
        end: &'static [u8],
    ) -> PacedSink<'a> {
        PacedSink {
            dues,
            calls,
            end,
            bytes: Vec::new(alloc),
        }
    }

    /// One that waits for nothing.
    pub fn ready(alloc: Global, calls: &'a AtomicU64, end: &'static [u8]) -> PacedSink<'a> {
        PacedSink::new(alloc, PacedTexts::new(calls, &[]), calls, end)
    }

    /// The taken bytes.
    pub fn bytes(&self) -> &[u8] {
        self.bytes.as_slice()
    }

    // Waits, and takes the bytes then.
    fn call(&mut self, piece: &[u8]) {
        let mut missed = [0; 64];
        if let Ok(count) = self.dues.read(&mut missed) {
            let _ = self.bytes.extend_from_slice(&missed[..count]);
        }
        let _ = self.bytes.extend_from_slice(piece);
        if piece.ends_with(self.end) {
            let _ = self.calls.fetch_add(1, Ordering::SeqCst);
        }
    }
}

impl<'a> Sink for PacedSink<'a> {
    ghost use Rattle.std.specs.Prelude.{None};

    ghost state = { λ s. record { taken = None; faults = 0 } };

    fn write(&mut self, piece: &[u8]) -> Result<usize, Failed> {
        self.call(piece);
        Ok(piece.len())
    }
}

impl<'a> ClosableSink for PacedSink<'a> {
    ghost use Rattle.std.specs.Prelude.{⊤};

    ghost is_sink_closed = { λ _. ⊤ };

    fn close_sink(&mut self) {
        self.call(b"");
    }
}
