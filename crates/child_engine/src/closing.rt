// Sinks that close what they write to.
ghost use Rattle.std.specs.Prelude.{◌≡◌, ◌<◌, ◌≤◌, ⊤, length, None, IfOk, IsErr, true, false};
ghost use Rattle.std.specs.Io.KnownBytes.{WriteAppends};
ghost use Rattle.line_io.specs.Causes.{ErrorIsCounted};
ghost use Rattle.child_engine.specs.Closing.{HandsOn, shown_by_closing, is_writer_held};

use line_io::{Failed, MemSink, NullSink, Sink};
use std::io::Write;

/// A sink that can close what it writes to, so that an engine that reads there meets the end of
/// its input. What the sink shows stays as it is. Nothing is to be written to it from then on.
pub trait ClosableSink: Sink {
    /// It is closed. This holds of a sink that has nothing to close.
    ghost is_sink_closed: { Self → Type 0 };

    fn close_sink(&mut self)
        ensures shown { Self.state self.new ≡ Self.state self.old }
        ensures gone { is_sink_closed self.new };
}

impl ClosableSink for MemSink {
    ghost is_sink_closed = { λ _. ⊤ };

    fn close_sink(&mut self) {}
}

impl ClosableSink for NullSink {
    ghost is_sink_closed = { λ _. ⊤ };

    fn close_sink(&mut self) {}
}

/// A sink over a writer that is closed when it is asked to be, and not before.
#[derive(Drop)]
pub struct Closing<W> {
    writer: Option<W>,
    faults: u64,
}

impl<W> Closing<W> {
    /// Over a writer, with no fault counted.
    pub fn new(writer: W) -> Closing<W>
        ensures shown { shown_by_closing result ≡ record { taken = None; faults = 0 } }
        ensures open { is_writer_held result ≡ true }
    {
        Closing {
            writer: Some(writer),
            faults: 0,
        }
    }

    /// Over no writer: it is closed already, and each write fails.
    pub fn shut() -> Closing<W>
        ensures shown { shown_by_closing result ≡ record { taken = None; faults = 0 } }
        ensures shut { is_writer_held result ≡ false }
    {
        Closing {
            writer: None,
            faults: 0,
        }
    }

    /// The count of writes that failed, took nothing, or came when the writer was gone. It stays at the
    /// last value of its type.
    pub fn faults(&self) -> u64
        ensures { result ≡ (shown_by_closing self.now).faults }
    {
        self.faults
    }

    /// True if the writer was not closed yet.
    pub fn is_open(&self) -> bool
        ensures { result ≡ is_writer_held self.now }
    {
        self.writer.is_some()
    }
}

impl<W: Write + Drop> Closing<W> {
    // Hands the piece to the writer. One that takes nothing fails.
    fn hand_over(&mut self, piece: &[u8]) -> Result<usize, Failed>
        requires { 0 < length piece.now }
        ensures bound { IfOk result (λ n. (0 < n) × (n ≤ length piece.now)) }
        ensures handed { HandsOn W.contents self.old.writer self.new.writer result piece.now }
        ensures faults { self.new.faults ≡ self.old.faults }
        ensures open { is_writer_held self.new ≡ is_writer_held self.old }
        ensures shut { is_writer_held self.old ≡ false → IsErr result }
    {
        let Some(writer) = &mut self.writer else {
            return Err(Failed);
        };
        match writer.write(piece) {
            Ok(count) if count > 0 => Ok(count),
            _ => Err(Failed),
        }
    }
}

impl<W: Write + Drop> Sink for Closing<W> {
    ghost state = { λ s. shown_by_closing s };

    fn write(&mut self, piece: &[u8]) -> Result<usize, Failed>
        requires { 0 < length piece.now }
        ensures bound { IfOk result (λ n. (0 < n) × (n ≤ length piece.now)) }
        ensures takes { WriteAppends None None result piece.now }
        ensures handed { HandsOn W.contents self.old.writer self.new.writer result piece.now }
        ensures cause { ErrorIsCounted (shown_by_closing self.old).faults (shown_by_closing
            self.new).faults result }
        ensures open { is_writer_held self.new ≡ is_writer_held self.old }
        ensures shut { is_writer_held self.old ≡ false → IsErr result }
    {
        match self.hand_over(piece) {
            Ok(count) => Ok(count),
            Err(fault) => {
                self.faults = self.faults.saturating_add(1);
                Err(fault)
            }
        }
    }
}

impl<W: Write + Drop> ClosableSink for Closing<W> {
    ghost is_sink_closed = { λ s. is_writer_held s ≡ false };

    fn close_sink(&mut self)
        ensures shown { shown_by_closing self.new ≡ shown_by_closing self.old }
        ensures shut { is_writer_held self.new ≡ false }
    {
        self.writer = None;
    }
}
