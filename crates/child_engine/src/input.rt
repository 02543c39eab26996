// The input of an engine.
ghost use Rattle.std.specs.Prelude.{◌≡◌, ◌<◌, ◌≤◌, length, take, not, None, IfOk, OnErr, IsErr, true, false};
ghost use Rattle.std.specs.Io.KnownBytes.{WriteAppends};
ghost use Rattle.line_io.specs.Causes.{ErrorIsCounted};
ghost use Rattle.child_engine.specs.Closing.{HandsOn, TookFirst};
ghost use Rattle.child_engine.specs.Input.{ends_with_quit, shown_by_input, is_input_open};

use crate::{ClosableSink, Closing};
use line_io::{Failed, Sink};
use std::io::Write;

/// The input of an engine, over a writer that is closed once it took the line `quit`.
///
/// Nothing is ever written after `quit`, and an engine that ignores the order may still end
/// at the end of its input. The pieces are whole lines, and `quit` comes as a piece of its own,
/// which a pipe takes whole or not at all; if a prefix of it is taken, the writer stays.
#[derive(Drop)]
pub struct EngineInput<W> {
    sink: Closing<W>,
}

// True if the last line is `quit`.
fn ends_with_quit(lines: &[u8]) -> bool
    ensures { result ≡ ends_with_quit lines.now }
{
    lines.ends_with(b"\nquit\n") || lines.len() == 5 && lines.ends_with(b"quit\n")
}

impl<W> EngineInput<W> {
    /// Over a writer, with no fault counted.
    pub fn new(writer: W) -> EngineInput<W>
        ensures shown { shown_by_input result ≡ record { taken = None; faults = 0 } }
        ensures open { is_input_open result ≡ true }
    {
        EngineInput {
            sink: Closing::new(writer),
        }
    }

    /// The count of writes that failed, took nothing, or came after `quit`. It stays at the last
    /// value of its type.
    pub fn faults(&self) -> u64
        ensures { result ≡ (shown_by_input self.now).faults }
    {
        self.sink.faults()
    }

    /// True if the writer is held: it was not closed, and took no line `quit`.
    pub fn is_open(&self) -> bool
        ensures { result ≡ is_input_open self.now }
    {
        self.sink.is_open()
    }
}

impl<W: Write + Drop> Sink for EngineInput<W> {
    ghost state = { λ s. shown_by_input s };

    fn write(&mut self, piece: &[u8]) -> Result<usize, Failed>
        requires { 0 < length piece.now }
        ensures bound { IfOk result (λ n. (0 < n) × (n ≤ length piece.now)) }
        ensures takes { WriteAppends None None result piece.now }
        ensures handed { HandsOn W.contents self.old.sink.writer self.new.sink.writer
            result piece.now }
        ensures took { IfOk result (λ n. TookFirst W.contents self.old.sink.writer n piece.now) }
        ensures cause { ErrorIsCounted (shown_by_input self.old).faults (shown_by_input
            self.new).faults result }
        ensures open { IfOk result (λ n.
            is_input_open self.new ≡ not (ends_with_quit (take n piece.now))) }
        ensures err { OnErr result (is_input_open self.new ≡ is_input_open self.old) }
        ensures shut { is_input_open self.old ≡ false → IsErr result }
    {
        let count = self.sink.write(piece)?;
        if ends_with_quit(&piece[..count]) {
            self.sink.close_sink();
        }
        Ok(count)
    }
}

impl<W: Write + Drop> ClosableSink for EngineInput<W> {
    ghost is_sink_closed = { λ s. is_input_open s ≡ false };

    fn close_sink(&mut self)
        ensures shown { shown_by_input self.new ≡ shown_by_input self.old }
        ensures shut { is_input_open self.new ≡ false }
    {
        self.sink.close_sink();
    }
}
