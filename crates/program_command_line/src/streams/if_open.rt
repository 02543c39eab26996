// A stream that may be closed when the program starts.
ghost use Rattle.std.specs.Prelude.{◌≡◌, ◌<◌, ◌≤◌, length, false, IfOk, IsErr};
ghost use Rattle.std.specs.Io.{ReadsAtMost};
ghost use Rattle.std.specs.Io.KnownBytes.{WriteAppends};
ghost use Rattle.line_io.specs.Causes.{ErrorIsCounted};
ghost use Rattle.line_io.specs.Source.{ReadTakes, SignalsEnd};
ghost use Rattle.program_command_line.specs.Streams.Closed.{is_stream_open, received_by, supplied_by};

use line_io::{Failed, Sink, Source};

/// A source or a sink each of whose reads and writes fails if it was closed when the program
/// started, and is its stream's if it was open. It shows what its stream shows, but for the faults
/// of one that was closed: they are the reads and writes that it refused.
#[derive(Drop)]
pub struct IfOpen<S> {
    stream: S,
    is_open: bool,
    refusals: u64,
}

impl<S> IfOpen<S> {
    // Over a stream, with nothing refused.
    pub(crate) fn over(stream: S, is_open: bool) -> IfOpen<S>
        ensures stream { result.stream ≡ stream }
        ensures open { result.is_open ≡ is_open }
        ensures refusals { result.refusals ≡ 0 }
    {
        IfOpen {
            stream,
            is_open,
            refusals: 0,
        }
    }
}

impl<S: Source> Source for IfOpen<S> {
    ghost state = { λ s. supplied_by S.state s };

    fn read(&mut self, buf: &mut [u8]) -> Result<usize, Failed>
        requires { 0 < length buf.old }
        ensures bound { ReadsAtMost result buf.new }
        ensures gives { WriteAppends (S.state self.old.stream).given (S.state self.new.stream).given
            result buf.new }
        ensures takes { ReadTakes (S.state self.old.stream).left (S.state self.new.stream).left
            result buf.new }
        ensures ends { SignalsEnd (S.state self.old.stream).left result }
        ensures cause { ErrorIsCounted (supplied_by S.state self.old).faults
            (supplied_by S.state self.new).faults result }
        ensures stays { is_stream_open self.new ≡ is_stream_open self.old }
        ensures refuses { is_stream_open self.old ≡ false → IsErr result }
        ensures unread { is_stream_open self.old ≡ false → self.new.stream ≡ self.old.stream }
    {
        if !self.is_open {
            self.refusals = self.refusals.saturating_add(1);
            return Err(Failed);
        }
        self.stream.read(buf)
    }
}

impl<S: Sink> Sink for IfOpen<S> {
    ghost state = { λ s. received_by S.state s };

    fn write(&mut self, piece: &[u8]) -> Result<usize, Failed>
        requires { 0 < length piece.now }
        ensures bound { IfOk result (λ n. (0 < n) × (n ≤ length piece.now)) }
        ensures takes { WriteAppends (S.state self.old.stream).taken
            (S.state self.new.stream).taken result piece.now }
        ensures cause { ErrorIsCounted (received_by S.state self.old).faults
            (received_by S.state self.new).faults result }
        ensures stays { is_stream_open self.new ≡ is_stream_open self.old }
        ensures refuses { is_stream_open self.old ≡ false → IsErr result }
        ensures unwritten { is_stream_open self.old ≡ false → self.new.stream ≡ self.old.stream }
    {
        if !self.is_open {
            self.refusals = self.refusals.saturating_add(1);
            return Err(Failed);
        }
        self.stream.write(piece)
    }
}
