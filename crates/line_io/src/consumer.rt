// The consumer of lines, and the end of their taking.
ghost use Rattle.std.specs.Prelude.{◌≡◌, None};
ghost use Rattle.line_io.specs.Lines.{Whole, TooLong};
ghost use Rattle.line_io.specs.LineConsumers.{ConsumerMeaning, TakesOneMore, KeepsTaken};

/// A consumer of lines, which may write to an output.
pub trait LineConsumer<O> {
    /// Why it takes no more.
    type Stop;

    /// It and the output after some lines, and when it may take one.
    ghost means: { ConsumerMeaning Self O Self.Stop };

    /// Takes a line. The first has the number 1.
    fn line(&mut self, number: u64, line: &[u8], output: &mut O) -> Option<Self::Stop>
        requires { means.may self.old }
        ensures may { result ≡ None → means.may self.new }
        ensures takes { TakesOneMore means number (Whole line.now) result
            self.old output.old self.new output.new };

    /// Takes a line that is longer than the limit.
    fn long(&mut self, number: u64, output: &mut O) -> Option<Self::Stop>
        requires { means.may self.old }
        ensures may { result ≡ None → means.may self.new }
        ensures takes { TakesOneMore means number TooLong result
            self.old output.old self.new output.new };

    /// Writes what is left to write. A read comes next, which may wait.
    fn flush(&mut self, output: &mut O) -> Option<Self::Stop>
        requires { means.may self.old }
        ensures may { result ≡ None → means.may self.new }
        ensures keeps { KeepsTaken means result self.old output.old self.new output.new }
        ensures written { result ≡ None → means.is_written self.new };
}

/// The end of the taking of lines.
///
/// `Stopped`: by the consumer. `Ended`: at the end of the input. `ReadFailed`: a read failed.
/// `Endless`: the input gave at least 2^32 bytes.
#[derive(Clone, Copy, PartialEq, Eq)]
pub enum LinesEnd<S> {
    Stopped(S),
    Ended,
    ReadFailed,
    Endless,
}
