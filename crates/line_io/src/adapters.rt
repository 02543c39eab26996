// The edge to the world: a source and a sink over std's Read and Write.
use crate::{Failed, Sink, Source};
use std::io::{Read, Write};

/// A source over a reader. It has left what the reader has left, and counts the reads that failed.
#[derive(Drop)]
pub struct ReadAdapter<R> {
    inner: R,
    faults: u64,
}

impl<R> ReadAdapter<R> {
    ghost use Rattle.std.specs.Prelude.{◌≡◌};
    ghost use Rattle.line_io.specs.Adapters.{reader_faults};

    /// Over a reader, with no fault counted.
    pub fn new(reader: R) -> ReadAdapter<R>
        ensures none { reader_faults result ≡ 0 }
        ensures inner { result.inner ≡ reader }
    {
        ReadAdapter {
            inner: reader,
            faults: 0,
        }
    }

    /// The count of failed reads. It stays at the last value of its type.
    pub fn faults(&self) -> u64
        ensures { result ≡ reader_faults self.now }
    {
        self.faults
    }
}

impl<R: Read> Source for ReadAdapter<R> {
    ghost use Rattle.std.specs.Prelude.{None};
    ghost use Rattle.line_io.specs.Adapters.{reader_faults};

    ghost state = { λ s. record {
      given = None;
      left = R.remaining s.inner;
      faults = reader_faults s;
    } };

    fn read(&mut self, buf: &mut [u8]) -> Result<usize, Failed> {
        match self.inner.read(buf) {
            Ok(count) => Ok(count),
            Err(_) => {
                self.faults = self.faults.saturating_add(1);
                Err(Failed)
            }
        }
    }
}

/// A sink over a writer. It has taken what the writer has taken, and counts the writes that failed
/// or took nothing.
#[derive(Drop)]
pub struct WriteAdapter<W> {
    inner: W,
    faults: u64,
}

impl<W> WriteAdapter<W> {
    ghost use Rattle.std.specs.Prelude.{◌≡◌};
    ghost use Rattle.line_io.specs.Adapters.{writer_faults};

    /// Over a writer, with no fault counted.
    pub fn new(writer: W) -> WriteAdapter<W>
        ensures none { writer_faults result ≡ 0 }
        ensures inner { result.inner ≡ writer }
    {
        WriteAdapter {
            inner: writer,
            faults: 0,
        }
    }

    /// The count of writes that failed or took nothing. It stays at the last value of its type.
    pub fn faults(&self) -> u64
        ensures { result ≡ writer_faults self.now }
    {
        self.faults
    }
}

impl<W: Write> Sink for WriteAdapter<W> {
    ghost use Rattle.line_io.specs.Adapters.{writer_faults};

    ghost state = { λ s. record { taken = W.contents s.inner; faults = writer_faults s } };

    fn write(&mut self, piece: &[u8]) -> Result<usize, Failed> {
        match self.inner.write(piece) {
            Ok(count) if count > 0 => Ok(count),
            _ => {
                self.faults = self.faults.saturating_add(1);
                Err(Failed)
            }
        }
    }
}
