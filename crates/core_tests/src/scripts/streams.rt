// The input and the output of a command, and its diagnostic, in memory.
ghost use Rattle.std.specs.Prelude.{◌<◌};

use line_io::{MemSink, MemSource};
use std::alloc::Global;
use std::process::Abort;

/// An input in pieces, an output, and the diagnostic beside it.
#[derive(Drop)]
pub struct Streams {
    pub input: MemSource,
    pub output: MemSink,
    pub diag: MemSink,
}

impl Streams {
    pub fn make(rt: &impl Abort, alloc: Global, input: &[u8], piece: usize) -> Streams
        requires { 0 < piece }
    {
        Streams::failing(rt, alloc, input, piece, &[], &[])
    }

    /// The reads and the writes with these numbers, counted from 1, fail.
    pub fn failing(
        rt: &impl Abort,
        alloc: Global,
        input: &[u8],
        piece: usize,
        reads: &[u64],
        writes: &[u64],
    ) -> Streams
        requires { 0 < piece }
    {
        Streams {
            input: MemSource::make(alloc, input, piece, reads).expect(rt, "memory"),
            output: MemSink::make(alloc, 200_000, writes).expect(rt, "memory"),
            diag: MemSink::make(alloc, 100, &[]).expect(rt, "memory"),
        }
    }
}
