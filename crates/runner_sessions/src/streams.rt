// Sources and sinks in memory, and arguments.
ghost use Rattle.std.specs.Prelude.{◌<◌};

use line_io::{MemSink, MemSource};
use std::alloc::Global;
use std::process::Abort;

/// A source that gives these bytes in pieces, of which these reads fail.
pub fn source(
    rt: &impl Abort,
    alloc: Global,
    bytes: &[u8],
    piece: usize,
    failing: &[u64],
) -> MemSource
    requires { 0 < piece }
{
    MemSource::make(alloc, bytes, piece, failing).expect(rt, "memory for a source")
}

/// A sink with this much room, of which these writes fail.
pub fn sink(rt: &impl Abort, alloc: Global, room: usize, failing: &[u64]) -> MemSink {
    MemSink::make(alloc, room, failing).expect(rt, "memory for a sink")
}

/// So many letters, and these bytes behind them.
pub fn letters_before(rt: &impl Abort, alloc: Global, letters: usize, bytes: &[u8]) -> Vec<u8> {
    let mut line = vec![in alloc; b'a'; letters].expect(rt, "memory for a line");
    line.extend_from_slice(bytes)
        .expect(rt, "memory for the lines");
    line
}

/// The arguments between commas; of no text, no argument. `\xff` stands for the byte, which is no text.
pub fn words_of(rt: &impl Abort, alloc: Global, text: &str) -> Vec<Vec<u8>> {
    let mut arguments: Vec<Vec<u8>> = Vec::new(alloc);
    if text.is_empty() {
        return arguments;
    }
    for part in text.split(',') {
        let bytes = if part == "\\xff" {
            b"\xff".as_slice()
        } else {
            part.as_bytes()
        };
        let argument = Vec::from_slice(alloc, bytes).expect(rt, "memory for a word");
        arguments.push(argument).expect(rt, "memory for the words");
    }
    arguments
}
