// A writer that is closed when it is asked to be, and one that is closed behind `quit`.
ghost use Rattle.std.specs.Prelude.{◌<◌, length};

use crate::expected::expect;
use child_engine::{ClosableSink, Closing, EngineInput};
use line_io::{Failed, Sink};
use std::process::Abort;

// True if a sink that was closed takes nothing, and counts it.
fn is_shut(sink: &mut Closing<Vec<u8>>, piece: &[u8]) -> bool
    requires { 0 < length piece.now }
{
    !sink.is_open() && sink.write(piece).is_err() && sink.faults() == 1
}

#[test]
fn a_sink_is_closed(rt: HostRuntime) {
    let bytes: Vec<u8> = Vec::new(rt.alloc());
    let mut sink = Closing::new(bytes);
    expect(
        &rt,
        sink.write(b"uci\n").is_ok() && sink.is_open(),
        "open",
        0,
    );
    sink.close_sink();
    expect(&rt, is_shut(&mut sink, b"quit\n"), "shut", 0);
    // a sink over no writer takes nothing
    expect(&rt, is_shut(&mut Closing::shut(), b"uci\n"), "shut", 1);
}

// The answer of a piece's write, and whether the input is open after it.
fn expect_write(
    rt: &impl Abort,
    input: &mut EngineInput<&mut Vec<u8>>,
    piece: &[u8],
    answer: Result<usize, Failed>,
    is_open: bool,
)
    requires { 0 < length piece.now }
{
    let is_as_reported = input.write(piece) == answer && input.is_open() == is_open;
    expect(rt, is_as_reported, "write", piece.len());
}

#[test]
fn an_engine_input_ends_behind_quit(rt: HostRuntime) {
    let mut taken: Vec<u8> = Vec::new(rt.alloc());
    let mut input = EngineInput::new(&mut taken);
    let moves = b"position startpos moves e2e4\ngo\n";
    expect_write(&rt, &mut input, moves, Ok(32), true);
    expect_write(&rt, &mut input, b"quit\n", Ok(5), false);
    expect_write(&rt, &mut input, b"stop\n", Err(Failed), false);
    expect(&rt, input.faults() == 1, "faults", 1);
}
