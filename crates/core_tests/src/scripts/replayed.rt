// Sessions of the program `replay` whose input comes in pieces, or whose reads and writes fail. Its
// sessions over files are in `scripts/dev/worked`.
ghost use Rattle.std.specs.Prelude.{◌<◌};

use crate::expect::expect;
use crate::scripts::streams::Streams;
use line_io::MemSink;
use replay_command_base::{Ending, report_without_buffer};
use replay_tool::{refuse_for_memory, replay_main};
use std::alloc::Global;
use std::process::Abort;

const SHORTEST: &str = "U uci\n";

const HANDSHAKE: &str = "x ping 1\nu uciok\nx ping 2\nu readyok\nx hello\nx quit\nu.\n";

const HANDSHAKE_SCRIPT: &str =
    "U uci\nx ping 1\nX pong 1\nu uciok\nU isready\nx ping 2\nX pong 2\nu readyok\nx hello\nX Error (unknown command): hello\nx quit\nU quit\nu.\n";

const ENDINGS: &str = "x  ping 7\t\nx!\nu?\nx ping\nx \nu.\nx.\n";

const ENDINGS_SCRIPT: &str =
    "U uci\nx  ping 7\t\nX pong 7\nx!\nX Error (line too long): ...\nu?\nX tellusererror Engine ended\nx ping\nX Error (bad argument): ping\nx \nu.\nx.\n";

const NUMBERED: &str =
    "#2 Resign=false ResignMoves=3 ResignScore=600 ShowPonder=true\n# 0\n# 1\nu uciok\n# 2\nu?\n# 3\nu.\n# 4\nx quit\n";

const NUMBERED_SCRIPT: &str =
    "#2 Resign=false ResignMoves=3 ResignScore=600 ShowPonder=true\n# 0\nU uci\n# 1\nu uciok\nU isready\n# 2\nu?\nX tellusererror Engine ended\n# 3\nu.\n# 4\nx quit\n";

/// The status, what is written, and the diagnostic.
type Answer = (u8, &'static str, &'static str);

/// The words as the program takes them.
fn arguments_of(rt: &impl Abort, alloc: Global, arguments: &[&[u8]]) -> Vec<Vec<u8>> {
    let mut list = Vec::new(alloc);
    for argument in arguments {
        let argument = Vec::from_slice(alloc, argument).expect(rt, "memory");
        list.push(argument).expect(rt, "memory");
    }
    list
}

/// Runs the program on words, and gives its status.
fn status_of(rt: &impl Abort, alloc: Global, arguments: &[&[u8]], streams: &mut Streams) -> u8 {
    let list = arguments_of(rt, alloc, arguments);
    let input = &mut streams.input;
    let output = &mut streams.output;
    replay_main(alloc, list.as_slice(), input, output, &mut streams.diag).code
}

/// Runs the program on words, and compares its answer.
fn expect_answer(
    rt: &impl Abort,
    alloc: Global,
    arguments: &[&[u8]],
    mut streams: Streams,
    want: Answer,
) {
    let (status, output, reported) = want;
    let found = status_of(rt, alloc, arguments, &mut streams);
    expect(rt, streams.output.taken() == output.as_bytes(), output);
    let same = found == status && streams.diag.taken() == reported.as_bytes();
    expect(rt, same, reported);
}

/// An input in pieces of each size below eight gives this script, and the script gives itself and
/// is lawful, also byte for byte.
fn expect_script(rt: &impl Abort, alloc: Global, input: &str, script: &'static str) {
    let want = (0, script, "");
    for piece in 1..8usize {
        let streams = Streams::make(rt, alloc, input.as_bytes(), piece);
        expect_answer(rt, alloc, &[b"replay"], streams, want);
    }
    let whole = Streams::make(rt, alloc, script.as_bytes(), 4096);
    expect_answer(rt, alloc, &[b"replay"], whole, want);
    let bytes = Streams::make(rt, alloc, script.as_bytes(), 1);
    expect_answer(rt, alloc, &[b"check"], bytes, (0, "lawful\n", ""));
}

#[test]
fn inputs_in_pieces_are_replayed(rt: HostRuntime) {
    expect_script(&rt, rt.alloc(), "", SHORTEST);
    expect_script(&rt, rt.alloc(), HANDSHAKE, HANDSHAKE_SCRIPT);
    expect_script(&rt, rt.alloc(), ENDINGS, ENDINGS_SCRIPT);
    expect_script(&rt, rt.alloc(), NUMBERED, NUMBERED_SCRIPT);
}

/// The answer to these arguments if the first write fails.
fn expect_no_write(rt: &impl Abort, alloc: Global, arguments: &[&[u8]], input: &[u8]) {
    let streams = Streams::failing(rt, alloc, input, 4096, &[], &[1]);
    let want = (5, "", "replay: writing failed\n");
    expect_answer(rt, alloc, arguments, streams, want);
}

#[test]
fn a_read_that_fails_is_reported(rt: HostRuntime) {
    let alloc = rt.alloc();
    let unread = Streams::failing(&rt, alloc, b"x ping 1\nx ping 2\n", 9, &[2], &[]);
    let output = "U uci\nx ping 1\nX pong 1\n";
    let want = (4, output, "replay: reading failed\n");
    expect_answer(&rt, alloc, &[b"replay"], unread, want);
}

#[test]
fn writes_that_fail_are_reported(rt: HostRuntime) {
    let alloc = rt.alloc();
    let moves = [
        b"moves".as_slice(),
        b"4k3/8/8/8/8/8/8/4K3",
        b"w",
        b"-",
        b"-",
    ];
    expect_no_write(&rt, alloc, &moves, b"");
    expect_no_write(&rt, alloc, &[b"drill", b"1", b"0"], b"");
    expect_no_write(&rt, alloc, &[b"check"], b"U uci\nx ping 1\nX pong 1\n");
}

#[test]
fn an_argument_that_is_no_text_is_reported(rt: HostRuntime) {
    let empty = Streams::make(&rt, rt.alloc(), b"", 7);
    let want = (2, "", "replay: position: board\n");
    expect_answer(&rt, rt.alloc(), &[b"moves", b"\xff"], empty, want);
}

#[test]
fn a_lack_of_memory_is_reported(rt: HostRuntime) {
    let mut diag = MemSink::make(rt.alloc(), 100, &[]).expect(&rt, "memory");
    let refused = refuse_for_memory(&mut diag).code == 3;
    let reported = diag.taken() == b"replay: no memory\n".as_slice();
    expect(&rt, refused && reported, "no memory");
}

#[test]
fn an_endless_input_is_reported(rt: HostRuntime) {
    let mut diag = MemSink::make(rt.alloc(), 100, &[]).expect(&rt, "memory");
    let refused = report_without_buffer(Ending::TooLong, &mut diag).code() == 6;
    let reported = diag.taken() == b"replay: input too long\n".as_slice();
    expect(&rt, refused && reported, "too long");
}

/// A line of so many letters.
fn letters(rt: &impl Abort, alloc: Global, count: usize) -> Vec<u8> {
    let mut line = Vec::from_slice(alloc, b"x ").expect(rt, "memory");
    for _ in 0..count {
        line.push(b'a').expect(rt, "memory");
    }
    line.push(b'\n').expect(rt, "memory");
    line
}

/// The length of the script of an input, if it is replayed.
fn script_length(rt: &impl Abort, alloc: Global, input: &[u8]) -> Option<usize> {
    let mut streams = Streams::make(rt, alloc, input, 4096);
    let done = status_of(rt, alloc, &[b"replay"], &mut streams) == 0;
    done.then_some(streams.output.taken().len())
}

#[test]
fn lines_are_as_long_as_they_may_be(rt: HostRuntime) {
    let longest = letters(&rt, rt.alloc(), 65_536);
    let length = script_length(&rt, rt.alloc(), longest.as_slice());
    let want = Some(6 + 65_539 + 2 + 25 + 65_537);
    expect(&rt, length == want, "the longest line");
}

#[test]
fn lines_are_no_longer(rt: HostRuntime) {
    let longer = letters(&rt, rt.alloc(), 65_537);
    let refused = Streams::make(&rt, rt.alloc(), longer.as_slice(), 4096);
    let want = (2, "U uci\n", "replay: line 1 has no mark\n");
    expect_answer(&rt, rt.alloc(), &[b"replay"], refused, want);
}
