// Sinks in memory and writers, what goes to threads, and pieces that are offered.
use crate::expected::{expect, expect_bytes};
use line_io::{
    Failed, MemSink, MemSource, NullSink, Out, ReadAdapter, Sink, SteadySource, WriteAdapter,
    write_all,
};
use program_lifecycle::{offer, offer_log};
use std::io::{self, ErrorKind, Read, Write};

// Only what may go to another thread is taken.
fn goes_to_threads<T: Send>() {}

fn adapters_go_to_threads<R: Read + Send, W: Write + Send>() {
    goes_to_threads::<(ReadAdapter<R>, WriteAdapter<W>)>();
}

#[test]
fn sinks_take_within_their_room(rt: HostRuntime) {
    let mut sink = MemSink::make(rt.alloc(), 2, &[]).expect(&rt, "a sink");
    expect(&rt, write_all(&mut sink, b"abc") == Err(Failed), "write", 1);
    expect_bytes(&rt, sink.taken(), b"ab");
    let mut null = NullSink::new();
    expect(&rt, write_all(&mut null, b"abc") == Ok(()), "write", 2);
    goes_to_threads::<(MemSource, SteadySource, MemSink, NullSink)>();
}

#[test]
fn a_sink_takes_more_after_a_failure(rt: HostRuntime) {
    let mut sink = MemSink::make(rt.alloc(), 9, &[1]).expect(&rt, "a sink");
    expect(&rt, sink.write(b"ab") == Err(Failed), "write", 1);
    expect(&rt, sink.write(b"ab") == Ok(2), "write", 2);
    expect(&rt, write_all(&mut sink, b"") == Ok(()), "write", 3);
    expect_bytes(&rt, sink.taken(), b"ab");
}

// True if there is this much room, and these bytes stand there.
fn has(out: &Out, spare: usize, bytes: &[u8]) -> bool {
    out.spare() == spare && out.bytes() == bytes
}

#[test]
fn room_is_filled_and_cleared(rt: HostRuntime) {
    let mut out = Out::make(rt.alloc(), 3).expect(&rt, "room");
    expect(&rt, has(&out, 3, b""), "out", 1);
    out.put(b"ab");
    expect(&rt, has(&out, 1, b"ab"), "out", 2);
    out.clear();
    expect(&rt, has(&out, 3, b""), "out", 3);
}

// A writer that always fails.
#[derive(Drop)]
struct Broken;

impl Write for Broken {
    fn write(&mut self, _buf: &[u8]) -> io::Result<usize> {
        Err(io::Error::from(ErrorKind::StorageFull))
    }

    fn flush(&mut self) -> io::Result<()> {
        Ok(())
    }
}

#[test]
fn writers_are_adapted(rt: HostRuntime) {
    let mut room = [0; 2];
    let mut sink = WriteAdapter::new(room.as_mut_slice());
    // the second write takes nothing
    expect(&rt, write_all(&mut sink, b"abc") == Err(Failed), "write", 1);
    expect(&rt, sink.faults() == 1, "faults", 1);
    adapters_go_to_threads::<&[u8], &mut [u8]>();
    expect_bytes(&rt, &room, b"ab");
}

#[test]
fn writers_that_fail_are_adapted(rt: HostRuntime) {
    let mut broken = WriteAdapter::new(Broken);
    expect(&rt, broken.write(b"a") == Err(Failed), "write", 1);
    expect(
        &rt,
        write_all(&mut broken, b"abc") == Err(Failed),
        "write",
        2,
    );
    expect(&rt, broken.faults() == 2, "faults", 2);
    expect(&rt, write_all(&mut broken, b"") == Ok(()), "write", 3);
}

// A sink that failed gets nothing more.
#[test]
fn pieces_are_offered(rt: HostRuntime) {
    let mut sink = MemSink::make(rt.alloc(), 100, &[2]).expect(&rt, "a sink");
    expect(&rt, !offer(&mut sink, b"uci\n", false), "offer", 1);
    expect(&rt, offer(&mut sink, b"isready\n", false), "offer", 2);
    expect(&rt, offer(&mut sink, b"quit\n", true), "offer", 3);
    expect_bytes(&rt, sink.taken(), b"uci\n");
}

// A log may be missing.
#[test]
fn logs_are_offered(rt: HostRuntime) {
    let mut log: Option<MemSink> = None;
    expect(&rt, !offer_log(&mut log, b"U uci\n", false), "offer", 1);
    let mut log = Some(MemSink::make(rt.alloc(), 100, &[]).expect(&rt, "a log"));
    expect(&rt, !offer_log(&mut log, b"U uci\n", false), "offer", 2);
    expect_bytes(&rt, log.expect(&rt, "a log").taken(), b"U uci\n");
}
