// One direction: what a source gives is handed on to a sink.
ghost use Rattle.std.specs.Prelude.{◌≡◌, ◌<◌, [], false, vec_len};
ghost use Rattle.event_pipe.specs.Ends.{IsSender, KeepsSender, messages_sent};
ghost use Rattle.tap_runner.specs.Messages.{has_end_mark};
ghost use Rattle.tap_runner.specs.Hearing.{EndsHearing, no_open_line};
ghost use Rattle.tap_runner.specs.Passing.{Turned, Passed, is_last_turn, has_failed_to_read, has_failed_to_write};

use crate::{OpenLine, TapMessage};
use child_engine::ClosableSink;
use event_pipe::PipeSend;
use line_io::{Sink, Source};
use program_lifecycle::offer;
use std::alloc::Global;
use std::sync::Wait;

/// The parts that one direction needs: where the marks of its lines go, its open line, and the room for what
/// is read at a time.
#[derive(Drop)]
pub struct Direction {
    pub to: PipeSend<TapMessage>,
    pub part: OpenLine,
    pub buf: Vec<u8>,
}

/// The end of one direction.
#[derive(Clone, Copy)]
pub struct PassEnd {
    pub read_failed: bool,
    pub write_failed: bool,
    /// There was no memory for a mark.
    pub has_lacked_memory: bool,
}

/// The outcome of a turn.
#[derive(Clone, Copy)]
pub enum PassingTurn {
    More,
    Ended,
    ReadFailed,
    WriteFailed,
}

impl PassingTurn {
    fn is_last(self) -> bool
        ensures { result ≡ is_last_turn self }
    {
        !matches!(self, PassingTurn::More)
    }

    fn has_failed_to_read(self) -> bool
        ensures { result ≡ has_failed_to_read self }
    {
        matches!(self, PassingTurn::ReadFailed)
    }

    fn has_failed_to_write(self) -> bool
        ensures { result ≡ has_failed_to_write self }
    {
        matches!(self, PassingTurn::WriteFailed)
    }
}

// Reads once. The lines that have ended go to the log, and then what was read is handed on.
fn pass_turn<S: Source, K: Sink, R: Wait>(
    rt: &R,
    alloc: Global,
    source: &mut S,
    sink: &mut K,
    way: &mut Direction,
) -> PassingTurn
    requires room { 0 < vec_len way.old.buf }
    requires sender { IsSender way.old.to }
    requires peer { way.old.to.peer ≡ way.old.part.peer }
    requires going { has_end_mark (messages_sent way.old.to) ≡ false }
    ensures room { vec_len way.new.buf ≡ vec_len way.old.buf }
    ensures keeps { KeepsSender way.old.to way.new.to }
    ensures turned { Turned way.old.part way.new.part (S.state source.old) (S.state source.new)
        (K.state sink.old) (K.state sink.new) (messages_sent way.old.to)
        (messages_sent way.new.to) result }
{
    let Direction { to, part, buf } = way;
    match source.read(buf.as_mut_slice()) {
        Err(_) => PassingTurn::ReadFailed,
        Ok(0) => PassingTurn::Ended,
        Ok(count) => {
            let bytes = &buf[..count];
            part.hear(rt, alloc, bytes, to);
            if offer(sink, bytes, false) {
                PassingTurn::WriteFailed
            } else {
                PassingTurn::More
            }
        }
    }
}

// Ends a direction: a last line and the end go to the log, and then the sink is closed, so that
// whoever reads there meets the end too.
fn end_pass<K: ClosableSink, R: Wait>(rt: &R, alloc: Global, sink: &mut K, way: &mut Direction)
    requires sender { IsSender way.old.to }
    requires peer { way.old.to.peer ≡ way.old.part.peer }
    requires going { has_end_mark (messages_sent way.old.to) ≡ false }
    ensures keeps { KeepsSender way.old.to way.new.to }
    ensures ends { EndsHearing way.old.part way.new.part (messages_sent way.old.to)
        (messages_sent way.new.to) }
    ensures shown { K.state sink.new ≡ K.state sink.old }
    ensures gone { K.is_sink_closed sink.new }
{
    let Direction { to, part, buf: _ } = way;
    part.end(rt, alloc, to);
    sink.close_sink();
}

/// Hands on what the source gives, as it comes, to its end or to a failure. Each line is sent to the
/// log before the bytes that end it are handed on. At last the sink is closed.
pub fn hand_on<S: Source, K: ClosableSink, R: Wait>(
    rt: &R,
    alloc: Global,
    source: &mut S,
    sink: &mut K,
    way: &mut Direction,
) -> PassEnd
    requires room { 0 < vec_len way.old.buf }
    requires sender { IsSender way.old.to }
    requires part { way.old.part ≡ no_open_line way.old.to.peer }
    requires unsent { messages_sent way.old.to ≡ [] }
    ensures keeps { KeepsSender way.old.to way.new.to }
    ensures passed { Passed way.old.to.peer (S.state source.old) (S.state source.new)
        (K.state sink.old) (K.state sink.new) (messages_sent way.new.to) result }
    ensures gone { K.is_sink_closed sink.new }
{
    for _ in rt.forever() {
        let turn = pass_turn(rt, alloc, source, sink, way);
        if turn.is_last() {
            end_pass(rt, alloc, sink, way);
            return PassEnd {
                read_failed: turn.has_failed_to_read(),
                write_failed: turn.has_failed_to_write(),
                has_lacked_memory: way.part.has_lacked_memory(),
            };
        }
    }
    unreachable!()
}
