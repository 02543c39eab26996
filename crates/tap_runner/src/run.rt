// Both directions beside the log.
ghost use Rattle.std.specs.Prelude.{◌≡◌, ◌≤◌, is_some};
ghost use Rattle.event_pipe.specs.Ends.{IsFreshReceiver, messages_taken, messages_sent};
ghost use Rattle.event_pipe.specs.declared.message.Peer.TheVariants as peers;
ghost use Rattle.program_lifecycle.specs.Streams.{log_state, streams_of};
ghost use Rattle.tap_runner.specs.Logging.{Logged};
ghost use Rattle.tap_runner.specs.Parts.{TapPartsAreReady, TapKeepsEnds};
ghost use Rattle.tap_runner.specs.Passing.{Passed};
ghost use Rattle.tap_runner.specs.Ran.{TapRan, IsReadyWay};
ghost use Rattle.tap_runner.specs.declared.logging.TheConstants.{LOG_ROOM};

use crate::{PassEnd, TapParts, hand_on, keep_log};
use child_engine::ClosableSink;
use event_pipe::{Pipe, join_three};
use line_io::{Sink, Source};
use program_lifecycle::{HandedStreams, Interface};
use std::alloc::Global;
use std::sync::Wait;
use std::thread::Threads;

/// The end of a run of both directions.
#[derive(Clone, Copy)]
pub struct TapEnd {
    pub bridge: PassEnd,
    pub engine: PassEnd,
    pub log_failed: bool,
}

// Hands on what both write, each in a thread of its own, beside the log.
fn run_beside<
    I: Source + Send,
    S: Source + Send,
    O: ClosableSink + Send,
    E: ClosableSink + Send,
    L: Sink + Send,
    R: Threads + Wait + Sync,
>(
    rt: &R,
    alloc: Global,
    parts: &mut TapParts,
    interface: &mut Interface<I, O>,
    handed: &mut HandedStreams<S, E, L>,
) -> TapEnd
    requires ready { TapPartsAreReady parts.old }
    ensures keeps { TapKeepsEnds parts.old parts.new }
    ensures from_bridge { Passed peers.Iface
        (I.state interface.old.input) (I.state interface.new.input)
        (E.state handed.old.engine) (E.state handed.new.engine)
        (messages_sent parts.new.down.to) result.bridge }
    ensures from_engine { Passed peers.Engine
        (S.state handed.old.source) (S.state handed.new.source)
        (O.state interface.old.output) (O.state interface.new.output)
        (messages_sent parts.new.up.to) result.engine }
    ensures output_gone { O.is_sink_closed interface.new.output }
    ensures engine_gone { E.is_sink_closed handed.new.engine }
    ensures kept { is_some handed.new.log ≡ is_some handed.old.log }
    ensures logged { Logged (messages_taken parts.new.receiving_end)
        (log_state L.state handed.old.log) (log_state L.state handed.new.log) result.log_failed }
{
    let TapParts {
        down,
        up,
        receiving_end,
        text,
    } = parts;
    let Interface { input, output } = interface;
    let HandedStreams {
        source,
        engine,
        log,
    } = handed;
    let (bridge, from_engine, log_failed) = join_three(
        rt,
        &mut ||
            requires { IsReadyWay down.now peers.Iface }
        { hand_on(rt, alloc, input, engine, down) },
        &mut ||
            requires { IsReadyWay up.now peers.Engine }
        { hand_on(rt, alloc, source, output, up) },
        &mut ||
            requires { IsFreshReceiver receiving_end.now × (LOG_ROOM ≤ text.now.room) }
        { keep_log(rt, receiving_end, log, text) },
    );
    TapEnd {
        bridge,
        engine: from_engine,
        log_failed,
    }
}

/// Hands on what the bridge and the engine write, each in a thread of its own, and keeps the log,
/// until both have ended. Then both sinks were closed.
pub fn run_tap<
    I: Source + Send,
    S: Source + Send,
    O: ClosableSink + Send,
    E: ClosableSink + Send,
    L: Sink + Send,
    R: Threads + Wait + Sync,
>(
    rt: &R,
    alloc: Global,
    parts: TapParts,
    interface: &mut Interface<I, O>,
    handed: &mut HandedStreams<S, E, L>,
) -> TapEnd
    requires ready { TapPartsAreReady parts }
    ensures output_gone { O.is_sink_closed interface.new.output }
    ensures engine_gone { E.is_sink_closed handed.new.engine }
    ensures kept { is_some handed.new.log ≡ is_some handed.old.log }
    ensures ran { TapRan
        (streams_of I.state O.state S.state E.state L.state interface.old handed.old)
        (streams_of I.state O.state S.state E.state L.state interface.new handed.new)
        result }
{
    let mut parts = parts;
    let end = run_beside(rt, alloc, &mut parts, interface, handed);
    let TapParts {
        down,
        up,
        receiving_end,
        text: _text,
    } = parts;
    Pipe::finish(down.to, up.to, receiving_end);
    end
}
