// Two readers beside the loop.
ghost use Rattle.std.specs.Prelude.{◌≡◌, ◌≤◌, ◌++◌, is_some};
ghost use Rattle.event_pipe.specs.Arrivals.{Arrived};
ghost use Rattle.event_pipe.specs.Ends.{IsFreshSender, IsFreshReceiver, messages_sent, messages_taken};
ghost use Rattle.event_pipe.specs.declared.message.Peer.TheVariants as peers;
ghost use Rattle.program_lifecycle.specs.Streams.{sinks_of, streams_of};
ghost use Rattle.event_loop.specs.First.{AreOpening, first_events};
ghost use Rattle.event_loop.specs.Looped.{Looped};
ghost use Rattle.event_loop.specs.Ran.{MediatorIsReady, KeepsChannel, MediatorRan};
ghost use Rattle.event_loop.specs.declared.mediator.TheConstants.{TURN_ROOM};

use crate::{Mediator, MediatorParts, Turns, mediate};
use event_pipe::{Pipe, ReadEnd, join_three, read_pipe};
use line_io::{Sink, Source};
use program_lifecycle::{HandedStreams, Interface, LoopEnd};
use std::alloc::Global;
use std::sync::Wait;
use std::thread::Threads;

/// The answers of the two readers and of the loop.
#[derive(Clone, Copy, Debug, PartialEq, Eq)]
pub struct RunEnd {
    pub iface: ReadEnd,
    pub engine: ReadEnd,
    pub done: LoopEnd,
}

/// A run that is over: what it answered, and what its mediator became.
#[derive(Drop)]
pub struct MediatorRun<M> {
    pub mediator: M,
    pub end: RunEnd,
}

// Both readers, each in a thread of its own, beside the loop.
fn run_beside<
    M: Mediator + Send,
    I: Source + Send,
    O: Sink + Send,
    S: Source + Send,
    E: Sink + Send,
    L: Sink + Send,
    R: Threads + Wait + Sync,
>(
    rt: &R,
    alloc: Global,
    parts: &mut MediatorParts<M>,
    first: &[u8],
    interface: &mut Interface<I, O>,
    handed: &mut HandedStreams<S, E, L>,
) -> RunEnd
    requires ready { MediatorIsReady M.means parts.old }
    requires first { AreOpening first.now }
    ensures channel { KeepsChannel parts.old parts.new }
    ensures iface { Arrived peers.Iface (I.state interface.old.input) (I.state interface.new.input)
        (messages_sent parts.new.iface) result.iface }
    ensures engine { Arrived peers.Engine (S.state handed.old.source)
        (S.state handed.new.source) (messages_sent parts.new.engine) result.engine }
    ensures kept { is_some handed.new.log ≡ is_some handed.old.log }
    ensures looped { Looped M.means parts.old.turns.mediator parts.new.turns.mediator
        (first_events first.now ++ messages_taken parts.new.turns.receiving_end)
        (sinks_of O.state E.state L.state interface.old.output handed.old.engine handed.old.log)
        (sinks_of O.state E.state L.state interface.new.output handed.new.engine handed.new.log)
        result.done }
{
    let MediatorParts {
        iface,
        engine: child,
        turns,
    } = parts;
    let Interface { input, output } = interface;
    let HandedStreams {
        source,
        engine,
        log,
    } = handed;
    let (iface_end, engine_end, done) = join_three(
        rt,
        &mut ||
            requires { IsFreshSender iface.now peers.Iface }
        { read_pipe(rt, alloc, input, iface) },
        &mut ||
            requires { IsFreshSender child.now peers.Engine }
        { read_pipe(rt, alloc, source, child) },
        &mut ||
            requires { M.means.fresh turns.now.mediator × AreOpening first.now
                × IsFreshReceiver turns.now.receiving_end × (TURN_ROOM ≤ turns.now.text.room) }
        { mediate(rt, turns, first, output, engine, log) },
    );
    RunEnd {
        iface: iface_end,
        engine: engine_end,
        done,
    }
}

/// Reads both peers beside the loop, which takes the first lines as the interface's, until both
/// have ended.
pub fn run_pipes<
    M: Mediator + Send,
    I: Source + Send,
    O: Sink + Send,
    S: Source + Send,
    E: Sink + Send,
    L: Sink + Send,
    R: Threads + Wait + Sync,
>(
    rt: &R,
    alloc: Global,
    parts: MediatorParts<M>,
    first: &[u8],
    interface: &mut Interface<I, O>,
    handed: &mut HandedStreams<S, E, L>,
) -> MediatorRun<M>
    requires ready { MediatorIsReady M.means parts }
    requires first { AreOpening first.now }
    ensures kept { is_some handed.new.log ≡ is_some handed.old.log }
    ensures ran { MediatorRan M.means parts.turns.mediator result.mediator first.now
        (streams_of I.state O.state S.state E.state L.state interface.old handed.old)
        (streams_of I.state O.state S.state E.state L.state interface.new handed.new)
        result.end }
{
    let mut parts = parts;
    let end = run_beside(rt, alloc, &mut parts, first, interface, handed);
    let MediatorParts {
        iface,
        engine,
        turns,
    } = parts;
    let Turns {
        mediator,
        receiving_end,
        text: _,
    } = turns;
    Pipe::finish(iface, engine, receiving_end);
    MediatorRun { mediator, end }
}
