// A life: its reader beside its loop.
ghost use Rattle.std.specs.Prelude.{◌≡◌, true, false};
ghost use Rattle.engine_revival.specs.Steps.{is_alive};
ghost use Rattle.event_pipe.specs.Ends.{IsSender, KeepsSender};
ghost use Rattle.reviver_runner.specs.Messages.{events_sent};
ghost use Rattle.event_pipe.specs.Events.{has_last_event};
ghost use Rattle.event_pipe.specs.declared.message.Peer.TheVariants as peers;
ghost use Rattle.reviver_runner.specs.Looped.{IsReadyLoop, KeepsLoop, LoopedLife, loop_reports};
ghost use Rattle.reviver_runner.specs.Reading.{ReadLife};

use crate::looping::life_loop;
use crate::{LifeMessage, RevivalLoop, read_life};
use child_engine::ClosableSink;
use event_pipe::{PipeSend, ReadEnd};
use line_io::{Sink, Source};
use std::alloc::Global;
use std::sync::Wait;
use std::thread::{Threads, join_mut};

/// The streams of an engine that was started, until it is closed.
#[derive(Drop)]
pub struct LifeRun<S, K> {
    pub source: S,
    pub sink: K,
}

/// Runs a life to its end: its lines and the interface's are heard by the revival, whose lines go
/// up and to the life. The engine's field of what has failed speaks of this life's sink; the caller
/// clears it before the life. The mark of the life's end, and what follows of it, are the caller's.
pub fn one_life<
    S: Source + Send,
    K: ClosableSink + Send,
    O: Sink + Send,
    L: Sink + Send,
    R: Threads + Wait + Sync,
>(
    rt: &R,
    alloc: Global,
    looping: &mut RevivalLoop<L>,
    to: &mut PipeSend<LifeMessage>,
    run: &mut LifeRun<S, K>,
    output: &mut O,
) -> ReadEnd
    requires alive { is_alive looping.old.revival.state.life ≡ true }
    requires ready { IsReadyLoop looping.old }
    requires sender { IsSender to.old }
    requires engine { to.old.peer ≡ peers.Engine }
    requires going { has_last_event (events_sent to.old) ≡ false }
    ensures sender { KeepsSender to.old to.new }
    ensures going { has_last_event (events_sent to.new) ≡ false }
    ensures keeps { KeepsLoop looping.old looping.new }
    ensures alive { is_alive looping.new.revival.state.life ≡ true }
    ensures close_sink { looping.old.revival.state.quit ≡ false
        → looping.new.revival.state.quit ≡ true → K.is_sink_closed run.new.sink }
    ensures read { ReadLife (S.state run.old.source) (S.state run.new.source)
        (events_sent to.old) (events_sent to.new) result }
    ensures looped { LoopedLife (loop_reports O.state L.state looping.old output.old)
        (loop_reports O.state L.state looping.new output.new)
        (K.state run.old.sink) (K.state run.new.sink) }
{
    let LifeRun { source, sink } = run;
    let (end, ()) = join_mut(
        rt,
        &mut ||
            requires { IsSender to.now × (to.now.peer ≡ peers.Engine)
                × (has_last_event (events_sent to.now) ≡ false) }
        { read_life(rt, alloc, source, to) },
        &mut ||
            requires { (is_alive looping.now.revival.state.life ≡ true) × IsReadyLoop looping.now }
        { life_loop(rt, looping, sink, output) },
    );
    end
}
