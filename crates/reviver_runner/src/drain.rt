// After the last life.
ghost use Rattle.std.specs.Prelude.{◌≡◌, true};
ghost use Rattle.engine_revival.specs.declared.words.LifeState.TheVariants as life;
ghost use Rattle.reviver_runner.specs.Looped.{IsReadyLoop, KeepsLoop, loop_reports};
ghost use Rattle.reviver_runner.specs.Drained.{InterfaceDrained};

use crate::{RevivalLoop, hear};
use line_io::{NullSink, Sink};
use std::sync::Wait;

// Takes a message, and has the revival hear an order or the end of the orders.
fn drain_next<O: Sink, L: Sink, R: Wait>(rt: &R, looping: &mut RevivalLoop<L>, output: &mut O)
    requires over { looping.old.revival.state.life ≡ life.Over }
    requires ready { IsReadyLoop looping.old }
    ensures keeps { KeepsLoop looping.old looping.new }
    ensures drained { InterfaceDrained (loop_reports O.state L.state looping.old output.old)
        (loop_reports O.state L.state looping.new output.new) }
{
    let RevivalLoop {
        revival,
        from,
        marks,
        failed,
    } = looping;
    let message = from.take(rt);
    match message.order() {
        Some(event) => {
            let mut nobody = NullSink::new();
            *failed = hear(revival, &event, &mut nobody, output, marks, *failed);
        }
        None => {}
    }
}

/// Has the revival hear the interface until it has ended. No reader of an engine sends any more: of
/// what comes only the orders are heard.
pub(crate) fn drain<O: Sink, L: Sink, R: Wait>(rt: &R, looping: &mut RevivalLoop<L>, output: &mut O)
    requires over { looping.old.revival.state.life ≡ life.Over }
    requires ready { IsReadyLoop looping.old }
    ensures keeps { KeepsLoop looping.old looping.new }
    ensures quit { looping.new.revival.state.quit ≡ true }
    ensures drained { InterfaceDrained (loop_reports O.state L.state looping.old output.old)
        (loop_reports O.state L.state looping.new output.new) }
{
    for _ in rt.forever() {
        if looping.revival.has_quit() {
            return;
        }
        drain_next(rt, looping, output);
    }
    unreachable!()
}
