// The parts of a step.
ghost use Rattle.std.specs.Prelude.{◌≡◌, ◌≤◌, ◌||◌, ◌&&◌, length, cond, []};
ghost use Rattle.line_io.specs.Event.{event_of};
ghost use Rattle.line_io.specs.Out.{empty, with};
ghost use Rattle.search_epochs.specs.Tickets.{is_move, is_move_now};
ghost use Rattle.search_epochs.specs.Dialogue.{is_unfenced, settle, after_settled, played_of, is_hit_order, is_batch_order};
ghost use Rattle.search_epochs.specs.declared.words.Orders.TheVariants as chosen;
ghost use Rattle.desk_rules.specs.Steps.{effect_of, what_of};
ghost use Rattle.desk_rules.specs.Desk.{call_of_desk};
ghost use Rattle.desk_rules.specs.Fits.{IsHintPlayable, DeskInvariant, ChosenOrdersCanBeWritten};
ghost use Rattle.desk_rules.specs.Texts.{order_lines};
ghost use Rattle.adapter_core.specs.Ends.{is_open};
ghost use Rattle.adapter_core.specs.Parts.{is_step_unsent, step_orders, seen_call};
ghost use Rattle.adapter_core.specs.declared.session.TheConstants.{ROOM};
ghost use Rattle.desk_rules.specs.declared.sizes.TheConstants.{STEP_ORDERS};

use desk_rules::{Desk, Effect, put_chosen, put_order};
use line_io::{Event, Out};
use option_map::HeldOrders;
use policy_rules::Settings;
use search_epochs::{Call, Dialogue, EngineState, Orders};
use uci_lines::Order;

/// True if the event opens the session.
pub fn is_open(event: &Event) -> bool
    ensures { result ≡ is_open (event_of event.now) }
{
    matches!(event, Event::Open)
}

// True if orders wait, or Boot was left.
fn is_step_unsent(held: &HeldOrders, effect: &Effect) -> bool
    ensures { result ≡ is_step_unsent held.now (effect_of effect.now) }
{
    effect.is_boots() || held.count() != 0
}

/// True if a batch is unsent: orders wait, Boot was left, or with FenceStops on a `stop` is unfenced and something is
/// owed.
pub fn is_unsent(
    settings: Settings,
    held: &HeldOrders,
    effect: &Effect,
    dialogue: &Dialogue,
    call: Call,
) -> bool
    ensures { result ≡ (is_step_unsent held.now (effect_of effect.now)
        || (settings.fence_stops && is_unfenced dialogue.now call)) }
{
    is_step_unsent(held, effect) || (settings.fence_stops && dialogue.is_unfenced(call))
}

/// The part of the desk's call that counts: in Idle the search that it asks for, and else whether it asks for a Move.
pub fn seen_call(desk: &Desk, engine: EngineState, stage: StepStage) -> Call
    requires { IsHintPlayable desk.now }
    ensures { result ≡ seen_call engine (call_of_desk stage.closed stage.gone desk.now) }
{
    match engine {
        EngineState::Idle => desk.call(stage.closed, stage.gone),
        _ => {
            if desk.calls_move(stage.closed, stage.gone) {
                Call::Move
            } else {
                Call::Nothing
            }
        }
    }
}

/// True if a move of the engine is asked for.
pub fn is_move(call: Call) -> bool
    ensures { result ≡ is_move call }
{
    matches!(call, Call::Move)
}

/// True if the orders are `ponderhit` alone.
pub fn is_hit(orders: Orders) -> bool
    ensures { result ≡ is_hit_order orders }
{
    matches!(orders, Orders::Hit)
}

/// When the session opens and closes, and whether the engine is there.
#[derive(Clone, Copy)]
pub struct StepStage {
    pub opens: bool,
    pub closed_before: bool,
    pub closed: bool,
    pub gone: bool,
}

/// The orders that are chosen: none at Open and in a closed session.
pub fn choose(
    dialogue: &mut Dialogue,
    stage: StepStage,
    call: Call,
    unsent: bool,
    effect: &Effect,
) -> Orders
    ensures orders { result
        ≡ cond (stage.opens || stage.closed) chosen.None
        (settle dialogue.old call unsent (played_of (what_of (effect_of effect.now)))
        (is_move_now (what_of (effect_of effect.now)))) }
    ensures after { dialogue.new
        ≡ after_settled dialogue.old
        (cond (stage.opens || stage.closed) chosen.None
        (settle dialogue.old call unsent (played_of (what_of (effect_of effect.now)))
        (is_move_now (what_of (effect_of effect.now))))) }
{
    if stage.opens || stage.closed {
        dialogue.rest();
        return Orders::None;
    }
    dialogue.settle(call, unsent, effect.played(), effect.is_move_now())
}

/// Puts the orders of a step, with a line feed each.
#[tactic(auto, unfolding(uci_lines::specs::Orders::uci_order_text))]
pub fn put_orders(
    settings: Settings,
    stage: StepStage,
    held: &HeldOrders,
    desk: &Desk,
    orders: Orders,
    out: &mut Out,
)
    requires empty { out.old ≡ empty ROOM }
    requires sound { DeskInvariant desk.now }
    requires search { ChosenOrdersCanBeWritten desk.now.game orders }
    ensures orders { out.new
        ≡ with out.old
        (order_lines (step_orders settings stage.opens stage.closed_before stage.closed stage.gone
        held.now desk.now orders)) }
    ensures short { length out.new.text ≤ STEP_ORDERS }
{
    if stage.opens {
        put_order(&Order::Uci, out);
        return;
    }
    if stage.closed {
        if !stage.closed_before && !stage.gone {
            put_order(&Order::Quit, out);
        }
        return;
    }
    put_chosen(settings, held, desk, orders, out);
}

/// Drops the held orders that were written.
pub fn release(held: &mut HeldOrders, orders: Orders)
    ensures { held.new ≡ cond (is_batch_order orders) [] held.old }
{
    if let Orders::Batch = orders {
        held.clear();
    }
}
