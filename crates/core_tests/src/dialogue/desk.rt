// The decisions at a desk where no session shows them.
use crate::expect::expect;
use cecp_lines::{IfaceMsg, read_iface};
use desk_rules::{AskedOrders, Context, Desk, Effect};
use line_io::Event;
use option_map::HeldOrders;
use policy_rules::{Scores, Settings};
use search_epochs::EngineState;
use std::alloc::Global;
use std::process::Abort;

/// The states of the engine in which `hard` asks for nothing, and begins an epoch all the same.
const UNASKED: [EngineState; 2] = [EngineState::Boot, EngineState::Gone];

/// True if `hard` is obeyed, asks for nothing, and begins an epoch.
fn decides_unasked(desk: &Desk, held: &HeldOrders, engine: EngineState) -> bool {
    let context = Context {
        settings: Settings::usual(),
        closed: false,
        engine,
        spent: false,
        resigns: false,
        accepts: false,
    };
    let decision = desk.decide(context, held, &Event::Iface(b"hard"));
    // Read with its type, which the proof then knows.
    let effect: Effect = decision.event_effect.effect;
    let obeyed = matches!(&effect, Effect::Accepts(IfaceMsg::Hard));
    let unasked = matches!(&decision.asks, AskedOrders::One(None));
    obeyed && unasked && decision.event_effect.begins_epoch
}

/// True if that is decided at a desk before its first event.
fn opening_is_unasked(
    rt: &impl Abort,
    alloc: Global,
    held: &HeldOrders,
    engine: EngineState,
) -> bool {
    let desk = Desk::make(alloc).expect(rt, "memory");
    decides_unasked(&desk, held, engine)
}

#[test]
fn begins_an_epoch_without_orders(rt: HostRuntime) {
    let held = HeldOrders::make(rt.alloc()).expect(&rt, "memory");
    for engine in &UNASKED {
        let unasked = opening_is_unasked(&rt, rt.alloc(), &held, *engine);
        expect(&rt, unasked, "hard");
    }
}

/// A line, and whether the score of a shown move, by which the policy resigns, is forgotten
/// after it.
const CLEARINGS: [(&'static str, bool); 13] = [
    ("new", true),
    ("go", true),
    ("playother", true),
    ("undo", true),
    ("remove", true),
    ("setboard 8/8", true),
    ("force", false),
    ("result 1-0", false),
    ("usermove e2e4", false),
    ("analyze", false),
    ("exit", false),
    ("hard", false),
    ("draw", false),
];

/// True if a line forgets the score of a lost move that was shown.
fn forgets_score(rt: &impl Abort, one_is_lost: &Settings, line: &str) -> bool {
    let message = read_iface(line.as_bytes()).expect(rt, "a message");
    let mut scores = Scores::new(one_is_lost);
    scores.shown(Some(-700));
    expect(rt, scores.resigns(), "a lost move was shown");
    Effect::Accepts(message).count(&mut scores, None);
    !scores.resigns()
}

#[test]
fn clears_scores_by_lines(rt: HostRuntime) {
    let one_is_lost = Settings {
        resign: true,
        resign_moves: 1,
        ..Settings::usual()
    };
    for (line, want) in &CLEARINGS {
        let forgotten = forgets_score(&rt, &one_is_lost, line);
        expect(&rt, forgotten == *want, line);
    }
}
