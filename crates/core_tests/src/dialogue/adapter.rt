// A core's answers beside its lines. The program `replay` opens each session itself, and shows neither the settings nor
// the state of the engine.
use crate::expect::expect;
use adapter_core::Core;
use line_io::Event;
use policy_rules::Settings;
use protocol_tokens::GoKind;
use script_lines::{Mark, read_mark};
use search_epochs::EngineState;
use std::process::Abort;

/// The event that a mark stands for.
fn event_in<'a>(rt: &impl Abort, mark: &'a str) -> Event<'a> {
    match read_mark(mark.as_bytes()) {
        Ok(Mark::Event(event)) => event,
        _ => panic!(rt; "no event: {mark}"),
    }
}

/// A mark of each event but Open.
const MARKS: [&str; 8] = ["x new", "x!", "x.", "x?", "u uciok", "u!", "u.", "u?"];

const SEARCHES: EngineState = EngineState::Search {
    kind: GoKind::Move,
    stale: false,
    stopped: false,
};

const STOPPED: EngineState = EngineState::Search {
    kind: GoKind::Move,
    stale: true,
    stopped: true,
};

/// The mark of an event; then the state of the engine, the plies of the game, and whether the session is over.
type Row = (&'static str, EngineState, u32, bool);

const CLOSED_EARLY: [Row; 3] = [
    ("x option Nope=1", EngineState::Boot, 0, false),
    ("x quit", EngineState::Boot, 0, false),
    ("u uciok", EngineState::Boot, 0, false),
];

const GAME: [Row; 8] = [
    ("u uciok", EngineState::Getting, 0, false),
    ("u readyok", EngineState::Idle, 0, false),
    ("x usermove e2e4", SEARCHES, 1, false),
    ("x force", STOPPED, 1, false),
    ("u bestmove e7e5", EngineState::Idle, 1, false),
    ("x usermove e7e5", EngineState::Idle, 2, false),
    ("x quit", EngineState::Idle, 2, false),
    ("u.", EngineState::Gone, 2, true),
];

/// Opens a session and takes its events, and compares what the core tells after each.
fn check_reported(rt: &impl Abort, core: &mut Core, rows: &[Row]) {
    assert!(rt; core.may(&Event::Open));
    core.step(&Event::Open);
    expect(rt, !core.may(&Event::Open), "it opens once");
    for (mark, engine, plies, over) in rows {
        let event = event_in(rt, mark);
        assert!(rt; core.may(&event));
        core.step(&event);
        let game = core.engine() == *engine && core.game().plies() == *plies;
        expect(rt, game && core.over() == *over, mark);
    }
}

/// Lets a core go. That is proved here once, and not in each function that makes one.
fn end_core(_core: Core) {}

/// None of the events may come, since the session is not open yet.
fn check_unopened(rt: &impl Abort, core: &Core) {
    for mark in &MARKS {
        expect(rt, !core.may(&event_in(rt, mark)), mark);
    }
}

#[test]
fn reports_what_was_chosen(rt: HostRuntime) {
    let usual = Settings::usual();
    let mut core = Core::make(rt.alloc(), &usual).expect(&rt, "memory");
    check_unopened(&rt, &core);
    let chosen = Settings {
        resign: true,
        early_settings: true,
        ..usual
    };
    core.set(&chosen);
    let kept = core.settings() == chosen;
    expect(&rt, kept, "chosen before the first step");
    check_reported(&rt, &mut core, &CLOSED_EARLY);
    end_core(core);
}

#[test]
fn reports_what_stands(rt: HostRuntime) {
    let mut core = Core::make(rt.alloc(), &Settings::usual()).expect(&rt, "memory");
    check_reported(&rt, &mut core, &GAME);
    end_core(core);
}
