// The dialogue's reading of what the engine says: the program `replay` shows the orders alone.
use crate::expect::expect;
use chess_board::{Move, Square};
use protocol_tokens::GoKind;
use search_epochs::{Call, Dialogue, EngineState, Heard, Orders, Said};
use std::process::Abort;

const G1F3: Move = Move {
    from: Square { index: 6 },
    to: Square { index: 21 },
    promotion: None,
};

const MOVED: Heard = Heard::Answer {
    kind: GoKind::Move,
    current: true,
};

const MOVED_LATE: Heard = Heard::Answer {
    kind: GoKind::Move,
    current: false,
};

const PONDERED_LATE: Heard = Heard::Answer {
    kind: GoKind::Ponder,
    current: false,
};

const ANALYSED: Heard = Heard::Answer {
    kind: GoKind::Analyse,
    current: true,
};

const ANALYSES: EngineState = EngineState::Search {
    kind: GoKind::Analyse,
    stale: false,
    stopped: false,
};

const ON_MOVE: Orders = Orders::Begin(Call::Move);

const ON_HINT: Orders = Orders::Begin(Call::Ponder(G1F3));

/// The engine's words, if it speaks, and their meaning; whether an epoch begins then; the call, and the orders.
type Turn = (Option<Said>, Heard, bool, Call, Orders);

/// A search is stopped, another is answered, and a move comes while the engine ponders.
const TURNS: [Turn; 8] = [
    (
        Some(Said::ReadyOk),
        Heard::Ready,
        false,
        Call::Nothing,
        Orders::None,
    ),
    (None, Heard::Nothing, true, Call::Move, ON_MOVE),
    (None, Heard::Nothing, true, Call::Nothing, Orders::Stop),
    (Some(Said::Best), MOVED_LATE, false, Call::Move, ON_MOVE),
    (Some(Said::Best), MOVED, true, Call::Ponder(G1F3), ON_HINT),
    (None, Heard::Nothing, true, Call::Move, Orders::Stop),
    (Some(Said::Best), PONDERED_LATE, false, Call::Move, ON_MOVE),
    (Some(Said::Best), MOVED, true, Call::Nothing, Orders::None),
];

fn hear(dialogue: &mut Dialogue, said: Option<Said>) -> Heard {
    match said {
        Some(said) => dialogue.heard(said),
        None => Heard::Nothing,
    }
}

/// Takes a turn, and tells whether what is heard and ordered is what is wanted.
fn takes(dialogue: &mut Dialogue, turn: &Turn) -> bool {
    let (said, meaning, begins_epoch, call, want) = turn;
    let heard = hear(dialogue, *said);
    if *begins_epoch {
        dialogue.new_epoch();
    }
    let orders = dialogue.settle(*call, false, None, false);
    heard == *meaning && orders == *want
}

#[test]
fn hears_what_is_meant(rt: HostRuntime) {
    let mut dialogue = Dialogue::new();
    dialogue.rest();
    expect(&rt, dialogue.heard(Said::UciOk) == Heard::Booted, "uciok");
    let batch = dialogue.settle(Call::Nothing, true, None, false);
    expect(&rt, batch == Orders::Batch, "the batch");
    for turn in &TURNS {
        expect(&rt, takes(&mut dialogue, turn), "a turn");
    }
}

/// Begins an analysis.
fn analyse(rt: &impl Abort, dialogue: &mut Dialogue) {
    expect(rt, dialogue.heard(Said::UciOk) == Heard::Booted, "uciok");
    let begun = dialogue.settle(Call::Analyse, false, None, false);
    expect(rt, begun == Orders::Begin(Call::Analyse), "go");
    expect(rt, dialogue.state() == ANALYSES, "an open search");
}

/// Ends the engine, of which nothing is heard then.
fn end(rt: &impl Abort, dialogue: &mut Dialogue) {
    expect(rt, dialogue.heard(Said::Ended) == Heard::Ended, "the end");
    expect(rt, dialogue.heard(Said::Ended) == Heard::Nothing, "no more");
}

#[test]
fn is_spent_by_an_answer(rt: HostRuntime) {
    let mut dialogue = Dialogue::new();
    analyse(&rt, &mut dialogue);
    let answered = dialogue.heard(Said::Best) == ANALYSED;
    expect(&rt, answered && dialogue.is_spent(), "bestmove");
    let owed = dialogue.owed(Call::Analyse);
    expect(&rt, owed == Call::Nothing, "nothing is owed");
    dialogue.new_epoch();
    let owed = dialogue.owed(Call::Analyse);
    expect(&rt, owed == Call::Analyse, "an analysis is owed");
    end(&rt, &mut dialogue);
}
