// Searches, call by call.
use crate::expected::expect_true;
use chess_board::{Move, Square};
use driver_state_machine::{
    BoardChange, DriverAction, DriverCall, DriverState, GoClocks, Reach, ToEngine, ToIface,
    WantedSearch,
};
use protocol_tokens::GoKind;
use std::process::Abort;

const CLOCKS: GoClocks = GoClocks {
    wtime: 1000,
    btime: 1000,
    winc: 0,
    binc: 0,
    movetime: None,
    movestogo: 0,
    depth: 0,
};

const A1B1: Move = Move {
    from: Square { index: 0 },
    to: Square { index: 1 },
    promotion: None,
};

/// A call, what is done for it, and whether a `go` is accepted then.
#[derive(Clone, Copy)]
struct Turn {
    name: &'static str,
    call: DriverCall,
    action: DriverAction,
    is_free: bool,
}

const QUIET: DriverAction = DriverAction {
    up: ToIface::Nothing,
    down: ToEngine::Nothing,
    board: BoardChange::Same,
};

const GO: WantedSearch = WantedSearch {
    kind: GoKind::Move,
    clocks: CLOCKS,
    first: Some(A1B1),
    reach: Reach::Analyse,
};

const GO_PONDER: WantedSearch = WantedSearch {
    kind: GoKind::Ponder,
    ..GO
};

const PONDERED: [Turn; 6] = [
    Turn {
        name: "uci greets the engine",
        call: DriverCall::Uci,
        action: DriverAction {
            down: ToEngine::Greeting,
            ..QUIET
        },
        is_free: true,
    },
    Turn {
        name: "go ponder has it analyse",
        call: DriverCall::Go(GO_PONDER),
        action: DriverAction {
            down: ToEngine::Analyse {
                clocks: CLOCKS,
                ping: None,
            },
            ..QUIET
        },
        is_free: false,
    },
    Turn {
        name: "ponderhit has it leave the analysis",
        call: DriverCall::PonderHit,
        action: DriverAction {
            down: ToEngine::Leave { ping: 1 },
            ..QUIET
        },
        is_free: false,
    },
    Turn {
        name: "a move before its pong is passed over",
        call: DriverCall::Moved(Some(A1B1)),
        action: QUIET,
        is_free: false,
    },
    Turn {
        name: "its pong has it think",
        call: DriverCall::Pong(1),
        action: DriverAction {
            down: ToEngine::Resume { clocks: CLOCKS },
            ..QUIET
        },
        is_free: false,
    },
    Turn {
        name: "its move is the best one",
        call: DriverCall::Moved(Some(A1B1)),
        action: DriverAction {
            up: ToIface::Best(Some(A1B1)),
            board: BoardChange::Moved(A1B1),
            ..QUIET
        },
        is_free: true,
    },
];

const RESIGNED: [Turn; 6] = [
    Turn {
        name: "uci greets an engine that will resign",
        call: DriverCall::Uci,
        action: DriverAction {
            down: ToEngine::Greeting,
            ..QUIET
        },
        is_free: true,
    },
    Turn {
        name: "go has it play",
        call: DriverCall::Go(GO),
        action: DriverAction {
            down: ToEngine::Play {
                clocks: CLOCKS,
                at_once: false,
            },
            ..QUIET
        },
        is_free: false,
    },
    Turn {
        name: "it resigns: there is no best move, and it retreats",
        call: DriverCall::Resigned,
        action: DriverAction {
            up: ToIface::Best(None),
            down: ToEngine::Retreat { ping: 1 },
            board: BoardChange::Lost,
        },
        is_free: true,
    },
    Turn {
        name: "go before its pong waits",
        call: DriverCall::Go(GO),
        action: QUIET,
        is_free: false,
    },
    Turn {
        name: "stop before its pong waits too",
        call: DriverCall::Stop,
        action: QUIET,
        is_free: false,
    },
    Turn {
        name: "its pong has it play in a hurry",
        call: DriverCall::Pong(1),
        action: DriverAction {
            down: ToEngine::Play {
                clocks: CLOCKS,
                at_once: true,
            },
            ..QUIET
        },
        is_free: false,
    },
];

// Plays a turn, and gives what it leads to.
fn played(rt: &impl Abort, talk: DriverState, turn: &Turn) -> DriverState {
    let found = talk.step(turn.call);
    expect_true(rt, turn.name, found.action == turn.action);
    expect_true(rt, turn.name, found.talk.is_free() == turn.is_free);
    found.talk
}

fn expect_turns(rt: &impl Abort, turns: &[Turn]) {
    let mut talk = DriverState::new();
    for turn in turns {
        talk = played(rt, talk, turn);
    }
}

#[test]
fn searches_are_answered(rt: HostRuntime) {
    expect_turns(&rt, &PONDERED);
    expect_turns(&rt, &RESIGNED);
}
