// The talk with both peers.
ghost use Rattle.std.specs.Prelude.{◌≡◌, ◌<◌, ◌≤◌};
ghost use Rattle.driver_state_machine.specs.DriverState.{first_talk, next_ping, pinged, quiet, give, open_search, at_phase, closed};
ghost use Rattle.driver_state_machine.specs.DriverState.{driver_after_quit, after_uci, after_ready, after_go, after_ended, driver_turn_of};

use crate::words::{
    BoardChange, DriverAction, GoClocks, OpenSearch, Phase, Thought, ToEngine, ToIface,
};
use chess_board::Move;
use protocol_tokens::GoKind;

/// The largest number of a `ping`.
pub(crate) const LAST_PING: u32 = 999_999_999;

/// The orders of the interface so far.
#[derive(Clone, Copy)]
pub enum DriverStage {
    /// No `uci` yet.
    Fresh,
    Open,
    /// `quit` came.
    Over,
}

/// The talk with both peers.
#[derive(Clone, Copy)]
pub struct DriverState {
    pub stage: DriverStage,
    /// The engine ended.
    pub gone: bool,
    /// The `ping` that was not answered.
    pub awaited: Option<u32>,
    /// The number of the last `ping`, 0 before the first.
    pub pings: u32,
    pub search: Option<OpenSearch>,
}

/// The reach of the engine: what may be asked of it for a `go`.
#[derive(Clone, Copy)]
pub enum Reach {
    /// Nothing: no position is ordered, the game is too long, or the engine has not the features.
    Nothing,
    /// To play, but not to analyse.
    Play,
    Analyse,
}

/// The search that a `go` asks for.
#[derive(Clone, Copy)]
pub struct WantedSearch {
    pub kind: GoKind,
    pub clocks: GoClocks,
    /// The first legal move of the ordered position.
    pub first: Option<Move>,
    pub reach: Reach,
}

/// What happens.
#[derive(Clone, Copy)]
pub enum DriverCall {
    /// An order, or a line of the engine, that changes nothing.
    Other,
    Quit,
    Uci,
    IsReady,
    Go(WantedSearch),
    Stop,
    PonderHit,
    /// The engine says `move`, with a legal move or not.
    Moved(Option<Move>),
    /// The engine resigns or claims a result.
    Resigned,
    Pong(u32),
    Thought(Thought),
    /// The engine ended.
    Ended,
}

/// The talk after a call, and what comes of it.
#[derive(Clone, Copy)]
pub struct DriverTurn {
    pub talk: DriverState,
    pub action: DriverAction,
}

/// A turn that gives nothing.
pub(crate) fn quiet(talk: DriverState) -> DriverTurn
    ensures { result ≡ quiet talk }
{
    give(talk, ToIface::Nothing, ToEngine::Nothing)
}

/// A turn that leaves what is known of the engine's game.
pub(crate) fn give(talk: DriverState, up: ToIface, down: ToEngine) -> DriverTurn
    ensures { result ≡ give talk up down }
{
    DriverTurn {
        talk,
        action: DriverAction {
            up,
            down,
            board: BoardChange::Same,
        },
    }
}

fn next_ping(last: u32) -> u32
    ensures value { result ≡ next_ping last }
    ensures most { result ≤ LAST_PING }
{
    if last < LAST_PING { last + 1 } else { 1 }
}

impl DriverState {
    /// Nothing was ordered and heard.
    pub fn new() -> DriverState
        ensures { result ≡ first_talk }
    {
        DriverState {
            stage: DriverStage::Fresh,
            gone: false,
            awaited: None,
            pings: 0,
            search: None,
        }
    }

    /// The search that is open, while orders are accepted.
    pub(crate) fn open_search(self) -> Option<OpenSearch>
        ensures { result ≡ open_search self }
    {
        match self.stage {
            DriverStage::Open => self.search,
            _ => None,
        }
    }

    pub(crate) fn at_phase(self, search: OpenSearch, phase: Phase) -> DriverState
        ensures { result ≡ at_phase self search phase }
    {
        DriverState {
            search: Some(OpenSearch { phase, ..search }),
            ..self
        }
    }

    pub(crate) fn closed(self) -> DriverState
        ensures { result ≡ closed self }
    {
        DriverState {
            search: None,
            ..self
        }
    }

    /// A `ping` more, which is awaited.
    pub(crate) fn pinged(self) -> DriverState
        ensures { result ≡ pinged self }
    {
        let ping = next_ping(self.pings);
        DriverState {
            awaited: Some(ping),
            pings: ping,
            ..self
        }
    }

    fn quit(self) -> DriverTurn
        ensures { result ≡ driver_after_quit self }
    {
        match self.stage {
            DriverStage::Over => quiet(self),
            _ => {
                let talk = DriverState {
                    stage: DriverStage::Over,
                    ..self
                };
                let down = if self.gone {
                    ToEngine::Nothing
                } else {
                    ToEngine::Quit
                };
                give(talk, ToIface::Nothing, down)
            }
        }
    }

    fn uci(self) -> DriverTurn
        ensures { result ≡ after_uci self }
    {
        match self.stage {
            DriverStage::Fresh => {
                let talk = DriverState {
                    stage: DriverStage::Open,
                    ..self
                };
                let down = if self.gone {
                    ToEngine::Nothing
                } else {
                    ToEngine::Greeting
                };
                give(talk, ToIface::Nothing, down)
            }
            _ => quiet(self),
        }
    }

    fn is_ready(self) -> DriverTurn
        ensures { result ≡ after_ready self }
    {
        match self.stage {
            DriverStage::Open => give(self, ToIface::Ready, ToEngine::Nothing),
            _ => quiet(self),
        }
    }

    fn go(self, wanted: WantedSearch) -> DriverTurn
        ensures { result ≡ after_go self wanted }
    {
        match (self.stage, self.search) {
            (DriverStage::Open, None) => self.begin(wanted),
            _ => quiet(self),
        }
    }

    fn ended(self) -> DriverTurn
        ensures { result ≡ after_ended self }
    {
        let talk = DriverState { gone: true, ..self };
        match self.open_search() {
            Some(_) => give(talk.closed(), ToIface::Best(None), ToEngine::Nothing),
            None => quiet(talk),
        }
    }

    /// The effect of a call.
    #[tactic(auto, unfolding(crate::specs::DriverState::driver_turn_of))]
    pub fn step(self, call: DriverCall) -> DriverTurn
        ensures { result ≡ driver_turn_of self call }
    {
        match call {
            DriverCall::Other => quiet(self),
            DriverCall::Quit => self.quit(),
            DriverCall::Uci => self.uci(),
            DriverCall::IsReady => self.is_ready(),
            DriverCall::Go(wanted) => self.go(wanted),
            DriverCall::Stop => self.stop(),
            DriverCall::PonderHit => self.ponder_hit(),
            DriverCall::Moved(shown) => self.moved(shown),
            DriverCall::Resigned => self.resigned(),
            DriverCall::Pong(n) => self.pong(n),
            DriverCall::Thought(thought) => self.thought(thought),
            DriverCall::Ended => self.ended(),
        }
    }

    /// True if a `go` or a `position` is accepted.
    pub fn is_free(self) -> bool
        ensures { result ≡ is_free self }
    {
        matches!((self.stage, self.search), (DriverStage::Open, None))
    }
}

ghost use Rattle.driver_state_machine.specs.DriverState.{is_free};
