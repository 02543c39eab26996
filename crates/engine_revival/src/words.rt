// The words of a revival.
ghost use Rattle.std.specs.Prelude.{◌≡◌, false};
ghost use Rattle.engine_revival.specs.Orders.{revival_order_of};
ghost use Rattle.uci_lines.specs.Messages.{uci_message_of};
ghost use Rattle.engine_revival.specs.Dialogue.{said_of, said_in};

use crate::orders::RevivalOrder;
use protocol_tokens::GoKind;
use uci_lines::{EngineMsg, read_engine};

/// The state of a dialogue with an engine, by the orders to it and by what it said (UCI, April 2006).
#[derive(Clone, Copy)]
pub enum DialogueState {
    /// No `uci` came yet.
    Before,
    /// From `uci` to `uciok`.
    Boot,
    /// It waits for orders.
    Idle,
    /// It waits for the `go` after a `position`.
    Placed,
    /// From `go` to `bestmove`. A `ponderhit` makes a Ponder search one for a Move.
    Search { kind: GoKind, stopped: bool },
}

/// The state of the present life of the engine, by what was written to it and heard from it.
#[derive(Clone, Copy)]
pub enum LifeState {
    /// It was begun and got no `uci` yet.
    Fresh,
    /// From `uci` to `uciok`.
    Boot,
    /// It waits for orders.
    Idle,
    /// From `go` to `bestmove`.
    Search,
    /// It has ended. Whether another life begins comes next.
    Ended,
    /// It has ended, and no life follows.
    Over,
}

/// The meaning of a line of an engine, as far as it matters here.
#[derive(Clone, Copy)]
pub enum LifeSaid {
    /// A name or an option.
    Introduction,
    UciOk,
    ReadyOk,
    /// Its report on its search.
    Report,
    Best,
    Nothing,
}

/// What is written to a life behind its `uciok`.
#[derive(Clone, Copy)]
pub(crate) enum DueOrders {
    Nothing,
    /// The settings that it did not get, and each `isready` that is held.
    Settings,
    /// The settings that it did not get, each `isready` that is held, and the orders of the open search.
    Search,
}

/// The answer of the stand-in for an engine that has no more lives.
#[derive(Clone, Copy)]
pub(crate) enum StandInAnswer {
    Nothing,
    UciOk,
    /// `readyok` as often as `isready` is held, which the others have too.
    ReadyOk,
    /// `bestmove 0000`.
    NoMove,
}

impl DialogueState {
    ghost use Rattle.engine_revival.specs.Dialogue.{after_order, after_said, dialogue_where};
    ghost use Rattle.engine_revival.specs.Dialogue.{is_before, is_dialogue_idle, is_placed};
    ghost use Rattle.engine_revival.specs.Dialogue.{after_hit, after_stop};
    ghost use Rattle.std.specs.Prelude.{not, ◌||◌};

    pub(crate) fn is_before(self) -> bool
        ensures { result ≡ is_before self }
    {
        matches!(self, DialogueState::Before)
    }

    // The next state, if the engine is idle.
    fn if_idle(self, next: DialogueState) -> Option<DialogueState>
        ensures { result ≡ dialogue_where (is_dialogue_idle self) next }
    {
        match self {
            DialogueState::Idle => Some(next),
            _ => None,
        }
    }

    fn after_ready(self) -> Option<DialogueState>
        ensures { result ≡ dialogue_where (not (is_before self)) self }
    {
        match self {
            DialogueState::Before => None,
            _ => Some(self),
        }
    }

    fn after_position(self) -> Option<DialogueState>
        ensures { result ≡ dialogue_where (is_dialogue_idle self || is_placed self)
            DialogueState.Placed }
    {
        match self {
            DialogueState::Idle | DialogueState::Placed => Some(DialogueState::Placed),
            _ => None,
        }
    }

    fn after_go(self, kind: GoKind) -> Option<DialogueState>
        ensures { result ≡ dialogue_where (is_placed self) (DialogueState.Search kind false) }
    {
        match self {
            DialogueState::Placed => Some(DialogueState::Search {
                kind,
                stopped: false,
            }),
            _ => None,
        }
    }

    fn after_hit(self) -> Option<DialogueState>
        ensures { result ≡ after_hit self }
    {
        match self {
            DialogueState::Search {
                kind: GoKind::Ponder,
                stopped: false,
            } => Some(DialogueState::Search {
                kind: GoKind::Move,
                stopped: false,
            }),
            _ => None,
        }
    }

    fn after_stop(self) -> Option<DialogueState>
        ensures { result ≡ after_stop self }
    {
        match self {
            DialogueState::Search {
                kind,
                stopped: false,
            } => Some(DialogueState::Search {
                kind,
                stopped: true,
            }),
            _ => None,
        }
    }

    /// After an order. None if the order may not stand here.
    pub fn after_order(self, order: &RevivalOrder) -> Option<DialogueState>
        ensures { result ≡ after_order (revival_order_of order.now) self }
    {
        match order {
            RevivalOrder::Uci if self.is_before() => Some(DialogueState::Boot),
            RevivalOrder::Uci => None,
            RevivalOrder::Value { name: _, line: _ } => self.if_idle(DialogueState::Idle),
            RevivalOrder::Button { name: _, line: _ } => self.if_idle(DialogueState::Idle),
            RevivalOrder::NewGame => self.if_idle(DialogueState::Idle),
            RevivalOrder::IsReady => self.after_ready(),
            RevivalOrder::Position(_) => self.after_position(),
            RevivalOrder::Go { kind, line: _ } => self.after_go(*kind),
            RevivalOrder::PonderHit => self.after_hit(),
            RevivalOrder::Stop => self.after_stop(),
            RevivalOrder::Quit => None,
        }
    }

    /// After the engine was heard.
    pub fn after_said(self, said: LifeSaid) -> DialogueState
        ensures { result ≡ after_said self said }
    {
        match (self, said) {
            (DialogueState::Boot, LifeSaid::UciOk) => DialogueState::Idle,
            (
                DialogueState::Search {
                    kind: _,
                    stopped: _,
                },
                LifeSaid::Best,
            ) => DialogueState::Idle,
            _ => self,
        }
    }
}

fn said_of(msg: EngineMsg) -> LifeSaid
    ensures { result ≡ said_of (uci_message_of msg.entry) }
{
    match msg {
        EngineMsg::Name(_) => LifeSaid::Introduction,
        EngineMsg::OptionLine(_) => LifeSaid::Introduction,
        EngineMsg::UciOk => LifeSaid::UciOk,
        EngineMsg::ReadyOk => LifeSaid::ReadyOk,
        EngineMsg::Info(_) => LifeSaid::Report,
        EngineMsg::Best { best: _, hint: _ } => LifeSaid::Best,
        EngineMsg::Nothing => LifeSaid::Nothing,
    }
}

/// The meaning of a line of the engine.
pub fn said_in(line: &[u8]) -> LifeSaid
    ensures { result ≡ said_in line.now }
{
    said_of(read_engine(line))
}
