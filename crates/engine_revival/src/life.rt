// The orders that a life takes at once, the orders due to it, and the part of its lines that is given.
ghost use Rattle.std.specs.Prelude.{◌≡◌};
ghost use Rattle.engine_revival.specs.Orders.{revival_order_of};
ghost use Rattle.engine_revival.specs.Steps.{is_given, is_served, takes_at_once};
ghost use Rattle.engine_revival.specs.Steps.{after_at_once, life_after_said, due_if_held, due_to, answer_to, owed_ready_after};

use crate::orders::RevivalOrder;
use crate::words::{DialogueState, DueOrders, LifeSaid, LifeState, StandInAnswer};
use protocol_tokens::GoKind;

impl LifeState {
    pub(crate) fn takes_at_once(self, order: &RevivalOrder) -> bool
        ensures { result ≡ takes_at_once self (revival_order_of order.now) }
    {
        matches!(
            (self, order),
            (LifeState::Fresh, RevivalOrder::Uci)
                | (LifeState::Search, RevivalOrder::Stop)
                | (LifeState::Search, RevivalOrder::PonderHit)
        )
    }

    pub(crate) fn after_at_once(self, order: &RevivalOrder) -> LifeState
        ensures { result ≡ after_at_once self (revival_order_of order.now) }
    {
        match (self, order) {
            (LifeState::Fresh, RevivalOrder::Uci) => LifeState::Boot,
            _ => self,
        }
    }

    // True if it got `uci` and has not ended.
    pub(crate) fn is_served(self) -> bool
        ensures { result ≡ is_served self }
    {
        matches!(self, LifeState::Boot | LifeState::Idle | LifeState::Search)
    }

    pub(crate) fn after_said(self, said: LifeSaid) -> LifeState
        ensures { result ≡ life_after_said self said }
    {
        match (self, said) {
            (LifeState::Boot, LifeSaid::UciOk) => LifeState::Idle,
            (LifeState::Search, LifeSaid::Best) => LifeState::Idle,
            _ => self,
        }
    }
}

fn due_if_held(is_held: bool) -> DueOrders
    ensures { result ≡ due_if_held is_held }
{
    if is_held {
        DueOrders::Settings
    } else {
        DueOrders::Nothing
    }
}

pub(crate) fn due_to(life: LifeState, quit: bool, upper: DialogueState, is_held: bool) -> DueOrders
    ensures { result ≡ due_to life quit upper is_held }
{
    match (life, quit, upper) {
        (
            LifeState::Idle,
            false,
            DialogueState::Search {
                kind: _,
                stopped: _,
            },
        ) => DueOrders::Search,
        (LifeState::Idle, false, _) => due_if_held(is_held),
        (LifeState::Search, false, _) => due_if_held(is_held),
        _ => DueOrders::Nothing,
    }
}

pub(crate) fn answer_to(life: LifeState, upper: DialogueState) -> StandInAnswer
    ensures { result ≡ answer_to life upper }
{
    match (life, upper) {
        (LifeState::Over, DialogueState::Boot) => StandInAnswer::UciOk,
        (
            LifeState::Over,
            DialogueState::Search {
                kind: GoKind::Move,
                stopped: _,
            },
        ) => StandInAnswer::NoMove,
        (
            LifeState::Over,
            DialogueState::Search {
                kind: _,
                stopped: true,
            },
        ) => StandInAnswer::NoMove,
        (LifeState::Over, _) => StandInAnswer::ReadyOk,
        _ => StandInAnswer::Nothing,
    }
}

pub(crate) fn is_given(said: LifeSaid, life: LifeState, upper: DialogueState, is_owed: bool) -> bool
    ensures { result ≡ is_given said life upper is_owed }
{
    match (said, life, upper) {
        (LifeSaid::Introduction, _, DialogueState::Boot) => true,
        (LifeSaid::UciOk, _, DialogueState::Boot) => true,
        (LifeSaid::ReadyOk, _, _) => is_owed,
        (LifeSaid::Report, LifeState::Search, _) => true,
        (LifeSaid::Best, LifeState::Search, _) => true,
        _ => false,
    }
}

// How many `readyok` are owed after this.
pub(crate) fn owed_after(said: LifeSaid, owed: u32) -> u32
    ensures { result ≡ owed_ready_after said owed }
{
    match said {
        LifeSaid::ReadyOk => owed.saturating_sub(1),
        _ => owed,
    }
}
