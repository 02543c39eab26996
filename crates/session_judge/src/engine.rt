// The engine, by what was written to it and heard from it (UCI, April 2006).
ghost use Rattle.std.specs.Prelude.{◌≡◌};
ghost use Rattle.session_judge.specs.Engines.{engine_after, is_idle, is_phase_pondering, is_running, is_searching};

use crate::dialogue_event::{DialogueEvent, OrderKind};
use protocol_tokens::GoKind;

/// The state of the engine, as it is while the engine lives.
#[derive(Clone, Copy)]
pub enum EnginePhase {
    /// From `uci` to `uciok`.
    Boot,
    /// From `isready` to `readyok`.
    Getting,
    /// It waits for orders.
    Idle,
    /// From `go` to `bestmove`.
    Search { kind: GoKind, stopped: bool },
}

impl EnginePhase {
    pub(crate) fn is_idle(self) -> bool
        ensures { result ≡ is_idle self }
    {
        matches!(self, EnginePhase::Idle)
    }

    pub(crate) fn is_searching(self) -> bool
        ensures { result ≡ is_searching self }
    {
        matches!(
            self,
            EnginePhase::Search {
                kind: _,
                stopped: _
            }
        )
    }

    pub(crate) fn is_running(self) -> bool
        ensures { result ≡ is_running self }
    {
        matches!(
            self,
            EnginePhase::Search {
                kind: _,
                stopped: false
            }
        )
    }

    pub(crate) fn is_pondering(self) -> bool
        ensures { result ≡ is_phase_pondering self }
    {
        matches!(
            self,
            EnginePhase::Search {
                kind: GoKind::Ponder,
                stopped: false
            }
        )
    }

    pub(crate) fn after(self, dialogue_event: &DialogueEvent) -> EnginePhase
        ensures { result ≡ engine_after self dialogue_event.now }
    {
        match (self, dialogue_event) {
            (_, DialogueEvent::Writes(OrderKind::Uci)) => EnginePhase::Boot,
            (_, DialogueEvent::Writes(OrderKind::IsReady)) => EnginePhase::Getting,
            (_, DialogueEvent::Writes(OrderKind::Go(kind))) => EnginePhase::Search {
                kind: *kind,
                stopped: false,
            },
            (EnginePhase::Search { kind, stopped: _ }, DialogueEvent::Writes(OrderKind::Stop)) =>
                EnginePhase::Search {
                    kind,
                    stopped: true,
                },
            (
                EnginePhase::Search {
                    kind: GoKind::Ponder,
                    stopped: _,
                },
                DialogueEvent::Writes(OrderKind::PonderHit),
            ) => EnginePhase::Search {
                kind: GoKind::Move,
                stopped: false,
            },
            (EnginePhase::Boot, DialogueEvent::Boots) => EnginePhase::Idle,
            (EnginePhase::Getting, DialogueEvent::GetsReady) => EnginePhase::Idle,
            (
                EnginePhase::Search {
                    kind: _,
                    stopped: _,
                },
                DialogueEvent::Answers(_),
            ) => EnginePhase::Idle,
            _ => self,
        }
    }
}
