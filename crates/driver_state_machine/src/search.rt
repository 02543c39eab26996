// The beginning, the course and the answer of a search.
ghost use Rattle.std.specs.Prelude.{◌≡◌};
ghost use Rattle.driver_state_machine.specs.DriverState.{begun, opened, played, after_begin, left, driver_after_stop, stopped, after_ponderhit, hit};
ghost use Rattle.driver_state_machine.specs.DriverState.{begin_moveless, hit_resting, thinking_on, reaches_depth};
ghost use Rattle.driver_state_machine.specs.DriverState.{after_moved, after_resigned, after_pong, resumed, after_thought, is_awaited};

use crate::driver_state::{DriverStage, DriverState, DriverTurn, Reach, WantedSearch, give, quiet};
use crate::words::{
    AfterAnalysis, BoardChange, DriverAction, GoClocks, OpenSearch, Phase, Thought, ToEngine,
    ToIface,
};
use chess_board::Move;
use protocol_tokens::GoKind;

/// The search that a `go` opens, with the best move so far.
fn begun(wanted: WantedSearch, kept: Option<Move>, phase: Phase) -> OpenSearch
    ensures { result ≡ begun wanted kept phase }
{
    OpenSearch {
        kind: wanted.kind,
        clocks: wanted.clocks,
        kept,
        phase,
    }
}

impl DriverState {
    /// The engine is set to think, once no `ping` is awaited.
    fn played(self, search: OpenSearch, clocks: GoClocks) -> DriverTurn
        ensures { result ≡ played self search clocks }
    {
        match self.awaited {
            None => give(
                self.at_phase(search, Phase::Thinks { at_once: false }),
                ToIface::Nothing,
                ToEngine::Play {
                    clocks,
                    at_once: false,
                },
            ),
            Some(_) => quiet(self.at_phase(search, Phase::WaitsToThink { at_once: false })),
        }
    }

    /// The engine is set to analyse, once no `ping` is awaited.
    fn opened(self, search: OpenSearch, clocks: GoClocks) -> DriverTurn
        ensures { result ≡ opened self search clocks }
    {
        match self.awaited {
            None => give(
                self.at_phase(search, Phase::Analyses),
                ToIface::Nothing,
                ToEngine::Analyse { clocks, ping: None },
            ),
            Some(_) => quiet(self.at_phase(search, Phase::WaitsToAnalyse(None))),
        }
    }

    /// A `go` without a legal move: an analysis is answered once the interface ends it.
    fn begin_moveless(self, wanted: WantedSearch) -> DriverTurn
        ensures { result ≡ begin_moveless wanted.kind self wanted }
    {
        match wanted.kind {
            GoKind::Move => give(self, ToIface::Best(None), ToEngine::Nothing),
            _ => quiet(self.at_phase(begun(wanted, None, Phase::Rests), Phase::Rests)),
        }
    }

    /// A `go` that is accepted.
    pub(crate) fn begin(self, wanted: WantedSearch) -> DriverTurn
        ensures { result ≡ after_begin self wanted }
    {
        let none = give(self, ToIface::Best(None), ToEngine::Nothing);
        if self.gone {
            return none;
        }
        if wanted.first.is_none() {
            return self.begin_moveless(wanted);
        }
        let search = begun(wanted, wanted.first, Phase::Rests);
        match (wanted.reach, wanted.kind) {
            (Reach::Nothing, _) => none,
            (_, GoKind::Move) => self.played(search, wanted.clocks),
            (Reach::Analyse, _) => self.opened(search, wanted.clocks),
            (Reach::Play, _) => quiet(self.at_phase(search, Phase::Rests)),
        }
    }

    /// The engine is to leave analysis.
    fn left(self, search: OpenSearch, next: AfterAnalysis) -> DriverTurn
        ensures { result ≡ left self search next }
    {
        let talk = self.pinged();
        give(
            talk.at_phase(search, Phase::Leaves(next)),
            ToIface::Nothing,
            ToEngine::Leave { ping: talk.pings },
        )
    }

    fn stopped(self, search: OpenSearch) -> DriverTurn
        ensures { result ≡ stopped self search search.phase }
    {
        match search.phase {
            Phase::Thinks { at_once: false } => give(
                self.at_phase(search, Phase::Thinks { at_once: true }),
                ToIface::Nothing,
                ToEngine::OrderMoveNow,
            ),
            Phase::Analyses => self.left(search, AfterAnalysis::Answer),
            Phase::Rests => give(self.closed(), ToIface::Best(search.kept), ToEngine::Nothing),
            Phase::Leaves(AfterAnalysis::Play) => quiet(self.at_phase(
                search,
                Phase::Leaves(AfterAnalysis::Answer),
            )),
            Phase::WaitsToThink { at_once: false } => {
                quiet(self.at_phase(search, Phase::WaitsToThink { at_once: true }))
            }
            Phase::WaitsToAnalyse(None) | Phase::WaitsToAnalyse(Some(AfterAnalysis::Play)) => {
                quiet(self.at_phase(search, Phase::WaitsToAnalyse(Some(AfterAnalysis::Answer))))
            }
            _ => quiet(self),
        }
    }

    pub(crate) fn stop(self) -> DriverTurn
        ensures { result ≡ driver_after_stop self }
    {
        match self.open_search() {
            Some(search) => self.stopped(search),
            None => quiet(self),
        }
    }

    /// An analysis of which the engine knows nothing gets its `ponderhit`.
    fn hit_resting(self, search: OpenSearch) -> DriverTurn
        ensures { result ≡ hit_resting search.kept self search }
    {
        match search.kept {
            Some(_) => self.played(search, search.clocks),
            None => give(self.closed(), ToIface::Best(None), ToEngine::Nothing),
        }
    }

    fn hit(self, search: OpenSearch) -> DriverTurn
        ensures { result ≡ hit self search search.phase }
    {
        match search.phase {
            Phase::Analyses => self.left(search, AfterAnalysis::Play),
            Phase::Rests => self.hit_resting(search),
            Phase::WaitsToAnalyse(None) => {
                quiet(self.at_phase(search, Phase::WaitsToAnalyse(Some(AfterAnalysis::Play))))
            }
            _ => quiet(self),
        }
    }

    pub(crate) fn ponder_hit(self) -> DriverTurn
        ensures { result ≡ after_ponderhit self }
    {
        match self.open_search() {
            Some(search) => match search.kind {
                GoKind::Ponder => self.hit(search),
                _ => quiet(self),
            },
            None => quiet(self),
        }
    }

    /// The engine says `move`.
    pub(crate) fn moved(self, shown: Option<Move>) -> DriverTurn
        ensures { result ≡ after_moved self shown }
    {
        match self.open_search() {
            Some(
                OpenSearch {
                    kind: _,
                    clocks: _,
                    kept: _,
                    phase: Phase::Thinks { at_once: _ },
                },
            ) => DriverTurn {
                talk: self.closed(),
                action: DriverAction {
                    up: ToIface::Best(shown),
                    down: ToEngine::Nothing,
                    board: board_of(shown),
                },
            },
            _ => quiet(self),
        }
    }

    /// The engine resigns or claims a result.
    pub(crate) fn resigned(self) -> DriverTurn
        ensures { result ≡ after_resigned self }
    {
        match self.open_search() {
            Some(
                OpenSearch {
                    kind: _,
                    clocks: _,
                    kept: _,
                    phase: Phase::Thinks { at_once: _ },
                },
            ) => {
                let talk = self.closed().pinged();
                DriverTurn {
                    talk,
                    action: DriverAction {
                        up: ToIface::Best(None),
                        down: ToEngine::Retreat { ping: talk.pings },
                        board: BoardChange::Lost,
                    },
                }
            }
            _ => quiet(self),
        }
    }

    /// The turn of a search once the `ping` is answered.
    fn resumed(self, search: OpenSearch) -> DriverTurn
        ensures { result ≡ resumed self search search.phase }
    {
        let clocks = search.clocks;
        match search.phase {
            Phase::Leaves(AfterAnalysis::Answer) => {
                give(self.closed(), ToIface::Best(search.kept), ToEngine::Nothing)
            }
            Phase::Leaves(AfterAnalysis::Play) => give(
                self.at_phase(search, Phase::Thinks { at_once: false }),
                ToIface::Nothing,
                ToEngine::Resume { clocks },
            ),
            Phase::WaitsToThink { at_once } => give(
                self.at_phase(search, Phase::Thinks { at_once }),
                ToIface::Nothing,
                ToEngine::Play { clocks, at_once },
            ),
            Phase::WaitsToAnalyse(None) => give(
                self.at_phase(search, Phase::Analyses),
                ToIface::Nothing,
                ToEngine::Analyse { clocks, ping: None },
            ),
            Phase::WaitsToAnalyse(Some(next)) => {
                let talk = self.pinged();
                give(
                    talk.at_phase(search, Phase::Leaves(next)),
                    ToIface::Nothing,
                    ToEngine::Analyse {
                        clocks,
                        ping: Some(talk.pings),
                    },
                )
            }
            _ => quiet(self),
        }
    }

    fn is_awaited(self, n: u32) -> bool
        ensures { result ≡ is_awaited self.awaited n }
    {
        match self.awaited {
            Some(ping) => ping == n,
            None => false,
        }
    }

    pub(crate) fn pong(self, n: u32) -> DriverTurn
        ensures { result ≡ after_pong self n }
    {
        let is_open = matches!(self.stage, DriverStage::Open);
        if !(is_open && self.is_awaited(n)) {
            return quiet(self);
        }
        let talk = DriverState {
            awaited: None,
            ..self
        };
        match self.search {
            Some(search) => talk.resumed(search),
            None => quiet(talk),
        }
    }

    /// The engine thinks on, and is to move now if it has reached the depth of its `go`.
    fn thinking_on(self, search: OpenSearch, thought: Thought) -> DriverTurn
        ensures { result ≡ thinking_on (reaches_depth search.clocks thought) self search thought }
    {
        let reached = reaches_depth(&search.clocks, &thought);
        let down = if reached {
            ToEngine::OrderMoveNow
        } else {
            ToEngine::Nothing
        };
        let talk = self.at_phase(search, Phase::Thinks { at_once: reached });
        give(talk, ToIface::Info(thought), down)
    }

    fn kept(self, search: OpenSearch, thought: Thought) -> DriverTurn
        ensures { result ≡ kept self search search.phase thought }
    {
        let better = OpenSearch {
            kept: Some(thought.best),
            ..search
        };
        match search.phase {
            Phase::Thinks { at_once: false } => self.thinking_on(better, thought),
            Phase::Thinks { at_once: true } | Phase::Analyses | Phase::Rests => give(
                self.at_phase(better, search.phase),
                ToIface::Info(thought),
                ToEngine::Nothing,
            ),
            _ => quiet(self),
        }
    }

    pub(crate) fn thought(self, thought: Thought) -> DriverTurn
        ensures { result ≡ after_thought self thought }
    {
        match self.open_search() {
            Some(search) => self.kept(search, thought),
            None => quiet(self),
        }
    }
}

/// Whether a thinking line has the depth that a `go` asks for, or more.
fn reaches_depth(clocks: &GoClocks, thought: &Thought) -> bool
    ensures { result ≡ reaches_depth clocks.now thought.now }
{
    clocks.depth != 0 && clocks.depth <= thought.depth
}

/// The change that a move said by the engine makes to its game.
fn board_of(shown: Option<Move>) -> BoardChange
    ensures { result ≡ board_of shown }
{
    match shown {
        Some(m) => BoardChange::Moved(m),
        None => BoardChange::Lost,
    }
}

ghost use Rattle.driver_state_machine.specs.DriverState.{kept, board_of};
