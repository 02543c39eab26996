// The dialogue with the engine, as a log shows it.
ghost use Rattle.std.specs.Prelude.{◌≡◌, ◌&&◌, ◌||◌, not};
ghost use Rattle.search_epochs.specs.Tickets.{same_move};
ghost use Rattle.session_judge.specs.Rules.{broken, broken_by, is_heard_answer, is_best, kind_needs_idle, breaks_first, breaks_gone, breaks_order, breaks_busy, breaks_stop, breaks_hit};
ghost use Rattle.session_judge.specs.Engines.{event_unless_gone, gone_after, is_idle};
ghost use Rattle.session_judge.specs.Crossings.{crossings_after, is_crossing, is_to_search, next_search_number, taken, unanswered_after};
ghost use Rattle.session_judge.specs.Talks.{judgement_after, after_heard, answer_after, answer_in, number_after, opening_judgement, placed_after, search_after, search_after_event, shown_in, stage_after};
ghost use Rattle.session_judge.specs.declared.talk.TheConstants.{LAST_NUMBER};

use crate::dialogue_event::{DialogueEvent, OrderKind};
use crate::engine::EnginePhase;
use crate::listener::Listener;
use crate::rule::Rule;
use crate::search::Search;
use chess_board::{Move, Position};
use protocol_tokens::GoKind;

/// The last number of a search, and of a crossing: no count goes on behind it.
pub const LAST_NUMBER: u64 = u64::MAX;

/// The orders that came so far.
#[derive(Clone, Copy)]
pub enum OrderStage {
    /// None.
    Start,
    /// The last one is `position`.
    Placed,
    /// The last one is another.
    Open,
    /// `quit` is among them.
    Over,
}

/// A `bestmove` that was heard in a search: what was searched, where, and whether its move was shown since.
#[derive(Clone, Copy)]
pub struct HeardAnswer {
    pub kind: GoKind,
    pub best: Option<Move>,
    pub at: Position,
    pub was_shown: bool,
}

/// The talk so far, and who heard it. The position is that of the last `position` line, and the standard
/// start before the first; the answer and the search are the last ones. `gone` says that the engine's end or loss was heard;
/// `unanswered` is the engine as it would be if its last `bestmove` had not come; `crossings` counts the orders that crossed
/// a line of the engine.
#[derive(Clone, Copy)]
pub struct JudgedTalk {
    pub listener: Listener,
    pub engine: EnginePhase,
    pub gone: bool,
    pub unanswered: EnginePhase,
    pub crossings: u64,
    pub stage: OrderStage,
    pub placed: Position,
    pub answer: Option<HeardAnswer>,
    pub search: Option<Search>,
}

#[tactic(auto, using(search_epochs::proofs::Moves::promotions_compared))]
fn is_same(a: Move, b: Move) -> bool
    ensures { result ≡ same_move a b }
{
    a == b
}

impl OrderStage {
    fn after(self, dialogue_event: &DialogueEvent) -> OrderStage
        ensures { result ≡ stage_after self dialogue_event.now }
    {
        match (self, dialogue_event) {
            (OrderStage::Over, _) => OrderStage::Over,
            (_, DialogueEvent::Writes(OrderKind::Quit)) => OrderStage::Over,
            (_, DialogueEvent::Writes(OrderKind::Position(_))) => OrderStage::Placed,
            (_, DialogueEvent::Writes(_)) => OrderStage::Open,
            _ => self,
        }
    }
}

impl HeardAnswer {
    /// True if a move that is shown is this answer, in its time.
    fn is_shown_by(&self, m: Move) -> bool
        ensures { result ≡ is_shown_by self.now m }
    {
        match (self.kind, self.best, self.was_shown) {
            (GoKind::Move, Some(best), false) => is_same(best, m) && self.at.legal(m),
            _ => false,
        }
    }
}

ghost use Rattle.session_judge.specs.Rules.{is_shown_by};

impl Search {
    /// The search after what was written and heard, in this line, while the engine was in it.
    fn after_event(self, line: u64, dialogue_event: &DialogueEvent) -> Search
        ensures { result ≡ search_after_event line self dialogue_event.now }
    {
        match dialogue_event {
            DialogueEvent::Writes(OrderKind::Stop) => Search {
                stopped: true,
                ..self
            },
            DialogueEvent::Writes(OrderKind::PonderHit) => Search {
                kind: GoKind::Move,
                ..self
            },
            DialogueEvent::Answers(_) => Search {
                ended: Some(line),
                ..self
            },
            _ => self,
        }
    }

    fn with_shown(self, m: Move) -> Search
        ensures { result ≡ shown_in m self }
    {
        match self.ended {
            Some(_) => Search {
                shown: Some(m),
                ..self
            },
            None => self,
        }
    }
}

ghost use Rattle.std.specs.Prelude.{Some};

// The next number, which stays at the last.
fn next(number: u64) -> u64
    ensures { result ≡ next_search_number number }
{
    number.saturating_add(1)
}

fn number_after(search: Option<Search>) -> u64
    ensures { result ≡ number_after search }
{
    match search {
        Some(search) => next(search.number),
        None => 1,
    }
}

impl JudgedTalk {
    pub(crate) fn new(listener: Listener) -> JudgedTalk
        ensures { result ≡ opening_judgement listener }
    {
        JudgedTalk {
            listener,
            engine: EnginePhase::Boot,
            gone: false,
            unanswered: EnginePhase::Idle,
            crossings: 0,
            stage: OrderStage::Start,
            placed: Position::start(),
            answer: None,
            search: None,
        }
    }

    // The engine as the bridge may take it to be.
    fn taken(&self) -> EnginePhase
        ensures { result ≡ taken self.now }
    {
        match (self.listener, self.engine) {
            (Listener::Tap, EnginePhase::Idle) => self.unanswered,
            _ => self.engine,
        }
    }

    // The rule that an order breaks first.
    fn broken_by(&self, order: &OrderKind) -> Option<Rule>
        ensures { result ≡ broken_by self.now order.now }
    {
        if breaks_first(self.stage, order) {
            Some(Rule::First)
        } else if self.gone && matches!(self.listener, Listener::Bridge) {
            Some(Rule::Gone)
        } else if matches!(self.stage, OrderStage::Over) {
            Some(Rule::Quit)
        } else if breaks_order(self.stage, order) {
            Some(Rule::Order)
        } else if breaks_busy(self.engine, order) {
            Some(Rule::Busy)
        } else if matches!(order, OrderKind::Stop) && !self.taken().is_running() {
            Some(Rule::Stop)
        } else if matches!(order, OrderKind::PonderHit) && !self.taken().is_pondering() {
            Some(Rule::Hit)
        } else if matches!(order, OrderKind::Position(None)) {
            Some(Rule::Position)
        } else {
            None
        }
    }

    fn is_answered_by(&self, m: Move) -> bool
        ensures { result ≡ is_heard_answer self.now.answer m }
    {
        match &self.answer {
            Some(answer) => answer.is_shown_by(m),
            None => false,
        }
    }

    /// The rule that an event breaks first.
    pub(crate) fn broken(&self, dialogue_event: &DialogueEvent) -> Option<Rule>
        ensures { result ≡ broken self.now dialogue_event.now }
    {
        match dialogue_event {
            DialogueEvent::Writes(order) => self.broken_by(order),
            DialogueEvent::Shows(m) if !self.is_answered_by(*m) => Some(Rule::Move),
            _ => None,
        }
    }

    fn placed_after(&self, dialogue_event: &DialogueEvent) -> Position
        ensures { result ≡ placed_after self.now.placed dialogue_event.now }
    {
        match dialogue_event {
            DialogueEvent::Writes(OrderKind::Position(Some(position))) => *position,
            _ => self.placed,
        }
    }

    fn answer_after(&self, dialogue_event: &DialogueEvent) -> Option<HeardAnswer>
        ensures { result ≡ answer_after self.now.engine self.now.placed self.now.answer
            dialogue_event.now }
    {
        match (dialogue_event, self.engine) {
            (DialogueEvent::Answers(best), EnginePhase::Search { kind, stopped: _ }) => Some(
                HeardAnswer {
                    kind,
                    best: *best,
                    at: self.placed,
                    was_shown: false,
                },
            ),
            (DialogueEvent::Shows(_), _) => match self.answer {
                Some(answer) => Some(HeardAnswer {
                    was_shown: true,
                    ..answer
                }),
                None => None,
            },
            _ => self.answer,
        }
    }

    fn search_after(&self, line: u64, dialogue_event: &DialogueEvent) -> Option<Search>
        ensures { result ≡ search_after self.now.engine line self.now.search dialogue_event.now }
    {
        match (dialogue_event, self.search) {
            (DialogueEvent::Writes(OrderKind::Go(kind)), search) => Some(Search {
                number: number_after(search),
                kind: *kind,
                begun: line,
                ended: None,
                stopped: false,
                shown: None,
            }),
            (DialogueEvent::Shows(m), Some(search)) => Some(search.with_shown(*m)),
            (_, Some(search)) if self.engine.is_searching() => Some(search.after_event(
                line,
                dialogue_event,
            )),
            (_, search) => search,
        }
    }

    fn unanswered_after(&self, dialogue_event: &DialogueEvent) -> EnginePhase
        ensures { result ≡ unanswered_after self.now.engine self.now.unanswered dialogue_event.now }
    {
        match (dialogue_event, self.engine) {
            (DialogueEvent::Writes(order), _) if is_to_search(order) => self
                .unanswered
                .after(dialogue_event),
            (DialogueEvent::Writes(_), _) => EnginePhase::Idle,
            (
                DialogueEvent::Answers(_),
                EnginePhase::Search {
                    kind: _,
                    stopped: _,
                },
            ) => self.engine,
            _ => self.unanswered,
        }
    }

    fn is_crossing(&self, order: &OrderKind) -> bool
        ensures { result ≡ is_crossing self.now.gone self.now.engine order.now }
    {
        self.gone || (self.engine.is_idle() && is_to_search(order))
    }

    fn crossings_after(&self, dialogue_event: &DialogueEvent) -> u64
        ensures { result
            ≡ crossings_after self.now.crossings self.now.gone self.now.engine dialogue_event.now }
    {
        match dialogue_event {
            DialogueEvent::Writes(order) if self.is_crossing(order) => next(self.crossings),
            _ => self.crossings,
        }
    }

    fn gone_after(&self, dialogue_event: &DialogueEvent) -> bool
        ensures { result ≡ gone_after self.now.gone dialogue_event.now }
    {
        self.gone || matches!(dialogue_event, DialogueEvent::Ends)
    }

    fn after_heard(&self, line: u64, dialogue_event: &DialogueEvent) -> JudgedTalk
        ensures { result ≡ after_heard self.now line dialogue_event.now }
    {
        JudgedTalk {
            listener: self.listener,
            engine: self.engine.after(dialogue_event),
            gone: self.gone_after(dialogue_event),
            unanswered: self.unanswered_after(dialogue_event),
            crossings: self.crossings_after(dialogue_event),
            stage: self.stage.after(dialogue_event),
            placed: self.placed_after(dialogue_event),
            answer: self.answer_after(dialogue_event),
            search: self.search_after(line, dialogue_event),
        }
    }

    /// The talk written and heard after this event, in the line with this number.
    pub(crate) fn after(&self, line: u64, dialogue_event: &DialogueEvent) -> JudgedTalk
        ensures { result ≡ judgement_after self.now line dialogue_event.now }
    {
        match dialogue_event {
            DialogueEvent::Boots | DialogueEvent::GetsReady | DialogueEvent::Answers(_)
                if self.gone => self.after_heard(line, &DialogueEvent::Nothing),
            _ => self.after_heard(line, dialogue_event),
        }
    }
}

// `stop` and `ponderhit` speak to a search.
fn is_to_search(order: &OrderKind) -> bool
    ensures { result ≡ is_to_search order.now }
{
    matches!(order, OrderKind::Stop | OrderKind::PonderHit)
}

// The first order is `uci`, and no later one is.
fn breaks_first(stage: OrderStage, order: &OrderKind) -> bool
    ensures { result ≡ breaks_first stage order.now }
{
    match (stage, order) {
        (OrderStage::Start, OrderKind::Uci) => false,
        (OrderStage::Start, _) | (_, OrderKind::Uci) => true,
        _ => false,
    }
}

// `go` comes directly after a `position`, and nowhere else.
fn breaks_order(stage: OrderStage, order: &OrderKind) -> bool
    ensures { result ≡ breaks_order stage order.now }
{
    match (stage, order) {
        (OrderStage::Placed, OrderKind::Go(_)) => false,
        (OrderStage::Placed, _) | (_, OrderKind::Go(_)) => true,
        _ => false,
    }
}

// These orders are for an idle engine.
fn breaks_busy(engine: EnginePhase, order: &OrderKind) -> bool
    ensures { result ≡ breaks_busy engine order.now }
{
    match (order, engine) {
        (_, EnginePhase::Idle) => false,
        (OrderKind::Setup, _)
        | (OrderKind::IsReady, _)
        | (OrderKind::Position(_), _)
        | (OrderKind::Go(_), _) => true,
        _ => false,
    }
}
