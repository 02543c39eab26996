// The situation when an event comes, and what comes of it.
ghost use Rattle.std.specs.Prelude.{◌≡◌};
ghost use Rattle.search_epochs.specs.Tickets.{is_move_now};
ghost use Rattle.search_epochs.specs.Dialogue.{mid_dialogue, played_of};
ghost use Rattle.desk_rules.specs.Steps.{effect_of, what_of, is_boots, is_death, counts_after};

use crate::Desk;
use crate::change::clears_scores;
use cecp_lines::{IfaceMsg, Reason};
use chess_board::{Move, Position};
use option_map::SetupOrder;
use policy_rules::{Scores, Settings};
use protocol_tokens::GoKind;
use search_epochs::{Dialogue, EngineState, Said};
use uci_lines::{Info, OptionMsg};

/// The context of the desk when an event comes.
#[derive(Clone, Copy)]
pub struct Context {
    pub settings: Settings,
    pub closed: bool,
    pub engine: EngineState,
    /// True if the call was answered in this epoch.
    pub spent: bool,
    /// True if the policy resigns once a move with the kept score is shown.
    pub resigns: bool,
    /// True if the policy accepts a draw.
    pub accepts: bool,
}

/// Why a line of the interface is refused.
#[derive(Clone, Copy)]
pub enum Refusal {
    /// A reason that is named in `Error (REASON): LINE`.
    Because(Reason),
    IllegalMove(Move),
    /// The move is legal, but the game has 12,000 plies.
    GameTooLong(Move),
    /// The text of `setboard` is no position.
    IllegalPosition,
}

/// The effect of an event.
#[derive(Clone, Copy)]
pub enum Effect<'a> {
    Nothing,
    Opens,
    LongLine,
    /// A line of the interface is refused.
    Refuses { refusal: Refusal, line: &'a [u8] },
    /// A line of the interface is obeyed.
    Accepts(IfaceMsg<'a>),
    /// A setting of the interface is early, and waits.
    Defers(&'a [u8]),
    /// The engine names itself.
    Names(&'a [u8]),
    Declares(OptionMsg<'a>),
    /// The engine leaves Boot.
    Boots,
    Readies,
    /// A current search of this kind reports on itself.
    Thinks { kind: GoKind, info: Info<'a> },
    /// A current search for a move is answered by a legal move, perhaps with a hint.
    Shows { best: Move, hint: Option<Move> },
    /// A current search for a move is answered by no legal move, but by this token.
    Forfeits(&'a [u8]),
    /// Another search is answered.
    Answers,
    /// The engine becomes Gone.
    Dies,
}

/// The orders that an event asks for, in turn.
#[derive(Clone, Copy)]
pub enum AskedOrders<'a> {
    /// The order of a line, if it asks for any.
    One(Option<SetupOrder<'a>>),
    /// The orders as the engine leaves Boot: what the desk's early lines ask for, and then pondering and analysis.
    AtBoot(&'a Desk),
}

/// The decision on an event, except what it asks for.
#[derive(Clone, Copy)]
pub struct EventEffect<'a> {
    pub effect: Effect<'a>,
    /// The position that an accepted line sets up, if it sets one up.
    pub start: Option<Position>,
    pub begins_epoch: bool,
    /// The interface sends `quit`.
    pub quits: bool,
}

/// The decision on an event, once. Its request borrows the options of the desk, so it joins the held orders
/// before the desk changes.
#[derive(Clone, Copy)]
pub struct Decision<'l, 's> {
    pub event_effect: EventEffect<'l>,
    pub asks: AskedOrders<'s>,
}

impl Effect<'_> {
    /// True if the engine leaves Boot.
    pub fn is_boots(&self) -> bool
        ensures { result ≡ is_boots (effect_of self.now) }
    {
        matches!(self, Effect::Boots)
    }

    /// True if the engine becomes Gone.
    pub fn is_death(&self) -> bool
        ensures { result ≡ is_death (effect_of self.now) }
    {
        matches!(self, Effect::Dies)
    }

    /// The move that the user played.
    pub fn played(&self) -> Option<Move>
        ensures { result ≡ played_of (what_of (effect_of self.now)) }
    {
        match self {
            Effect::Accepts(IfaceMsg::UserMove(m)) => Some(*m),
            _ => None,
        }
    }

    /// True if the user asks for the move now.
    pub fn is_move_now(&self) -> bool
        ensures { result ≡ is_move_now (what_of (effect_of self.now)) }
    {
        matches!(self, Effect::Accepts(IfaceMsg::MoveNow))
    }

    /// Counts the kept score of a shown move, and forgets all scores if a message wants it.
    pub fn count(&self, scores: &mut Scores, kept: Option<i64>)
        ensures { scores.new ≡ counts_after kept (effect_of self.now) scores.old }
    {
        match self {
            Effect::Accepts(message) => if clears_scores(message) {
                scores.clear();
            },
            Effect::Shows { best: _, hint: _ } => scores.shown(kept),
            _ => {}
        }
    }
}

impl EventEffect<'_> {
    /// Has the dialogue hear it.
    pub fn hear(&self, dialogue: &mut Dialogue)
        ensures { dialogue.new
            ≡ mid_dialogue dialogue.old
            (what_of (effect_of self.now.effect)) self.now.begins_epoch }
    {
        match self.effect {
            Effect::Boots => {
                dialogue.heard(Said::UciOk);
            }
            Effect::Readies => {
                dialogue.heard(Said::ReadyOk);
            }
            Effect::Shows { best: _, hint: _ } | Effect::Forfeits(_) | Effect::Answers => {
                dialogue.heard(Said::Best);
            }
            Effect::Dies => {
                dialogue.heard(Said::Ended);
            }
            _ => {}
        }
        if self.begins_epoch {
            dialogue.new_epoch();
        }
    }
}
