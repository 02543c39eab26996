// The lines of the interface that are refused.
ghost use Rattle.std.specs.Prelude.{◌≡◌};
ghost use Rattle.std.specs.Option.{option_map};
ghost use Rattle.cecp_lines.specs.Messages.{message_of};
ghost use Rattle.option_map.specs.WaitingOrders.Asked.{asked};
ghost use Rattle.option_map.specs.DeclaredOptions.Data.{setup_seen, answer_seen};
ghost use Rattle.desk_rules.specs.Desk.{at, table, is_gone};
ghost use Rattle.desk_rules.specs.Lines.{because, needs_engine, needs_analysis, lacks_moves, illegal_move, move_too_many, position_set_up, illegal_position, refused_option, does_not_fit, asks as asks_for, pings_too_often, refusal};

use crate::call::{analyses, is_full, is_gone};
use crate::pings::MOST_PINGS;
use crate::{Context, Desk, Refusal};
use cecp_lines::{IfaceMsg, Reason};
use chess_board::Position;
use fen_text::read_fen;
use game_record::Game;
use option_map::{AskedOption, HeldOrders, OptionFault, SetupOrder};
use policy_rules::Settings;
use search_epochs::EngineState;

/// A message's needs of the desk.
#[derive(Clone, Copy)]
pub(crate) struct MessageNeeds<'a> {
    /// The position that it sets up, if it sets one up.
    pub(crate) start: Option<Position>,
    /// The options' answer to it.
    pub(crate) answer: Result<Option<AskedOption<'a>>, OptionFault>,
    /// Its request to the engine.
    pub(crate) asks: Option<SetupOrder<'a>>,
}

fn because(reason: Reason) -> Option<Refusal>
    ensures { result ≡ because reason }
{
    Some(Refusal::Because(reason))
}

fn needs_engine(settings: Settings, message: &IfaceMsg) -> bool
    ensures { result ≡ needs_engine settings (message_of message.now) }
{
    match message {
        IfaceMsg::Go | IfaceMsg::PlayOther => !settings.resign_when_gone,
        IfaceMsg::Analyze => true,
        _ => false,
    }
}

fn needs_analysis(message: &IfaceMsg) -> bool
    ensures { result ≡ needs_analysis (message_of message.now) }
{
    matches!(message, IfaceMsg::Exit | IfaceMsg::Dot)
}

fn lacks_moves(game: &Game, message: &IfaceMsg) -> bool
    ensures { result ≡ lacks_moves game.now (message_of message.now) }
{
    match message {
        IfaceMsg::Undo => game.plies() < 1,
        IfaceMsg::Remove => game.plies() < 2,
        _ => false,
    }
}

fn illegal_move(game: &Game, message: &IfaceMsg) -> Option<Refusal>
    ensures { result ≡ illegal_move game.now (message_of message.now) }
{
    match message {
        IfaceMsg::UserMove(m) => {
            if game.now().legal(*m) {
                None
            } else {
                Some(Refusal::IllegalMove(*m))
            }
        }
        _ => None,
    }
}

fn move_too_many(game: &Game, message: &IfaceMsg) -> Option<Refusal>
    ensures { result ≡ move_too_many game.now (message_of message.now) }
{
    match message {
        IfaceMsg::UserMove(m) => {
            if is_full(game) {
                Some(Refusal::GameTooLong(*m))
            } else {
                None
            }
        }
        _ => None,
    }
}

/// The position that a message sets up, if it sets one up.
pub(crate) fn set_up(message: &IfaceMsg) -> Option<Position>
    ensures { result ≡ position_set_up (message_of message.now) }
{
    match message {
        IfaceMsg::SetBoard(text) => match read_fen(text) {
            Ok(start) => Some(start),
            Err(_) => None,
        },
        _ => None,
    }
}

#[tactic(auto, using(crate::proofs::Starts::no_start, crate::proofs::Starts::some_start))]
fn illegal_position(message: &IfaceMsg, start: &Option<Position>) -> Option<Refusal>
    requires { start.now ≡ position_set_up (message_of message.now) }
    ensures { result ≡ illegal_position (message_of message.now) }
{
    match (message, start) {
        (IfaceMsg::SetBoard(_), None) => Some(Refusal::IllegalPosition),
        _ => None,
    }
}

fn refused_option(answer: &Result<Option<AskedOption>, OptionFault>) -> Option<Refusal>
    ensures { result ≡ refused_option (answer_seen answer.now) }
{
    match answer {
        Ok(_) => None,
        Err(OptionFault::UnknownOption) => because(Reason::UnknownOption),
        Err(OptionFault::BadValue) => because(Reason::BadValue),
    }
}

fn does_not_fit(held: &HeldOrders, asks: &Option<SetupOrder>) -> bool
    ensures { result ≡ does_not_fit held.now (option_map setup_seen asks.now) }
{
    match asks {
        Some(order) => !held.fits_order(order),
        None => false,
    }
}

impl Desk {
    fn pings_too_often(&self, context: Context, message: &IfaceMsg) -> bool
        ensures { result ≡ pings_too_often (at context self.now) (message_of message.now) }
    {
        match message {
            IfaceMsg::Ping(_) => self.owes_move(context) && self.pings.len() >= MOST_PINGS,
            _ => false,
        }
    }

    // The needs of a message.
    pub(crate) fn message_needs<'l: 's, 's>(
        &'s self,
        engine: EngineState,
        message: &IfaceMsg<'l>,
    ) -> MessageNeeds<'s>
        ensures start { result.start ≡ position_set_up (message_of message.now) }
        ensures answer { answer_seen result.answer
            ≡ asked (table self.now) (message_of message.now) }
        ensures asks { option_map setup_seen result.asks
            ≡ asks_for (is_gone engine) self.now (message_of message.now) }
    {
        let answer = self.asked(message);
        MessageNeeds {
            start: set_up(message),
            answer,
            asks: self.asks(is_gone(engine), message, answer),
        }
    }

    // Why a message is refused, if it is: the first that applies.
    #[tactic(auto, unfolding(crate::specs::Lines::refusal))]
    pub(crate) fn refusal(
        &self,
        context: Context,
        held: &HeldOrders,
        message: &IfaceMsg,
        message_needs: &MessageNeeds,
    ) -> Option<Refusal>
        requires start { message_needs.now.start ≡ position_set_up (message_of message.now) }
        requires answer { answer_seen message_needs.now.answer
            ≡ asked (table self.now) (message_of message.now) }
        requires asks { option_map setup_seen message_needs.now.asks
            ≡ asks_for (is_gone context.engine) self.now (message_of message.now) }
        ensures { result ≡ refusal (at context self.now) held.now (message_of message.now) }
    {
        if needs_engine(context.settings, message) && is_gone(context.engine) {
            return because(Reason::EngineEnded);
        }
        if needs_analysis(message) && !analyses(self.mode) {
            return because(Reason::NotAnalyzing);
        }
        if lacks_moves(&self.game, message) {
            return because(Reason::NoMoveToUndo);
        }
        if let Some(refusal) = illegal_move(&self.game, message) {
            return Some(refusal);
        }
        if let Some(refusal) = move_too_many(&self.game, message) {
            return Some(refusal);
        }
        if let Some(refusal) = illegal_position(message, &message_needs.start) {
            return Some(refusal);
        }
        if let Some(refusal) = refused_option(&message_needs.answer) {
            return Some(refusal);
        }
        if does_not_fit(held, &message_needs.asks) {
            return because(Reason::TooManySettings);
        }
        if self.pings_too_often(context, message) {
            return because(Reason::TooManyPings);
        }
        None
    }
}
