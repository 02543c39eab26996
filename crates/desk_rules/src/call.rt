// The calls of the desk.
ghost use Rattle.std.specs.Prelude.{◌≡◌};
ghost use Rattle.std.specs.Option.{is_some};
ghost use Rattle.chess_board.specs.Board.{same_side};
ghost use Rattle.game_record.specs.Game.{current_position};
ghost use Rattle.game_record.specs.Ending.{has_legal, ended_of};
ghost use Rattle.option_map.specs.DeclaredOptions.Shown.{check_named};
ghost use Rattle.uci_lines.specs.Orders.{optional_now};
ghost use Rattle.search_epochs.specs.Tickets.{is_move};
ghost use Rattle.desk_rules.specs.Desk.{at, table, analyses, plays, is_full, has_ended, is_moveless, on_move, is_gone, is_boot, call_for_hint, call_while_waiting, call_in, call_of_desk, owes_move};
ghost use Rattle.desk_rules.specs.Fits.{IsHintPlayable};

use crate::{Context, Desk, Mode};
use chess_board::Side;
use game_record::{Game, GameEnd, MOST_PLIES};
use search_epochs::{Call, EngineState};

/// True if the engine is Gone.
pub fn is_gone(engine: EngineState) -> bool
    ensures { result ≡ is_gone engine }
{
    matches!(engine, EngineState::Gone)
}

pub(crate) fn is_boot(engine: EngineState) -> bool
    ensures { result ≡ is_boot engine }
{
    matches!(engine, EngineState::Boot)
}

pub(crate) fn analyses(mode: Mode) -> bool
    ensures { result ≡ analyses mode }
{
    matches!(mode, Mode::Analyse)
}

pub(crate) fn plays(mode: Mode) -> bool
    ensures { result ≡ plays mode }
{
    matches!(mode, Mode::Plays(_))
}

fn same_side(a: Side, b: Side) -> bool
    ensures { result ≡ same_side a b }
{
    match (a, b) {
        (Side::White, Side::White) | (Side::Black, Side::Black) => true,
        _ => false,
    }
}

fn is_there(text: Option<&[u8]>) -> bool
    ensures { result ≡ is_some (optional_now text.entry) }
{
    match text {
        Some(_) => true,
        None => false,
    }
}

/// The side on move.
pub(crate) fn on_move(game: &Game) -> Side
    ensures { result ≡ on_move game.now }
{
    game.now().side()
}

pub(crate) fn is_full(game: &Game) -> bool
    ensures { result ≡ is_full game.now }
{
    game.plies() as usize >= MOST_PLIES
}

pub(crate) fn has_ended(end: Option<GameEnd>) -> bool
    ensures { result ≡ is_some end }
{
    end.is_some()
}

fn is_moveless(end: Option<GameEnd>) -> bool
    ensures { result ≡ is_moveless end }
{
    match end {
        Some(GameEnd::Mate) | Some(GameEnd::Stale) => true,
        _ => false,
    }
}

// True if the side on move has a legal move: the game has not ended for lack of one.
fn has_legal(game: &Game) -> bool
    ensures { result ≡ has_legal (current_position game.now) }
{
    !is_moveless(game.ended())
}

impl Desk {
    // The declared spelling of a check option, if the options count as declared.
    pub(crate) fn spelled(&self, name: &[u8]) -> Option<&[u8]>
        ensures { optional_now result ≡ check_named name.now (table self.now) }
    {
        if self.booted {
            self.options.check_name(name)
        } else {
            None
        }
    }

    fn call_for_hint(&self) -> Call
        requires { IsHintPlayable self.now }
        ensures { result ≡ call_for_hint self.now.game self.now.hint }
    {
        let Some(hint) = self.hint else {
            return Call::Nothing;
        };
        if has_ended(self.game.ended_after(hint)) {
            Call::Nothing
        } else {
            Call::Ponder(hint)
        }
    }

    fn call_while_waiting(&self) -> Call
        requires { IsHintPlayable self.now }
        ensures { result ≡ call_while_waiting self.now }
    {
        if self.pondering && is_there(self.spelled(b"Ponder")) {
            self.call_for_hint()
        } else {
            Call::Nothing
        }
    }

    fn call_in(&self, mode: Mode) -> Call
        requires { IsHintPlayable self.now }
        ensures { result ≡ call_in self.now mode }
    {
        match mode {
            Mode::Analyse => {
                if has_legal(&self.game) {
                    Call::Analyse
                } else {
                    Call::Nothing
                }
            }
            Mode::Plays(side) => {
                if has_ended(self.game.ended()) {
                    return Call::Nothing;
                }
                if same_side(side, on_move(&self.game)) {
                    Call::Move
                } else {
                    self.call_while_waiting()
                }
            }
            Mode::Force | Mode::Over => Call::Nothing,
        }
    }

    /// The call of the desk; `closed` says whether the session is closed, `gone` whether the engine is Gone.
    #[tactic(auto, unfolding(crate::specs::Desk::call_of_desk))]
    pub fn call(&self, closed: bool, gone: bool) -> Call
        requires { IsHintPlayable self.now }
        ensures { result ≡ call_of_desk closed gone self.now }
    {
        if closed || gone || is_full(&self.game) {
            Call::Nothing
        } else {
            self.call_in(self.mode)
        }
    }

    // True if a Move is called for in a mode.
    fn calls_move_in(&self, mode: Mode) -> bool
        ensures { result ≡ is_move (call_in self.now mode) }
    {
        match mode {
            Mode::Plays(side) => {
                !has_ended(self.game.ended()) && same_side(side, on_move(&self.game))
            }
            _ => false,
        }
    }

    /// True if the desk calls for a Move: `call` tells it too, but plays the hint to see whether the game goes on.
    #[tactic(auto, unfolding(crate::specs::Desk::call_of_desk))]
    pub fn calls_move(&self, closed: bool, gone: bool) -> bool
        ensures { result ≡ is_move (call_of_desk closed gone self.now) }
    {
        !closed && !gone && !is_full(&self.game) && self.calls_move_in(self.mode)
    }

    /// True if a Move is owed when an event comes.
    pub fn owes_move(&self, context: Context) -> bool
        ensures { result ≡ owes_move (at context self.now) }
    {
        !context.spent && self.calls_move(context.closed, is_gone(context.engine))
    }
}
