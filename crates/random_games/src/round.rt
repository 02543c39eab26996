// The rounds of a drill.
ghost use Rattle.std.specs.Prelude.{◌≡◌, ◌≤◌, ◌<◌, ◌+◌, ◌*◌, ◌↔◌, IfOk, IsTrue, [], length, false, if◌then◌else◌, Some, None};
ghost use Rattle.chess_board.specs.Laws.{IsLegal};
ghost use Rattle.chess_board.specs.Play.{HasLegal};
ghost use Rattle.chess_board.specs.Text.{IsOfficer};
ghost use Rattle.game_record.specs.Game.{current_position, ply_of, with_ply};
ghost use Rattle.policy_rules.specs.SettingRules.Policy.{usual};
ghost use Rattle.adapter_core.specs.Ends.{at_start};
ghost use Rattle.adapter_core.specs.Represents.{Represents};
ghost use Rattle.desk_rules.specs.Desk.{has_ended};
ghost use Rattle.random_games.specs.Generator.{next};
ghost use Rattle.random_games.specs.Rounds.{Draws, is_spent, new_game, renewal, unspent_drill, first_drill, ponders};
ghost use Rattle.random_games.specs.Sent.{DrillHasRoom, Sent, both_sides_open};
ghost use Rattle.random_games.specs.Tally.{nothing};
ghost use Rattle.random_games.specs.Stood.{stand_of, EngineMoves, HintDrawn, RoundPlayed, RoundsPlayed, UserMoves};
ghost use Rattle.game_record.specs.declared.game.TheConstants.{MOST_PLIES};
ghost use Rattle.random_games.specs.declared.round.TheConstants.{SPENT_PLIES};

use crate::generator::{next, place_of};
use crate::session::DrillSession;
use chess_board::{Move, Position, State};
use game_record::Game;
use line_io::NoMemory;
use std::alloc::Global;

// A game of so many moves of both sides is followed by a new one.
const SPENT_PLIES: u32 = 10_000;

/// A drill: its session, the game that it keeps, the last number of its generator, and the move that it has the
/// engine ponder on.
#[derive(Drop)]
pub struct Drill {
    pub session: DrillSession,
    pub game: Game,
    seed: u32,
    hint: Option<Move>,
}

fn has_ended(game: &Game) -> bool
    ensures { result ≡ has_ended game.now }
{
    game.ended().is_some()
}

// True if the side on move has a legal move.
fn can_move(game: &Game) -> bool
    ensures { IsTrue result ↔ HasLegal (current_position game.now) }
{
    !matches!(game.now().state(), State::Mate | State::Stale)
}

impl Drill {
    /// A drill before its first event. It takes all memory that it ever uses.
    pub fn make(alloc: Global, number: u32) -> Result<Drill, NoMemory>
        ensures stand { IfOk result (λ drill. stand_of drill ≡ first_drill number) }
        ensures core { IfOk result (λ drill. Represents usual drill.session.core []) }
        ensures ends { IfOk result (λ drill. drill.session.core.ends ≡ at_start) }
        ensures tally { IfOk result (λ drill. drill.session.tally ≡ nothing) }
    {
        let game = Game::make(alloc)?;
        let session = DrillSession::make(alloc)?;
        Ok(Drill {
            session,
            game,
            seed: number,
            hint: None,
        })
    }

    fn is_spent(&self) -> bool
        ensures { result ≡ is_spent self.now.game }
    {
        has_ended(&self.game) || self.game.plies() >= SPENT_PLIES
    }

    // Begins a new game if one is due.
    fn renew(&mut self)
        requires talking { self.old.session.core.ends ≡ both_sides_open }
        requires room { DrillHasRoom 3 self.old.session }
        ensures sent { Sent self.old.session self.new.session (renewal (stand_of self.old)) }
        ensures stand { stand_of self.new ≡ unspent_drill (stand_of self.old) }
        ensures open { is_spent self.new.game ≡ false }
        ensures talking { self.new.session.core.ends ≡ both_sides_open }
        ensures few { self.new.session.tally.steps ≤ self.old.session.tally.steps + 3 }
    {
        if !self.is_spent() {
            return;
        }
        self.begin_anew();
    }

    fn begin_anew(&mut self)
        requires talking { self.old.session.core.ends ≡ both_sides_open }
        requires room { DrillHasRoom 3 self.old.session }
        ensures sent { Sent self.old.session self.new.session (new_game self.old.hint) }
        ensures stand { stand_of self.new ≡ first_drill self.old.seed }
        ensures talking { self.new.session.core.ends ≡ both_sides_open }
        ensures few { self.new.session.tally.steps ≤ self.old.session.tally.steps + 3 }
    {
        self.session.begin_game(self.hint);
        self.game.reset(Position::start());
        self.hint = None;
    }

    // Draws a legal move.
    fn draw(&mut self) -> Move
        requires { HasLegal (current_position self.old.game) }
        ensures drawn { Draws (stand_of self.old) result }
        ensures legal { IsLegal
            (current_position self.old.game) result.from.index result.to.index result.promotion }
        ensures officer { IsOfficer result.promotion }
        ensures after { self.new ≡ record self.old { seed = next self.old.seed } }
    {
        self.seed = next(self.seed);
        let moves = self.game.now().moves();
        moves.as_slice()[place_of(self.seed, moves.len())]
    }

    // Plays a move in the game of the drill.
    fn play(&mut self, m: Move)
        requires legal { IsLegal (current_position self.old.game) m.from.index m.to.index
            m.promotion }
        requires plies { length self.old.game.moves < MOST_PLIES }
        ensures { self.new ≡ record self.old { game = with_ply self.old.game (ply_of m) } }
    {
        self.game.play(m);
    }

    // Draws and enters a move of the user.
    fn move_user(&mut self)
        requires open { has_ended self.old.game ≡ false }
        requires plies { length self.old.game.moves < SPENT_PLIES }
        requires talking { self.old.session.core.ends ≡ both_sides_open }
        requires room { DrillHasRoom 4 self.old.session }
        ensures moves { UserMoves self.old self.new }
        ensures quiet { self.new.hint ≡ None }
        ensures plies { length self.new.game.moves < SPENT_PLIES + 1 }
        ensures talking { self.new.session.core.ends ≡ both_sides_open }
        ensures few { self.new.session.tally.steps ≤ self.old.session.tally.steps + 4 }
    {
        let m = self.draw();
        self.session.enter(m);
        self.session.miss(self.hint, m);
        self.play(m);
        self.hint = None;
    }

    // Draws and answers with a move of the engine, if the game has not ended.
    fn move_engine(&mut self)
        requires quiet { self.old.hint ≡ None }
        requires plies { length self.old.game.moves < SPENT_PLIES + 1 }
        requires talking { self.old.session.core.ends ≡ both_sides_open }
        requires room { DrillHasRoom 2 self.old.session }
        ensures moves { EngineMoves self.old self.new }
        ensures talking { self.new.session.core.ends ≡ both_sides_open }
        ensures few { self.new.session.tally.steps ≤ self.old.session.tally.steps + 2 }
    {
        if has_ended(&self.game) {
            return;
        }
        let m = self.draw();
        self.play(m);
        if can_move(&self.game) {
            self.answer_with_hint(m);
            return;
        }
        self.session.answer(m);
    }

    // Answers with a move that was played, and draws a hint.
    fn answer_with_hint(&mut self, m: Move)
        requires officer { IsOfficer m.promotion }
        requires legal { HasLegal (current_position self.old.game) }
        requires talking { self.old.session.core.ends ≡ both_sides_open }
        requires room { DrillHasRoom 2 self.old.session }
        ensures moves { HintDrawn self.old self.new m }
        ensures talking { self.new.session.core.ends ≡ both_sides_open }
        ensures few { self.new.session.tally.steps ≤ self.old.session.tally.steps + 2 }
    {
        let hint = self.draw();
        self.session.answer_with(m, hint);
        self.hint = kept(&self.game, hint);
    }

    // One round.
    fn round(&mut self)
        requires talking { self.old.session.core.ends ≡ both_sides_open }
        requires room { DrillHasRoom 9 self.old.session }
        ensures round { RoundPlayed self.old self.new }
        ensures talking { self.new.session.core.ends ≡ both_sides_open }
        ensures few { self.new.session.tally.steps ≤ self.old.session.tally.steps + 9 }
    {
        self.renew();
        self.move_user();
        self.move_engine();
    }

    /// So many rounds.
    pub fn play_rounds(&mut self, count: u32)
        requires talking { self.old.session.core.ends ≡ both_sides_open }
        requires room { DrillHasRoom (9 * count) self.old.session }
        ensures rounds { RoundsPlayed count self.old self.new }
        ensures talking { self.new.session.core.ends ≡ both_sides_open }
        ensures few { self.new.session.tally.steps ≤ self.old.session.tally.steps + 9 * count }
    {
        for _ in 0..count {
            self.round();
        }
    }
}

// True if the engine ponders on a hint.
fn ponders(game: &Game, hint: Move) -> bool
    requires { IsLegal (current_position game.now) hint.from.index hint.to.index hint.promotion }
    ensures { result ≡ ponders game.now hint }
{
    game.ended().is_none() && game.ended_after(hint).is_none()
}

// The hint, if the engine ponders on it.
fn kept(game: &Game, hint: Move) -> Option<Move>
    requires { IsLegal (current_position game.now) hint.from.index hint.to.index hint.promotion }
    ensures { result ≡ (if ponders game.now hint then Some hint else None) }
{
    if ponders(game, hint) {
        Some(hint)
    } else {
        None
    }
}
