//! Games.
ghost use Rattle.std.specs.Prelude.{◌≡◌, ◌+◌, ◌<◌, ◌≤◌, ◌↔◌, ◌∷◌, [], List, length, Option, IsErr, IfOk, OnOk, OnErr};
ghost use Rattle.chess_board.specs.Laws.{IsLegal};
ghost use Rattle.chess_board.specs.Play.{start_position, IsPosition};
ghost use Rattle.game_record.specs.Game.{Game as AnyGame, Ply, ply_of, plies_of, IsPlayablePly, position_after_ply, AreLegal, current_position, now_after, later, positions_of, game_from, with_ply, without_last};
ghost use Rattle.game_record.specs.Line.{game_position_text};
ghost use Rattle.game_record.specs.Ending.{stood_in, repeats_of, ended_of};
ghost use Rattle.game_record.specs.Keeps.{AreTimes, repetitions_of, left_behind};
ghost use Rattle.game_record.specs.declared.game.TheConstants.{MOST_PLIES, POSITION_TEXT};

use crate::ending::{GameEnd, ended_by, is_same, state_of};
use chess_board::{Move, Position};
use line_io::NoMemory;
use std::alloc::Global;
use std::marker::Model;

/// The most moves, of both sides, that a game has room for.
pub const MOST_PLIES: usize = 12_000;

/// The longest `position` line of a game with a move that may follow, without its line feed.
pub const POSITION_TEXT: usize = 120 + 6 * (MOST_PLIES + 1);

/// Why a move is not taken.
#[derive(Clone, Copy, PartialEq, Eq)]
pub enum PlayFault {
    /// It is not legal now.
    Illegal,
    /// It is legal, and the game has `MOST_PLIES` moves.
    TooLong,
}

/// Fewer moves stand than were to be taken back.
#[derive(Clone, Copy, PartialEq, Eq)]
pub struct NoMove;

/// A game: a start position and the moves from there, each legal in its turn. No call but `make` takes memory.
#[derive(Drop)]
pub struct Game {
    start: Position,
    moves: Vec<Move>,
    /// The position after each move.
    later: Vec<Position>,
    /// The times that each of these then stood.
    times: Vec<u32>,
    /// The end of the game by now.
    ended: Option<GameEnd>,
}

impl Model for Game {
    ghost use Rattle.std.specs.Prelude.{vec_capacity};
    ghost use Rattle.game_record.specs.Game.{Game as AnyGame, plies_of};
    ghost use Rattle.game_record.specs.Keeps.{GameInvariant};

    ghost Value = { AnyGame };

    ghost view = { λ g. record { start = g.start; moves = plies_of g.moves.items } };

    ghost invariant = { λ g. GameInvariant g.start (plies_of g.moves.items) g.later.items g.times.items
        g.ended (vec_capacity g.moves) (vec_capacity g.later) (vec_capacity g.times) };
}

impl Game {
    /// A game from the standard start, without moves.
    pub fn make(alloc: Global) -> Result<Game, NoMemory>
        ensures { IfOk result (λ game. game ≡ game_from start_position) }
    {
        let moves = Vec::with_capacity(alloc, MOST_PLIES)?;
        let later = Vec::with_capacity(alloc, MOST_PLIES)?;
        let times = Vec::with_capacity(alloc, MOST_PLIES)?;
        let start = Position::start();
        let ended = ended_in(&start, later.as_slice(), times.as_slice());
        Ok(Game {
            start,
            moves,
            later,
            times,
            ended,
        })
    }

    /// Begins another game.
    pub fn reset(&mut self, start: Position)
        ensures { self.new ≡ game_from start }
    {
        self.start = start;
        self.moves.clear();
        self.later.clear();
        self.times.clear();
        self.ended = ended_in(&self.start, self.later.as_slice(), self.times.as_slice());
    }

    /// Plays a move that its caller has tested.
    pub fn play(&mut self, m: Move)
        requires legal { IsPlayablePly (current_position self.old) (ply_of m) }
        requires room { length self.old.moves < MOST_PLIES }
        ensures { self.new ≡ with_ply self.old (ply_of m) }
    {
        let after = self.now().play(m);
        self.add(m, after);
    }

    /// Plays a move that comes from outside, after the tests that `play` leaves to its caller.
    pub fn try_play(&mut self, m: Move) -> Result<(), PlayFault>
        ensures illegal { (result ≡ Err PlayFault.Illegal)
            ↔ (¬ IsPlayablePly (current_position self.old) (ply_of m)) }
        ensures long { (result ≡ Err PlayFault.TooLong)
            ↔ (IsPlayablePly (current_position self.old) (ply_of m) × (length self.old.moves ≡
            MOST_PLIES)) }
        ensures ok { OnOk result (self.new ≡ with_ply self.old (ply_of m)) }
        ensures err { OnErr result (self.new ≡ self.old) }
    {
        if !self.now().legal(m) {
            return Err(PlayFault::Illegal);
        }
        if self.moves.len() >= MOST_PLIES {
            return Err(PlayFault::TooLong);
        }
        self.play(m);
        Ok(())
    }

    /// Adds a move and the position that it leaves.
    fn add(&mut self, m: Move, after: Position)
        requires legal { IsPlayablePly (current_position self.old) (ply_of m) }
        requires room { length self.old.moves < MOST_PLIES }
        requires after { after ≡ position_after_ply (current_position self.old) (ply_of m) }
        ensures { self.new ≡ with_ply self.old (ply_of m) }
    {
        let times = self.stood(m, &after) + 1;
        let ended = ended_by(state_of(&after), times, after.half());
        self.moves.push_reserved(m);
        self.later.push_reserved(after);
        self.times.push_reserved(times);
        self.ended = ended;
    }

    /// Takes the last n moves back.
    pub fn undo(&mut self, n: u32) -> Result<(), NoMove>
        ensures refused { IsErr result ↔ (length self.old.moves < n) }
        ensures ok { OnOk result (self.new ≡ without_last self.old n) }
        ensures err { OnErr result (self.new ≡ self.old) }
    {
        let plies = self.moves.len();
        let n = n as usize;
        if plies < n {
            return Err(NoMove);
        }
        self.moves.truncate(plies - n);
        self.later.truncate(plies - n);
        self.times.truncate(plies - n);
        self.ended = ended_in(&self.start, self.later.as_slice(), self.times.as_slice());
        Ok(())
    }

    /// The position before the first move.
    pub fn start(&self) -> &Position
        ensures { result.now ≡ self.now.start }
    {
        &self.start
    }

    /// The present position.
    pub fn now(&self) -> &Position
        ensures { result.now ≡ current_position self.now }
    {
        last_position(&self.start, self.later.as_slice())
    }

    /// The moves so far, the first one first.
    pub fn moves(&self) -> &[Move]
        ensures moves { plies_of result.now ≡ self.now.moves }
        ensures legal { AreLegal self.now.start self.now.moves }
    {
        self.moves.as_slice()
    }

    /// The count of played moves of both sides.
    pub fn plies(&self) -> u32
        ensures value { result ≡ length self.now.moves }
        ensures most { result ≤ MOST_PLIES }
    {
        self.moves.len() as u32
    }

    /// The facts of every game, for proofs alone. It does nothing when it runs.
    pub fn facts(&self)
        ensures start { IsPosition self.now.start }
        ensures legal { AreLegal self.now.start self.now.moves }
        ensures few { length self.now.moves ≤ MOST_PLIES }
        ensures short { (hint : Option Ply) → length (game_position_text self.now hint) ≤
            POSITION_TEXT }
    {
        // Read for the proof alone, which then has what holds of the fields.
        let _moves = self.moves.len();
        self.start.facts();
    }

    /// The times that the position after a move stood in the game so far.
    fn stood(&self, m: Move, after: &Position) -> u32
        requires legal { IsPlayablePly (current_position self.now) (ply_of m) }
        requires after { after.now ≡ position_after_ply (current_position self.now) (ply_of m) }
        ensures value { result ≡ stood_in after.now (positions_of self.now) }
        ensures few { result ≤ MOST_PLIES + 1 }
    {
        self.start.facts();
        last_stood(
            after,
            &self.start,
            self.later.as_slice(),
            self.times.as_slice(),
        )
    }

    /// The times that the present position stood, the present time counted (article 9.2.2).
    pub fn repeats(&self) -> u32
        ensures { result ≡ repeats_of self.now }
    {
        last_times(self.times.as_slice())
    }

    /// The end of the game, if it has ended.
    pub fn ended(&self) -> Option<GameEnd>
        ensures { result ≡ ended_of self.now }
    {
        self.ended
    }

    /// The end of the game after a legal move.
    pub fn ended_after(&self, m: Move) -> Option<GameEnd>
        requires { IsPlayablePly (current_position self.now) (ply_of m) }
        ensures { result ≡ ended_of (with_ply self.now (ply_of m)) }
    {
        let after = self.now().play(m);
        ended_by(state_of(&after), self.stood(m, &after) + 1, after.half())
    }
}

/// The last of the positions, or the start if no move was played.
fn last_position<'a>(start: &'a Position, positions: &'a [Position]) -> &'a Position
    ensures { (moves : List Ply) → positions.now ≡ later start.now moves
        → result.now ≡ now_after start.now moves }
{
    match positions.last() {
        Some(position) => position,
        None => start,
    }
}

/// The last of the times, or once if no move was played.
fn last_times(times: &[u32]) -> u32
    ensures { (g : AnyGame) → times.now ≡ repetitions_of (g.start ∷ []) g.start g.moves
        → result ≡ repeats_of g }
{
    match times.last() {
        Some(times) => *times,
        None => 1,
    }
}

/// The end of a game with these positions and their times.
fn ended_in(start: &Position, positions: &[Position], times: &[u32]) -> Option<GameEnd>
    ensures { (moves : List Ply) → positions.now ≡ later start.now moves
        → times.now ≡ repetitions_of (start.now ∷ []) start.now moves
        → result ≡ ended_of (record { start = start.now; moves = moves }) }
{
    let now = last_position(start, positions);
    ended_by(state_of(now), last_times(times), now.half())
}

/// The times that a position stood: as often as its last occurrence since a pawn's move or a capture says.
fn last_stood(p: &Position, start: &Position, later: &[Position], times: &[u32]) -> u32
    requires times { AreTimes start.now later.now times.now }
    requires behind { stood_in p.now (left_behind p.now (start.now ∷ later.now)) ≡ 0 }
    ensures { result ≡ stood_in p.now (start.now ∷ later.now) }
{
    let oldest = later.len().saturating_sub(p.half() as usize);
    for i in (oldest..later.len()).rev() {
        if is_same(p, &later[i]) {
            return times[i];
        }
    }
    if oldest > 0 {
        return 0;
    }
    if is_same(p, start) { 1 } else { 0 }
}
