// The game as written to the engine.
ghost use Rattle.std.specs.Prelude.{◌≡◌, ◌+◌, ◌≤◌, ◌<◌, ◌∷◌, ◌++◌, [], codes, length, IfOk, IfSome, true, false};
ghost use Rattle.std.specs.Option.{option_map};
ghost use Rattle.std.specs.List.{AllByRecursion};
ghost use Rattle.line_io.specs.Out.{with};
ghost use Rattle.chess_board.specs.Text.{IsOfficer};
ghost use Rattle.chess_board.specs.Place.{legal};
ghost use Rattle.game_record.specs.Game.{game_from, ply_of, plies_of, with_ply};
ghost use Rattle.driver_state_machine.specs.Lines.{SetBoard, driver_line_text, lines_text};
ghost use Rattle.cecp_driver.specs.SetUp.{continued, start_lines, setup_lines, set_up, sent_with_limit, sent_after_ply, sent_without_game, no_game_sent};
ghost use Rattle.cecp_driver.specs.declared.sent_game.TheConstants.{SETUP, MOST_SENT, MOST_PLIES};

use crate::further::further_moves;
use crate::played::write_played;
use crate::same::is_same_position;
use chess_board::{Move, Position};
use driver_state_machine::write_word;
use fen_text::write_fen;
use game_record::Game;
use line_io::{NoMemory, Out};
use std::alloc::Global;
use std::marker::Model;

/// The longest game that is searched, in moves of both sides.
pub(crate) const MOST_PLIES: usize = 6_000;

/// The room for the moves that the engine was given: a game, and the engine's move.
pub(crate) const MOST_SENT: usize = MOST_PLIES + 1;

/// The most bytes of a set-up.
pub(crate) const SETUP: usize = 90_200;

/// The setup that the engine was given: a game, and perhaps a depth limit.
#[derive(Drop)]
pub(crate) struct SentGame {
    is_known: bool,
    is_limited: bool,
    start: Position,
    moves: Vec<Move>,
}

impl Model for SentGame {
    ghost use Rattle.std.specs.Prelude.{◌≤◌, vec_capacity};
    ghost use Rattle.game_record.specs.Game.{Game as AnyGame, plies_of};
    ghost use Rattle.cecp_driver.specs.SetUp.{SentGame as Seen};
    ghost use Rattle.cecp_driver.specs.declared.sent_game.TheConstants.{MOST_SENT};

    ghost Value = { Seen };

    ghost view = { λ t. record {
      known = t.is_known;
      limited = t.is_limited;
      game = record { start = t.start; moves = plies_of t.moves.items };
    } };

    ghost invariant = { λ t. MOST_SENT ≤ vec_capacity t.moves };
}

/// Writes a position that is set up.
fn write_position(p: &Position, out: &mut Out)
    requires room { length out.old.text + 106 ≤ out.old.room }
    ensures text { out.new ≡ with out.old (driver_line_text (SetBoard p.now)) }
    ensures short { length out.new.text ≤ length out.old.text + 106 }
{
    out.put(b"setboard ");
    out.put(write_fen(p).as_slice());
    out.put(b"\n");
}

/// Writes the start of a game that is not the standard one.
fn write_start(start: &Position, out: &mut Out)
    requires room { length out.old.text + 106 ≤ out.old.room }
    ensures text { out.new ≡ with out.old (lines_text (start_lines start.now)) }
    ensures short { length out.new.text ≤ length out.old.text + 106 }
{
    if start.is_standard() {
        return;
    }
    write_position(start, out);
}

/// Sets up a game: its further moves, if they are given, or all of it.
fn write_setup(further: Option<&[Move]>, game: &Game, has_usermove: bool, out: &mut Out)
    requires few { length game.now.moves ≤ MOST_PLIES }
    requires further { IfSome further (λ r. (length r.now ≤ MOST_PLIES)
        × AllByRecursion (λ m. IsOfficer m.promotion) (plies_of r.now)) }
    requires room { length out.old.text + SETUP ≤ out.old.room }
    ensures text { out.new
        ≡ with out.old (lines_text (setup_lines
        (option_map (λ r. plies_of r.now) further.entry) has_usermove game.now)) }
    ensures short { length out.new.text ≤ length out.old.text + SETUP }
{
    match further {
        Some(moves) => {
            write_word(b"force", out);
            write_played(moves, has_usermove, out);
        }
        None => {
            write_word(b"new", out);
            write_word(b"force", out);
            write_word(b"post", out);
            write_start(game.start(), out);
            write_played(game.moves(), has_usermove, out);
        }
    }
}

impl SentGame {
    /// Nothing was written yet.
    pub(crate) fn make(alloc: Global) -> Result<SentGame, NoMemory>
        ensures { IfOk result (λ sent_game. sent_game ≡ no_game_sent) }
    {
        let moves = Vec::with_capacity(alloc, MOST_SENT)?;
        Ok(SentGame {
            is_known: false,
            is_limited: false,
            start: Position::start(),
            moves,
        })
    }

    /// The moves by which a game goes on from what the engine was given. None if it has to be set up anew.
    fn continued<'g>(&self, game: &'g Game, has_depth: bool) -> Option<&'g [Move]>
        ensures value { option_map (λ r. plies_of r.now) result
            ≡ continued self.now game.now has_depth }
        ensures few { IfSome result (λ r. length r.now ≤ length game.now.moves) }
        ensures officers { IfSome result (λ r. AllByRecursion (λ m. IsOfficer m.promotion)
            (plies_of r.now)) }
    {
        if self.is_known
            && !(self.is_limited && !has_depth)
            && is_same_position(&self.start, game.start())
        {
            further_moves(self.moves.as_slice(), game.moves())
        } else {
            None
        }
    }

    /// The game was set up.
    fn keep(&mut self, game: &Game, is_limited: bool)
        requires few { length game.now.moves ≤ MOST_PLIES }
        ensures { self.new ≡ record { known = true; limited = is_limited; game = game.now } }
    {
        self.is_known = true;
        self.is_limited = is_limited;
        self.start = *game.start();
        self.moves.clear();
        let _ = self.moves.extend_from_slice(game.moves());
    }

    /// Sets up a game for a search, with a depth limit or not.
    pub(crate) fn set_up(&mut self, game: &Game, has_usermove: bool, has_depth: bool, out: &mut Out)
        requires few { length game.now.moves ≤ MOST_PLIES }
        requires room { length out.old.text + SETUP ≤ out.old.room }
        ensures text { out.new
            ≡ with out.old (lines_text (setup_lines
            (continued self.old game.now has_depth) has_usermove game.now)) }
        ensures short { length out.new.text ≤ length out.old.text + SETUP }
        ensures sent_game { self.new ≡ set_up self.old game.now has_depth }
    {
        let further = self.continued(game, has_depth);
        let is_limited = further.is_some() && self.is_limited;
        write_setup(further, game, has_usermove, out);
        self.keep(game, is_limited);
    }

    /// A depth limit was set, or none.
    pub(crate) fn limit(&mut self, has_depth: bool)
        ensures { self.new ≡ sent_with_limit self.old has_depth }
    {
        self.is_limited = self.is_limited || has_depth;
    }

    /// The engine played a move.
    pub(crate) fn push(&mut self, m: Move)
        requires { length self.old.game.moves ≤ MOST_PLIES }
        ensures { self.new ≡ sent_after_ply self.old (ply_of m) }
    {
        self.moves.push_reserved(m);
    }

    /// Nothing is known any more.
    pub(crate) fn lose(&mut self)
        ensures { self.new ≡ sent_without_game self.old }
    {
        self.is_known = false;
    }
}
