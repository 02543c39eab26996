// The dialogue of a session.
ghost use Rattle.std.specs.Prelude.{◌≡◌, ◌≤◌, ◌+◌, ◌∷◌, List};
ghost use Rattle.line_io.specs.Event.{Event as AnyEvent, Open};
ghost use Rattle.chess_board.specs.Text.{IsOfficer};
ghost use Rattle.adapter_core.specs.Ends.{at_start};
ghost use Rattle.random_games.specs.Rounds.{Misses, answer, answer_with, closing_events, entry, greeting_events, late_answer, new_game, preparation, thinking_event};
ghost use Rattle.random_games.specs.Sent.{DrillHasRoom, DrillSends, Sent, both_sides_open};

use crate::lines::{answer_with, line_with};
use crate::session::DrillSession;
use chess_board::{Move, equal_moves};
use line_io::Event;

const NO_MOVE: &[u8] = b"bestmove 0000";

impl DrillSession {
    /// Opens the session, up to the engine's first `readyok`.
    pub fn greet(&mut self)
        requires start { self.old.core.ends ≡ at_start }
        requires room { DrillHasRoom 7 self.old }
        ensures sent { Sent self.old self.new (Open ∷ greeting_events) }
        ensures talking { self.new.core.ends ≡ both_sides_open }
        ensures few { self.new.tally.steps ≤ self.old.tally.steps + 7 }
    {
        self.send(&Event::Open);
        self.iface(b"xboard");
        self.iface(b"protover 2");
        self.engine(b"id name Drill");
        self.engine(b"option name Ponder type check default false");
        self.engine(b"uciok");
        self.engine(b"readyok");
    }

    /// Begins the first game, with thinking shown and the engine pondering.
    pub fn prepare(&mut self)
        requires talking { self.old.core.ends ≡ both_sides_open }
        requires room { DrillHasRoom 5 self.old }
        ensures sent { Sent self.old self.new preparation }
        ensures talking { self.new.core.ends ≡ both_sides_open }
        ensures few { self.new.tally.steps ≤ self.old.tally.steps + 5 }
    {
        self.iface(b"new");
        self.engine(b"readyok");
        self.iface(b"post");
        self.iface(b"hard");
        self.engine(b"readyok");
    }

    // Answers a ponder search that is over.
    fn lapse(&mut self, hint: Option<Move>)
        requires talking { self.old.core.ends ≡ both_sides_open }
        requires room { DrillHasRoom 1 self.old }
        ensures sent { Sent self.old self.new (late_answer hint) }
        ensures talking { self.new.core.ends ≡ both_sides_open }
        ensures few { self.new.tally.steps ≤ self.old.tally.steps + 1 }
    {
        if hint.is_none() {
            return;
        }
        self.engine(NO_MOVE);
    }

    /// Begins a new game; the engine may ponder on a hint.
    pub fn begin_game(&mut self, hint: Option<Move>)
        requires talking { self.old.core.ends ≡ both_sides_open }
        requires room { DrillHasRoom 3 self.old }
        ensures sent { Sent self.old self.new (new_game hint) }
        ensures talking { self.new.core.ends ≡ both_sides_open }
        ensures few { self.new.tally.steps ≤ self.old.tally.steps + 3 }
    {
        self.iface(b"new");
        self.lapse(hint);
        self.engine(b"readyok");
    }

    /// Enters a move of the user.
    pub fn enter(&mut self, m: Move)
        requires officer { IsOfficer m.promotion }
        requires talking { self.old.core.ends ≡ both_sides_open }
        requires room { DrillHasRoom 3 self.old }
        ensures sent { Sent self.old self.new (entry m) }
        ensures talking { self.new.core.ends ≡ both_sides_open }
        ensures few { self.new.tally.steps ≤ self.old.tally.steps + 3 }
    {
        self.iface(b"time 30000");
        self.iface(b"otim 30000");
        self.iface(line_with(b"usermove ", m).as_slice());
    }

    /// Answers the ponder search of another move than the one that was entered.
    pub fn miss(&mut self, hint: Option<Move>, m: Move)
        requires talking { self.old.core.ends ≡ both_sides_open }
        requires room { DrillHasRoom 1 self.old }
        ensures sent { (es : List AnyEvent) × Misses hint m es × Sent self.old self.new es }
        ensures talking { self.new.core.ends ≡ both_sides_open }
        ensures few { self.new.tally.steps ≤ self.old.tally.steps + 1 }
    {
        let Some(hint) = hint else { return };
        if equal_moves(hint, m) {
            return;
        }
        self.engine(NO_MOVE);
    }

    // Reports what the engine thinks of.
    fn think(&mut self, m: Move)
        requires officer { IsOfficer m.promotion }
        requires talking { self.old.core.ends ≡ both_sides_open }
        requires room { DrillHasRoom 1 self.old }
        ensures sends { DrillSends self.old self.new (thinking_event m) }
        ensures talking { self.new.core.ends ≡ both_sides_open }
        ensures few { self.new.tally.steps ≤ self.old.tally.steps + 1 }
    {
        self.engine(line_with(b"info depth 1 score cp 0 time 1 nodes 1 pv ", m).as_slice());
    }

    /// Answers a search with a move.
    pub fn answer(&mut self, m: Move)
        requires officer { IsOfficer m.promotion }
        requires talking { self.old.core.ends ≡ both_sides_open }
        requires room { DrillHasRoom 2 self.old }
        ensures sent { Sent self.old self.new (answer m) }
        ensures talking { self.new.core.ends ≡ both_sides_open }
        ensures few { self.new.tally.steps ≤ self.old.tally.steps + 2 }
    {
        self.think(m);
        self.engine(line_with(b"bestmove ", m).as_slice());
    }

    /// Answers a search with a move and a hint.
    pub fn answer_with(&mut self, m: Move, hint: Move)
        requires officer { IsOfficer m.promotion }
        requires hint { IsOfficer hint.promotion }
        requires talking { self.old.core.ends ≡ both_sides_open }
        requires room { DrillHasRoom 2 self.old }
        ensures sent { Sent self.old self.new (answer_with m hint) }
        ensures talking { self.new.core.ends ≡ both_sides_open }
        ensures few { self.new.tally.steps ≤ self.old.tally.steps + 2 }
    {
        self.think(m);
        self.engine(answer_with(m, hint).as_slice());
    }

    /// Ends the session.
    pub fn close(&mut self)
        requires talking { self.old.core.ends ≡ both_sides_open }
        requires room { DrillHasRoom 2 self.old }
        ensures sent { Sent self.old self.new closing_events }
    {
        self.send(&Event::Iface(b"quit"));
        self.send(&Event::EngineEnd);
    }
}
