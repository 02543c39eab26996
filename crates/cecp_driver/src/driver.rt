// The driver.
ghost use Rattle.std.specs.Prelude.{◌≡◌, ◌+◌, ◌*◌, ◌≤◌, length, IfOk, MatchOption};
ghost use Rattle.std.specs.Borrow.{sem};
ghost use Rattle.line_io.specs.Out.{empty, with};
ghost use Rattle.driver_state_machine.specs.DriverState.{driver_turn_of, is_free};
ghost use Rattle.driver_state_machine.specs.Says.{engine_message_seen, Report, Feature};
ghost use Rattle.protocol_tokens.specs.Tokens.{tokens};
ghost use Rattle.cecp_driver.specs.Driver.{driver_without_lines, driver_after_turn, driver_after_call, opening_driver, TurnCanBeWritten, CanAct, reach_of, Wants, driver_after_position, GoIsAsked, EngineLineIsHeard, driver_after_features, HeardBy, IsPlain};
ghost use Rattle.cecp_driver.specs.declared.driver.TheConstants.{LINE_LIMIT, UP_ROOM, DOWN_ROOM};

use crate::actions::{note_board, write_down, write_up};
use crate::features::{HasFeatures, hear_features};
use crate::ordered::take_position;
use crate::sent_game::{MOST_PLIES, SentGame};
use driver_state_machine::{
    DriverCall, DriverStage, DriverState, DriverTurn, EngineSaid, OrderWord, Reach, Thought,
    WantedSearch, first_move, read_clocks, read_ordered, read_said, shown_move, thought_move,
};
use game_record::Game;
use line_io::{NoMemory, Out, PEER_LINE, SCRIPT_LINE};
use std::alloc::Global;
use std::marker::Model;
use uci_interface_lines::go_kind;

/// The most bytes of a line.
pub const LINE_LIMIT: usize = PEER_LINE;

/// The most bytes of the lines that a call gives for the interface: the engine's name and `uciok`.
pub const UP_ROOM: usize = PEER_LINE + 1_024;

/// The most bytes of the lines that a call gives for the engine: the answers to a line of features.
pub const DOWN_ROOM: usize = 3 * SCRIPT_LINE;

// The parts of a driver.
#[derive(Drop)]
pub(crate) struct DriverParts {
    talk: DriverState,
    has: HasFeatures,
    /// The engine's name for itself.
    name: Out,
    is_ordered: bool,
    /// The ordered game, a new one if none is ordered.
    game: Game,
    sent_game: SentGame,
    up: Out,
    down: Out,
}

impl DriverParts {
    fn clear(&mut self)
        ensures { self.new ≡ driver_without_lines self.old }
    {
        self.up.clear();
        self.down.clear();
    }

    // Gives the lines of a turn.
    fn take(&mut self, turn: DriverTurn)
        requires { TurnCanBeWritten self.old turn }
        ensures { self.new ≡ driver_after_turn self.old turn }
    {
        let action = turn.action;
        write_up(action.up, &mut self.up);
        write_down(
            action.down,
            &mut self.sent_game,
            &self.game,
            self.has.usermove,
            &mut self.down,
        );
        note_board(action.board, &mut self.sent_game);
        self.talk = turn.talk;
    }

    // The effect of a call.
    fn act(&mut self, call: DriverCall)
        requires { CanAct self.old call }
        ensures { self.new ≡ driver_after_call self.old call }
    {
        let turn = self.talk.step(call);
        self.take(turn);
    }

    // The reach of the engine for a `go`.
    fn reach(&self) -> Reach
        ensures { result ≡ reach_of self.now }
    {
        let is_short = self.is_ordered && self.game.plies() as usize <= MOST_PLIES;
        if !(is_short && (self.has.ping && self.has.setboard)) {
            Reach::Nothing
        } else if self.has.analyze {
            Reach::Analyse
        } else {
            Reach::Play
        }
    }

    // The search of a `go`.
    fn wanted(&self, line: &[u8]) -> WantedSearch
        ensures { Wants self.now line.now result }
    {
        WantedSearch {
            kind: go_kind(line),
            clocks: read_clocks(line),
            first: first_move(self.game.now()),
            reach: self.reach(),
        }
    }

    // Takes a position, if one is accepted.
    fn place(&mut self, line: &[u8])
        ensures { self.new ≡ driver_after_position self.old line.now }
    {
        if self.talk.is_free() {
            self.is_ordered = take_position(line, &mut self.game);
        }
    }

    // The call of an order, besides a position.
    fn asked(&self, ordered: OrderWord, line: &[u8]) -> DriverCall
        ensures { GoIsAsked self.now line.now ordered result }
    {
        match ordered {
            OrderWord::Quit => DriverCall::Quit,
            OrderWord::Uci => DriverCall::Uci,
            OrderWord::IsReady => DriverCall::IsReady,
            OrderWord::Go => DriverCall::Go(self.wanted(line)),
            OrderWord::Stop => DriverCall::Stop,
            OrderWord::PonderHit => DriverCall::PonderHit,
            OrderWord::Position | OrderWord::Other => DriverCall::Other,
        }
    }

    // The engine's report on a move.
    fn thought(&self, depth: u64, score: i64, time: u64, nodes: u64, moves: &[u8]) -> DriverCall
        ensures { EngineLineIsHeard self.now (Report depth score time nodes (tokens moves.now))
            result }
    {
        match thought_move(self.game.now(), moves) {
            Some(best) => DriverCall::Thought(Thought {
                depth,
                score,
                time,
                nodes,
                best,
            }),
            None => DriverCall::Other,
        }
    }

    // The meaning of a line of the engine, besides features.
    fn said(&self, said: &EngineSaid) -> DriverCall
        ensures { EngineLineIsHeard self.now (engine_message_seen said.now) result }
    {
        match said {
            EngineSaid::Move(text) => DriverCall::Moved(shown_move(self.game.now(), text)),
            EngineSaid::Over => DriverCall::Resigned,
            EngineSaid::Pong(n) => DriverCall::Pong(*n),
            EngineSaid::Report {
                depth,
                score,
                time,
                nodes,
                moves,
            } => self.thought(*depth, *score, *time, *nodes, moves),
            EngineSaid::Feature(_) | EngineSaid::Other => DriverCall::Other,
        }
    }

    // Hears the features of the engine, before `quit`.
    fn hear_features(&mut self, text: &[u8])
        requires name { length text.now ≤ self.old.name.room }
        requires up { length self.old.up.text + self.old.name.room + 30 ≤ self.old.up.room }
        requires down { length self.old.down.text + 6 * length text.now ≤ self.old.down.room }
        ensures { self.new ≡ driver_after_features self.old text.now }
    {
        if matches!(self.talk.stage, DriverStage::Over) {
            return;
        }
        self.has = hear_features(text, self.has, &mut self.name, &mut self.up, &mut self.down);
    }
}

impl DriverParts {
    ghost use Rattle.cecp_driver.specs.Driver.{Orders, DriverHears, EngineEndGives, placed_if};
    ghost use Rattle.cecp_driver.specs.DriverInvariant.{DriverInvariant};

    fn place_if(&mut self, ordered: OrderWord, line: &[u8])
        ensures { self.new ≡ placed_if ordered self.old line.now }
    {
        if let OrderWord::Position = ordered {
            self.place(line);
        }
    }

    fn order(&mut self, line: &[u8])
        requires { DriverInvariant self.old }
        ensures orders { Orders line.now self.old self.new }
        ensures keeps { DriverInvariant self.new }
    {
        self.clear();
        let ordered = read_ordered(line);
        self.place_if(ordered, line);
        let call = self.asked(ordered, line);
        self.act(call);
    }

    // Takes what the engine says, besides features.
    fn hear_plain(&mut self, said: &EngineSaid)
        requires keeps { DriverInvariant self.old }
        requires up { length self.old.up.text ≡ 0 }
        requires down { length self.old.down.text ≡ 0 }
        requires plain { IsPlain (engine_message_seen said.now) }
        ensures heard { HeardBy (engine_message_seen said.now) self.old self.new }
        ensures keeps { DriverInvariant self.new }
    {
        let call = self.said(said);
        self.act(call);
    }

    fn hear(&mut self, line: &[u8])
        requires keeps { DriverInvariant self.old }
        requires short { length line.now ≤ LINE_LIMIT }
        ensures hears { DriverHears line.now self.old self.new }
        ensures keeps { DriverInvariant self.new }
    {
        self.clear();
        let said = read_said(line);
        match feature_text(&said) {
            Some(text) => self.hear_features(text),
            None => self.hear_plain(&said),
        }
    }

    fn end(&mut self)
        requires { DriverInvariant self.old }
        ensures ends { EngineEndGives self.old self.new }
        ensures keeps { DriverInvariant self.new }
    {
        self.clear();
        self.act(DriverCall::Ended);
    }
}

/// The features that a line of the engine has, if it is such a line.
fn feature_text<'a>(said: &EngineSaid<'a>) -> Option<&'a [u8]>
    ensures { MatchOption result (IsPlain (engine_message_seen said.now))
        (λ text. engine_message_seen said.now ≡ Feature text.now) }
{
    match said {
        EngineSaid::Feature(text) => Some(text),
        EngineSaid::Move(_) | EngineSaid::Over | EngineSaid::Pong(_) | EngineSaid::Other => None,
        EngineSaid::Report {
            depth: _,
            score: _,
            time: _,
            nodes: _,
            moves: _,
        } => None,
    }
}

/// A driver between a UCI interface and a CECP engine.
#[derive(Drop)]
pub struct Driver {
    parts: DriverParts,
}

impl Model for Driver {
    ghost use Rattle.cecp_driver.specs.declared.driver.DriverParts.{DriverParts};
    ghost use Rattle.cecp_driver.specs.DriverInvariant.{DriverInvariant};

    ghost Value = { DriverParts };

    ghost view = { λ d. d.parts };

    ghost invariant = { λ d. DriverInvariant d.parts };
}

/// The output of a call: whole lines for the interface, and for the engine.
#[derive(Clone, Copy)]
pub struct DriverStep<'a> {
    pub up: &'a [u8],
    pub child: &'a [u8],
}

fn make_parts(alloc: Global) -> Result<DriverParts, NoMemory>
    ensures { IfOk result (λ parts. parts ≡ opening_driver) }
{
    let name = Out::make(alloc, LINE_LIMIT)?;
    let up = Out::make(alloc, UP_ROOM)?;
    let down = Out::make(alloc, DOWN_ROOM)?;
    let game = Game::make(alloc)?;
    let sent_game = SentGame::make(alloc)?;
    Ok(DriverParts {
        talk: DriverState::new(),
        has: HasFeatures {
            ping: false,
            setboard: false,
            usermove: false,
            analyze: false,
            done: false,
        },
        name,
        is_ordered: false,
        game,
        sent_game,
        up,
        down,
    })
}

impl Driver {
    ghost use Rattle.cecp_driver.specs.Driver.{Orders, DriverHears, EngineEndGives};
    ghost use Rattle.cecp_driver.specs.Lending.{GivesLines, FitsRoom, OrdersOn, HearsOn, EndsOn};

    /// A driver before the first call. It takes all memory that it ever uses.
    pub fn make(alloc: Global) -> Result<Driver, NoMemory>
        ensures { IfOk result (λ driver. driver ≡ opening_driver) }
    {
        let parts = make_parts(alloc)?;
        Ok(Driver { parts })
    }

    /// Takes an order of the interface: a line of at most 65,536 bytes, without its line feed.
    pub fn order<'a>(&'a mut self, line: &[u8]) -> DriverStep<'a>
        ensures* orders { sem 𝓛 (OrdersOn self.entry line.now result) }
        ensures fits { FitsRoom result }
    {
        self.take_order(line);
        self.lines()
    }

    /// Takes a line of the engine, of at most 65,536 bytes, without its line feed.
    pub fn heard<'a>(&'a mut self, line: &[u8]) -> DriverStep<'a>
        requires { length line.now ≤ LINE_LIMIT }
        ensures* hears { sem 𝓛 (HearsOn self.entry line.now result) }
        ensures fits { FitsRoom result }
    {
        self.take_line(line);
        self.lines()
    }

    /// Takes the end of the engine.
    pub fn ended(&mut self) -> DriverStep<'_>
        ensures* ends { sem 𝓛 (EndsOn self.entry result) }
        ensures fits { FitsRoom result }
    {
        self.take_end();
        self.lines()
    }

    pub(crate) fn take_order(&mut self, line: &[u8])
        ensures { Orders line.now self.old self.new }
    {
        self.parts.order(line);
    }

    pub(crate) fn take_line(&mut self, line: &[u8])
        requires { length line.now ≤ LINE_LIMIT }
        ensures { DriverHears line.now self.old self.new }
    {
        self.parts.hear(line);
    }

    pub(crate) fn take_end(&mut self)
        ensures { EngineEndGives self.old self.new }
    {
        self.parts.end();
    }

    pub(crate) fn is_gone(&self) -> bool
        ensures { result ≡ self.now.talk.gone }
    {
        self.parts.talk.gone
    }

    /// The output of the last call.
    pub fn lines(&self) -> DriverStep<'_>
        ensures gives { GivesLines self.now result }
        ensures fits { FitsRoom result }
    {
        DriverStep {
            up: self.parts.up.bytes(),
            child: self.parts.down.bytes(),
        }
    }
}
