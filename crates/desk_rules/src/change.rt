// The changes that accepted lines of the interface make.
ghost use Rattle.std.specs.Prelude.{◌≡◌, ◌<◌, ◌≤◌, length, None};
ghost use Rattle.chess_board.specs.Play.{start_position};
ghost use Rattle.cecp_lines.specs.Messages.{message_of};
ghost use Rattle.cecp_lines.specs.Reading.{CanBeRead};
ghost use Rattle.game_record.specs.Game.{ply_of, game_from, with_ply, without_last, current_position, IsPlayablePly};
ghost use Rattle.clock_map.specs.Clocks.{after_new};
ghost use Rattle.desk_rules.specs.Desk.{opponent_of};
ghost use Rattle.desk_rules.specs.Lines.{new_mode, with_game, position_set_up, change, clears_scores};
ghost use Rattle.desk_rules.specs.Fits.{CanChange};
ghost use Rattle.game_record.specs.declared.game.TheConstants.{MOST_PLIES};

use crate::call::on_move;
use crate::{Desk, Mode};
use cecp_lines::IfaceMsg;
use chess_board::{Move, Position, Side};
use game_record::Game;

/// True if an accepted line clears the scores of shown moves.
pub(crate) fn clears_scores(message: &IfaceMsg) -> bool
    ensures { result ≡ clears_scores (message_of message.now) }
{
    matches!(
        message,
        IfaceMsg::New
            | IfaceMsg::Go
            | IfaceMsg::PlayOther
            | IfaceMsg::Undo
            | IfaceMsg::Remove
            | IfaceMsg::SetBoard(_)
    )
}

fn other(side: Side) -> Side
    ensures { result ≡ opponent_of side }
{
    match side {
        Side::White => Side::Black,
        Side::Black => Side::White,
    }
}

fn new_mode(mode: Mode) -> Mode
    ensures { result ≡ new_mode mode }
{
    match mode {
        Mode::Analyse => Mode::Analyse,
        _ => Mode::Plays(Side::Black),
    }
}

// Takes moves back that were played.
fn take_back(game: &mut Game, n: u32)
    requires { n ≤ length game.old.moves }
    ensures { game.new ≡ without_last game.old n }
{
    let _ = game.undo(n);
}

impl Desk {
    fn enter(&mut self, m: Move)
        requires legal { IsPlayablePly (current_position self.old.game) (ply_of m) }
        requires room { length self.old.game.moves < MOST_PLIES }
        ensures { self.new ≡ with_game self.old (with_ply self.old.game (ply_of m)) }
    {
        self.game.play(m);
        self.hint = None;
    }

    fn undo(&mut self, n: u32)
        requires { n ≤ length self.old.game.moves }
        ensures { self.new ≡ with_game self.old (without_last self.old.game n) }
    {
        take_back(&mut self.game, n);
        self.hint = None;
    }

    fn set_board(&mut self, start: Position)
        ensures { self.new ≡ with_game self.old (game_from start) }
    {
        self.game.reset(start);
        self.hint = None;
    }

    fn begin_game(&mut self)
        ensures { self.new
            ≡ record self.old {
              game = game_from start_position;
              hint = None;
              mode = new_mode self.old.mode;
              clocks = after_new self.old.clocks;
            } }
    {
        self.game.reset(Position::start());
        self.hint = None;
        self.mode = new_mode(self.mode);
        self.clocks.reset();
    }

    // Changes the desk as an accepted line commands; `start` is the position that it sets up.
    #[tactic(auto, unfolding(crate::specs::Lines::change), using(crate::proofs::Starts::placed, crate::proofs::Starts::not_placed))]
    pub(crate) fn change(&mut self, boot: bool, message: &IfaceMsg, start: Option<Position>)
        requires start { start ≡ position_set_up (message_of message.now) }
        requires change { CanChange self.old (message_of message.now) }
        requires read { CanBeRead (message_of message.now) }
        ensures { self.new ≡ change boot self.old (message_of message.now) }
    {
        match message {
            IfaceMsg::Protover(_) => {
                self.due.protover(boot);
            }
            IfaceMsg::New => self.begin_game(),
            IfaceMsg::Force | IfaceMsg::Exit => self.mode = Mode::Force,
            IfaceMsg::Go => self.mode = Mode::Plays(on_move(&self.game)),
            IfaceMsg::PlayOther => self.mode = Mode::Plays(other(on_move(&self.game))),
            IfaceMsg::UserMove(m) => self.enter(*m),
            IfaceMsg::Undo => self.undo(1),
            IfaceMsg::Remove => self.undo(2),
            IfaceMsg::SetBoard(_) => {
                if let Some(start) = start {
                    self.set_board(start);
                }
            }
            IfaceMsg::Analyze => self.mode = Mode::Analyse,
            IfaceMsg::Result => self.mode = Mode::Over,
            IfaceMsg::Hard => self.pondering = true,
            IfaceMsg::Easy => self.pondering = false,
            IfaceMsg::Level { .. }
            | IfaceMsg::St(_)
            | IfaceMsg::Sd(_)
            | IfaceMsg::Time(_)
            | IfaceMsg::Otim(_) => self.clocks.set(message),
            IfaceMsg::Post => self.post = true,
            IfaceMsg::NoPost => self.post = false,
            IfaceMsg::Ping(n) => self.pings.add(*n),
            _ => {}
        }
    }
}
