// The lines of an action.
ghost use Rattle.std.specs.Prelude.{◌≡◌, ◌+◌, ◌≤◌, ◌∷◌, ◌++◌, [], length, not};
ghost use Rattle.line_io.specs.Out.{with};
ghost use Rattle.game_record.specs.Game.{ply_of};
ghost use Rattle.driver_state_machine.specs.Lines.{driver_line_text, lines_text};
ghost use Rattle.cecp_driver.specs.SetUp.{sent_with_limit, set_up, continued, setup_lines, sent_after_ply, sent_without_game};
ghost use Rattle.cecp_driver.specs.Actions.{has_depth, up_text, CanSay, down_lines, FitsDown, sent_after_line, move_now_lines, leave_lines, sent_after_board, CanPush, play_lines, think_lines, analyse_lines};
ghost use Rattle.cecp_driver.specs.declared.sent_game.TheConstants.{SETUP, MOST_PLIES};
ghost use Rattle.cecp_driver.specs.declared.actions.TheConstants.{STEP};

use crate::sent_game::SentGame;
use driver_state_machine::{
    BoardChange, GoClocks, ToEngine, ToIface, write_best, write_clocks, write_info, write_numbered,
    write_word,
};
use game_record::Game;
use line_io::Out;

/// The most bytes of a step, besides the answers to features.
pub(crate) const STEP: usize = 90_500;

fn has_depth(clocks: &GoClocks) -> bool
    ensures { result ≡ has_depth clocks.now }
{
    clocks.depth != 0
}

/// Writes what is passed up.
pub(crate) fn write_up(up: ToIface, out: &mut Out)
    requires say { CanSay up }
    requires room { length out.old.text + 160 ≤ out.old.room }
    ensures { out.new ≡ with out.old (up_text up) }
{
    match up {
        ToIface::Nothing => {}
        ToIface::Ready => write_word(b"readyok", out),
        ToIface::Best(best) => write_best(best, out),
        ToIface::Info(thought) => write_info(&thought, out),
    }
}

fn write_move_now(at_once: bool, out: &mut Out)
    requires room { length out.old.text + 2 ≤ out.old.room }
    ensures { out.new ≡ with out.old (lines_text (move_now_lines at_once)) }
{
    if at_once {
        write_word(b"?", out);
    }
}

fn write_leave(ping: Option<u32>, out: &mut Out)
    requires room { length out.old.text + 40 ≤ out.old.room }
    ensures { out.new ≡ with out.old (lines_text (leave_lines ping)) }
{
    if let Some(n) = ping {
        write_word(b"exit", out);
        write_numbered(b"ping ", u64::from(n), out);
    }
}

fn write_ping(n: u32, out: &mut Out)
    requires room { length out.old.text + 26 ≤ out.old.room }
    ensures text { out.new ≡ with out.old (driver_line_text (Ping n)) }
    ensures short { length out.new.text ≤ length out.old.text + 26 }
{
    write_numbered(b"ping ", u64::from(n), out);
}

fn write_retreat(ping: u32, out: &mut Out)
    requires room { length out.old.text + 40 ≤ out.old.room }
    ensures { out.new ≡ with out.old (lines_text (Force ∷ Ping ping ∷ [])) }
{
    write_word(b"force", out);
    write_ping(ping, out);
}

fn write_greeting(out: &mut Out)
    requires room { length out.old.text + 40 ≤ out.old.room }
    ensures { out.new ≡ with out.old (lines_text (XBoard ∷ Protover ∷ [])) }
{
    write_word(b"xboard", out);
    write_word(b"protover 2", out);
}

/// Has the engine think.
fn write_think(
    clocks: &GoClocks,
    at_once: bool,
    sent_game: &mut SentGame,
    game: &Game,
    out: &mut Out,
)
    requires room { length out.old.text + 210 ≤ out.old.room }
    ensures text { out.new ≡ with out.old (lines_text (think_lines game.now clocks.now at_once)) }
    ensures sent_game { sent_game.new ≡ sent_with_limit sent_game.old (has_depth clocks.now) }
{
    write_clocks(game.now().side(), clocks, out);
    write_word(b"go", out);
    write_move_now(at_once, out);
    sent_game.limit(has_depth(clocks));
}

/// The position is set up, and the engine is to think.
fn write_play(
    clocks: &GoClocks,
    at_once: bool,
    sent_game: &mut SentGame,
    game: &Game,
    has_usermove: bool,
    out: &mut Out,
)
    requires few { length game.now.moves ≤ MOST_PLIES }
    requires room { length out.old.text + STEP ≤ out.old.room }
    ensures text { out.new
        ≡ with out.old (lines_text (play_lines sent_game.old game.now has_usermove clocks.now
        at_once)) }
    ensures sent_game { sent_game.new
        ≡ sent_with_limit (set_up sent_game.old game.now (has_depth clocks.now)) (has_depth
        clocks.now) }
{
    sent_game.set_up(game, has_usermove, has_depth(clocks), out);
    write_think(clocks, at_once, sent_game, game, out);
}

/// The position is set up, and the engine is to analyse.
fn write_analyse(
    clocks: &GoClocks,
    ping: Option<u32>,
    sent_game: &mut SentGame,
    game: &Game,
    has_usermove: bool,
    out: &mut Out,
)
    requires few { length game.now.moves ≤ MOST_PLIES }
    requires room { length out.old.text + STEP ≤ out.old.room }
    ensures text { out.new
        ≡ with out.old (lines_text (analyse_lines sent_game.old game.now has_usermove clocks.now
        ping)) }
    ensures sent_game { sent_game.new ≡ set_up sent_game.old game.now (has_depth clocks.now) }
{
    sent_game.set_up(game, has_usermove, has_depth(clocks), out);
    write_word(b"analyze", out);
    write_leave(ping, out);
}

/// Writes what is written to the engine.
pub(crate) fn write_down(
    down: ToEngine,
    sent_game: &mut SentGame,
    game: &Game,
    has_usermove: bool,
    out: &mut Out,
)
    requires fits { FitsDown game.now down }
    requires room { length out.old.text + STEP ≤ out.old.room }
    ensures text { out.new ≡ with out.old (lines_text
        (down_lines sent_game.old game.now has_usermove down)) }
    ensures sent_game { sent_game.new ≡ sent_after_line game.now down sent_game.old }
{
    match down {
        ToEngine::Nothing => {}
        ToEngine::Greeting => write_greeting(out),
        ToEngine::Quit => write_word(b"quit", out),
        ToEngine::Play { clocks, at_once } => {
            write_play(&clocks, at_once, sent_game, game, has_usermove, out)
        }
        ToEngine::Resume { clocks } => write_think(&clocks, false, sent_game, game, out),
        ToEngine::Analyse { clocks, ping } => {
            write_analyse(&clocks, ping, sent_game, game, has_usermove, out)
        }
        ToEngine::OrderMoveNow => write_move_now(true, out),
        ToEngine::Leave { ping } => write_leave(Some(ping), out),
        ToEngine::Retreat { ping } => write_retreat(ping, out),
    }
}

/// The knowledge of the engine's game then.
pub(crate) fn note_board(board: BoardChange, sent_game: &mut SentGame)
    requires { CanPush board sent_game.old }
    ensures { sent_game.new ≡ sent_after_board board sent_game.old }
{
    match board {
        BoardChange::Same => {}
        BoardChange::Moved(m) => sent_game.push(m),
        BoardChange::Lost => sent_game.lose(),
    }
}

ghost use Rattle.driver_state_machine.specs.Lines.{Force, Ping, XBoard, Protover};
