// The export of a session: its games.
ghost use Rattle.std.specs.Prelude.{◌≡◌, ◌+◌, ◌≤◌, length};
ghost use Rattle.line_io.specs.Event.{event_of};
ghost use Rattle.line_io.specs.Out.{with};
ghost use Rattle.san_text.specs.declared.game.TheConstants.{GAME_ROOM};
ghost use Rattle.session_export.specs.Games.{games_text, over_by};
ghost use Rattle.session_export.specs.GameExports.{last_by};

use crate::follow::follow;
use crate::over::is_over;
use crate::{SessionWriter, StepExporter};
use game_record::Game;
use line_io::{Event, NoMemory, Out};
use replay_command_base::Ending;
use san_text::write_game;
use std::alloc::Global;

/// A session whose games are written.
pub type GameWriter = SessionWriter<GameExporter>;

/// The game of a session, kept beside it: the session drops its moves in the step that begins
/// another.
#[derive(Drop)]
pub struct GameExporter {
    game: Game,
}

// Puts the game before a step, if it is over.
fn put_over(before: &Game, event: &Event, after: &Game, text: &mut Out)
    requires room { length text.old.text + GAME_ROOM ≤ text.old.room }
    ensures put { text.new ≡ with text.old
        (games_text (over_by before.now (event_of event.now) after.now)) }
    ensures few { length text.new.text ≤ length text.old.text + GAME_ROOM }
{
    if is_over(before, event, after) {
        write_game(before, text);
    }
}

// Puts the running game, if it has moves and the input has ended.
fn put_running(game: &Game, ending: Ending, text: &mut Out)
    requires room { length text.old.text + GAME_ROOM ≤ text.old.room }
    ensures { text.new ≡ with text.old (games_text (last_by ending game.now)) }
{
    if matches!(ending, Ending::Done) && game.plies() > 0 {
        write_game(game, text);
    }
}

impl StepExporter for GameExporter {
    ghost use Rattle.session_export.specs.GameExports.{exports_games};

    ghost means = { exports_games };

    fn make(alloc: Global) -> Result<GameExporter, NoMemory> {
        Ok(GameExporter {
            game: Game::make(alloc)?,
        })
    }

    fn put_step_text(&mut self, _number: u64, event: &Event, game: &Game, text: &mut Out) {
        put_over(&self.game, event, game, text);
        follow(&mut self.game, game);
    }

    fn finish(&self, ending: Ending, text: &mut Out) {
        put_running(&self.game, ending, text);
    }
}
