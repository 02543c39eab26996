// An exporter that puts a text for the steps of a session.
ghost use Rattle.std.specs.Prelude.{◌≡◌, ◌+◌, ◌≤◌, length, Option, Some, None, IfOk};
ghost use Rattle.line_io.specs.Event.{event_of};
ghost use Rattle.line_io.specs.Out.{with};
ghost use Rattle.game_record.specs.Game.{Game as AnyGame};
ghost use Rattle.session_export.specs.Following.{GameFollows};
ghost use Rattle.session_export.specs.Exporting.{Exporting, game_at};

use game_record::Game;
use line_io::{Event, NoMemory, Out};
use replay_command_base::{Ending, LINE_ROOM};
use std::alloc::Global;

/// The greatest number of bytes put for one step, or for the end. A line may have two of these: a session
/// is opened before its first line if that is no header.
pub const EXPORT_ROOM: usize = LINE_ROOM / 2;

/// An exporter that puts a text for the steps of a session.
pub trait StepExporter {
    /// Its text, and the game that it was told last.
    ghost means: { Exporting Self };

    /// An exporter before the first step. It takes all memory that it ever uses.
    fn make(alloc: Global) -> Result<Self, NoMemory>
        ensures first { IfOk result (λ exporter. exporter ≡ means.first) }
        ensures at { IfOk result (λ exporter. means.at exporter None) };

    /// Puts what is to be written for a step, by the number of its line, its event and the game
    /// after it. The first step is that of Open, and has the number 0.
    fn put_step_text(&mut self, number: u64, event: &Event, game: &Game, text: &mut Out)
        requires follows { (before : Option AnyGame) × means.at self.old before
            × GameFollows (game_at before) game.now }
        requires room { length text.old.text + EXPORT_ROOM ≤ text.old.room }
        ensures announced { (before : Option AnyGame) → means.at self.old before
            → text.new ≡ with text.old
            (means.step_text number (event_of event.now) before game.now) }
        ensures few { length text.new.text ≤ length text.old.text + EXPORT_ROOM }
        ensures at { means.at self.new (Some game.now) };

    /// Puts what is to be written last, if no line is the reason to end.
    fn finish(&self, ending: Ending, text: &mut Out)
        requires room { length text.old.text + EXPORT_ROOM ≤ text.old.room }
        ensures { (game : AnyGame) → means.at self.now (Some game)
            → text.new ≡ with text.old (means.last_text ending game) };
}
