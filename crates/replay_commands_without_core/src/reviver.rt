// The events of a script, played to an engine that is started again.
ghost use Rattle.std.specs.Prelude.{◌≡◌, ◌+◌, ◌≤◌, length, IfOk, IfSome};
ghost use Rattle.line_io.specs.Event.{event_of};
ghost use Rattle.line_io.specs.Out.{with};
ghost use Rattle.replay_command_base.specs.Putting.{IsOfLine};
ghost use Rattle.script_lines.specs.Marks.{Happens, IsMarkSpelled, mark_spelled};
ghost use Rattle.engine_revival.specs.Steps.{opening_revival};
ghost use Rattle.replay_commands_without_core.specs.Reviving.{IsPlayedAs, MarkIsPlayed};
ghost use Rattle.replay_command_base.specs.declared.limits.TheConstants.{LINE_ROOM};

use engine_revival::Revival;
use line_io::{Event, NoMemory, Out};
use replay_command_base::{Ending, LineFilter};
use script_lines::{Mark, read_mark};
use std::alloc::Global;
use std::marker::Model;

/// Plays the events of a script, and puts the mark of each with those of the lines that it brings.
#[derive(Drop)]
pub struct Reviver {
    revival: Revival,
}

impl Model for Reviver {
    ghost use Rattle.engine_revival.specs.declared.state.RevivalState.{RevivalState};

    ghost Value = { RevivalState };

    ghost view = { λ r. r.revival.state };
}

impl Reviver {
    /// No line was read yet. It takes the memory of its revival.
    pub fn make(alloc: Global, lives: u32) -> Result<Reviver, NoMemory>
        ensures { IfOk result (λ reviver. reviver ≡ opening_revival lives) }
    {
        Ok(Reviver {
            revival: Revival::make(alloc, lives)?,
        })
    }

    // Plays an event if it may come.
    fn play(&mut self, number: u64, event: &Event, text: &mut Out) -> Option<Ending>
        requires spelled { IsMarkSpelled (Happens (event_of event.now)) }
        requires room { length text.old.text + LINE_ROOM ≤ text.old.room }
        ensures { IsPlayedAs number (event_of event.now) result
            self.old text.old self.new text.new }
    {
        if !self.revival.may_happen(event) {
            return Some(Ending::MayNotCome(number));
        }
        self.revival.play(event, text);
        None
    }

    // Takes a line by its mark.
    fn take(&mut self, number: u64, line: &[u8], text: &mut Out) -> Option<Ending>
        requires room { length text.old.text + LINE_ROOM ≤ text.old.room }
        ensures { MarkIsPlayed number (mark_spelled line.now) result self.old text.old self.new
            text.new }
    {
        match read_mark(line) {
            Ok(Mark::Event(event)) => self.play(number, &event, text),
            Ok(_) => None,
            Err(_) => Some(Ending::NoMark(number)),
        }
    }
}

impl LineFilter for Reviver {
    ghost use Rattle.replay_commands_without_core.specs.Reviving.{revives};

    ghost means = { revives };

    fn line(&mut self, number: u64, line: &[u8], text: &mut Out) -> Option<Ending> {
        self.take(number, line, text)
    }

    fn long(&mut self, number: u64, _text: &mut Out) -> Option<Ending> {
        Some(Ending::NoMark(number))
    }

    fn finish(&mut self, ending: Ending, _text: &mut Out) -> Ending {
        ending
    }
}
