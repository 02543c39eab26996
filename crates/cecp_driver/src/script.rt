// The events of a script, and the marks of what is given for each.
ghost use Rattle.std.specs.Prelude.{◌≡◌, ◌+◌, ◌≤◌, length, true};
ghost use Rattle.line_io.specs.Event.{event_of};
ghost use Rattle.line_io.specs.Out.{with};
ghost use Rattle.script_lines.specs.StepText.{marks_of_written};
ghost use Rattle.cecp_driver.specs.Script.{IsPeerLine, DriverTakes, given_marks, may_come};
ghost use Rattle.cecp_driver.specs.declared.driver.TheConstants.{UP_ROOM, DOWN_ROOM};
ghost use Rattle.cecp_driver.specs.declared.script.TheConstants.{EVENT_ROOM};

use crate::driver::Driver;
use line_io::{Event, Out};
use script_lines::{Mark, STEP_ROOM, put_written, write_mark_line};

/// Room for the marks of an event and of the lines that are given for it.
pub const EVENT_ROOM: usize = STEP_ROOM;

/// Puts the mark of an event, and those of the lines that were given for it: `X` before those to the interface, `U`
/// before those to the engine.
pub fn put_marks(event: &Event, up: &[u8], child: &[u8], text: &mut Out)
    requires line { IsPeerLine (event_of event.now) }
    requires up { length up.now ≤ UP_ROOM }
    requires child { length child.now ≤ DOWN_ROOM }
    requires room { length text.old.text + EVENT_ROOM ≤ text.old.room }
    ensures { text.new ≡ with text.old (marks_of_written (event_of event.now) up.now child.now) }
{
    write_mark_line(&Mark::Event(*event), text);
    put_written(up, child, text);
}

impl Driver {
    /// True if an event may come: long lines, writes that failed, and what follows the engine's end may not.
    pub fn may_come(&self, event: &Event) -> bool
        ensures { result ≡ may_come self.now (event_of event.now) }
    {
        match event {
            Event::Iface(_) | Event::IfaceEnd => true,
            Event::Engine(_) | Event::EngineEnd => !self.is_gone(),
            _ => false,
        }
    }

    /// Takes an event: a line of the interface is an order, and its end is `quit`. `lines` says what was given for it.
    pub fn take(&mut self, event: &Event)
        requires may { may_come self.old (event_of event.now) ≡ true }
        requires line { IsPeerLine (event_of event.now) }
        ensures { DriverTakes (event_of event.now) self.old self.new }
    {
        match event {
            Event::Iface(line) => self.take_order(line),
            Event::IfaceEnd => self.take_order(b"quit"),
            Event::Engine(line) => self.take_line(line),
            _ => self.take_end(),
        }
    }

    /// Takes an event, and puts its mark and those of the lines that are given for it.
    pub fn play(&mut self, event: &Event, text: &mut Out)
        requires may { may_come self.old (event_of event.now) ≡ true }
        requires line { IsPeerLine (event_of event.now) }
        requires room { length text.old.text + EVENT_ROOM ≤ text.old.room }
        ensures takes { DriverTakes (event_of event.now) self.old self.new }
        ensures put { text.new ≡ with text.old (given_marks (event_of event.now) self.new) }
    {
        self.take(event);
        let both = self.lines();
        put_marks(event, both.up, both.child, text);
    }
}
