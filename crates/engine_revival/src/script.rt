// The marks of a script, and what is written for each.
ghost use Rattle.std.specs.Prelude.{◌≡◌, ◌≤◌, ◌+◌, length, true};
ghost use Rattle.line_io.specs.Event.{event_of};
ghost use Rattle.line_io.specs.Out.{with};
ghost use Rattle.script_lines.specs.Marks.{Happens, IsMarkSpelled, event_marked, line_marked};
ghost use Rattle.script_lines.specs.StepText.{lines_marked, marks_of_written};
ghost use Rattle.engine_revival.specs.declared.script.TheConstants.{EVENT_ROOM};
ghost use Rattle.engine_revival.specs.Script.{may_happen, revival_state_after, revival_event_text};
ghost use Rattle.engine_revival.specs.Script.{state_before, call_of_event};
ghost use Rattle.engine_revival.specs.Calls.{LifeCallGives};
ghost use Rattle.engine_revival.specs.Marks.{HaveRoom};
ghost use Rattle.engine_revival.specs.Steps.{state_once_ended};
ghost use Rattle.line_io.specs.declared.limits.TheConstants.{PEER_LINE};

use crate::{Revival, RevivalStep};
use line_io::{Event, Out, split_line};
use script_lines::{Mark, STEP_ROOM, write_mark_line};

/// Room for the marks of an event and of the lines that are written for it.
pub const EVENT_ROOM: usize = STEP_ROOM;

fn put_line(letter: u8, line: &[u8], text: &mut Out)
    requires { length text.old.text + length (line_marked letter line.now) ≤ text.old.room }
    ensures { text.new ≡ with text.old (line_marked letter line.now) }
{
    text.put(&[letter, b' ']);
    text.put(line);
    text.put(b"\n");
}

// Puts the lines of a text, each after the letter of its mark.
fn put_lines(letter: u8, lines: &[u8], text: &mut Out)
    requires { length text.old.text + length (lines_marked letter lines.now) ≤ text.old.room }
    ensures { text.new ≡ with text.old (lines_marked letter lines.now) }
{
    let mut rest = lines;
    while !rest.is_empty() {
        let (line, after) = split_line(rest);
        put_line(letter, line, text);
        rest = after;
    }
}

/// Puts the mark of an event and those of the lines that a call gave for it: `X` before those up,
/// `U` before those to the engine.
pub fn put_marks(event: &Event, both: RevivalStep, text: &mut Out)
    requires mark { length (event_marked (event_of event.now)) ≤ PEER_LINE + 3 }
    requires marks { HaveRoom both.up.now both.child.now }
    requires room { length text.old.text + EVENT_ROOM ≤ text.old.room }
    ensures { text.new
        ≡ with text.old (marks_of_written (event_of event.now) both.entry.up.now
        both.entry.child.now) }
{
    write_mark_line(&Mark::Event(*event), text);
    put_lines(b'X', both.up, text);
    put_lines(b'U', both.child, text);
}

impl Revival {
    ghost use Rattle.line_io.specs.Event.{EngineLong};
    ghost use Rattle.engine_revival.specs.Steps.{is_alive};

    /// True if the event may come. Long lines of the interface and lost peers may not.
    pub fn may_happen(&self, event: &Event) -> bool
        ensures { result ≡ may_happen self.now.state (event_of event.now) }
    {
        match event {
            Event::Iface(_) | Event::IfaceEnd => !self.awaits_next(),
            Event::Engine(_) | Event::EngineLong | Event::EngineEnd => self.is_alive(),
            _ => false,
        }
    }

    fn turn(&mut self)
        requires { is_alive self.old.state.life ≡ true }
        ensures { LifeCallGives (state_once_ended self.old.state) (call_of_event self.old.state
            EngineLong)
            self.new.state self.new.up.text self.new.child.text }
    {
        if self.ended() {
            self.take_begin();
        } else {
            self.take_over();
        }
    }

    fn take_event(&mut self, event: &Event)
        requires may { may_happen self.old.state (event_of event.now) ≡ true }
        requires spelled { IsMarkSpelled (Happens (event_of event.now)) }
        ensures { LifeCallGives (state_before self.old.state (event_of event.now))
            (call_of_event self.old.state (event_of event.now))
            self.new.state self.new.up.text self.new.child.text }
    {
        match event {
            Event::Iface(line) => self.take_order(line),
            Event::IfaceEnd => self.take_order(b"quit"),
            Event::Engine(line) => self.take_heard(line),
            Event::EngineLong => self.turn(),
            _ => self.take_over(),
        }
    }

    /// Plays an event of a script, and puts its mark and those of the lines that are written for it:
    /// `X` before those up, `U` before those to the engine.
    ///
    /// A line of the interface is an order, and its end is `quit`. A line of the engine is one of the
    /// present life. The mark of a long line of the engine, `u!`, is the end of a life, after which
    /// another one begins if one may; the engine's end is the end of a life after which none follows.
    pub fn play(&mut self, event: &Event, text: &mut Out)
        requires may { may_happen self.old.state (event_of event.now) ≡ true }
        requires spelled { IsMarkSpelled (Happens (event_of event.now)) }
        requires room { length text.old.text + EVENT_ROOM ≤ text.old.room }
        ensures state { self.new.state ≡ revival_state_after self.old.state (event_of event.now) }
        ensures text { text.new ≡ with text.old (revival_event_text self.old.state (event_of
            event.now)) }
    {
        self.take_event(event);
        put_marks(event, self.lines(), text);
    }
}
