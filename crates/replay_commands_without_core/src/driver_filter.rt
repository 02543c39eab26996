// The lines of a script, as a driver takes them.
ghost use Rattle.std.specs.Prelude.{◌≡◌, ◌+◌, ◌≤◌, length, IfOk, IfSome};
ghost use Rattle.line_io.specs.Event.{event_of};
ghost use Rattle.replay_command_base.specs.Putting.{IsOfLine};
ghost use Rattle.cecp_driver.specs.Driver.{opening_driver};
ghost use Rattle.cecp_driver.specs.Script.{IsPeerLine};
ghost use Rattle.replay_commands_without_core.specs.Scripts.{Tries};
ghost use Rattle.replay_command_base.specs.declared.limits.TheConstants.{LINE_ROOM};

use cecp_driver::Driver;
use line_io::{Event, NoMemory, Out};
use replay_command_base::{Ending, LineFilter};
use script_lines::{Mark, read_mark};
use std::alloc::Global;
use std::marker::Model;

/// A driver that takes the events of a script, line by line.
#[derive(Drop)]
pub struct Drive {
    driver: Driver,
}

impl Model for Drive {
    ghost use Rattle.cecp_driver.specs.declared.driver.DriverParts.{DriverParts};

    ghost Value = { DriverParts };

    ghost view = { λ d. d.driver };
}

impl Drive {
    /// No line was read yet.
    pub fn make(alloc: Global) -> Result<Drive, NoMemory>
        ensures { IfOk result (λ drive. drive ≡ opening_driver) }
    {
        let driver = Driver::make(alloc)?;
        Ok(Drive { driver })
    }

    // Takes an event if it may come, and puts the marks of it.
    fn try_event(&mut self, number: u64, event: &Event, text: &mut Out) -> Option<Ending>
        requires line { IsPeerLine (event_of event.now) }
        requires room { length text.old.text + LINE_ROOM ≤ text.old.room }
        ensures of_line { IfSome result (λ ending. IsOfLine ending) }
        ensures tries { Tries number (event_of event.now) result
            self.old self.new text.old text.new }
    {
        if !self.driver.may_come(event) {
            return Some(Ending::MayNotCome(number));
        }
        self.driver.play(event, text);
        None
    }
}

impl LineFilter for Drive {
    ghost use Rattle.replay_commands_without_core.specs.Scripts.{drive_filter_meaning};

    ghost means = { drive_filter_meaning };

    fn line(&mut self, number: u64, line: &[u8], text: &mut Out) -> Option<Ending> {
        match read_mark(line) {
            Ok(Mark::Event(event)) => self.try_event(number, &event, text),
            Ok(Mark::ToIface(_)) => None,
            Ok(Mark::ToEngine(_)) => None,
            Err(_) => Some(Ending::NoMark(number)),
        }
    }

    fn long(&mut self, number: u64, _text: &mut Out) -> Option<Ending> {
        Some(Ending::NoMark(number))
    }

    fn finish(&mut self, ending: Ending, _text: &mut Out) -> Ending {
        ending
    }
}
