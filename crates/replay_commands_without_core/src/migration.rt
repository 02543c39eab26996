// The lines of a script of version 1, with the numbers of its steps.
ghost use Rattle.std.specs.Prelude.{◌≡◌, ◌+◌, ◌<◌, ◌≤◌, ◌^◌, ◌∷◌, ◌++◌, [], length};
ghost use Rattle.line_io.specs.Out.{with};
ghost use Rattle.policy_rules.specs.SettingRules.Policy.{IsProper};
ghost use Rattle.script_lines.specs.declared.header.TheConstants.{HEADER_ROOM};
ghost use Rattle.replay_commands_without_core.specs.Begun.{ScriptIsBegun, unbegun_script};

use line_io::Out;
use policy_rules::Settings;
use replay_command_base::{Ending, LineFilter};
use script_lines::{Mark, next_number, read_mark, write_header, write_step};

/// A script with a header as it is put, line by line.
#[derive(Drop)]
pub struct Migration {
    settings: Settings,
    /// The number of the step that was put last; `None` if not even the header was put.
    last: Option<u64>,
}

// Puts a line and its line feed.
fn put_line(line: &[u8], text: &mut Out)
    requires { length text.old.text + length line.now + 1 ≤ text.old.room }
    ensures { text.new ≡ with text.old (migrated_line_text line.now) }
{
    text.put(line);
    text.put(b"\n");
}

// Puts the line that numbers a step.
fn put_number(number: u64, text: &mut Out)
    requires number { number < 10 ^ 18 }
    requires room { length text.old.text + 21 ≤ text.old.room }
    ensures put { text.new ≡ with text.old (migrated_line_text (step_number_line number)) }
    ensures few { length text.new.text ≤ length text.old.text + 21 }
{
    write_step(number, text);
    text.put(b"\n");
}

// Puts the header and the number of the first step.
fn put_beginning(settings: &Settings, text: &mut Out)
    requires proper { IsProper settings.now }
    requires room { length text.old.text + HEADER_ROOM + 22 ≤ text.old.room }
    ensures put { text.new ≡ with text.old (migrated_beginning settings.now) }
    ensures few { length text.new.text ≤ length text.old.text + HEADER_ROOM + 22 }
{
    write_header(settings, text);
    text.put(b"\n");
    put_number(0, text);
}

ghost use Rattle.script_lines.specs.StepLine.{step_number_line};
ghost use Rattle.replay_commands_without_core.specs.Migration.{migrated_beginning, migrated_line_text};

impl Migration {
    /// A script of which nothing is put yet.
    pub fn new(settings: &Settings) -> Migration
        ensures { result ≡ unbegun_script settings.now }
    {
        Migration {
            settings: *settings,
            last: None,
        }
    }

    // Puts what stands before the first mark, if it was not put. It gives the last step's number.
    fn begin(&mut self, text: &mut Out) -> u64
        requires may { IsSoundMigration self.old }
        requires room { length text.old.text + HEADER_ROOM + 22 ≤ text.old.room }
        ensures begins { ScriptIsBegun self.old text.old result self.new text.new }
        ensures few { length text.new.text ≤ length text.old.text + HEADER_ROOM + 22 }
        ensures below { result < 10 ^ 18 }
    {
        match self.last {
            Some(number) => number,
            None => {
                put_beginning(&self.settings, text);
                self.last = Some(0);
                0
            }
        }
    }
}

ghost use Rattle.replay_commands_without_core.specs.Begun.{IsSoundMigration};

impl LineFilter for Migration {
    ghost use Rattle.replay_commands_without_core.specs.Begun.{migration_meaning};

    ghost means = { migration_meaning };

    fn line(&mut self, number: u64, line: &[u8], text: &mut Out) -> Option<Ending> {
        let last = self.begin(text);
        match read_mark(line) {
            Ok(Mark::Event(_)) => {
                let next = next_number(last);
                put_number(next, text);
                put_line(line, text);
                self.last = Some(next);
                None
            }
            Ok(Mark::ToIface(_)) => {
                put_line(line, text);
                None
            }
            Ok(Mark::ToEngine(_)) => {
                put_line(line, text);
                None
            }
            Err(_) => Some(Ending::NoMark(number)),
        }
    }

    fn long(&mut self, number: u64, text: &mut Out) -> Option<Ending> {
        let _ = self.begin(text);
        Some(Ending::NoMark(number))
    }

    fn finish(&mut self, ending: Ending, text: &mut Out) -> Ending {
        let _ = self.begin(text);
        ending
    }
}
