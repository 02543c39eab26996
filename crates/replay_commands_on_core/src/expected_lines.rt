// The written lines that are due in a log.
ghost use Rattle.std.specs.Prelude.{◌≡◌, ◌<◌, ◌≤◌, ◌==◌, [], ◌∷◌, ◌++◌, length, IfOk, if◌then◌else◌, false};
ghost use Rattle.std.specs.List.{before_first, after_first};
ghost use Rattle.std.specs.Str.{bytes_eq};
ghost use Rattle.line_io.specs.Lines.{is_feed, line_feed};
ghost use Rattle.script_lines.specs.StepText.{written_marks};
ghost use Rattle.script_lines.specs.StepLine.{step_number_line};
ghost use Rattle.line_io.specs.declared.limits.TheConstants.{SCRIPT_LINE};

use line_io::{NoMemory, Out, SCRIPT_LINE, split_line};
use script_lines::{put_written, write_step};
use std::alloc::Global;
use std::marker::Model;

// A step line, and both texts of a step, with at most three bytes more for each byte.
const ROOM: usize = 8 * SCRIPT_LINE + 32;

/// The marks of the lines that the last step wrote, as far as they are still to come.
#[derive(Drop)]
pub struct ExpectedLines {
    text: Out,
    // how many bytes of it came already
    at: usize,
}

impl Model for ExpectedLines {
    ghost use Rattle.std.specs.Prelude.{◌≡◌, ◌≤◌, ℕ, List, drop, length};
    ghost use Rattle.replay_commands_on_core.specs.declared.expected_lines.TheConstants.{ROOM};

    ghost Value = { List ℕ };

    ghost view = { λ d. drop d.at d.text.text };

    ghost invariant = { λ d. (d.at ≤ length d.text.text) × (d.text.room ≡ ROOM) };
}

impl ExpectedLines {
    /// No lines.
    pub fn make(alloc: Global) -> Result<ExpectedLines, NoMemory>
        ensures { IfOk result (λ due. due ≡ []) }
    {
        Ok(ExpectedLines {
            text: Out::make(alloc, ROOM)?,
            at: 0,
        })
    }

    /// True if no lines are due.
    pub fn is_empty(&self) -> bool
        ensures { result ≡ (length self.now == 0) }
    {
        self.rest().is_empty()
    }

    fn rest(&self) -> &[u8]
        ensures { result.now ≡ self.now }
    {
        &self.text.bytes()[self.at..]
    }

    /// Takes the first line, if it is this one.
    pub fn take(&mut self, line: &[u8]) -> bool
        ensures is { result ≡ bytes_eq line.now (before_first is_feed self.old) }
        ensures after { self.new
            ≡ (if bytes_eq line.now
            (before_first is_feed self.old) then after_first is_feed self.old else self.old) }
    {
        let (due, after) = split_line(self.rest());
        if line != due {
            return false;
        }
        self.at = self.text.bytes().len() - after.len();
        true
    }

    /// The lines of a step.
    pub fn fill(&mut self, iface: &[u8], engine: &[u8])
        requires iface { length iface.now ≤ SCRIPT_LINE }
        requires engine { length engine.now ≤ SCRIPT_LINE }
        ensures { self.new ≡ written_marks iface.now engine.now }
    {
        self.text.clear();
        self.at = 0;
        put_written(iface, engine, &mut self.text);
    }

    /// The number of the first step of version 2, and its lines.
    pub fn fill_first(&mut self, iface: &[u8], engine: &[u8])
        requires iface { length iface.now ≤ SCRIPT_LINE }
        requires engine { length engine.now ≤ SCRIPT_LINE }
        ensures { self.new ≡ step_number_line 0 ++ line_feed ∷ written_marks iface.now engine.now }
    {
        self.text.clear();
        self.at = 0;
        write_step(0, &mut self.text);
        self.text.put(b"\n");
        put_written(iface, engine, &mut self.text);
    }
}
