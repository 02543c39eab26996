// A filter that puts a text for lines.
ghost use Rattle.std.specs.Prelude.{◌≡◌, ◌+◌, ◌≤◌, length, None, IfSome};
ghost use Rattle.line_io.specs.Lines.{Whole, TooLong};
ghost use Rattle.replay_command_base.specs.Putting.{FilterCloses, IsInputEnd, IsOfLine, IsVerdict, Putting, Puts};
ghost use Rattle.replay_command_base.specs.declared.limits.TheConstants.{LINE_ROOM};

use crate::Ending;
use line_io::Out;

/// A filter that puts a text for the lines that it takes.
pub trait LineFilter {
    /// Its text for lines, and when it may take one.
    ghost means: { Putting Self };

    /// Takes a line, and puts what is to be written for it. The first has the number 1. An answer
    /// is the reason why no more lines are taken.
    fn line(&mut self, number: u64, line: &[u8], text: &mut Out) -> Option<Ending>
        requires may { means.may self.old }
        requires room { length text.old.text + LINE_ROOM ≤ text.old.room }
        ensures may { result ≡ None → means.may self.new }
        ensures of_line { IfSome result (λ ending. IsOfLine ending) }
        ensures puts { Puts means number (Whole line.now) result
            self.old text.old self.new text.new };

    /// Takes a line that is longer than the limit.
    fn long(&mut self, number: u64, text: &mut Out) -> Option<Ending>
        requires may { means.may self.old }
        requires room { length text.old.text + LINE_ROOM ≤ text.old.room }
        ensures may { result ≡ None → means.may self.new }
        ensures of_line { IfSome result (λ ending. IsOfLine ending) }
        ensures puts { Puts means number TooLong result self.old text.old self.new text.new };

    /// Puts what is to be written last if no line is the reason to end: at the end of the input,
    /// if a read failed, and if the input is too long. The answer is how the run ends: mostly so, and if all was read
    /// perhaps by a line that is to blame.
    fn finish(&mut self, ending: Ending, text: &mut Out) -> Ending
        requires ending { IsOfLine ending → ⊥ }
        requires ends { IsInputEnd ending }
        requires may { means.may self.old }
        requires room { length text.old.text + LINE_ROOM ≤ text.old.room }
        ensures verdict { IsVerdict ending result }
        ensures closes { FilterCloses means result self.old text.old text.new };
}
