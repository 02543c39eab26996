// Answers the lines that a script is given.
ghost use Rattle.std.specs.Prelude.{◌≡◌};
ghost use Rattle.scripted_engine.specs.Heard.{ending_of};

use crate::{Scripted, ScriptedEnding};
use line_io::{LineConsumer, LinesEnd, Sink, write_all};
use protocol_tokens::is_quit;

/// Why no more lines are answered.
#[derive(Clone, Copy)]
pub enum Stop {
    Quit,
    WriteFailed,
}

/// The end of a run.
pub fn ending_of(end: LinesEnd<Stop>) -> ScriptedEnding
    ensures { result ≡ ending_of end }
{
    match end {
        LinesEnd::Stopped(Stop::Quit) => ScriptedEnding::Done,
        LinesEnd::Stopped(Stop::WriteFailed) => ScriptedEnding::WriteFailed,
        LinesEnd::Ended => ScriptedEnding::Done,
        LinesEnd::ReadFailed => ScriptedEnding::ReadFailed,
        LinesEnd::Endless => ScriptedEnding::Endless,
    }
}

impl<O: Sink> LineConsumer<O> for Scripted {
    ghost use Rattle.scripted_engine.specs.Heard.{answers_of};

    type Stop = Stop;

    ghost means = { answers_of O.state };

    fn line(&mut self, _number: u64, line: &[u8], output: &mut O) -> Option<Stop> {
        if write_all(output, self.answer(line)).is_err() {
            return Some(Stop::WriteFailed);
        }
        if is_quit(line) {
            return Some(Stop::Quit);
        }
        None
    }

    fn long(&mut self, _number: u64, _output: &mut O) -> Option<Stop> {
        None
    }

    fn flush(&mut self, _output: &mut O) -> Option<Stop> {
        None
    }
}
