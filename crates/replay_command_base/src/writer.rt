// A line filter whose text is written.
ghost use Rattle.std.specs.Prelude.{◌≡◌, ◌+◌, ◌≤◌, [], length, OnErr, OnOk};
ghost use Rattle.line_io.specs.Source.{Received};
ghost use Rattle.replay_command_base.specs.Putting.{IsInputEnd, IsOfLine};
ghost use Rattle.replay_command_base.specs.Writing.{Cut, Moved, did_write_fail};
ghost use Rattle.replay_command_base.specs.declared.limits.TheConstants.{TEXT_ROOM, LINE_ROOM};

use crate::line_filter::LineFilter;
use crate::{Ending, LINE_ROOM};
use line_io::{Failed, LineConsumer, Out, Sink, write_all};

// Writes what is held.
fn write_held<O: Sink>(text: &mut Out, output: &mut O) -> Result<(), Failed>
    ensures ok { OnOk result (Moved text.old text.new (O.state output.old) (O.state output.new)
        × (text.new.text ≡ [])) }
    ensures err { OnErr result (Cut text.old.text (O.state output.old) (O.state output.new)) }
{
    match write_all(output, text.bytes()) {
        Ok(()) => {
            text.clear();
            Ok(())
        }
        Err(failed) => Err(failed),
    }
}

// Writes what is held, if there is no room for what is put for a line.
fn make_room<O: Sink>(text: &mut Out, output: &mut O) -> Result<(), Failed>
    requires { text.old.room ≡ TEXT_ROOM }
    ensures ok { OnOk result (Moved text.old text.new (O.state output.old) (O.state output.new)
        × (length text.new.text + LINE_ROOM ≤ text.new.room)) }
    ensures err { OnErr result (Cut text.old.text (O.state output.old) (O.state output.new)) }
{
    if text.spare() < LINE_ROOM {
        return write_held(text, output);
    }
    Ok(())
}

fn is_cut(ending: Ending) -> bool
    ensures { result ≡ did_write_fail ending }
{
    matches!(ending, Ending::WritingFailed)
}

/// A line filter, and the part of its text that is not written yet.
#[derive(Drop)]
pub struct Writer<S> {
    pub line_filter: S,
    pub text: Out,
}

impl<S: LineFilter> Writer<S> {
    // Writes what is left, and gives the ending, or that a write failed.
    fn write_last<O: Sink>(&mut self, ending: Ending, output: &mut O) -> Ending
        ensures { (s0 : S) (lines : List Piece) (before : Received)
            → Said S.means s0 lines ending self.old.text.text before (O.state output.old)
            → FilterFinished S.means s0 lines ⊥ ending result before (O.state output.new) }
    {
        if write_held(&mut self.text, output).is_err() {
            return Ending::WritingFailed;
        }
        ending
    }

    /// Writes what is left if a line, or a write that failed, ended it.
    pub fn stop<O: Sink>(&mut self, ending: Ending, output: &mut O) -> Ending
        ensures { (s0 : S) (lines : List Piece) (before : Received)
            → FilterHalted S.means s0 ending lines self.old.text.text before (O.state output.old)
            → FilterLeft S.means s0 lines ending result before (O.state output.new) }
    {
        if is_cut(ending) {
            return ending;
        }
        self.write_last(ending, output)
    }

    /// Puts what comes last, and writes what is left.
    pub fn end<O: Sink>(&mut self, ending: Ending, output: &mut O) -> Ending
        requires ending { IsOfLine ending → ⊥ }
        requires ends { IsInputEnd ending }
        requires may { FilterMayTake S.means self.old.line_filter self.old.text }
        ensures { (s0 : S) (lines : List Piece) (before : Received)
            → FilterTook S.means s0 lines self.old.line_filter self.old.text before (O.state
            output.old)
            → FilterEnded S.means s0 lines self.old.text.text ending result before
            (O.state output.new) }
    {
        if make_room(&mut self.text, output).is_err() {
            return Ending::WritingFailed;
        }
        let verdict = self.line_filter.finish(ending, &mut self.text);
        self.write_last(verdict, output)
    }
}

ghost use Rattle.std.specs.Prelude.{List};
ghost use Rattle.line_io.specs.Lines.{Piece};
ghost use Rattle.replay_command_base.specs.Writing.{FilterEnded, FilterFinished, FilterHalted, FilterLeft, FilterMayTake, Said, FilterTook};

impl<O: Sink, S: LineFilter> LineConsumer<O> for Writer<S> {
    ghost use Rattle.replay_command_base.specs.Writing.{filter_meaning};

    type Stop = Ending;

    ghost means = { filter_meaning (λ w. w.line_filter) (λ w. w.text) S.means O.state };

    fn line(&mut self, number: u64, line: &[u8], output: &mut O) -> Option<Ending> {
        if make_room(&mut self.text, output).is_err() {
            return Some(Ending::WritingFailed);
        }
        self.line_filter.line(number, line, &mut self.text)
    }

    fn long(&mut self, number: u64, output: &mut O) -> Option<Ending> {
        if make_room(&mut self.text, output).is_err() {
            return Some(Ending::WritingFailed);
        }
        self.line_filter.long(number, &mut self.text)
    }

    fn flush(&mut self, output: &mut O) -> Option<Ending> {
        if write_held(&mut self.text, output).is_err() {
            return Some(Ending::WritingFailed);
        }
        None
    }
}
