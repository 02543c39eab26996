// The end of a command.
ghost use Rattle.std.specs.Prelude.{◌≡◌, ◌+◌, ◌≤◌, length};
ghost use Rattle.line_io.specs.Out.{with};
ghost use Rattle.replay_command_base.specs.Diagnostics.{command_status, tail_of, command_diagnostic, position_fault};
ghost use Rattle.replay_command_base.specs.declared.limits.TheConstants.{DIAGNOSTIC_ROOM};

use fen_text::FenFault;
use itoa::Buffer;
use line_io::{Out, Sink, write_all};

/// The end of a command.
#[derive(Clone, Copy, Debug, PartialEq, Eq)]
pub enum Ending {
    /// It did all that its arguments ask for.
    Done,
    /// The line with this number, counted from 1, differs from the lawful script.
    Differs(u64),
    /// The mark in the line with this number, counted from 1, is unlawful.
    Unlawful(u64),
    /// The arguments fit no command.
    Usage,
    /// The line with this number, counted from 1, is no mark.
    NoMark(u64),
    /// The line with this number, counted from 1, is out of step.
    OutOfStep(u64),
    /// The event in the line with this number may not come.
    MayNotCome(u64),
    /// The arguments after `moves` spell no position.
    NoPosition(FenFault),
    NoMemory,
    ReadingFailed,
    WritingFailed,
    TooLong,
}

fn position_fault(fault: FenFault) -> &'static [u8]
    ensures { result.now ≡ position_fault fault }
{
    match fault {
        FenFault::Board => b"replay: position: board\n",
        FenFault::Side => b"replay: position: side\n",
        FenFault::Castling => b"replay: position: castling\n",
        FenFault::EnPassant => b"replay: position: en passant\n",
        FenFault::Half => b"replay: position: half\n",
        FenFault::Full => b"replay: position: full\n",
        FenFault::Kings => b"replay: position: kings\n",
    }
}

impl Ending {
    /// The status of the program.
    pub fn code(self) -> u8
        ensures { result ≡ command_status self }
    {
        match self {
            Ending::Done => 0,
            Ending::Differs(_) | Ending::Unlawful(_) => 1,
            Ending::Usage
            | Ending::NoMark(_)
            | Ending::OutOfStep(_)
            | Ending::MayNotCome(_)
            | Ending::NoPosition(_) => 2,
            Ending::NoMemory => 3,
            Ending::ReadingFailed => 4,
            Ending::WritingFailed => 5,
            Ending::TooLong => 6,
        }
    }

    /// The diagnostic, or what stands in it after the number of a line.
    pub fn tail(self) -> &'static [u8]
        ensures { result.now ≡ tail_of self }
    {
        match self {
            Ending::Done | Ending::Differs(_) | Ending::Unlawful(_) => b"",
            Ending::Usage => b"replay: usage\n",
            Ending::NoMark(_) => b" has no mark\n",
            Ending::OutOfStep(_) => b" is out of step\n",
            Ending::MayNotCome(_) => b" may not come here\n",
            Ending::NoPosition(fault) => position_fault(fault),
            Ending::NoMemory => b"replay: no memory\n",
            Ending::ReadingFailed => b"replay: reading failed\n",
            Ending::WritingFailed => b"replay: writing failed\n",
            Ending::TooLong => b"replay: input too long\n",
        }
    }

    /// Puts the diagnostic, which is one line or nothing.
    pub fn put_diagnostic(self, out: &mut Out)
        requires { length out.old.text + DIAGNOSTIC_ROOM ≤ out.old.room }
        ensures { out.new ≡ with out.old (command_diagnostic self) }
    {
        match self {
            Ending::NoMark(line) | Ending::OutOfStep(line) | Ending::MayNotCome(line) =>
                put_line_fault(line, self.tail(), out),
            _ => out.put(self.tail()),
        }
    }
}

ghost use Rattle.std.specs.Prelude.{◌++◌};
ghost use Rattle.replay_command_base.specs.Diagnostics.{line_fault};

fn put_line_fault(line: u64, tail: &[u8], out: &mut Out)
    requires tail { length tail.now ≤ 40 }
    requires room { length out.old.text + DIAGNOSTIC_ROOM ≤ out.old.room }
    ensures { out.new ≡ with out.old (line_fault line tail.now) }
{
    let mut digits = Buffer::new();
    out.put(b"replay: line ");
    out.put(digits.format(line).as_bytes());
    out.put(tail);
}

ghost use Rattle.replay_command_base.specs.DiagnosticWritten.{DiagnosticWritten, LinesWritten};

/// Writes the diagnostic of an ending, and gives how the program ends then.
pub fn report_ending<D: Sink>(ending: Ending, text: &mut Out, diag: &mut D) -> Ending
    requires { DIAGNOSTIC_ROOM ≤ text.old.room }
    ensures { DiagnosticWritten (command_status result) (command_status ending)
        (command_diagnostic ending)
        (D.state diag.old) (D.state diag.new) }
{
    text.clear();
    ending.put_diagnostic(text);
    match write_all(diag, text.bytes()) {
        Ok(()) => ending,
        Err(_) => Ending::WritingFailed,
    }
}

/// The same for a diagnostic without a number, which needs no room.
pub fn report_without_buffer<D: Sink>(ending: Ending, diag: &mut D) -> Ending
    ensures { DiagnosticWritten (command_status result) (command_status ending) (tail_of ending)
        (D.state diag.old) (D.state diag.new) }
{
    match write_all(diag, ending.tail()) {
        Ok(()) => ending,
        Err(_) => Ending::WritingFailed,
    }
}

/// Writes lines to the output, and reports whether that failed.
pub fn write_lines<O: Sink, D: Sink>(lines: &[u8], output: &mut O, diag: &mut D) -> Ending
    ensures { LinesWritten lines.now (diag.new ≡ diag.old) (command_status result)
        (O.state output.old) (O.state output.new) (D.state diag.old) (D.state diag.new) }
{
    match write_all(output, lines) {
        Ok(()) => Ending::Done,
        Err(_) => report_without_buffer(Ending::WritingFailed, diag),
    }
}
