// The text of the program that a person reads.
ghost use Rattle.std.specs.Prelude.{◌≡◌, ◌⊎◌, filter, IfOk};
ghost use Rattle.program_lifecycle.specs.Program.{IsReportedTo};
ghost use Rattle.wineravine_runner.specs.Program.{IsCut, TextIsShown, is_shown, not_started, argument_name_shown, wrong_arguments};

use line_io::{Sink, Status, write_all};
use program_lifecycle::{ProgramEnding, report_ending};
use std::alloc::{AllocError, Global};

/// The greatest number of bytes shown of a name.
pub(crate) const MOST_SHOWN: usize = 256;

/// Writes a text that was asked for.
pub(crate) fn show<O: Sink, D: Sink>(text: &[u8], output: &mut O, diag: &mut D) -> Status
    ensures { TextIsShown text.now (O.state output.old) (O.state output.new)
        (D.state diag.old) (D.state diag.new) result.code
        ⊎ IsCut text.now (O.state output.old) (O.state output.new)
        (D.state diag.old) (D.state diag.new) result.code }
{
    match write_all(output, text) {
        Ok(()) => Status { code: 0 },
        Err(_) => {
            report_ending(b"wineravine", ProgramEnding::WritingFailed, diag);
            Status { code: 5 }
        }
    }
}

// True if a byte neither ends a line nor returns to its front.
fn is_shown(byte: u8) -> bool
    ensures { result ≡ is_shown byte }
{
    byte != b'\n' && byte != b'\r'
}

// The bytes of a name that are shown.
fn shown_bytes(alloc: Global, name: &[u8]) -> Result<Vec<u8>, AllocError>
    ensures { IfOk result (λ v. v.items ≡ filter is_shown name.now) }
{
    let mut shown: Vec<u8> = Vec::new(alloc);
    for byte in name {
        if is_shown(*byte) {
            shown.push(*byte)?;
        }
    }
    Ok(shown)
}

// The shown part of a name.
fn shown_name(alloc: Global, name: &[u8]) -> Result<Vec<u8>, AllocError>
    ensures { IfOk result (λ v. v.items ≡ argument_name_shown name.now) }
{
    let mut shown = shown_bytes(alloc, name)?;
    shown.truncate(MOST_SHOWN);
    Ok(shown)
}

/// The line by which the interface shows its user that this engine was not started.
pub(crate) fn not_started_line(alloc: Global, engine: &str) -> Result<Vec<u8>, AllocError>
    ensures { IfOk result (λ v. v.items ≡ not_started engine.now) }
{
    let name = shown_name(alloc, engine.as_bytes())?;
    let mut line: Vec<u8> = Vec::new(alloc);
    line.extend_from_slice(b"tellusererror Engine not started: ")?;
    line.extend_from_slice(name.as_slice())?;
    line.extend_from_slice(b"\n")?;
    Ok(line)
}

/// Has the interface show its user that the arguments are wrong, and writes the reason.
pub(crate) fn refuse<O: Sink, D: Sink>(reason: &str, output: &mut O, diag: &mut D) -> Status
    ensures shown { IsReportedTo (O.state output.old) (O.state output.new) wrong_arguments }
    ensures reported { IsReportedTo (D.state diag.old) (D.state diag.new) reason.now }
    ensures code { result.code ≡ 2 }
{
    write_once(b"tellusererror wineravine: wrong arguments\n", output);
    write_once(reason.as_bytes(), diag);
    Status { code: 2 }
}

/// Writes a text as far as it can be written.
pub(crate) fn write_once<S: Sink>(text: &[u8], sink: &mut S)
    ensures { IsReportedTo (S.state sink.old) (S.state sink.new) text.now }
{
    let _ = write_all(sink, text);
}
