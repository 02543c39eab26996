// The texts that the arguments of a program may ask for in place of its work.
ghost use Rattle.std.specs.Prelude.{◌≡◌, IfOk, Some, None};
ghost use Rattle.program_command_line.specs.Arguments.Request.{argument_bytes_of};
ghost use Rattle.program_command_line.specs.Arguments.About.{IsShownAs, AboutIsShown, own_text, version_line};

use crate::VERSION;
use line_io::{Sink, Status, write_all};
use std::alloc::{AllocError, Global};

/// The name of a program, and the text of its help.
#[derive(Clone, Copy)]
pub struct About<'a> {
    pub name: &'a str,
    pub help: &'a str,
}

/// A text that a program has of itself.
#[derive(Clone, Copy, Debug, PartialEq, Eq)]
pub enum OwnText {
    Help,
    Version,
}

/// The text that the arguments ask for: `--help` or `--version` alone.
pub fn own_text(arguments: &[Vec<u8>]) -> Option<OwnText>
    ensures { result ≡ own_text (argument_bytes_of arguments.now) }
{
    let [argument] = arguments else {
        return None;
    };
    if argument.as_slice() == b"--help".as_slice() {
        Some(OwnText::Help)
    } else if argument.as_slice() == b"--version".as_slice() {
        Some(OwnText::Version)
    } else {
        None
    }
}

/// The name of a program and the version, as a line.
pub fn version_line(alloc: Global, name: &str) -> Result<Vec<u8>, AllocError>
    ensures { IfOk result (λ v. v.items ≡ version_line name.now) }
{
    let mut line: Vec<u8> = Vec::new(alloc);
    line.extend_from_slice(name.as_bytes())?;
    line.extend_from_slice(b" ")?;
    line.extend_from_slice(VERSION.as_bytes())?;
    line.extend_from_slice(b"\n")?;
    Ok(line)
}

fn show<O: Sink>(text: &[u8], output: &mut O) -> Status
    ensures { AboutIsShown text.now (O.state output.old) (O.state output.new) result.code }
{
    match write_all(output, text) {
        Ok(()) => Status { code: 0 },
        Err(_) => Status { code: 5 },
    }
}

fn show_version<O: Sink>(alloc: Global, name: &str, output: &mut O) -> Status
    ensures { AboutIsShown (version_line name.now) (O.state output.old) (O.state output.new)
        result.code }
{
    match version_line(alloc, name) {
        Ok(line) => show(line.as_slice(), output),
        Err(_) => Status { code: 3 },
    }
}

/// Writes the text that the arguments ask for, if they ask for one.
pub fn answer_about<O: Sink>(
    alloc: Global,
    arguments: &[Vec<u8>],
    about: &About,
    output: &mut O,
) -> Option<Status>
    ensures { IsShownAs about.now (own_text (argument_bytes_of arguments.now))
        (O.state output.old) (O.state output.new) result }
{
    match own_text(arguments)? {
        OwnText::Help => Some(show(about.help.as_bytes(), output)),
        OwnText::Version => Some(show_version(alloc, about.name, output)),
    }
}
