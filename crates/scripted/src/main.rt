//! `scripted FILE`: an engine whose answers stand in a script.
#![tactic(auto)]

use line_io::{ReadAdapter, WriteAdapter};
use program_command_line::{About, ClosedStreams, NO_MEMORY, answer_about, arguments_of};
use scripted_engine::scripted_main;
use std::fs::File;
use std::io::{ErrorKind, Read};
use std::process::ExitCode;
use std::{fs, io, str};

/// A reader that opens its file at the first read, so that a file that cannot be opened is a read
/// that failed. No file has a name that is not UTF-8.
#[derive(Drop)]
struct OpenedLate<'a> {
    rt: &'a HostRuntime,
    name: &'a [u8],
    file: Option<File>,
}

impl Read for OpenedLate<'_> {
    fn read(&mut self, buf: &mut [u8]) -> io::Result<usize> {
        if self.file.is_none() {
            let Ok(name) = str::from_utf8(self.name) else {
                return Err(io::Error::from(ErrorKind::NotFound));
            };
            self.file = Some(fs::open(self.rt, name)?);
        }
        match &mut self.file {
            Some(file) => file.read(buf),
            None => Ok(0),
        }
    }
}

/// The name of the script, if there are arguments.
fn name_in(arguments: &[Vec<u8>]) -> &[u8] {
    match arguments.first() {
        Some(word) => word.as_slice(),
        None => b"",
    }
}

const ABOUT: About = About {
    name: "scripted",
    help: "An engine whose answers stand in a file.

Usage: scripted FILE

scripted(1) says how FILE is written.
",
};

fn main(rt: HostRuntime) -> ExitCode {
    let Some(closed) = ClosedStreams::fill(&rt) else {
        return ExitCode::from(NO_MEMORY);
    };
    let Ok(arguments) = arguments_of(&rt, rt.alloc(), usize::MAX) else {
        return ExitCode::from(NO_MEMORY);
    };
    let mut output = closed.output(WriteAdapter::new(rt.stdout()));
    if let Some(status) = answer_about(rt.alloc(), arguments.as_slice(), &ABOUT, &mut output) {
        return ExitCode::from(status.code);
    }
    let mut file = ReadAdapter::new(OpenedLate {
        rt: &rt,
        name: name_in(arguments.as_slice()),
        file: None,
    });
    let mut input = closed.input(ReadAdapter::new(rt.stdin()));
    let status = scripted_main(
        rt.alloc(),
        arguments.as_slice(),
        &mut file,
        &mut input,
        &mut output,
    );
    ExitCode::from(status.code)
}
