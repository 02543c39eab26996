// The arguments after a program's name.
use crate::expected::expect;
use program_command_line::{ARGUMENT_ROOM, ARGUMENTS_ROOM, arguments_of};
use std::alloc::Global;
use std::env::{Env, FillError};

// A program that was called with these arguments.
#[derive(Drop)]
struct Called {
    arguments: &'static [&'static [u8]],
}

impl Env for Called {
    fn arg(&self, i: usize, buf: &mut [u8]) -> Result<usize, FillError> {
        let Some(word) = self.arguments.get(i) else {
            return Err(FillError::NotPresent);
        };
        if buf.len() < word.len() {
            return Err(FillError::TooLong);
        }
        buf[..word.len()].copy_from_slice(word);
        Ok(word.len())
    }

    fn var(&self, _name: &str, _buf: &mut [u8]) -> Result<usize, FillError> {
        Err(FillError::NotPresent)
    }

    fn var_at(&self, _i: usize, _buf: &mut [u8]) -> Result<usize, FillError> {
        Err(FillError::NotPresent)
    }
}

/// The arguments that a program is called with, the room for them, and whether they fit into it.
type Row = (&'static [&'static [u8]], usize, bool);

// Two arguments of together 5 bytes take the room of two arguments, and 5 bytes.
const ROOM: usize = ARGUMENT_ROOM + ARGUMENT_ROOM + 5;

const ROWS: [Row; 4] = [
    (
        &[b"program", b"\xff", b"", &[b'a'; 300]],
        ARGUMENTS_ROOM,
        true,
    ),
    (&[b"program", b"abc", b"de"], ROOM, true),
    (&[b"program", b"abc", b"de"], ROOM - 1, false),
    (&[b"program", b"abc", b"de"], 0, false),
];

// True if the arguments are those after the program's name.
fn are_rest(found: &[Vec<u8>], arguments: &[&[u8]]) -> bool {
    for (word, wanted) in found.iter().zip(arguments.iter().skip(1)) {
        if word.as_slice() != *wanted {
            return false;
        }
    }
    found.len() + 1 == arguments.len()
}

fn is_row(alloc: Global, row: &Row) -> bool {
    let (arguments, room, fit) = row;
    match arguments_of(&Called { arguments }, alloc, *room) {
        Ok(found) => *fit && are_rest(found.as_slice(), arguments),
        Err(_) => !*fit,
    }
}

#[test]
fn all_arguments_have_room(rt: HostRuntime) {
    for row in &ROWS {
        expect(&rt, is_row(rt.alloc(), row), "room", row.1);
    }
}
