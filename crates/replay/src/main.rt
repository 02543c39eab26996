//! The program `replay`: its commands over recorded sessions, positions and drills.
#![tactic(auto)]

use line_io::{ReadAdapter, WriteAdapter};
use program_command_line::{About, answer_about, arguments_of};
use replay_tool::{refuse_for_memory, replay_main};
use std::process::ExitCode;

const ABOUT: About = About {
    name: "replay",
    help: "Plays, checks and judges recorded sessions of a bridge between XBoard's protocol and UCI.

Usage: replay replay|check|migrate|games|positions [NAME=VALUE ..]
       replay judge [tap]
       replay revive LIVES
       replay drive
       replay moves POSITION
       replay drill NUMBER COUNT

The session is read from standard input. replay(1) says what each command does.
",
};

fn main(rt: HostRuntime) -> ExitCode {
    let mut input = ReadAdapter::new(rt.stdin());
    let mut output = WriteAdapter::new(rt.stdout());
    let mut diag = WriteAdapter::new(rt.stderr());
    let status = match arguments_of(&rt, rt.alloc(), usize::MAX) {
        Ok(arguments) => match answer_about(rt.alloc(), arguments.as_slice(), &ABOUT, &mut output) {
            Some(status) => status,
            None => replay_main(
                rt.alloc(),
                arguments.as_slice(),
                &mut input,
                &mut output,
                &mut diag,
            ),
        },
        Err(_) => refuse_for_memory(&mut diag),
    };
    ExitCode::from(status.code)
}
