//! The program `reviver`: a UCI interface on standard input and output, and behind it a UCI engine that is started again
//! when it dies.
#![tactic(auto)]

use program_command_line::{ARGUMENTS_ROOM, About, NO_MEMORY, answer_about, arguments_of};
use program_lifecycle::ProgramStart;
use reviver_runner::{refuse_for_memory, revive_main};
use std::process::ExitCode;

const ABOUT: About = About {
    name: "reviver",
    help: "A UCI engine that is started again when it dies.

Usage: reviver LIVES LOG ENGINE [ARG..]

LIVES is how often it is started at most, one digit. reviver(1) says more.
",
};

fn main(rt: HostRuntime) -> ExitCode {
    let Some(start) = ProgramStart::new(&rt, rt.stdin(), rt.stdout(), rt.stderr()) else {
        return ExitCode::from(NO_MEMORY);
    };
    let (mut interface, mut host, mut diag) = (start.interface, start.host, start.diag);
    let status = match arguments_of(&rt, rt.alloc(), ARGUMENTS_ROOM) {
        Ok(arguments) => match answer_about(
            rt.alloc(),
            arguments.as_slice(),
            &ABOUT,
            &mut interface.output,
        ) {
            Some(status) => status,
            None => revive_main(
                &rt,
                rt.alloc(),
                arguments.as_slice(),
                &mut interface,
                &mut host,
                &mut diag,
            ),
        },
        Err(_) => refuse_for_memory(&mut diag),
    };
    ExitCode::from(status.code)
}
