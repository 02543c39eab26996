//! The program `driver`: a UCI interface on standard input and output, a CECP engine behind it.
#![tactic(auto)]

use driver_runner::{drive_main, refuse_for_memory};
use program_command_line::{ARGUMENTS_ROOM, About, NO_MEMORY, answer_about, arguments_of};
use program_lifecycle::ProgramStart;
use std::process::ExitCode;

const ABOUT: About = About {
    name: "driver",
    help: "A CECP engine, as XBoard has them, under an interface that speaks UCI.

Usage: driver LOG ENGINE [ARG..]

LOG is made anew by each run. driver(1) says more.
",
};

fn main(rt: HostRuntime) -> ExitCode {
    let Some(start) = ProgramStart::new(&rt, rt.stdin(), rt.stdout(), rt.stderr()) else {
        return ExitCode::from(NO_MEMORY);
    };
    let (mut interface, mut host, mut diag) = (start.interface, start.host, start.diag);
    let status = match arguments_of(&rt, rt.alloc(), ARGUMENTS_ROOM) {
        Ok(arguments) => match answer_about(
            rt.alloc(),
            arguments.as_slice(),
            &ABOUT,
            &mut interface.output,
        ) {
            Some(status) => status,
            None => drive_main(
                &rt,
                rt.alloc(),
                arguments.as_slice(),
                &mut interface,
                &mut host,
                &mut diag,
            ),
        },
        Err(_) => refuse_for_memory(&mut diag),
    };
    ExitCode::from(status.code)
}
