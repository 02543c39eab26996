//! The program `tap`: between a bridge on standard input and output and its engine.
#![tactic(auto)]

use child_engine::{Closing, RealHost};
use line_io::{ReadAdapter, WriteAdapter};
use os::FromRawFd;
use program_command_line::{
    ARGUMENTS_ROOM, About, ClosedStreams, NO_MEMORY, answer_about, arguments_of,
};
use program_lifecycle::Interface;
use std::os::fd::OwnedFd;
use std::process::{ChildStdin, ExitCode};
use tap_runner::{refuse_for_memory, tap_main};

// Standard output as this program's own: it is closed when this sink is. If it was closed at the
// start, it is closed already.
fn own_output(closed: &ClosedStreams) -> Closing<ChildStdin> {
    if closed.has_output() {
        let output = unsafe { OwnedFd::from_raw_fd(1) };
        Closing::new(ChildStdin::from(output))
    } else {
        Closing::shut()
    }
}

const ABOUT: About = About {
    name: "tap",
    help: "Stands between any bridge and its UCI engine, and logs what both say.

Usage: tap LOG ENGINE [ARG..]

LOG is made anew by each run. tap(1) says more.
",
};

fn main(rt: HostRuntime) -> ExitCode {
    let Some(closed) = ClosedStreams::fill(&rt) else {
        return ExitCode::from(NO_MEMORY);
    };
    let mut interface = Interface {
        input: closed.input(ReadAdapter::new(rt.stdin())),
        output: own_output(&closed),
    };
    let mut diag = closed.diag(WriteAdapter::new(rt.stderr()));
    let mut host = RealHost::<_, Closing<ChildStdin>>::new(&rt, closed.has_diag());
    let status = match arguments_of(&rt, rt.alloc(), ARGUMENTS_ROOM) {
        Ok(arguments) => match answer_about(
            rt.alloc(),
            arguments.as_slice(),
            &ABOUT,
            &mut interface.output,
        ) {
            Some(status) => status,
            None => tap_main(
                &rt,
                rt.alloc(),
                arguments.as_slice(),
                &mut interface,
                &mut host,
                &mut diag,
            ),
        },
        Err(_) => refuse_for_memory(&mut diag),
    };
    ExitCode::from(status.code)
}
