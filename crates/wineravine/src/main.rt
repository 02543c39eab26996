//! The program `wineravine`: a chess interface on standard input and output, a UCI engine behind it.
#![tactic(auto)]

use child_engine::{EngineInput, RealHost};
use line_io::{ReadAdapter, WriteAdapter};
use program_command_line::{ARGUMENTS_ROOM, ClosedStreams, NO_MEMORY, arguments_of};
use program_lifecycle::Interface;
use std::process;
use std::process::{ChildStdin, ExitCode};
use wineravine_runner::{ProgramCall, refuse_for_memory, wineravine_main};

fn main(rt: HostRuntime) -> ExitCode {
    let Some(closed) = ClosedStreams::fill(&rt) else {
        return ExitCode::from(NO_MEMORY);
    };
    let mut interface = Interface {
        input: closed.input(ReadAdapter::new(rt.stdin())),
        output: closed.output(WriteAdapter::new(rt.stdout())),
    };
    let mut diag = closed.diag(WriteAdapter::new(rt.stderr()));
    let mut host = RealHost::<_, EngineInput<ChildStdin>>::new(&rt, closed.has_own_diag(&rt));
    let status = match arguments_of(&rt, rt.alloc(), ARGUMENTS_ROOM) {
        Ok(arguments) => {
            let call = ProgramCall {
                arguments: arguments.as_slice(),
                process_id: process::id(rt.process()),
            };
            wineravine_main(&rt, rt.alloc(), &call, &mut interface, &mut host, &mut diag)
        }
        Err(_) => refuse_for_memory(&mut diag),
    };
    ExitCode::from(status.code)
}
