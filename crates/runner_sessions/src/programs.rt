// The three programs.
ghost use Rattle.child_engine.specs.Hosts.{HostIsUnused};

use crate::streams::words_of;
use child_engine::{ClosableSink, Host};
use driver_runner::drive_main;
use line_io::{MemSink, Source};
use program_lifecycle::Interface;
use reviver_runner::revive_main;
use std::alloc::Global;
use std::process::Abort;
use std::sync::Wait;
use std::thread::Threads;
use tap_runner::tap_main;

#[derive(Clone, Copy)]
pub enum Program {
    Driver,
    Reviver,
    Tap,
}

fn status_of<I: Source + Send, O: ClosableSink + Send, H: Host + Send, R: Threads + Wait + Sync>(
    rt: &R,
    alloc: Global,
    program: Program,
    arguments: &[Vec<u8>],
    interface: &mut Interface<I, O>,
    host: &mut H,
    diag: &mut MemSink,
) -> u8
where
    H::EngineSource: Drop,
    H::EngineSink: ClosableSink + Drop,
    H::EngineProcess: Drop + Send,
    requires { HostIsUnused (H.ledger host.old) }
{
    let status = match program {
        Program::Driver => drive_main(rt, alloc, arguments, interface, host, diag),
        Program::Reviver => revive_main(rt, alloc, arguments, interface, host, diag),
        Program::Tap => tap_main(rt, alloc, arguments, interface, host, diag),
    };
    status.code
}

/// Runs a program on the arguments between commas, and gives its status.
pub fn run_program<
    I: Source + Send,
    O: ClosableSink + Send,
    H: Host + Send,
    R: Threads + Wait + Sync + Abort,
>(
    rt: &R,
    alloc: Global,
    program: Program,
    arguments: &str,
    interface: &mut Interface<I, O>,
    host: &mut H,
    diag: &mut MemSink,
) -> u8
where
    H::EngineSource: Drop,
    H::EngineSink: ClosableSink + Drop,
    H::EngineProcess: Drop + Send,
    requires { HostIsUnused (H.ledger host.old) }
{
    let arguments = words_of(rt, alloc, arguments);
    status_of(
        rt,
        alloc,
        program,
        arguments.as_slice(),
        interface,
        host,
        diag,
    )
}
