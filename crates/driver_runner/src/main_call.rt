// The program over any host.
ghost use Rattle.std.specs.Prelude.{◌≡◌};
ghost use Rattle.child_engine.specs.Hosts.{HostIsUnused};
ghost use Rattle.program_lifecycle.specs.Asked.{AsksByArguments};
ghost use Rattle.program_lifecycle.specs.ByArguments.{DoesByArguments};
ghost use Rattle.program_lifecycle.specs.Endings.{program_status, program_diagnostic};
ghost use Rattle.program_lifecycle.specs.Outside.{outside_of};
ghost use Rattle.program_lifecycle.specs.Program.{ProgramEnds, IsReportedTo};
ghost use Rattle.program_lifecycle.specs.declared.ending.ProgramEnding.TheVariants as endings;
ghost use Rattle.program_command_line.specs.Arguments.Request.{EngineArgumentsAreTaken, argument_bytes_of};
ghost use Rattle.driver_runner.specs.Driven.{DriverLeaves};
ghost use Rattle.driver_runner.specs.Recorded.{DriverRunIsWhole};
ghost use Rattle.driver_runner.specs.Program.{program};

use crate::drive_run;
use child_engine::Host;
use line_io::{Sink, Source, Status};
use program_command_line::read_arguments;
use program_lifecycle::{Interface, ProgramEnding, finish};
use std::alloc::Global;
use std::sync::Wait;
use std::thread::Threads;

// Runs the driver that the arguments ask for, and reports how that ended.
fn end_of<I: Source + Send, O: Sink + Send, H: Host, R: Threads + Wait + Sync>(
    rt: &R,
    alloc: Global,
    arguments: &[Vec<u8>],
    interface: &mut Interface<I, O>,
    host: &mut H,
) -> ProgramEnding
    requires { HostIsUnused (H.ledger host.old) }
    ensures ends { ProgramEnds (EngineArgumentsAreTaken (argument_bytes_of arguments.now))
        (DriverLeaves
        (outside_of I.state O.state H.faults H.ledger interface.old host.old)
        (outside_of I.state O.state H.faults H.ledger interface.new host.new))
        (outside_of I.state O.state H.faults H.ledger interface.old host.old)
        (outside_of I.state O.state H.faults H.ledger interface.new host.new)
        result }
    ensures asked { AsksByArguments (argument_bytes_of arguments.now)
        (H.asked host.old) (H.asked host.new)
        (H.faults host.old) (H.faults host.new) (H.ledger host.new) }
{
    match read_arguments(alloc, arguments) {
        Ok(request) => ProgramEnding::of(drive_run(
            rt,
            alloc,
            request.log_name.as_str(),
            request.engine.as_slice(),
            interface,
            host,
        )),
        Err(refusal) => ProgramEnding::from(refusal),
    }
}

/// The end of a program that has no memory for its arguments.
pub fn refuse_for_memory<D: Sink>(diag: &mut D) -> Status
    ensures status { result.code ≡ program_status endings.NoMemory }
    ensures reported { IsReportedTo (D.state diag.old) (D.state diag.new)
        (program_diagnostic program endings.NoMemory) }
{
    finish(b"driver", ProgramEnding::NoMemory, diag)
}

/// The program: a driver between a UCI interface, whose orders come from `input` and whose answers
/// go to `output`, and the CECP engine that the host starts. The arguments are the name of the log, the
/// engine's program and its arguments; the program's own name is not among them. A diagnostic that
/// cannot be written changes no status.
pub fn drive_main<I: Source + Send, O: Sink + Send, H: Host, D: Sink, R: Threads + Wait + Sync>(
    rt: &R,
    alloc: Global,
    arguments: &[Vec<u8>],
    interface: &mut Interface<I, O>,
    host: &mut H,
    diag: &mut D,
) -> Status
    requires { HostIsUnused (H.ledger host.old) }
    ensures { DoesByArguments program DriverLeaves DriverRunIsWhole (argument_bytes_of
        arguments.now)
        (outside_of I.state O.state H.faults H.ledger interface.old host.old)
        (outside_of I.state O.state H.faults H.ledger interface.new host.new)
        (H.asked host.old) (H.asked host.new)
        (D.state diag.old) (D.state diag.new) result.code }
{
    let ending = end_of(rt, alloc, arguments, interface, host);
    finish(b"driver", ending, diag)
}
