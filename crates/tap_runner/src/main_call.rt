// The program over any host.
ghost use Rattle.std.specs.Prelude.{◌≡◌};
ghost use Rattle.child_engine.specs.Hosts.{HostIsUnused, WasSinkClosed};
ghost use Rattle.program_lifecycle.specs.ByArguments.{DoesByArguments};
ghost use Rattle.program_lifecycle.specs.Endings.{program_status, program_diagnostic};
ghost use Rattle.program_lifecycle.specs.Asked.{AsksByArguments};
ghost use Rattle.program_lifecycle.specs.Outside.{outside_of};
ghost use Rattle.program_lifecycle.specs.Program.{ProgramEnds, IsReportedTo};
ghost use Rattle.program_lifecycle.specs.declared.ending.ProgramEnding.TheVariants as endings;
ghost use Rattle.program_command_line.specs.Arguments.Request.{EngineArgumentsAreTaken, argument_bytes_of};
ghost use Rattle.tap_runner.specs.Program.{program};
ghost use Rattle.tap_runner.specs.Recorded.{TapRunIsWhole};
ghost use Rattle.tap_runner.specs.Tapped.{TapLeaves};

use crate::tap_run;
use child_engine::{ClosableSink, Host};
use line_io::{Sink, Source, Status};
use program_command_line::read_arguments;
use program_lifecycle::{Interface, ProgramEnding, finish};
use std::alloc::Global;
use std::sync::Wait;
use std::thread::Threads;

// The run that the arguments ask for, and its end.
fn end_of<I: Source + Send, O: ClosableSink + Send, H: Host, R: Threads + Wait + Sync>(
    rt: &R,
    alloc: Global,
    arguments: &[Vec<u8>],
    interface: &mut Interface<I, O>,
    host: &mut H,
) -> ProgramEnding
where
    H::EngineSink: ClosableSink,
    requires { HostIsUnused (H.ledger host.old) }
    ensures ends { ProgramEnds (EngineArgumentsAreTaken (argument_bytes_of arguments.now))
        (TapLeaves (O.is_sink_closed interface.new.output)
        (WasSinkClosed H.EngineSink.state H.EngineSink.is_sink_closed)
        (outside_of I.state O.state H.faults H.ledger interface.old host.old)
        (outside_of I.state O.state H.faults H.ledger interface.new host.new))
        (outside_of I.state O.state H.faults H.ledger interface.old host.old)
        (outside_of I.state O.state H.faults H.ledger interface.new host.new)
        result }
    ensures asked { AsksByArguments (argument_bytes_of arguments.now)
        (H.asked host.old) (H.asked host.new)
        (H.faults host.old) (H.faults host.new) (H.ledger host.new) }
{
    match read_arguments(alloc, arguments) {
        Ok(request) => ProgramEnding::of(tap_run(rt, alloc, &request, interface, host)),
        Err(refusal) => ProgramEnding::from(refusal),
    }
}

/// The end of a program that has no memory for its arguments.
pub fn refuse_for_memory<D: Sink>(diag: &mut D) -> Status
    ensures status { result.code ≡ program_status endings.NoMemory }
    ensures reported { IsReportedTo (D.state diag.old) (D.state diag.new)
        (program_diagnostic program endings.NoMemory) }
{
    finish(b"tap", ProgramEnding::NoMemory, diag)
}

/// The program: it stands between a bridge, which writes to `input` and reads from `output`, and the
/// engine that the host starts. The arguments are the name of the log, the engine's program and its
/// arguments; the program's own name is not among them. A diagnostic that cannot be written changes
/// no status.
pub fn tap_main<
    I: Source + Send,
    O: ClosableSink + Send,
    H: Host,
    D: Sink,
    R: Threads + Wait + Sync,
>(
    rt: &R,
    alloc: Global,
    arguments: &[Vec<u8>],
    interface: &mut Interface<I, O>,
    host: &mut H,
    diag: &mut D,
) -> Status
where
    H::EngineSink: ClosableSink,
    requires { HostIsUnused (H.ledger host.old) }
    ensures { DoesByArguments program
        (TapLeaves (O.is_sink_closed interface.new.output)
        (WasSinkClosed H.EngineSink.state H.EngineSink.is_sink_closed))
        TapRunIsWhole (argument_bytes_of arguments.now)
        (outside_of I.state O.state H.faults H.ledger interface.old host.old)
        (outside_of I.state O.state H.faults H.ledger interface.new host.new)
        (H.asked host.old) (H.asked host.new)
        (D.state diag.old) (D.state diag.new) result.code }
{
    let ending = end_of(rt, alloc, arguments, interface, host);
    finish(b"tap", ending, diag)
}
