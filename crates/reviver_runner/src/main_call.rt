// The program over any host.
ghost use Rattle.std.specs.Prelude.{◌≡◌, drop, true, IfSome};
ghost use Rattle.child_engine.specs.Hosts.{HostIsUnused};
ghost use Rattle.program_lifecycle.specs.Endings.{program_status, program_diagnostic};
ghost use Rattle.program_lifecycle.specs.Asked.{AsksByArguments};
ghost use Rattle.program_lifecycle.specs.Outside.{outside_of};
ghost use Rattle.program_lifecycle.specs.Program.{StatusIsReported, ProgramEnds, IsReportedTo, StatusSays};
ghost use Rattle.program_lifecycle.specs.declared.ending.ProgramEnding.TheVariants as endings;
ghost use Rattle.program_command_line.specs.Arguments.Request.{argument_bytes_of};
ghost use Rattle.reviver_runner.specs.Program.{program, LeavesFor, ReviverRunsWhole};
ghost use Rattle.reviver_runner.specs.Arguments.{ReviverArgumentsAreTaken};

use crate::{ReviverRequest, read_arguments, revive_run};
use child_engine::{ClosableSink, Host};
use line_io::{Sink, Source, Status};
use program_command_line::EngineRequest;
use program_lifecycle::{Interface, ProgramEnding, finish};
use std::alloc::Global;
use std::sync::Wait;
use std::thread::Threads;

// The run that the arguments ask for, and its end.
fn end_of<I: Source + Send, O: Sink + Send, H: Host + Send, R: Threads + Wait + Sync>(
    rt: &R,
    alloc: Global,
    arguments: &[Vec<u8>],
    interface: &mut Interface<I, O>,
    host: &mut H,
) -> ProgramEnding
where
    H::EngineSource: Drop,
    H::EngineSink: ClosableSink + Drop,
    H::EngineProcess: Drop + Send,
    requires { HostIsUnused (H.ledger host.old) }
    ensures ends { ProgramEnds (ReviverArgumentsAreTaken (argument_bytes_of arguments.now))
        (LeavesFor (argument_bytes_of arguments.now)
        (outside_of I.state O.state H.faults H.ledger interface.old host.old)
        (outside_of I.state O.state H.faults H.ledger interface.new host.new))
        (outside_of I.state O.state H.faults H.ledger interface.old host.old)
        (outside_of I.state O.state H.faults H.ledger interface.new host.new)
        result }
    ensures asked { AsksByArguments (drop 1 (argument_bytes_of arguments.now))
        (H.asked host.old) (H.asked host.new)
        (H.faults host.old) (H.faults host.new) (H.ledger host.new) }
{
    match read_arguments(alloc, arguments) {
        Ok(request) => {
            let ReviverRequest {
                lives,
                log_name,
                engine,
            } = request;
            let request = EngineRequest { log_name, engine };
            ProgramEnding::of(revive_run(rt, alloc, lives, request, interface, host))
        }
        Err(refusal) => ProgramEnding::from(refusal),
    }
}

/// The end of a program that has no memory for its arguments.
pub fn refuse_for_memory<D: Sink>(diag: &mut D) -> Status
    ensures status { result.code ≡ program_status endings.NoMemory }
    ensures reported { IsReportedTo (D.state diag.old) (D.state diag.new)
        (program_diagnostic program endings.NoMemory) }
{
    finish(b"reviver", ProgramEnding::NoMemory, diag)
}

/// The program: between a UCI interface, whose orders come from `input` and whose answers go to
/// `output`, and the UCI engine that the host starts, again when it dies. The arguments are how many
/// lives may be begun at most, the name of the log, the engine's program and its arguments; the
/// program's own name is not among them. A diagnostic that cannot be written changes no status.
pub fn revive_main<
    I: Source + Send,
    O: Sink + Send,
    H: Host + Send,
    D: Sink,
    R: Threads + Wait + Sync,
>(
    rt: &R,
    alloc: Global,
    arguments: &[Vec<u8>],
    interface: &mut Interface<I, O>,
    host: &mut H,
    diag: &mut D,
) -> Status
where
    H::EngineSource: Drop,
    H::EngineSink: ClosableSink + Drop,
    H::EngineProcess: Drop + Send,
    requires { HostIsUnused (H.ledger host.old) }
    ensures answers { StatusIsReported program (ReviverArgumentsAreTaken (argument_bytes_of
        arguments.now))
        (LeavesFor (argument_bytes_of arguments.now)
        (outside_of I.state O.state H.faults H.ledger interface.old host.old)
        (outside_of I.state O.state H.faults H.ledger interface.new host.new))
        (outside_of I.state O.state H.faults H.ledger interface.old host.old)
        (outside_of I.state O.state H.faults H.ledger interface.new host.new)
        (D.state diag.old) (D.state diag.new) result.code }
    ensures status { StatusSays (ReviverArgumentsAreTaken (argument_bytes_of arguments.now))
        (outside_of I.state O.state H.faults H.ledger interface.old host.old)
        (outside_of I.state O.state H.faults H.ledger interface.new host.new)
        result.code }
    ensures whole { result.code ≡ 0 → (H.ledger host.old).sinks_report ≡ true
        → IfSome (H.ledger host.old).says (λ bytes. ReviverRunsWhole (argument_bytes_of
        arguments.now) bytes
        (outside_of I.state O.state H.faults H.ledger interface.old host.old)
        (outside_of I.state O.state H.faults H.ledger interface.new host.new)) }
    ensures asked { AsksByArguments (drop 1 (argument_bytes_of arguments.now))
        (H.asked host.old) (H.asked host.new)
        (H.faults host.old) (H.faults host.new) (H.ledger host.new) }
{
    let ending = end_of(rt, alloc, arguments, interface, host);
    finish(b"reviver", ending, diag)
}
