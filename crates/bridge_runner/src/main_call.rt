// The program over any host.
ghost use Rattle.std.specs.Prelude.{◌≡◌, [], true, IfSome};
ghost use Rattle.program_command_line.specs.Arguments.Request.{argument_bytes_of};
ghost use Rattle.bridge_command_line.specs.BridgeArguments.{BridgeSettingsAreAsked, BridgeArgumentsAreTaken, bridge_engine_command, bridge_log_name, bridge_argument_values};
ghost use Rattle.child_engine.specs.Hosts.{HostIsUnused};
ghost use Rattle.child_engine.specs.Places.{log_file};
ghost use Rattle.program_lifecycle.specs.Asked.{AsksAsReported};
ghost use Rattle.program_lifecycle.specs.Endings.{program_status, program_diagnostic};
ghost use Rattle.program_lifecycle.specs.Outside.{outside_of};
ghost use Rattle.program_lifecycle.specs.Program.{StatusIsReported, ProgramEnds, IsReportedTo, StatusSays};
ghost use Rattle.program_lifecycle.specs.declared.ending.ProgramEnding.TheVariants as endings;
ghost use Rattle.bridge_runner.specs.Program.{RunsAsAsked, BridgeRunsWhole, program};

use crate::running::run_bridge;
use bridge_command_line::read_bridge_arguments;
use child_engine::{Host, LogPlace};
use event_loop::RunRequest;
use line_io::{Sink, Source, Status};
use program_lifecycle::{Interface, ProgramEnding, finish};
use std::alloc::Global;
use std::sync::Wait;
use std::thread::Threads;

// Runs the bridge that the arguments ask for, and reports how that ended.
fn end_of<I: Source + Send, O: Sink + Send, H: Host, R: Threads + Wait + Sync>(
    rt: &R,
    alloc: Global,
    arguments: &[Vec<u8>],
    interface: &mut Interface<I, O>,
    host: &mut H,
) -> ProgramEnding
    requires { HostIsUnused (H.ledger host.old) }
    ensures ends { ProgramEnds (BridgeArgumentsAreTaken (argument_bytes_of arguments.now))
        (RunsAsAsked
        (BridgeSettingsAreAsked (bridge_argument_values (argument_bytes_of arguments.now))) []
        (outside_of I.state O.state H.faults H.ledger interface.old host.old)
        (outside_of I.state O.state H.faults H.ledger interface.new host.new))
        (outside_of I.state O.state H.faults H.ledger interface.old host.old)
        (outside_of I.state O.state H.faults H.ledger interface.new host.new)
        result }
    ensures asked { AsksAsReported (bridge_engine_command (bridge_argument_values
        (argument_bytes_of arguments.now)))
        (log_file (bridge_log_name (bridge_argument_values (argument_bytes_of arguments.now))))
        (H.asked host.old) (H.asked host.new)
        (H.faults host.old) (H.faults host.new) (H.ledger host.new) }
{
    match read_bridge_arguments(alloc, arguments) {
        Ok(asked) => {
            let request = RunRequest {
                first: b"",
                log: LogPlace::File(asked.log_name.as_str()),
                engine: asked.engine.as_slice(),
            };
            ProgramEnding::of(run_bridge(rt, alloc, &asked.settings, &request, interface, host))
        }
        Err(refusal) => ProgramEnding::from(refusal),
    }
}

/// The end of a program that has no memory for its arguments.
pub fn refuse_for_memory<D: Sink>(diag: &mut D) -> Status
    ensures status { result.code ≡ program_status endings.NoMemory }
    ensures reported { IsReportedTo (D.state diag.old) (D.state diag.new)
        (program_diagnostic program endings.NoMemory) }
{
    finish(b"bridge", ProgramEnding::NoMemory, diag)
}

/// The program: a bridge between an interface, whose lines come from `input` and go to `output`,
/// and the engine that the host starts. The arguments do not have the program's name. A diagnostic
/// that cannot be written changes no status.
pub fn bridge_main<I: Source + Send, O: Sink + Send, H: Host, D: Sink, R: Threads + Wait + Sync>(
    rt: &R,
    alloc: Global,
    arguments: &[Vec<u8>],
    interface: &mut Interface<I, O>,
    host: &mut H,
    diag: &mut D,
) -> Status
    requires { HostIsUnused (H.ledger host.old) }
    ensures answers { StatusIsReported program (BridgeArgumentsAreTaken (argument_bytes_of
        arguments.now)) (RunsAsAsked
        (BridgeSettingsAreAsked (bridge_argument_values (argument_bytes_of arguments.now))) []
        (outside_of I.state O.state H.faults H.ledger interface.old host.old)
        (outside_of I.state O.state H.faults H.ledger interface.new host.new))
        (outside_of I.state O.state H.faults H.ledger interface.old host.old)
        (outside_of I.state O.state H.faults H.ledger interface.new host.new)
        (D.state diag.old) (D.state diag.new) result.code }
    ensures status { StatusSays (BridgeArgumentsAreTaken (argument_bytes_of arguments.now))
        (outside_of I.state O.state H.faults H.ledger interface.old host.old)
        (outside_of I.state O.state H.faults H.ledger interface.new host.new)
        result.code }
    ensures whole { result.code ≡ 0 → (H.ledger host.old).sinks_report ≡ true
        → IfSome (H.ledger host.old).says (λ bytes. BridgeRunsWhole
        (BridgeSettingsAreAsked (bridge_argument_values (argument_bytes_of arguments.now))) [] bytes
        (outside_of I.state O.state H.faults H.ledger interface.old host.old)
        (outside_of I.state O.state H.faults H.ledger interface.new host.new)) }
    ensures asked { AsksAsReported (bridge_engine_command (bridge_argument_values
        (argument_bytes_of arguments.now)))
        (log_file (bridge_log_name (bridge_argument_values (argument_bytes_of arguments.now))))
        (H.asked host.old) (H.asked host.new)
        (H.faults host.old) (H.faults host.new) (H.ledger host.new) }
    ensures unstarted { result.code ≡ 8
        → (I.state interface.new.input ≡ I.state interface.old.input)
        × (O.state interface.new.output ≡ O.state interface.old.output) }
{
    let ending = end_of(rt, alloc, arguments, interface, host);
    finish(b"bridge", ending, diag)
}
