// The program over any host.
ghost use Rattle.std.specs.Prelude.{◌≡◌, ◌≢◌, true, string_bytes, IfOk, IfSome};
ghost use Rattle.child_engine.specs.Hosts.{HostIsUnused};
ghost use Rattle.child_engine.specs.Places.{asked_place};
ghost use Rattle.program_command_line.specs.Arguments.Request.{argument_bytes_of};
ghost use Rattle.program_lifecycle.specs.Endings.{program_status, program_diagnostic};
ghost use Rattle.program_lifecycle.specs.Asked.{AsksAsReported};
ghost use Rattle.program_lifecycle.specs.Outside.{outside_of};
ghost use Rattle.program_lifecycle.specs.Program.{IsReportedTo, StatusSays};
ghost use Rattle.program_lifecycle.specs.declared.ending.ProgramEnding.TheVariants as endings;
ghost use Rattle.bridge_runner.specs.Program.{RunsAsAsked, BridgeRunsWhole};
ghost use Rattle.bridge_command_line.specs.WineravineArguments.{WineravineSettingsAreAsked, WineravineArgumentsAreTaken, IsRunnable, wineravine_engine_command, first_lines, wineravine_argument_values};
ghost use Rattle.wineravine_runner.specs.LogNames.{new_log_name, wineravine_log};
ghost use Rattle.wineravine_runner.specs.Program.{Did, WineravineDoes, ArgumentsFitCase, engine_named, not_started, program};

use crate::log_names::{log_place, new_log_name};
use crate::reporting::{not_started_line, refuse, show, write_once};
use bridge_command_line::{
    AskedProgram, HELP, WineravineRequest, WrongArguments, read_wineravine_arguments,
};
use bridge_runner::run_bridge;
use child_engine::{Host, LogPlace};
use event_loop::RunRequest;
use line_io::{Sink, Source, Status};
use program_command_line::version_line;
use program_lifecycle::{Failures, Interface, ProgramEnding, finish};
use std::alloc::{AllocError, Global};
use std::sync::Wait;
use std::thread::Threads;

/// A call of the program: its arguments, without its own name, and the number of its process.
#[derive(Clone, Copy)]
pub struct ProgramCall<'a> {
    pub arguments: &'a [Vec<u8>],
    pub process_id: u32,
}

/// The end of a program that has no memory for its arguments.
pub fn refuse_for_memory<D: Sink>(diag: &mut D) -> Status
    ensures status { result.code ≡ program_status endings.NoMemory }
    ensures reported { IsReportedTo (D.state diag.old) (D.state diag.new)
        (program_diagnostic program endings.NoMemory) }
{
    finish(b"wineravine", ProgramEnding::NoMemory, diag)
}

// Reports how a run ended. If its engine was not started, the interface shows that to its user.
fn report<O: Sink, D: Sink>(
    ending: ProgramEnding,
    line: &[u8],
    output: &mut O,
    diag: &mut D,
) -> Status
    ensures code { result.code ≡ program_status ending }
    ensures reported { IsReportedTo (D.state diag.old) (D.state diag.new) (program_diagnostic
        program ending) }
    ensures unstarted { result.code ≡ 8
        → IsReportedTo (O.state output.old) (O.state output.new) line.now }
    ensures quiet { result.code ≢ 8 → output.new ≡ output.old }
{
    let status = finish(b"wineravine", ending, diag);
    if status.code == 8 {
        write_once(line, output);
    }
    status
}

// The texts of a run: the line that shows that its engine was not started, and the name of a new log.
#[derive(Drop)]
struct RunTexts {
    not_started: Vec<u8>,
    log_name: String,
}

fn run_texts(alloc: Global, engine: &str, process_id: u32) -> Result<RunTexts, AllocError>
    ensures line { IfOk result (λ texts. texts.not_started.items ≡ not_started engine.now) }
    ensures name { IfOk result (λ texts. string_bytes texts.log_name
        ≡ new_log_name engine.now process_id) }
{
    Ok(RunTexts {
        not_started: not_started_line(alloc, engine)?,
        log_name: new_log_name(alloc, engine, process_id)?,
    })
}

// The run that the arguments ask for, and the place of its log.
#[derive(Clone, Copy)]
struct PlacedRun<'a> {
    request: &'a WineravineRequest,
    log: LogPlace<'a>,
}

// Makes the run that the arguments ask for.
fn run_asked<I: Source + Send, O: Sink + Send, H: Host, R: Threads + Wait + Sync>(
    rt: &R,
    alloc: Global,
    call: &ProgramCall,
    run: &PlacedRun,
    interface: &mut Interface<I, O>,
    host: &mut H,
) -> Failures
    requires runnable { IsRunnable (argument_bytes_of call.now.arguments.now) run.now.request.now }
    requires log { asked_place run.now.log
        ≡ wineravine_log (wineravine_argument_values (argument_bytes_of call.now.arguments.now))
        call.now.process_id }
    requires unused { HostIsUnused (H.ledger host.old) }
    ensures runs { RunsAsAsked (WineravineSettingsAreAsked (wineravine_argument_values
        (argument_bytes_of call.now.arguments.now)))
        (first_lines (wineravine_argument_values (argument_bytes_of call.now.arguments.now)))
        (outside_of I.state O.state H.faults H.ledger interface.old host.old)
        (outside_of I.state O.state H.faults H.ledger interface.new host.new)
        result }
    ensures asked { AsksAsReported (wineravine_engine_command (wineravine_argument_values
        (argument_bytes_of call.now.arguments.now)))
        (wineravine_log (wineravine_argument_values (argument_bytes_of call.now.arguments.now))
        call.now.process_id)
        (H.asked host.old) (H.asked host.new)
        (H.faults host.old) (H.faults host.new) (H.ledger host.new) }
{
    let request = RunRequest {
        first: run.request.first.as_slice(),
        log: run.log,
        engine: run.request.engine.as_slice(),
    };
    run_bridge(rt, alloc, &run.request.settings, &request, interface, host)
}

// Does what the arguments ask for.
#[tactic(auto, using(program_lifecycle::proofs::Asked::asks_refused))]
fn answer<I: Source + Send, O: Sink + Send, H: Host, D: Sink, R: Threads + Wait + Sync>(
    rt: &R,
    alloc: Global,
    call: &ProgramCall,
    interface: &mut Interface<I, O>,
    host: &mut H,
    diag: &mut D,
) -> Status
    requires unused { HostIsUnused (H.ledger host.old) }
    ensures did { Did (argument_bytes_of call.now.arguments.now)
        (outside_of I.state O.state H.faults H.ledger interface.old host.old)
        (outside_of I.state O.state H.faults H.ledger interface.new host.new)
        (D.state diag.old) (D.state diag.new) result.code }
    ensures asked { AsksAsReported (wineravine_engine_command (wineravine_argument_values
        (argument_bytes_of call.now.arguments.now)))
        (wineravine_log (wineravine_argument_values (argument_bytes_of call.now.arguments.now))
        call.now.process_id)
        (H.asked host.old) (H.asked host.new)
        (H.faults host.old) (H.faults host.new) (H.ledger host.new) }
{
    match read_wineravine_arguments(alloc, call.arguments) {
        Ok(AskedProgram::Run(request)) => {
            let Ok(texts) = run_texts(alloc, request.engine[0].as_str(), call.process_id) else {
                return refuse_for_memory(diag);
            };
            let run = PlacedRun {
                request: &request,
                log: log_place(&request, texts.log_name.as_str()),
            };
            let failures = run_asked(rt, alloc, call, &run, interface, host);
            let ending = ProgramEnding::of(failures);
            let line = texts.not_started.as_slice();
            report(ending, line, &mut interface.output, diag)
        }
        Ok(AskedProgram::Help) => show(HELP.as_bytes(), &mut interface.output, diag),
        Ok(AskedProgram::Version) => match version_line(alloc, "wineravine") {
            Ok(line) => show(line.as_slice(), &mut interface.output, diag),
            Err(_) => refuse_for_memory(diag),
        },
        Err(WrongArguments::Words(reason)) => refuse(reason.as_str(), &mut interface.output, diag),
        Err(WrongArguments::NoMemory) => refuse_for_memory(diag),
    }
}

/// The program: a bridge between an interface, whose lines come from `input` and go to `output`,
/// and the engine that the host starts; or a text that the arguments ask for. What cannot be written
/// of a diagnostic, or of a line that the interface is to show its user, changes no status.
pub fn wineravine_main<
    I: Source + Send,
    O: Sink + Send,
    H: Host,
    D: Sink,
    R: Threads + Wait + Sync,
>(
    rt: &R,
    alloc: Global,
    call: &ProgramCall,
    interface: &mut Interface<I, O>,
    host: &mut H,
    diag: &mut D,
) -> Status
    requires { HostIsUnused (H.ledger host.old) }
    ensures does { WineravineDoes (argument_bytes_of call.now.arguments.now)
        (outside_of I.state O.state H.faults H.ledger interface.old host.old)
        (outside_of I.state O.state H.faults H.ledger interface.new host.new)
        (D.state diag.old) (D.state diag.new) result.code }
    ensures status { StatusSays (ArgumentsFitCase (argument_bytes_of call.now.arguments.now))
        (outside_of I.state O.state H.faults H.ledger interface.old host.old)
        (outside_of I.state O.state H.faults H.ledger interface.new host.new)
        result.code }
    ensures unstarted { result.code ≡ 8
        → (I.state interface.new.input ≡ I.state interface.old.input)
        × IsReportedTo (O.state interface.old.output) (O.state interface.new.output)
        (not_started (engine_named (argument_bytes_of call.now.arguments.now))) }
    ensures whole { result.code ≡ 0 → WineravineArgumentsAreTaken (argument_bytes_of call.now.arguments.now)
        → (H.ledger host.old).sinks_report ≡ true
        → IfSome (H.ledger host.old).says (λ bytes. BridgeRunsWhole
        (WineravineSettingsAreAsked (wineravine_argument_values (argument_bytes_of call.now.arguments.now)))
        (first_lines (wineravine_argument_values (argument_bytes_of call.now.arguments.now))) bytes
        (outside_of I.state O.state H.faults H.ledger interface.old host.old)
        (outside_of I.state O.state H.faults H.ledger interface.new host.new)) }
    ensures asked { AsksAsReported (wineravine_engine_command (wineravine_argument_values
        (argument_bytes_of call.now.arguments.now)))
        (wineravine_log (wineravine_argument_values (argument_bytes_of call.now.arguments.now))
        call.now.process_id)
        (H.asked host.old) (H.asked host.new)
        (H.faults host.old) (H.faults host.new) (H.ledger host.new) }
{
    answer(rt, alloc, call, interface, host, diag)
}
