// The edge to the world: programs and files.
ghost use Rattle.std.specs.Prelude.{◌≡◌, ◌≢◌, ◌<◌, [], ◌∷◌, ◌++◌, length, map, string_bytes, IfOk, OnOk};
ghost use Rattle.std.specs.Process.{command_program, command_args};
ghost use Rattle.std.specs.IoError.{error_kind};
ghost use Rattle.std.specs.declared.io.ErrorKind.TheVariants as kinds;
ghost use Rattle.child_engine.specs.Hosts.{RisesBy};
ghost use Rattle.child_engine.specs.declared.host.HostFault.TheVariants as faults;

use crate::host::raised;
use crate::real_files::log_file;
use crate::{Faults, Host, HostFault, LogPlace, PipeSink, RealProcess, Started};
use line_io::{Failed, NoMemory, ReadAdapter, WriteAdapter};
use std::alloc::Global;
use std::fs::{File, Files};
use std::io;
use std::io::ErrorKind;
use std::marker::PhantomData;
use std::process::{ChildStdin, ChildStdout, Command, Processes, Stdio, SystemProcess};

/// A host of real programs and files, over the handle `R` by which it starts and opens them. The
/// engine's standard error is that of this process or the null device. The engine's input is an `S`,
/// which decides when it is closed.
#[derive(Drop)]
pub struct RealHost<R, S> {
    rt: R,
    shares_diag: bool,
    faults: Faults,
    runs_out: u8,
    logs_out: u8,
    runs_closed: u8,
    logs_closed: u8,
    input: PhantomData<S>,
}

/// Why the system did not start a program or open a file.
pub(crate) fn fault_of(error: io::Error) -> HostFault
    ensures memory { result ≡ faults.NoMemory → error_kind error ≡ kinds.OutOfMemory }
    ensures failed { result ≡ faults.Failed → error_kind error ≢ kinds.OutOfMemory }
{
    match error.kind() {
        ErrorKind::OutOfMemory => HostFault::NoMemory,
        _ => HostFault::Failed,
    }
}

// Lack of memory is no failure of a host.
fn counted(count: u64, fault: HostFault) -> u64
    ensures memory { fault ≡ faults.NoMemory → result ≡ count }
    ensures failed { fault ≡ faults.Failed → RisesBy 1 count result }
{
    match fault {
        HostFault::NoMemory => count,
        HostFault::Failed => count.saturating_add(1),
    }
}

// Hands the command one argument more.
fn put_argument(argument: &str, command: &mut Command) -> Result<(), NoMemory>
    ensures program { OnOk result (command_program command.new ≡ command_program command.old) }
    ensures arguments_put { OnOk result (command_args command.new
        ≡ command_args command.old ++ argument.now ∷ []) }
{
    match command.arg(argument) {
        Ok(_) => Ok(()),
        Err(_) => Err(NoMemory),
    }
}

// Hands the command its arguments.
fn put_arguments(arguments: &[String], command: &mut Command) -> Result<(), NoMemory>
    ensures program { OnOk result (command_program command.new ≡ command_program command.old) }
    ensures arguments_put { OnOk result (command_args command.new
        ≡ command_args command.old ++ map string_bytes arguments.now) }
{
    for argument in arguments {
        put_argument(argument.as_str(), command)?;
    }
    Ok(())
}

// The command that these arguments name, the first being its program and the others its arguments.
fn command_of(alloc: Global, arguments: &[String]) -> Result<Command, NoMemory>
    requires { 0 < length arguments.now }
    ensures { IfOk result (λ c. command_program c ∷ command_args c ≡ map string_bytes
        arguments.now) }
{
    let Ok(mut command) = Command::new(alloc, arguments[0].as_str()) else {
        return Err(NoMemory);
    };
    put_arguments(&arguments[1..], &mut command)?;
    Ok(command)
}

// The standard error of an engine: that of this process or the null device. An engine without one
// would write into the file that it opens first.
fn diag_of(is_shared: bool) -> Stdio {
    if is_shared {
        Stdio::inherit()
    } else {
        Stdio::null()
    }
}

impl<R, S> RealHost<R, S> {
    ghost use Rattle.std.specs.Prelude.{None, false};
    ghost use Rattle.child_engine.specs.Hosts.{unused_ledger};
    ghost use Rattle.child_engine.specs.Real.{real_ledger};
    ghost use Rattle.child_engine.specs.Steady.{no_faults};

    /// A host that has handed out nothing. Its engines share the standard error of this process, or
    /// else have the null device.
    pub fn new(rt: R, shares_diag: bool) -> RealHost<R, S>
        ensures ledger { real_ledger result
            ≡ unused_ledger None false }
        ensures faults { result.faults ≡ no_faults }
        ensures diag { result.shares_diag ≡ shares_diag }
    {
        RealHost {
            rt,
            shares_diag,
            faults: Faults::default(),
            runs_out: 0,
            logs_out: 0,
            runs_closed: 0,
            logs_closed: 0,
            input: PhantomData,
        }
    }
}

type StartedEngine<S> = Started<ReadAdapter<ChildStdout>, S, RealProcess>;

impl<
    R: Processes<Started = SystemProcess> + Files<File = File>,
    S: PipeSink<ChildStdin> + Send + Drop,
> Host for RealHost<R, S> {
    ghost use Rattle.std.specs.Prelude.{◌≡◌, ◌<◌, length, map, string_bytes, IfOk, OnOk, OnErr};
    ghost use Rattle.line_io.specs.Adapters.{reader_faults};
    ghost use Rattle.child_engine.specs.Hosts.{ClosesBy, HoldsOn, StartsBy, with_closed_run, with_run};
    ghost use Rattle.child_engine.specs.Real.{real_ledger, spawned_command, real_mute_sink, mute_source};

    type EngineSource = ReadAdapter<ChildStdout>;

    type EngineSink = S;

    type Log = WriteAdapter<File>;

    type EngineProcess = RealProcess;

    ghost faults = { λ h. h.faults };

    ghost ledger = { λ h. real_ledger h };

    fn start(&mut self, alloc: Global, arguments: &[String]) -> Result<StartedEngine<S>, HostFault>
        requires arguments { 0 < length arguments.now }
        requires few { (real_ledger self.old).runs_out < 10 }
        ensures out { OnOk result (real_ledger self.new ≡ with_run (real_ledger self.old)) }
        ensures source { IfOk result (λ run. reader_faults run.source ≡ 0) }
        ensures sink { IfOk result (λ run. S.state run.sink ≡ real_mute_sink 0) }
        ensures held { IfOk result (λ run. HoldsOn S.is_sink_closed run.sink) }
        ensures command { IfOk result (λ run.
            spawned_command run.process ≡ map string_bytes arguments.now) }
        ensures err { OnErr result (real_ledger self.new ≡ real_ledger self.old) }
        ensures cause { StartsBy self.old.faults self.new.faults result }
    {
        let command = command_of(alloc, arguments)?;
        let mut process = match RealProcess::spawn(&self.rt, command, &diag_of(self.shares_diag)) {
            Ok(process) => process,
            Err(error) => {
                let fault = fault_of(error);
                self.faults.starts = counted(self.faults.starts, fault);
                return Err(fault);
            }
        };
        let Some((input, output)) = process.take_pipes() else {
            self.faults.starts = self.faults.starts.saturating_add(1);
            return Err(HostFault::Failed);
        };
        self.runs_out += 1;
        Ok(Started {
            source: ReadAdapter::new(output),
            sink: S::over(input),
            process,
        })
    }

    fn open_log(
        &mut self,
        alloc: Global,
        place: &LogPlace,
    ) -> Result<WriteAdapter<File>, HostFault> {
        let file = match log_file(&self.rt, alloc, place) {
            Ok(file) => file,
            Err(fault) => {
                self.faults.logs = counted(self.faults.logs, fault);
                return Err(fault);
            }
        };
        self.logs_out += 1;
        Ok(WriteAdapter::new(file))
    }

    #[tactic(auto, using(crate::proofs::Mute::runs_count))]
    fn close(&mut self, run: StartedEngine<S>) -> Result<(), Failed>
        requires { length (real_ledger self.old).runs < (real_ledger self.old).runs_out }
        ensures ledger { real_ledger self.new
            ≡ with_closed_run (real_ledger self.old) (mute_source 0) (S.state run.sink) }
        ensures cause { ClosesBy self.old.faults self.new.faults
            (reader_faults run.source) (S.state run.sink).faults result }
    {
        let Started {
            source,
            sink,
            process,
        } = run;
        self.faults.reads = raised(self.faults.reads, source.faults());
        self.faults.writes = raised(self.faults.writes, sink.faults());
        self.runs_closed += 1;
        // an engine that waits for either pipe can end only once both are closed
        drop(sink);
        drop(source);
        if process.wait().is_err() {
            self.faults.waits = self.faults.waits.saturating_add(1);
            return Err(Failed);
        }
        Ok(())
    }

    #[tactic(auto, using(crate::proofs::Mute::logs_count))]
    fn close_log(&mut self, log: WriteAdapter<File>) {
        self.faults.logs = raised(self.faults.logs, log.faults());
        self.logs_closed += 1;
    }
}
