// Where engines and logs come from.
ghost use Rattle.std.specs.Prelude.{◌≡◌, ◌<◌, ◌≤◌, length, map, string_bytes, IfOk, OnOk, OnErr};
ghost use Rattle.child_engine.specs.Asked.{Asked, Asks, not_kept, and_engines, and_logs};
ghost use Rattle.child_engine.specs.Places.{asked_place};
ghost use Rattle.child_engine.specs.Hosts.{Ledger, with_run, with_log, with_closed_run, with_closed_log, fresh_source, fresh_sink, StartsBy, OpensBy, ClosesBy, ClosesLogBy, RisesBy};

use crate::LogPlace;
use line_io::{Failed, NoMemory, Sink, Source};
use std::alloc::Global;

/// Why a host hands out nothing.
#[derive(Clone, Copy, Debug, PartialEq, Eq)]
pub enum HostFault {
    Failed,
    NoMemory,
}

impl From<NoMemory> for HostFault {
    ghost use Rattle.std.specs.Prelude.{◌≡◌};
    ghost use Rattle.child_engine.specs.declared.host.HostFault.TheVariants as faults;

    ghost from_gives = { λ e r. r ≡ faults.NoMemory };

    fn from(_: NoMemory) -> Self {
        HostFault::NoMemory
    }
}

/// The number of times that each kind of call failed, or a part that was closed had failed. Each count stays at
/// the last value of its type.
#[derive(Clone, Copy, Default)]
pub struct Faults {
    pub starts: u64,
    pub reads: u64,
    pub writes: u64,
    pub logs: u64,
    pub waits: u64,
}

// One more, if the part had failed.
pub(crate) fn raised(count: u64, part: u64) -> u64
    ensures { RisesBy part count result }
{
    if part == 0 {
        count
    } else {
        count.saturating_add(1)
    }
}

/// A started engine: its output, its input, and what it is waited for by.
pub struct Started<S, K, P> {
    pub source: S,
    pub sink: K,
    pub process: P,
}

/// Starts engines and opens logs, and takes them back.
pub trait Host {
    ghost use Rattle.child_engine.specs.declared.host.Faults.{Faults};

    type EngineSource: Source + Send;

    type EngineSink: Sink + Send;

    type Log: Sink + Send + Drop;

    type EngineProcess;

    /// The failures of each kind of call.
    ghost faults: { Self → Faults };

    /// The reports of the parts, what was handed out, and what was shown by that which was closed.
    ghost ledger: { Self → Ledger };

    /// The arguments of each engine that was to be started and the place of each log that was to be
    /// opened, whether that succeeded or failed, if the host keeps them.
    ghost asked: { Self → Asked } = { λ _. not_kept };

    /// Starts the engine that the arguments name, the first being its program.
    fn start(
        &mut self,
        alloc: Global,
        arguments: &[String],
    ) -> Result<Started<Self::EngineSource, Self::EngineSink, Self::EngineProcess>, HostFault>
        requires arguments { 0 < length arguments.now }
        requires few { (ledger self.old).runs_out < 10 }
        ensures out { OnOk result (ledger self.new ≡ with_run (ledger self.old)) }
        ensures source { IfOk result (λ run.
            Self.EngineSource.state run.source ≡ fresh_source (ledger self.old).says) }
        ensures sink { IfOk result (λ run.
            Self.EngineSink.state run.sink ≡ fresh_sink (ledger self.old).sinks_report) }
        ensures err { OnErr result (ledger self.new ≡ ledger self.old) }
        ensures asked { Asks (asked self.old)
            (and_engines 1 (map string_bytes arguments.now) (asked self.old)) (asked self.new)
            result }
        ensures cause { StartsBy (faults self.old) (faults self.new) result };

    /// Makes the log at this place.
    fn open_log(&mut self, alloc: Global, place: &LogPlace) -> Result<Self::Log, HostFault>
        requires few { (ledger self.old).logs_out < 10 }
        ensures out { OnOk result (ledger self.new ≡ with_log (ledger self.old)) }
        ensures log { IfOk result (λ log.
            Self.Log.state log ≡ fresh_sink (ledger self.old).sinks_report) }
        ensures err { OnErr result (ledger self.new ≡ ledger self.old) }
        ensures asked { Asks (asked self.old)
            (and_logs 1 (asked_place place.now) (asked self.old)) (asked self.new) result }
        ensures cause { OpensBy (faults self.old) (faults self.new) result };

    /// Closes the engine's pipes, and waits for the engine's end.
    fn close(
        &mut self,
        run: Started<Self::EngineSource, Self::EngineSink, Self::EngineProcess>,
    ) -> Result<(), Failed>
        requires { length (ledger self.old).runs < (ledger self.old).runs_out }
        ensures ledger { ledger self.new
            ≡ with_closed_run (ledger self.old) (Self.EngineSource.state run.source)
            (Self.EngineSink.state run.sink) }
        ensures asked { asked self.new ≡ asked self.old }
        ensures cause { ClosesBy (faults self.old) (faults self.new)
            (Self.EngineSource.state run.source).faults
            (Self.EngineSink.state run.sink).faults result };

    /// Takes a log back.
    fn close_log(&mut self, log: Self::Log)
        requires { length (ledger self.old).logs < (ledger self.old).logs_out }
        ensures ledger { ledger self.new ≡ with_closed_log (ledger self.old) (Self.Log.state log) }
        ensures asked { asked self.new ≡ asked self.old }
        ensures cause { ClosesLogBy (faults self.old) (faults self.new)
            (Self.Log.state log).faults };
}
