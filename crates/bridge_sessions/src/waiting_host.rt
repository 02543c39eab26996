// A host in memory whose engine waits for its orders.
ghost use Rattle.std.specs.Prelude.{◌≡◌};

use child_engine::{Host, HostFault, LogPlace, MemHost, Started};
use line_io::{Failed, MemSink};
use paced_host::{PacedLog, PacedSource};
use std::alloc::Global;
use std::sync::atomic::AtomicU64;

/// The text of an engine, at most six bytes at a read, and how many orders it waits for at each read:
/// `uciok` is for `uci`, `readyok`, in two pieces, for `isready`, and the end for `quit`.
pub const ENGINE: &[u8] = b"uciok\nreadyok\n";

pub const PIECE: usize = 6;

pub const ENGINE_WAITS: &[u64] = &[1, 2, 2, 3];

/// A host in memory, whose engine's reads wait for the orders that its input took, and whether one
/// waited in vain.
#[derive(Drop)]
pub struct WaitingHost<'a> {
    pub host: MemHost,
    orders: &'a AtomicU64,
    missed: bool,
}

impl<'a> WaitingHost<'a> {
    pub fn new(host: MemHost, orders: &'a AtomicU64) -> WaitingHost<'a>
        ensures { result.host ≡ host }
    {
        WaitingHost {
            host,
            orders,
            missed: false,
        }
    }

    /// True if an engine that was closed waited for an order in vain.
    pub fn has_missed(&self) -> bool {
        self.missed
    }
}

impl<'a> Host for WaitingHost<'a> {
    ghost use Rattle.std.specs.Prelude.{◌≡◌, ◌<◌, length};
    ghost use Rattle.child_engine.specs.Hosts.{ClosesBy, with_closed_run};
    ghost use Rattle.child_engine.specs.Memory.{asked_of, memory_ledger, shown_by_memory_source, shown_by_sink};

    type EngineSource = PacedSource<'a>;

    type EngineSink = PacedLog<'a>;

    type Log = MemSink;

    type EngineProcess = ();

    ghost faults = { λ h. h.host.faults };

    ghost ledger = { λ h. memory_ledger h.host };

    ghost asked = { λ h. asked_of h.host };

    fn start(
        &mut self,
        alloc: Global,
        arguments: &[String],
    ) -> Result<Started<PacedSource<'a>, PacedLog<'a>, ()>, HostFault> {
        let Started {
            source,
            sink,
            process: (),
        } = self.host.start(alloc, arguments)?;
        Ok(Started {
            source: PacedSource::new(source, self.orders, ENGINE_WAITS),
            sink: PacedLog::new(sink, self.orders),
            process: (),
        })
    }

    fn open_log(&mut self, alloc: Global, place: &LogPlace) -> Result<MemSink, HostFault> {
        self.host.open_log(alloc, place)
    }

    fn close(&mut self, run: Started<PacedSource<'a>, PacedLog<'a>, ()>) -> Result<(), Failed>
        requires { length (memory_ledger self.old.host).runs < (memory_ledger
            self.old.host).runs_out }
        ensures ledger { memory_ledger self.new.host ≡ with_closed_run (memory_ledger self.old.host)
            (shown_by_memory_source run.entry.source.source) (shown_by_sink run.entry.sink.sink) }
        ensures asked { asked_of self.new.host ≡ asked_of self.old.host }
        ensures cause { ClosesBy self.old.host.faults self.new.host.faults
            (shown_by_memory_source run.entry.source.source).faults
            (shown_by_sink run.entry.sink.sink).faults result }
    {
        let Started {
            source,
            sink,
            process: (),
        } = run;
        self.missed = self.missed || source.missed().is_some();
        self.host.close(Started {
            source: source.source,
            sink: sink.sink,
            process: (),
        })
    }

    fn close_log(&mut self, log: MemSink) {
        self.host.close_log(log)
    }
}
