// A host in memory.
ghost use Rattle.std.specs.Prelude.{◌≡◌, ◌<◌, ◌≤◌, Some, [], slice_get, length, map, string_bytes, vec_items, vec_len, vec_capacity, IfOk, IfSome, OnOk};

use crate::copies::copies_of;
use crate::host::raised;
use crate::mem_files::{MemFiles, make_file, put_name};
use crate::places::kept_place;
use crate::{AskedLog, Faults, Host, HostFault, LogPlace, Started};
use line_io::{Failed, MemSink, MemSource, NoMemory};
use std::alloc::Global;

/// The calls that fail: reads of each run's source, writes of its sink and of each log by their
/// numbers, counted from 1.
#[derive(Clone, Copy, Default)]
pub struct Fails<'a> {
    pub start: bool,
    pub log: bool,
    pub wait: bool,
    pub reads: &'a [u64],
    pub writes: &'a [u64],
    pub logs: &'a [u64],
}

// The parts of a run that was closed.
#[derive(Drop)]
struct ClosedRun {
    source: MemSource,
    sink: MemSink,
}

/// A host whose engine says the same bytes in each run.
#[derive(Drop)]
pub struct MemHost {
    engine: Vec<u8>,
    piece: usize,
    room: usize,
    fails_start: bool,
    fails_log: bool,
    fails_wait: bool,
    failing_reads: Vec<u64>,
    failing_writes: Vec<u64>,
    failing_logs: Vec<u64>,
    faults: Faults,
    runs_out: u8,
    logs_out: u8,
    runs: Vec<ClosedRun>,
    closed_logs: Vec<MemSink>,
    // the requests so far, whether they failed or not
    engines: Vec<Vec<String>>,
    log_places: Vec<AskedLog>,
    disk: MemFiles,
    ghost some_piece: { 0 < piece },
    ghost few_runs: { (vec_len runs ≤ runs_out) × (runs_out ≤ 10) × (10 ≤ vec_capacity runs) },
    ghost few_logs: { (vec_len closed_logs ≤ logs_out) × (logs_out ≤ 10)
        × (10 ≤ vec_capacity closed_logs) },
}

impl MemHost {
    ghost use Rattle.std.specs.Prelude.{true};
    ghost use Rattle.child_engine.specs.Hosts.{unused_ledger};
    ghost use Rattle.child_engine.specs.Asked.{none_asked};
    ghost use Rattle.child_engine.specs.Memory.{asked_of, disk_of, kept_place, memory_ledger, means_of};
    ghost use Rattle.child_engine.specs.Places.{no_disk, with_file};
    ghost use Rattle.child_engine.specs.Steady.{no_faults};

    /// A host that has handed out nothing. Each engine says these bytes, as many at a read as the
    /// piece; each sink and log has this much room.
    pub fn make(
        alloc: Global,
        engine: &[u8],
        piece: usize,
        room: usize,
        fails: &Fails,
    ) -> Result<MemHost, NoMemory>
        requires { 0 < piece }
        ensures ledger { IfOk result (λ h. memory_ledger h
            ≡ unused_ledger (Some engine.now) true) }
        ensures asked { IfOk result (λ h. asked_of h ≡ none_asked) }
        ensures disk { IfOk result (λ h. disk_of h.disk ≡ no_disk) }
        ensures faults { IfOk result (λ h. h.faults ≡ no_faults) }
        ensures means { IfOk result (λ h. means_of h ≡ record {
          engine = engine.now;
          piece = piece;
          room = room;
          reads = fails.now.reads.now;
          writes = fails.now.writes.now;
          logs = fails.now.logs.now;
          fails_start = fails.now.start;
          fails_log = fails.now.log;
          fails_wait = fails.now.wait;
        }) }
    {
        Ok(MemHost {
            engine: Vec::from_slice(alloc, engine)?,
            piece,
            room,
            fails_start: fails.start,
            fails_log: fails.log,
            fails_wait: fails.wait,
            failing_reads: Vec::from_slice(alloc, fails.reads)?,
            failing_writes: Vec::from_slice(alloc, fails.writes)?,
            failing_logs: Vec::from_slice(alloc, fails.logs)?,
            faults: Faults::default(),
            runs_out: 0,
            logs_out: 0,
            runs: Vec::with_capacity(alloc, 10)?,
            closed_logs: Vec::with_capacity(alloc, 10)?,
            engines: Vec::new(alloc),
            log_places: Vec::new(alloc),
            disk: MemFiles::new(alloc),
        })
    }

    /// The bytes of the k-th closed run's sink, counted from 0.
    pub fn wrote(&self, k: usize) -> &[u8]
        requires { k < length (memory_ledger self.now).runs }
        ensures { IfSome (slice_get (memory_ledger self.now).runs k) (λ t. t.taken ≡ Some
            result.now) }
    {
        self.runs[k].sink.taken()
    }

    /// The bytes of the k-th closed log, counted from 0.
    pub fn logged(&self, k: usize) -> &[u8]
        requires { k < length (memory_ledger self.now).logs }
        ensures { slice_get (memory_ledger self.now).logs k ≡ Some (Some result.now) }
    {
        self.closed_logs[k].taken()
    }

    /// The arguments of each engine that was to be started, in their order.
    pub fn engines(&self) -> &[Vec<String>]
        ensures { (asked_of self.now).engines
            ≡ Some (map (λ arguments. map string_bytes (vec_items arguments)) result.now) }
    {
        self.engines.as_slice()
    }

    /// The place of each log that was to be opened, in their order.
    pub fn log_places(&self) -> &[AskedLog]
        ensures { (asked_of self.now).logs ≡ Some (map kept_place result.now) }
    {
        self.log_places.as_slice()
    }

    /// Puts a file of this name, if none is there.
    pub fn put_file(&mut self, name: String) -> Result<(), NoMemory>
        ensures disk { OnOk result (disk_of self.new.disk
            ≡ with_file (string_bytes name) (disk_of self.old.disk)) }
        ensures ledger { memory_ledger self.new ≡ memory_ledger self.old }
        ensures asked { asked_of self.new ≡ asked_of self.old }
        ensures faults { self.new.faults ≡ self.old.faults }
        ensures means { means_of self.new ≡ means_of self.old }
    {
        put_name(name, &mut self.disk.files)?;
        Ok(())
    }

    /// The names of the files that are there, in the order in which they were made.
    pub fn files(&self) -> &[String]
        ensures { (disk_of self.now.disk).files ≡ map string_bytes result.now }
    {
        self.disk.files.as_slice()
    }

    /// The names of the folders that are there, in the order in which they were made.
    pub fn folders(&self) -> &[String]
        ensures { (disk_of self.now.disk).folders ≡ map string_bytes result.now }
    {
        self.disk.folders.as_slice()
    }
}

impl Host for MemHost {
    ghost use Rattle.std.specs.Prelude.{◌≡◌, ◌<◌, length, map, string_bytes, true, IfOk, OnOk, OnErr, IsErr};
    ghost use Rattle.line_io.specs.Memory.{supply_of, store_of, unread_supply, unwritten_store};
    ghost use Rattle.child_engine.specs.Hosts.{ClosesBy, OpensBy, StartsBy, with_closed_run, with_log, with_run};
    ghost use Rattle.child_engine.specs.Asked.{Asks, and_engines, and_logs};
    ghost use Rattle.child_engine.specs.Places.{MakesLogAt, asked_place};
    ghost use Rattle.child_engine.specs.Memory.{asked_of, disk_of, memory_ledger, means_of, shown_by_memory_source, shown_by_sink};

    type EngineSource = MemSource;

    type EngineSink = MemSink;

    type Log = MemSink;

    type EngineProcess = ();

    ghost faults = { λ h. h.faults };

    ghost ledger = { λ h. memory_ledger h };

    ghost asked = { λ h. asked_of h };

    fn start(
        &mut self,
        alloc: Global,
        arguments: &[String],
    ) -> Result<Started<MemSource, MemSink, ()>, HostFault>
        requires arguments { 0 < length arguments.now }
        requires few { (memory_ledger self.old).runs_out < 10 }
        ensures out { OnOk result (memory_ledger self.new ≡ with_run (memory_ledger self.old)) }
        ensures source { IfOk result (λ run. supply_of run.source ≡ unread_supply
            (means_of self.old).engine (means_of self.old).piece (means_of self.old).reads) }
        ensures sink { IfOk result (λ run. store_of run.sink
            ≡ unwritten_store (means_of self.old).room (means_of self.old).writes) }
        ensures err { OnErr result (memory_ledger self.new ≡ memory_ledger self.old) }
        ensures asked { Asks (asked_of self.old)
            (and_engines 1 (map string_bytes arguments.now) (asked_of self.old)) (asked_of self.new)
            result }
        ensures cause { StartsBy self.old.faults self.new.faults result }
        ensures fails { (means_of self.old).fails_start ≡ true → IsErr result }
        ensures means { means_of self.new ≡ means_of self.old }
    {
        let source = MemSource::make(
            alloc,
            self.engine.as_slice(),
            self.piece,
            self.failing_reads.as_slice(),
        )?;
        let sink = MemSink::make(alloc, self.room, self.failing_writes.as_slice())?;
        let arguments = copies_of(alloc, arguments)?;
        if self.engines.push(arguments).is_err() {
            return Err(HostFault::NoMemory);
        }
        if self.fails_start {
            self.faults.starts = self.faults.starts.saturating_add(1);
            return Err(HostFault::Failed);
        }
        self.runs_out += 1;
        Ok(Started {
            source,
            sink,
            process: (),
        })
    }

    fn open_log(&mut self, alloc: Global, place: &LogPlace) -> Result<MemSink, HostFault>
        requires few { (memory_ledger self.old).logs_out < 10 }
        ensures out { OnOk result (memory_ledger self.new ≡ with_log (memory_ledger self.old)) }
        ensures log { IfOk result (λ log. store_of log
            ≡ unwritten_store (means_of self.old).room (means_of self.old).logs) }
        ensures err { OnErr result (memory_ledger self.new ≡ memory_ledger self.old) }
        ensures asked { Asks (asked_of self.old)
            (and_logs 1 (asked_place place.now) (asked_of self.old)) (asked_of self.new) result }
        ensures disk { OnOk result (MakesLogAt (asked_place place.now) (disk_of self.old.disk)
            (disk_of self.new.disk)) }
        ensures cause { OpensBy self.old.faults self.new.faults result }
        ensures fails { (means_of self.old).fails_log ≡ true → IsErr result }
        ensures means { means_of self.new ≡ means_of self.old }
    {
        let log = MemSink::make(alloc, self.room, self.failing_logs.as_slice())?;
        let kept = kept_place(alloc, place)?;
        let is_made = if self.fails_log {
            false
        } else {
            make_file(alloc, place, &mut self.disk)?
        };
        if self.log_places.push(kept).is_err() {
            return Err(HostFault::NoMemory);
        }
        if !is_made {
            self.faults.logs = self.faults.logs.saturating_add(1);
            return Err(HostFault::Failed);
        }
        self.logs_out += 1;
        Ok(log)
    }

    fn close(&mut self, run: Started<MemSource, MemSink, ()>) -> Result<(), Failed>
        requires { length (memory_ledger self.old).runs < (memory_ledger self.old).runs_out }
        ensures ledger { memory_ledger self.new
            ≡ with_closed_run (memory_ledger self.old)
            (shown_by_memory_source run.source) (shown_by_sink run.sink) }
        ensures asked { asked_of self.new ≡ asked_of self.old }
        ensures cause { ClosesBy self.old.faults self.new.faults
            (shown_by_memory_source run.source).faults (shown_by_sink run.sink).faults result }
        ensures fails { (means_of self.old).fails_wait ≡ true → IsErr result }
        ensures means { means_of self.new ≡ means_of self.old }
    {
        let Started {
            source,
            sink,
            process: (),
        } = run;
        self.faults.reads = raised(self.faults.reads, source.faults());
        self.faults.writes = raised(self.faults.writes, sink.faults());
        let _ = self.runs.push(ClosedRun { source, sink });
        if self.fails_wait {
            self.faults.waits = self.faults.waits.saturating_add(1);
            return Err(Failed);
        }
        Ok(())
    }

    fn close_log(&mut self, log: MemSink) {
        self.faults.logs = raised(self.faults.logs, log.faults());
        let _ = self.closed_logs.push(log);
    }
}
