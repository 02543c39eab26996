// A host in memory whose engine waits for the log.
ghost use Rattle.std.specs.Prelude.{◌≡◌};

use crate::missed::write_missed;
use crate::{PacedLog, PacedSource};
use child_engine::{AskedLog, Host, HostFault, LogPlace, MemHost, Started};
use line_io::{Failed, MemSink};
use std::alloc::Global;
use std::sync::atomic::AtomicU64;

// True if the words are these texts.
fn are_texts(arguments: &[String], texts: &[&str]) -> bool {
    if arguments.len() != texts.len() {
        return false;
    }
    for (argument, text) in arguments.iter().zip(texts) {
        if argument.as_str() != *text {
            return false;
        }
    }
    true
}

// True if this is the place.
fn is_place(asked: &AskedLog, place: &LogPlace) -> bool {
    match (asked, place) {
        (AskedLog::File(asked), LogPlace::File(name)) => asked.as_str() == *name,
        (AskedLog::New { folder, name }, LogPlace::New(log)) => {
            folder.as_str() == log.folder && name.as_str() == log.name
        }
        _ => false,
    }
}

// Adds the line that says which count of lines the log never took.
fn add_missed(logged: &mut Vec<u8>, wanted: u64) {
    let mut line = [0; 64];
    let count = write_missed(&mut line, wanted);
    let _ = logged.extend_from_slice(&line[..count]);
}

/// A host in memory, whose engines' reads wait for the log, and what the engines and the logs took
/// that were closed.
#[derive(Drop)]
pub struct PacedHost<'a> {
    pub host: MemHost,
    lines: &'a AtomicU64,
    dues: &'static [u64],
    wrote: Vec<u8>,
    logged: Vec<u8>,
}

impl<'a> PacedHost<'a> {
    /// Over a host; in each run the k-th read of the engine waits for the k-th number of lines.
    pub fn new(
        alloc: Global,
        host: MemHost,
        lines: &'a AtomicU64,
        dues: &'static [u64],
    ) -> PacedHost<'a>
        ensures { result.host ≡ host }
    {
        PacedHost {
            host,
            lines,
            dues,
            wrote: Vec::new(alloc),
            logged: Vec::new(alloc),
        }
    }

    /// The bytes that the closed engines took.
    pub fn wrote(&self) -> &[u8] {
        self.wrote.as_slice()
    }

    /// The bytes that the closed logs took, and a line for each run whose engine waited for the log
    /// in vain.
    pub fn logged(&self) -> &[u8] {
        self.logged.as_slice()
    }

    /// True if it was asked for so many engines, each with these arguments, and for one log at this place.
    pub fn was_asked_for(&self, engines: usize, arguments: &[&str], place: &LogPlace) -> bool {
        for asked in self.host.engines() {
            if !are_texts(asked.as_slice(), arguments) {
                return false;
            }
        }
        let places = self.host.log_places();
        self.host.engines().len() == engines && places.len() == 1 && is_place(&places[0], place)
    }
}

impl<'a> Host for PacedHost<'a> {
    ghost use Rattle.std.specs.Prelude.{◌≡◌, ◌<◌, length};
    ghost use Rattle.child_engine.specs.Hosts.{ClosesBy, with_closed_run};
    ghost use Rattle.child_engine.specs.Memory.{asked_of, memory_ledger, shown_by_memory_source, shown_by_sink};

    type EngineSource = PacedSource<'a>;

    type EngineSink = MemSink;

    type Log = PacedLog<'a>;

    type EngineProcess = ();

    ghost faults = { λ h. h.host.faults };

    ghost ledger = { λ h. memory_ledger h.host };

    ghost asked = { λ h. asked_of h.host };

    fn start(
        &mut self,
        alloc: Global,
        arguments: &[String],
    ) -> Result<Started<PacedSource<'a>, MemSink, ()>, HostFault> {
        let Started {
            source,
            sink,
            process: (),
        } = self.host.start(alloc, arguments)?;
        let source = PacedSource::new(source, self.lines, self.dues);
        Ok(Started {
            source,
            sink,
            process: (),
        })
    }

    fn open_log(&mut self, alloc: Global, place: &LogPlace) -> Result<PacedLog<'a>, HostFault> {
        let sink = self.host.open_log(alloc, place)?;
        Ok(PacedLog::new(sink, self.lines))
    }

    fn close(&mut self, run: Started<PacedSource<'a>, MemSink, ()>) -> Result<(), Failed>
        requires { length (memory_ledger self.old.host).runs < (memory_ledger
            self.old.host).runs_out }
        ensures ledger { memory_ledger self.new.host ≡ with_closed_run (memory_ledger self.old.host)
            (shown_by_memory_source run.entry.source.source) (shown_by_sink run.entry.sink) }
        ensures asked { asked_of self.new.host ≡ asked_of self.old.host }
        ensures cause { ClosesBy self.old.host.faults self.new.host.faults
            (shown_by_memory_source run.entry.source.source).faults (shown_by_sink
            run.entry.sink).faults
            result }
    {
        let Started {
            source,
            sink,
            process: (),
        } = run;
        if let Some(wanted) = source.missed() {
            add_missed(&mut self.logged, wanted);
        }
        let _ = self.wrote.extend_from_slice(sink.taken());
        self.host.close(Started {
            source: source.source,
            sink,
            process: (),
        })
    }

    fn close_log(&mut self, log: PacedLog<'a>) {
        let _ = self.logged.extend_from_slice(log.sink.taken());
        self.host.close_log(log.sink)
    }
}
