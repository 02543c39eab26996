// The program over a host in memory, whose engine and whose interface wait for what was written.
use crate::expected::words_of;
use bridge_runner::bridge_main;
use child_engine::{Fails, MemHost};
use line_io::MemSink;
use paced_host::{DueText, PacedHost, PacedLog, PacedTexts};
use program_lifecycle::Interface;
use std::alloc::Global;
use std::process::Abort;
use std::sync::Wait;
use std::sync::atomic::AtomicU64;
use std::thread::Threads;

/// The numbers of lines that the log and the interface took.
#[derive(Drop)]
pub struct Counts {
    pub log: AtomicU64,
    pub output: AtomicU64,
}

impl Counts {
    pub fn new() -> Counts {
        Counts {
            log: AtomicU64::new(0),
            output: AtomicU64::new(0),
        }
    }
}

/// The input of a run: the program's arguments, bars between; what an interface says, once the log or,
/// if it awaits its answers, the interface's own sink took so many lines; what the engine says, at
/// most so many bytes at a read, each read once the log took so many lines; and the writes of the
/// diagnostic that fail.
#[derive(Clone, Copy)]
pub struct Given {
    pub arguments: &'static str,
    pub awaits_answers: bool,
    pub iface: &'static [DueText],
    pub engine: &'static [u8],
    pub piece: usize,
    pub engine_ends: &'static [u64],
    pub diag_fails: &'static [u64],
}

/// The answer of a run, and the bytes that its sinks and its host took.
#[derive(Drop)]
pub struct BridgeRun<'a> {
    pub code: u8,
    pub output: PacedLog<'a>,
    pub diag: MemSink,
    pub host: PacedHost<'a>,
}

/// Runs the program over a host whose calls fail as these say.
pub fn run_bridge<'a, R: Threads + Wait + Sync + Abort>(
    rt: &R,
    alloc: Global,
    given: &Given,
    fails: &Fails,
    counts: &'a Counts,
) -> BridgeRun<'a> {
    assert!(rt; 0 < given.piece);
    let arguments = words_of(rt, alloc, given.arguments);
    let awaited = if given.awaits_answers {
        &counts.output
    } else {
        &counts.log
    };
    let host = MemHost::make(alloc, given.engine, given.piece, 10_000, fails).expect(rt, "memory");
    let mut host = PacedHost::new(alloc, host, &counts.log, given.engine_ends);
    let output = MemSink::make(alloc, 1_000, &[]).expect(rt, "memory");
    let mut interface = Interface {
        input: PacedTexts::new(awaited, given.iface),
        output: PacedLog::new(output, &counts.output),
    };
    let mut diag = MemSink::make(alloc, 1_000, given.diag_fails).expect(rt, "memory");
    let arguments = arguments.as_slice();
    let status = bridge_main(rt, alloc, arguments, &mut interface, &mut host, &mut diag);
    BridgeRun {
        code: status.code,
        output: interface.output,
        diag,
        host,
    }
}
