// Whole runs of a program over a host in memory, whose engine waits for the log.
ghost use Rattle.child_engine.specs.Hosts.{HostIsUnused};
ghost use Rattle.child_engine.specs.Memory.{memory_ledger};

use crate::expected::{expect_bytes, expect_true};
use crate::programs::{Program, run_program};
use crate::rows::{cut, three_of};
use crate::streams::sink;
use child_engine::{Fails, LogPlace, MemHost};
use paced_host::{DueText, PacedHost, PacedTexts};
use program_lifecycle::Interface;
use std::alloc::Global;
use std::process::Abort;
use std::sync::Wait;
use std::sync::atomic::AtomicU64;
use std::thread::Threads;

/// The text of the interface once the log took so many lines, and the text of each engine, as many
/// bytes at a read as the piece; the k-th read waits until the log took the k-th number of lines.
#[derive(Clone, Copy)]
pub struct Peers {
    pub program: Program,
    pub iface: &'static [DueText],
    pub engine: &'static [u8],
    pub piece: usize,
    pub reads: &'static [u64],
}

/// The log of a whole session, its name, and how many engines were asked for.
#[derive(Clone, Copy)]
pub struct WholeLog {
    pub name: &'static str,
    pub engines: usize,
    pub text: &'static [u8],
}

// The first call, if it is the one that fails.
fn first_if(fails: bool) -> &'static [u64] {
    if fails { &[1] } else { &[] }
}

// The call that fails; of reads and writes the first one.
fn fails_named(call: &str) -> Fails<'static> {
    Fails {
        start: call == "start",
        log: call == "log",
        wait: call == "wait",
        reads: first_if(call == "read"),
        writes: first_if(call == "write"),
        logs: &[],
    }
}

fn does_one_fail(fails: &Fails) -> bool {
    fails.start || fails.log || fails.wait || !fails.reads.is_empty() || !fails.writes.is_empty()
}

// Compares a sink with a field, in which a star stands for anything.
fn expect_field(rt: &impl Abort, row: &str, found: &[u8], field: &str) {
    if field != "*" {
        expect_bytes(rt, row, found, field.as_bytes());
    }
}

fn expect_status(rt: &impl Abort, row: &str, found: u8, field: &str) {
    let wanted = field.parse::<u8>().expect(rt, row);
    expect_true(rt, row, found == wanted);
}

/// A row: its whole text, the arguments between commas, the call that fails, the status, the output and
/// the diagnostic.
#[derive(Clone, Copy)]
struct RunRow<'a> {
    text: &'a str,
    arguments: &'a str,
    call: &'a str,
    code: &'a str,
    output: &'a str,
    reported: &'a str,
}

// The fields of a row, of which a name is the first.
fn read_row(text: &str) -> RunRow<'_> {
    let (_, arguments, others) = three_of(text);
    let (call, code, texts) = three_of(others);
    let (output, reported) = cut(texts);
    RunRow {
        text,
        arguments,
        call,
        code,
        output,
        reported,
    }
}

fn make_host<'a>(
    rt: &impl Abort,
    alloc: Global,
    peers: &Peers,
    row: &RunRow,
    lines: &'a AtomicU64,
) -> PacedHost<'a>
    ensures { HostIsUnused (memory_ledger result.host) }
{
    expect_true(rt, row.text, peers.piece > 0);
    let fails = fails_named(row.call);
    let is_known = row.call.is_empty() || does_one_fail(&fails);
    expect_true(rt, row.call, is_known);
    let host = MemHost::make(alloc, peers.engine, peers.piece, 1_000, &fails).expect(
        rt,
        "memory for a host",
    );
    PacedHost::new(alloc, host, lines, peers.reads)
}

// Runs a program on a row over a host that was not used, and compares what it answers and writes.
fn expect_run<'a, R: Threads + Wait + Sync + Abort>(
    rt: &R,
    alloc: Global,
    peers: &Peers,
    row: &RunRow,
    lines: &'a AtomicU64,
    host: &mut PacedHost<'a>,
)
    requires { HostIsUnused (memory_ledger host.old.host) }
{
    let mut interface = Interface {
        input: PacedTexts::new(lines, peers.iface),
        output: sink(rt, alloc, 1_000, &[]),
    };
    let mut diag = sink(rt, alloc, 1_000, &[]);
    let status = run_program(
        rt,
        alloc,
        peers.program,
        row.arguments,
        &mut interface,
        host,
        &mut diag,
    );
    expect_status(rt, row.text, status, row.code);
    expect_field(rt, row.text, interface.output.taken(), row.output);
    expect_field(rt, row.text, diag.taken(), row.reported);
}

/// Runs a program on a row, and gives the host, which shows the log.
fn run_row<'a, R: Threads + Wait + Sync + Abort>(
    rt: &R,
    alloc: Global,
    peers: &Peers,
    row: &str,
    lines: &'a AtomicU64,
) -> PacedHost<'a> {
    let row = read_row(row);
    let mut host = make_host(rt, alloc, peers, &row, lines);
    expect_run(rt, alloc, peers, &row, lines, &mut host);
    host
}

/// Runs a program on each of these rows.
pub fn expect_runs<R: Threads + Wait + Sync + Abort>(
    rt: &R,
    alloc: Global,
    peers: &Peers,
    rows: &str,
) {
    for row in rows.split(';') {
        let lines = AtomicU64::new(0);
        let _host = run_row(rt, alloc, peers, row, &lines);
    }
}

// Expects that a host has this log alone, and was asked for so many engines of one argument.
fn expect_kept(rt: &impl Abort, row: &str, host: &PacedHost, log: &WholeLog) {
    expect_bytes(rt, row, host.logged(), log.text);
    let was_asked = host.was_asked_for(log.engines, &["engine", "-x y"], &LogPlace::File(log.name));
    expect_true(rt, row, was_asked);
}

/// Runs a program on a row whose engine has one argument, and compares the only log that it can
/// leave.
pub fn expect_log<R: Threads + Wait + Sync + Abort>(
    rt: &R,
    alloc: Global,
    peers: &Peers,
    row: &str,
    log: &WholeLog,
) {
    let lines = AtomicU64::new(0);
    let host = run_row(rt, alloc, peers, row, &lines);
    expect_kept(rt, row, &host, log);
}
