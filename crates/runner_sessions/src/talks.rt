// Whole runs of a program whose interface and engines wait for one another: a program that reads
// one of them to its end before the other never ends.
ghost use Rattle.std.specs.Prelude.{◌≡◌, None, false};
ghost use Rattle.child_engine.specs.Hosts.{unused_ledger};
ghost use Rattle.runner_sessions.specs.Talking.{ledger_with};

use crate::expected::{expect_bytes, expect_true};
use crate::paced_sink::PacedSink;
use crate::programs::{Program, run_program};
use crate::streams::sink;
use crate::talking_host::TalkingHost;
use paced_host::{DueText, PacedTexts};
use program_lifecycle::Interface;
use std::alloc::Global;
use std::process::Abort;
use std::sync::Wait;
use std::sync::atomic::AtomicU64;
use std::thread::Threads;

/// The arguments between commas; what the interface says, and the engine in each life; then the status,
/// the diagnostic and the log. Each text comes once so many pieces were written: all those to both
/// peers, and those of the log that end with the mark.
#[derive(Clone, Copy)]
pub struct Talk {
    pub name: &'static str,
    pub program: Program,
    pub arguments: &'static str,
    pub iface: &'static [DueText],
    pub lives: &'static [&'static [DueText]],
    pub mark: &'static [u8],
    pub code: u8,
    pub diag: &'static [u8],
    pub log: &'static [u8],
}

// Runs a program between peers that are made for a talk, and compares what it answers and writes.
fn expect_reported<'a, R: Threads + Wait + Sync + Abort>(
    rt: &R,
    alloc: Global,
    talk: &Talk,
    interface: &mut Interface<PacedTexts<'a>, PacedSink<'a>>,
    host: &mut TalkingHost<'a>,
)
    requires { ledger_with host.old.runs_out host.old.logs_out host.old.runs_closed
        host.old.logs_closed ≡ unused_ledger None false }
{
    let mut diag = sink(rt, alloc, 1_000, &[]);
    let status = run_program(
        rt,
        alloc,
        talk.program,
        talk.arguments,
        interface,
        host,
        &mut diag,
    );
    expect_true(rt, talk.name, status == talk.code);
    expect_bytes(rt, talk.name, diag.taken(), talk.diag);
    expect_bytes(rt, talk.name, host.logged(), talk.log);
}

pub fn expect_talk<R: Threads + Wait + Sync + Abort>(rt: &R, alloc: Global, talk: &Talk) {
    let written = AtomicU64::new(0);
    let mut host = TalkingHost::new(alloc, &written, talk.lives, talk.mark);
    let mut interface = Interface {
        input: PacedTexts::new(&written, talk.iface),
        output: PacedSink::ready(alloc, &written, b"\n"),
    };
    expect_reported(rt, alloc, talk, &mut interface, &mut host);
}
