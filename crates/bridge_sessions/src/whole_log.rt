// The log of a run over a host in memory is the script of the run's trace.
ghost use Rattle.std.specs.Prelude.{IfOk, IfSome};
ghost use Rattle.program_command_line.specs.Arguments.Request.{argument_bytes_of};
ghost use Rattle.child_engine.specs.Hosts.{HostIsUnused};
ghost use Rattle.child_engine.specs.Memory.{memory_ledger, means_of};
ghost use Rattle.bridge_sessions.specs.Scripts.{IsScriptOfRun};

use crate::expected::words_of;
use crate::ping::ENGINE;
use bridge_runner::bridge_main;
use child_engine::{Fails, MemHost};
use line_io::{MemSink, MemSource, NoMemory};
use program_lifecycle::Interface;
use std::alloc::Global;
use std::process::Abort;
use std::sync::Wait;
use std::thread::Threads;

// The program with these arguments over a host in memory, and what its log took, if nothing failed.
fn log_of<R: Threads + Wait + Sync>(
    rt: &R,
    alloc: Global,
    arguments: &[Vec<u8>],
    interface: &mut Interface<MemSource, MemSink>,
    diag: &mut MemSink,
    host: &mut MemHost,
) -> Result<Option<Vec<u8>>, NoMemory>
    requires { HostIsUnused (memory_ledger host.old) }
    ensures { IfOk result (λ log. IfSome log (λ log.
        IsScriptOfRun (argument_bytes_of arguments.now) (means_of host.old).engine log.items)) }
{
    let status = bridge_main(rt, alloc, arguments, interface, host, diag);
    if status.code != 0 {
        return Ok(None);
    }
    Ok(Some(Vec::from_slice(alloc, host.logged(0))?))
}

// For an interface that asks for an answer and quits.
fn log_of_a_ping<R: Threads + Wait + Sync + Abort>(
    rt: &R,
    alloc: Global,
) -> Result<Option<Vec<u8>>, NoMemory> {
    let arguments = words_of(rt, alloc, "toy");
    let mut interface = Interface {
        input: MemSource::make(alloc, b"ping 3\nquit\n", 5, &[]).expect(rt, "memory"),
        output: MemSink::make(alloc, 1_000, &[]).expect(rt, "memory"),
    };
    let mut diag = MemSink::make(alloc, 1_000, &[]).expect(rt, "memory");
    let mut host = MemHost::make(alloc, ENGINE, 5, 10_000, &Fails::default()).expect(rt, "memory");
    log_of(
        rt,
        alloc,
        arguments.as_slice(),
        &mut interface,
        &mut diag,
        &mut host,
    )
}

#[test]
fn a_whole_run_has_its_log(rt: HostRuntime) {
    let log = log_of_a_ping(&rt, rt.alloc()).expect(&rt, "memory");
    assert!(rt; log.is_some());
}
