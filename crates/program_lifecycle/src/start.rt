// The standard streams of a program, and its host.
ghost use Rattle.std.specs.Prelude.{◌≡◌, None, false, IfSome};
ghost use Rattle.child_engine.specs.Hosts.{unused_ledger};
ghost use Rattle.child_engine.specs.Real.{real_ledger};
ghost use Rattle.program_command_line.specs.Streams.Closed.{refusals};

use crate::Interface;
use child_engine::{EngineInput, RealHost};
use line_io::{ReadAdapter, WriteAdapter};
use program_command_line::{ClosedStreams, IfOpen};
use std::fs::{File, Files};
use std::process::ChildStdin;

/// The interface on standard input and output, standard error, and the host of the engine. Ends of
/// pipes take the places of the streams that were closed for as long as this value is kept.
#[derive(Drop)]
pub struct ProgramStart<R, I, O, D> {
    pub interface: Interface<IfOpen<ReadAdapter<I>>, IfOpen<WriteAdapter<O>>>,
    pub diag: IfOpen<WriteAdapter<D>>,
    pub host: RealHost<R, EngineInput<ChildStdin>>,
    _closed: ClosedStreams,
}

impl<'r, R: Files<File = File>, I: Drop, O: Drop, D: Drop> ProgramStart<&'r R, I, O, D> {
    /// Over the standard streams of the runtime, before anything else is opened. There is no answer
    /// if the system gives no descriptors.
    pub fn new(rt: &'r R, input: I, output: O, diag: D) -> Option<ProgramStart<&'r R, I, O, D>>
        ensures host { IfSome result (λ start. real_ledger start.host ≡ unused_ledger None false) }
        ensures refusals { IfSome result (λ start. (refusals start.interface.input ≡ 0)
            × (refusals start.interface.output ≡ 0) × (refusals start.diag ≡ 0)) }
    {
        let closed = ClosedStreams::fill(rt)?;
        Some(ProgramStart {
            interface: Interface {
                input: closed.input(ReadAdapter::new(input)),
                output: closed.output(WriteAdapter::new(output)),
            },
            diag: closed.diag(WriteAdapter::new(diag)),
            host: RealHost::new(rt, closed.has_own_diag(rt)),
            _closed: closed,
        })
    }
}
