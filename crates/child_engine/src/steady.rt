// A host in memory that never fails.
ghost use Rattle.std.specs.Prelude.{◌≡◌, ◌<◌, ◌≤◌, [], IfOk, vec_len, vec_capacity};

use crate::{Host, HostFault, LogPlace, Started};
use line_io::{Failed, NoMemory, NullSink, SteadySource};
use std::alloc::Global;

/// A host whose engine says the same bytes in each run. None of its calls fails, and it keeps
/// nothing of what was written.
#[derive(Drop)]
pub struct SteadyHost {
    engine: Vec<u8>,
    piece: usize,
    runs_out: u8,
    logs_out: u8,
    logs_closed: u8,
    runs: Vec<SteadySource>,
    ghost some_piece: { 0 < piece },
    ghost few_runs: { (vec_len runs ≤ runs_out) × (runs_out ≤ 10) × (10 ≤ vec_capacity runs) },
    ghost few_logs: { (logs_closed ≤ logs_out) × (logs_out ≤ 10) },
}

impl SteadyHost {
    ghost use Rattle.std.specs.Prelude.{Some, false};
    ghost use Rattle.child_engine.specs.Hosts.{unused_ledger};
    ghost use Rattle.child_engine.specs.Steady.{steady_ledger, says_of};

    /// A host that has handed out nothing. Each engine says these bytes, as many at a read as the
    /// piece.
    pub fn make(alloc: Global, engine: &[u8], piece: usize) -> Result<SteadyHost, NoMemory>
        requires { 0 < piece }
        ensures ledger { IfOk result (λ h. steady_ledger h
            ≡ unused_ledger (Some engine.now) false) }
        ensures says { IfOk result (λ h. says_of h
            ≡ record { engine = engine.now; piece = piece }) }
    {
        Ok(SteadyHost {
            engine: Vec::from_slice(alloc, engine)?,
            piece,
            runs_out: 0,
            logs_out: 0,
            logs_closed: 0,
            runs: Vec::with_capacity(alloc, 10)?,
        })
    }
}

impl Host for SteadyHost {
    ghost use Rattle.std.specs.Prelude.{◌≡◌, ◌<◌, [], length, map, string_bytes, IfOk, OnOk, OnErr};
    ghost use Rattle.line_io.specs.Memory.{steady_of, unread_supply};
    ghost use Rattle.child_engine.specs.Hosts.{ClosesBy, StartsBy, with_closed_run, with_run};
    ghost use Rattle.child_engine.specs.Steady.{no_faults, steady_ledger, says_of, shown_by_steady_source, steady_mute_sink};

    type EngineSource = SteadySource;

    type EngineSink = NullSink;

    type Log = NullSink;

    type EngineProcess = ();

    ghost faults = { λ h. no_faults };

    ghost ledger = { λ h. steady_ledger h };

    fn start(
        &mut self,
        alloc: Global,
        arguments: &[String],
    ) -> Result<Started<SteadySource, NullSink, ()>, HostFault>
        requires arguments { 0 < length arguments.now }
        requires few { (steady_ledger self.old).runs_out < 10 }
        ensures out { OnOk result (steady_ledger self.new ≡ with_run (steady_ledger self.old)) }
        ensures source { IfOk result (λ run. steady_of run.source
            ≡ unread_supply (says_of self.old).engine (says_of self.old).piece []) }
        ensures err { OnErr result (steady_ledger self.new ≡ steady_ledger self.old) }
        ensures cause { StartsBy no_faults no_faults result }
        ensures says { says_of self.new ≡ says_of self.old }
    {
        let _ = arguments;
        let source = SteadySource::make(alloc, self.engine.as_slice(), self.piece)?;
        self.runs_out += 1;
        Ok(Started {
            source,
            sink: NullSink::new(),
            process: (),
        })
    }

    fn open_log(&mut self, _alloc: Global, _place: &LogPlace) -> Result<NullSink, HostFault> {
        self.logs_out += 1;
        Ok(NullSink::new())
    }

    fn close(&mut self, run: Started<SteadySource, NullSink, ()>) -> Result<(), Failed>
        requires { length (steady_ledger self.old).runs < (steady_ledger self.old).runs_out }
        ensures ledger { steady_ledger self.new
            ≡ with_closed_run (steady_ledger self.old) (shown_by_steady_source run.source)
            steady_mute_sink }
        ensures cause { ClosesBy no_faults no_faults 0 0 result }
    {
        let Started {
            source,
            sink: _,
            process: (),
        } = run;
        let _ = self.runs.push(source);
        Ok(())
    }

    #[tactic(auto, using(crate::proofs::Mute::logs_count))]
    fn close_log(&mut self, _log: NullSink) {
        self.logs_closed += 1;
    }
}
