// A host whose engines wait for what is written, and which keeps its log.
ghost use Rattle.std.specs.Prelude.{◌≡◌, None, false};
ghost use Rattle.child_engine.specs.Hosts.{unused_ledger};
ghost use Rattle.runner_sessions.specs.Talking.{ledger_with};

use crate::paced_sink::PacedSink;
use child_engine::{Faults, Host, HostFault, LogPlace, Started};
use line_io::Failed;
use paced_host::{DueText, PacedTexts};
use std::alloc::Global;
use std::sync::atomic::AtomicU64;

/// A host of some lives. In each the engine says its texts as they are due: each once so many
/// pieces were written. The start of a further life fails. Of the pieces of the log it counts those
/// that end with its mark.
#[derive(Drop)]
pub struct TalkingHost<'a> {
    written: &'a AtomicU64,
    lives: &'static [&'static [DueText]],
    mark: &'static [u8],
    logged: Vec<u8>,
    faults: Faults,
    runs_out: u8,
    logs_out: u8,
    runs_closed: u8,
    logs_closed: u8,
}

impl<'a> TalkingHost<'a> {
    /// A host that has handed out nothing.
    pub fn new(
        alloc: Global,
        written: &'a AtomicU64,
        lives: &'static [&'static [DueText]],
        mark: &'static [u8],
    ) -> TalkingHost<'a>
        ensures { ledger_with result.runs_out result.logs_out result.runs_closed result.logs_closed
            ≡ unused_ledger None false }
    {
        TalkingHost {
            written,
            lives,
            mark,
            logged: Vec::new(alloc),
            faults: Faults::default(),
            runs_out: 0,
            logs_out: 0,
            runs_closed: 0,
            logs_closed: 0,
        }
    }

    /// The bytes of its logs.
    pub fn logged(&self) -> &[u8] {
        self.logged.as_slice()
    }
}

impl<'a> Host for TalkingHost<'a> {
    ghost use Rattle.std.specs.Prelude.{◌≡◌, ◌<◌, length};
    ghost use Rattle.child_engine.specs.Hosts.{ClosesBy, with_closed_run};
    ghost use Rattle.child_engine.specs.Real.{mute_runs, mute_source, real_mute_sink};
    ghost use Rattle.runner_sessions.specs.Talking.{ledger_with};

    type EngineSource = PacedTexts<'a>;

    type EngineSink = PacedSink<'a>;

    type Log = PacedSink<'a>;

    type EngineProcess = ();

    ghost faults = { λ h. h.faults };

    ghost ledger = { λ h. ledger_with h.runs_out h.logs_out h.runs_closed h.logs_closed };

    fn start(
        &mut self,
        alloc: Global,
        _arguments: &[String],
    ) -> Result<Started<PacedTexts<'a>, PacedSink<'a>, ()>, HostFault> {
        let Some(texts) = self.lives.get(usize::from(self.runs_out)) else {
            self.faults.starts = self.faults.starts.saturating_add(1);
            return Err(HostFault::Failed);
        };
        self.runs_out += 1;
        Ok(Started {
            source: PacedTexts::new(self.written, texts),
            sink: PacedSink::ready(alloc, self.written, b"\n"),
            process: (),
        })
    }

    fn open_log(&mut self, alloc: Global, _place: &LogPlace) -> Result<PacedSink<'a>, HostFault> {
        self.logs_out += 1;
        Ok(PacedSink::ready(alloc, self.written, self.mark))
    }

    #[tactic(auto, using(child_engine::proofs::Mute::runs_count))]
    fn close(&mut self, run: Started<PacedTexts<'a>, PacedSink<'a>, ()>) -> Result<(), Failed>
        requires { length (mute_runs self.old.runs_closed) < self.old.runs_out }
        ensures ledger { ledger_with self.new.runs_out self.new.logs_out
            self.new.runs_closed self.new.logs_closed
            ≡ with_closed_run
            (ledger_with self.old.runs_out self.old.logs_out
            self.old.runs_closed self.old.logs_closed)
            (mute_source 0) (real_mute_sink 0) }
        ensures cause { ClosesBy self.old.faults self.new.faults 0 0 result }
    {
        let Started {
            source: _,
            sink: _,
            process: (),
        } = run;
        self.runs_closed += 1;
        Ok(())
    }

    #[tactic(auto, using(child_engine::proofs::Mute::logs_count))]
    fn close_log(&mut self, log: PacedSink<'a>) {
        let _ = self.logged.extend_from_slice(log.bytes());
        self.logs_closed += 1;
    }
}
