// Sources that wait for the log.
ghost use Rattle.std.specs.Prelude.{◌≡◌};

use crate::missed::{has_come, write_missed};
use line_io::{Failed, MemSource, Source};
use std::sync::atomic::AtomicU64;

/// Bytes in memory, given in pieces. The k-th read waits until the log took the k-th number of
/// lines; a read after the last number does not wait, nor does any after a wait in vain.
#[derive(Drop)]
pub struct PacedSource<'a> {
    pub source: MemSource,
    lines: &'a AtomicU64,
    dues: &'static [u64],
    calls: usize,
    missed: Option<u64>,
}

impl<'a> PacedSource<'a> {
    pub fn new(source: MemSource, lines: &'a AtomicU64, dues: &'static [u64]) -> PacedSource<'a>
        ensures { result.source ≡ source }
    {
        PacedSource {
            source,
            lines,
            dues,
            calls: 0,
            missed: None,
        }
    }

    /// The count of lines that was waited for in vain.
    pub fn missed(&self) -> Option<u64> {
        self.missed
    }
}

impl<'a> Source for PacedSource<'a> {
    ghost use Rattle.child_engine.specs.Memory.{shown_by_memory_source};

    ghost state = { λ s. shown_by_memory_source s.source };

    fn read(&mut self, buf: &mut [u8]) -> Result<usize, Failed> {
        if self.missed.is_none() {
            self.missed = match self.dues.get(self.calls) {
                Some(due) if !has_come(self.lines, *due) => Some(*due),
                _ => None,
            };
        }
        self.calls = self.calls.saturating_add(1);
        self.source.read(buf)
    }
}

/// A text that is given once the log took so many lines.
#[derive(Clone, Copy)]
pub struct DueText {
    pub lines: u64,
    pub text: &'static [u8],
}

/// Texts that are given in turn, and then the end. In place of a text that is due in vain comes a
/// line that says so, and then the end. It reports no bytes.
#[derive(Drop)]
pub struct PacedTexts<'a> {
    lines: &'a AtomicU64,
    texts: &'static [DueText],
    at: usize,
}

impl<'a> PacedTexts<'a> {
    pub fn new(lines: &'a AtomicU64, texts: &'static [DueText]) -> PacedTexts<'a> {
        PacedTexts {
            lines,
            texts,
            at: 0,
        }
    }
}

impl<'a> Source for PacedTexts<'a> {
    ghost use Rattle.std.specs.Prelude.{None};

    ghost state = { λ s. record { given = None; left = None; faults = 0 } };

    fn read(&mut self, buf: &mut [u8]) -> Result<usize, Failed> {
        let Some(due) = self.texts.get(self.at) else {
            return Ok(0);
        };
        if !has_come(self.lines, due.lines) {
            self.at = self.texts.len();
            return Ok(write_missed(buf, due.lines));
        }
        self.at += 1;
        let count = due.text.len().min(buf.len());
        buf[..count].copy_from_slice(&due.text[..count]);
        Ok(count)
    }
}
