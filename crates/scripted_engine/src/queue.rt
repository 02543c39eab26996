// The answers for one word.
ghost use Rattle.std.specs.Prelude.{◌≡◌, OnOk, IfErr};
ghost use Rattle.scripted_engine.specs.Queues.{none, queue_with_text, queue_at_next, queued_text_at};
ghost use Rattle.scripted_engine.specs.declared.script.ScriptFault.TheVariants.{NoMemory};

use crate::ScriptFault;
use std::alloc::Global;
use std::marker::Model;

/// The answers to the orders that begin with one word, in the order of the script.
#[derive(Drop)]
pub struct Queue {
    answers: Vec<Vec<u8>>,
    next: usize,
}

impl Model for Queue {
    ghost use Rattle.std.specs.Prelude.{map};
    ghost use Rattle.scripted_engine.specs.Queues.{Queue as Seen};

    ghost Value = { Seen };

    ghost view = { λ q. record { answers = map (λ a. a.items) q.answers.items; next = q.next } };
}

impl Queue {
    /// No answer.
    pub fn new(alloc: Global) -> Queue
        ensures { result ≡ none }
    {
        Queue {
            answers: Vec::new(alloc),
            next: 0,
        }
    }

    /// Puts an answer after the others.
    pub fn add(&mut self, alloc: Global, answer: &[u8]) -> Result<(), ScriptFault>
        ensures added { OnOk result (self.new ≡ queue_with_text self.old answer.now) }
        ensures memory { IfErr result (λ fault. fault ≡ NoMemory) }
    {
        self.answers.push(Vec::from_slice(alloc, answer)?)?;
        Ok(())
    }

    /// The place of the answer that comes next. The last one comes again and again.
    pub fn take(&mut self) -> usize
        ensures place { result ≡ self.old.next }
        ensures later { self.new ≡ queue_at_next self.old }
    {
        let at = self.next;
        if self.answers.len().saturating_sub(at) > 1 {
            self.next += 1;
        }
        at
    }

    /// The answer at a place, and nothing if there is none.
    pub fn answer(&self, at: usize) -> &[u8]
        ensures { result.now ≡ queued_text_at self.now at }
    {
        match self.answers.get(at) {
            Some(answer) => answer.as_slice(),
            None => &[],
        }
    }
}
