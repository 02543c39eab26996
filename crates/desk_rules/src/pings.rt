// The held pings.
ghost use Rattle.std.specs.Prelude.{◌≡◌, ◌+◌, ◌<◌, [], ◌∷◌, ◌++◌, length, IfOk};
ghost use Rattle.desk_rules.specs.declared.pings.TheConstants.{MOST_PINGS};

use line_io::NoMemory;
use std::alloc::Global;
use std::marker::Model;

/// The most pings that are held while a move is owed.
pub const MOST_PINGS: usize = 64;

/// The numbers of the pings that are not answered yet, the oldest first. There is room for one more than are held.
#[derive(Drop)]
pub struct Pings {
    numbers: Vec<u32>,
}

impl Model for Pings {
    ghost use Rattle.std.specs.Prelude.{ℕ, List, ◌+◌, ◌≤◌, vec_capacity};
    ghost use Rattle.desk_rules.specs.declared.pings.TheConstants.{MOST_PINGS};

    ghost Value = { List ℕ };

    ghost view = { λ p. p.numbers.items };

    ghost invariant = { λ p. MOST_PINGS + 1 ≤ vec_capacity p.numbers };
}

impl Pings {
    /// No pings.
    pub fn make(alloc: Global) -> Result<Pings, NoMemory>
        ensures { IfOk result (λ pings. pings ≡ []) }
    {
        Ok(Pings {
            numbers: Vec::with_capacity(alloc, MOST_PINGS + 1)?,
        })
    }

    /// The number of held pings.
    pub fn len(&self) -> usize
        ensures { result ≡ length self.now }
    {
        self.numbers.len()
    }

    /// The numbers of the pings, the oldest first.
    pub fn numbers(&self) -> &[u32]
        ensures { result.now ≡ self.now }
    {
        self.numbers.as_slice()
    }

    /// Adds the newest ping.
    pub fn add(&mut self, number: u32)
        requires { length self.old < MOST_PINGS + 1 }
        ensures { self.new ≡ self.old ++ number ∷ [] }
    {
        self.numbers.push_reserved(number);
    }

    /// Takes all pings out.
    pub fn clear(&mut self)
        ensures { self.new ≡ [] }
    {
        self.numbers.clear();
    }
}
