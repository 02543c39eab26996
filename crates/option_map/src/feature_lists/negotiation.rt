// When the list of features is written.
ghost use Rattle.std.specs.Prelude.{◌≡◌, false};
ghost use Rattle.option_map.specs.WaitingOrders.Due.{protover_answer};

use std::marker::Model;

/// The answer to `protover`.
#[derive(Clone, Copy, PartialEq, Eq)]
pub enum ProtoverAnswer {
    /// `feature done=0`: the list comes once the engine has declared its options.
    Wait,
    /// The list.
    List,
}

/// The feature negotiation: true if the list of features is due.
#[derive(Drop)]
pub struct FeatureNegotiation {
    due: bool,
}

impl Model for FeatureNegotiation {
    ghost use Rattle.std.specs.Prelude.{Bool};

    ghost Value = { Bool };

    ghost view = { λ t. t.due };
}

impl FeatureNegotiation {
    ghost use Rattle.option_map.specs.WaitingOrders.Due.{due_after};

    /// Nothing is due.
    pub fn new() -> FeatureNegotiation
        ensures { result ≡ false }
    {
        FeatureNegotiation { due: false }
    }

    /// True if the list is due.
    pub fn is_due(&self) -> bool
        ensures { result ≡ self.now }
    {
        self.due
    }

    /// The interface sent `protover`; `boot` says whether the engine is still declaring its options.
    pub fn protover(&mut self, boot: bool) -> ProtoverAnswer
        ensures answer { result ≡ protover_answer boot }
        ensures due { self.new ≡ due_after boot self.old }
    {
        if boot {
            self.due = true;
            ProtoverAnswer::Wait
        } else {
            ProtoverAnswer::List
        }
    }

    /// The engine has declared its options, or ended before: whether the list is due. It is due no longer.
    pub fn left_boot(&mut self) -> bool
        ensures was { result ≡ self.old }
        ensures due { self.new ≡ false }
    {
        let was = self.due;
        self.due = false;
        was
    }
}
