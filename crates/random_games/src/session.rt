// The session that a drill holds with the core.
ghost use Rattle.std.specs.Prelude.{◌≡◌, ◌≤◌, ◌+◌, [], IfOk, true};
ghost use Rattle.line_io.specs.Event.{event_of, is_line, Iface as FromIface, Engine as FromEngine};
ghost use Rattle.policy_rules.specs.SettingRules.Policy.{usual};
ghost use Rattle.adapter_core.specs.Ends.{at_start, ends_after, may};
ghost use Rattle.adapter_core.specs.Represents.{Represents};
ghost use Rattle.random_games.specs.Sent.{CountsAreFew, DrillHasRoom, IsSpeech, DrillSends, DrillSteps, both_sides_open};
ghost use Rattle.random_games.specs.Tally.{nothing};
ghost use Rattle.random_games.specs.declared.tally.TheConstants.{MOST_STEPS};

use crate::tally::Tally;
use adapter_core::Core;
use line_io::{Event, NoMemory};
use policy_rules::Settings;
use std::alloc::Global;
use std::marker::Model;

/// The core, and what was counted of its steps.
#[derive(Drop)]
pub struct DrillSession {
    core: Core,
    tally: Tally,
}

impl Model for DrillSession {
    ghost use Rattle.random_games.specs.Sent.{DrillSession as AnySession, DrillInvariant};

    ghost Value = { AnySession };

    ghost view = { λ s. record { core = s.core; tally = s.tally } };

    ghost invariant = { λ s. DrillInvariant (record { core = s.core; tally = s.tally }) };
}

// One step of the core, counted.
fn step(core: &mut Core, event: &Event, tally: &mut Tally)
    requires may { may core.old.ends (event_of event.now) ≡ true }
    requires few { (tally.old.steps ≤ MOST_STEPS) × CountsAreFew tally.old }
    ensures { DrillSteps core.old core.new (event_of event.now) tally.old tally.new }
{
    let lines = core.step(event);
    tally.count(lines.iface, lines.engine);
}

impl DrillSession {
    /// A session before its first step.
    pub fn make(alloc: Global) -> Result<DrillSession, NoMemory>
        ensures core { IfOk result (λ session. Represents usual session.core []) }
        ensures ends { IfOk result (λ session. session.core.ends ≡ at_start) }
        ensures tally { IfOk result (λ session. session.tally ≡ nothing) }
    {
        Ok(DrillSession {
            core: Core::make(alloc, &Settings::usual())?,
            tally: Tally::nothing(),
        })
    }

    /// The counts so far.
    pub fn tally(&self) -> Tally
        ensures { result ≡ self.now.tally }
    {
        self.tally
    }

    /// Sends an event.
    pub fn send(&mut self, event: &Event)
        requires may { may self.old.core.ends (event_of event.now) ≡ true }
        requires room { DrillHasRoom 1 self.old }
        ensures sends { DrillSends self.old self.new (event_of event.now) }
        ensures ends { self.new.core.ends ≡ ends_after self.old.core.ends (event_of event.now) }
        ensures few { self.new.tally.steps ≤ self.old.tally.steps + 1 }
    {
        step(&mut self.core, event, &mut self.tally);
    }

    /// Sends a line of the interface.
    pub fn iface(&mut self, line: &[u8])
        requires talking { self.old.core.ends ≡ both_sides_open }
        requires speech { IsSpeech line.now }
        requires room { DrillHasRoom 1 self.old }
        ensures sends { DrillSends self.old self.new (FromIface line.now) }
        ensures talking { self.new.core.ends ≡ both_sides_open }
        ensures few { self.new.tally.steps ≤ self.old.tally.steps + 1 }
    {
        self.send(&Event::Iface(line));
    }

    /// Sends a line of the engine.
    pub fn engine(&mut self, line: &[u8])
        requires talking { self.old.core.ends ≡ both_sides_open }
        requires line { is_line line.now ≡ true }
        requires room { DrillHasRoom 1 self.old }
        ensures sends { DrillSends self.old self.new (FromEngine line.now) }
        ensures talking { self.new.core.ends ≡ both_sides_open }
        ensures few { self.new.tally.steps ≤ self.old.tally.steps + 1 }
    {
        self.send(&Event::Engine(line));
    }
}
