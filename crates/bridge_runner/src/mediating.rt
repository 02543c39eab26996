// A session as a mediator.
ghost use Rattle.std.specs.Prelude.{◌≡◌, ◌+◌, ◌≤◌, length, true, IfOk};
ghost use Rattle.line_io.specs.Event.{event_of};
ghost use Rattle.policy_rules.specs.SettingRules.Policy.{IsProper};
ghost use Rattle.script_lines.specs.declared.step_text.TheConstants.{STEP_ROOM};
ghost use Rattle.adapter_core.specs.Ends.{may};
ghost use Rattle.bridge_runner.specs.Plays.{IsNew, BridgeTookStep};

use crate::Session;
use adapter_core::Core;
use event_loop::Mediator;
use event_pipe::Peer;
use line_io::{Event, NoMemory, Out};
use policy_rules::Settings;
use script_lines::{next_number, put_numbered_step, write_header};
use std::alloc::Global;

impl Session {
    /// A session before its first step. It takes all memory that it ever uses.
    pub fn make(alloc: Global, settings: &Settings) -> Result<Session, NoMemory>
        requires { IsProper settings.now }
        ensures { IfOk result (IsNew settings.now) }
    {
        let core = Core::make(alloc, settings)?;
        Ok(Session { core, next: 0 })
    }

    // Steps the core, and puts the step's text.
    fn advance(&mut self, event: &Event, text: &mut Out)
        requires may { may self.old.core.ends (event_of event.now) ≡ true }
        requires room { length text.old.text + STEP_ROOM ≤ text.old.room }
        ensures { BridgeTookStep self.old self.new (event_of event.now) text.old text.new }
    {
        self.core.advance(event);
        let lines = self.core.lines();
        put_numbered_step(self.next, event, lines.iface, lines.engine, text);
        self.next = next_number(self.next);
    }
}

impl Mediator for Session {
    ghost use Rattle.bridge_runner.specs.Plays.{session_meaning};

    ghost means = { session_meaning };

    fn begin(&mut self, text: &mut Out) {
        write_header(&self.core.settings(), text);
        text.put(b"\n");
        self.advance(&Event::Open, text);
    }

    fn may(&self, event: &Event) -> bool {
        self.core.may(event)
    }

    fn step(&mut self, event: &Event, text: &mut Out) {
        self.advance(event, text);
    }

    fn given(&self, peer: Peer) -> &[u8] {
        match peer {
            Peer::Iface => self.core.lines().iface,
            Peer::Engine => self.core.lines().engine,
        }
    }
}
