// The sides that have begun, and those that have ended.
ghost use Rattle.std.specs.Prelude.{◌≡◌};
ghost use Rattle.line_io.specs.Event.{event_of, is_line};
ghost use Rattle.desk_rules.specs.Steps.{quits as quits_by};
ghost use Rattle.adapter_core.specs.Ends.{may, ends_after};

use line_io::{Event, PEER_LINE};

/// The sides that have begun, and those that have ended.
#[derive(Clone, Copy, PartialEq, Eq)]
pub struct Ends {
    pub opened: bool,
    /// The interface sent `quit`, or its input ended.
    pub iface: bool,
    pub engine: bool,
    pub iface_lost: bool,
    pub engine_lost: bool,
    /// Nothing more is written.
    pub closed: bool,
}

fn is_line(line: &[u8]) -> bool
    ensures { result ≡ is_line line.now }
{
    line.len() <= PEER_LINE && !line.contains(&b'\n')
}

impl Ends {
    /// True if the event may come.
    pub fn may(&self, event: &Event) -> bool
        ensures { result ≡ may self.now (event_of event.now) }
    {
        match event {
            Event::Open => !self.opened,
            Event::Iface(line) => self.opened && !self.iface && is_line(line),
            Event::IfaceLong | Event::IfaceEnd => self.opened && !self.iface,
            Event::IfaceLost => self.opened && !self.iface && !self.iface_lost,
            Event::Engine(line) => self.opened && !self.engine && is_line(line),
            Event::EngineLong | Event::EngineEnd => self.opened && !self.engine,
            Event::EngineLost => self.opened && !self.engine && !self.engine_lost,
        }
    }

    /// After the event, by which the interface sends `quit` or not.
    pub fn after(mut self, event: &Event, quits: bool) -> Ends
        requires { quits ≡ quits_by (event_of event.now) }
        ensures { result ≡ ends_after self (event_of event.now) }
    {
        match event {
            Event::Open => self.opened = true,
            Event::Iface(_) => {
                self.iface = self.iface || quits;
                self.closed = self.closed || quits;
            }
            Event::IfaceEnd => {
                self.iface = true;
                self.closed = true;
            }
            Event::IfaceLost => {
                self.iface_lost = true;
                self.closed = true;
            }
            Event::EngineEnd => self.engine = true,
            Event::EngineLost => self.engine_lost = true,
            _ => {}
        }
        self
    }
}
