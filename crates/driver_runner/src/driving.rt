// The driver as a mediator.
use cecp_driver::Driver;
use event_loop::Mediator;
use event_pipe::Peer;
use line_io::{Event, Out};

/// A driver between two peers. Long lines are passed over, the end of the interface counts as
/// `quit`, and losses are not told.
#[derive(Drop)]
pub struct Driving {
    pub driver: Driver,
}

impl Mediator for Driving {
    ghost use Rattle.driver_runner.specs.Drives.{driving_meaning};

    ghost means = { driving_meaning };

    fn begin(&mut self, text: &mut Out) {
        let _ = text;
    }

    fn may(&self, event: &Event) -> bool {
        self.driver.may_come(event)
    }

    fn step(&mut self, event: &Event, text: &mut Out) {
        self.driver.play(event, text);
    }

    fn given(&self, peer: Peer) -> &[u8] {
        let lines = self.driver.lines();
        match peer {
            Peer::Iface => lines.up,
            Peer::Engine => lines.child,
        }
    }
}
