// The parts that a run needs.
use event_pipe::{PipeSend, PipeTake};
use line_io::Out;

/// The parts that the loop needs: a mediator, the end of the channel from which its events come, and the room
/// for what is put into the log for a turn.
#[derive(Drop)]
pub struct Turns<M> {
    pub mediator: M,
    pub receiving_end: PipeTake,
    pub text: Out,
}

/// The parts that a run needs: the ends of the channel into which the readers send, and what the loop needs.
#[derive(Drop)]
pub struct MediatorParts<M> {
    pub iface: PipeSend,
    pub engine: PipeSend,
    pub turns: Turns<M>,
}
