//! Messages of two peers on their way through one channel: the interface's and the engine's senders
//! send them, and one receiving end gets them in the order in which they came. A reader sends the
//! lines of its peer.
#![tactic(auto)]

mod beside;
mod message;
mod pipe;
mod reader;

pub use beside::join_three;
pub use message::{Bytes, Message, MessageBody, Peer, ReaderMessage, Sent};
pub use pipe::{
    AllSent, CHANNEL_ROOM, InOrder, JoinEngine, JoinIface, KnownOfPass, Pipe, PipeSend, PipeTake,
    Sending, SplitEngine, SplitIface, Taking,
};
pub use reader::{ReadEnd, read_messages, read_pipe};
