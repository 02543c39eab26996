// One channel, two senders and one receiving end.
ghost use Rattle.std.specs.Prelude.{◌≡◌, ℕ, [], ◌++◌, ◌∷◌, true, false, IfOk};
ghost use Rattle.crossbeam_channel.specs.Claims.{view};
ghost use Rattle.crossbeam_channel.specs.Ends.{sends_on, receives_on};
ghost use Rattle.event_pipe.specs.Message.{role_of};
ghost use Rattle.event_pipe.specs.Rule.{SendAdds, Gets, has_last, MayFollow};
ghost use Rattle.event_pipe.specs.Ends.{IsSender, IsReceiver, IsFreshSender, IsFreshReceiver, KeepsSender, KeepsReceiver, AreOne, AreWithinRoom, CameFrom, messages_sent, messages_taken};
ghost use Rattle.event_pipe.specs.declared.message.Peer.TheVariants as peers;

use crate::{Message, Peer, Sent};
use crossbeam_channel::protocol::{Join, Lesson, Outcome, Protocol, Split};
use crossbeam_channel::{Pass, RuledReceiver, RuledSender, bounded_with};
use line_io::NoMemory;
use std::alloc::Global;
use std::collections::LinkedList;
use std::sync::Wait;
use std::sync::atomic::AtomicU64;
use std::thread;
use std::time::Duration;

/// So many messages fit into the channel. A sender that finds it full waits.
pub const CHANNEL_ROOM: usize = 64;

// So many microseconds a sender rests when it finds the channel full, and so lets the receiving end
// make room for many messages: it need not wake the sender for each.
const REST_WHILE_FULL: u64 = 100;

/// The knowledge of a pass. Contracts speak of it; no value of it is made.
pub struct KnownOfPass<M> {
    /// 0 of the receiver, 1 of the interface's sender, 2 of the engine's, 3 of a pass that was joined.
    pub role: u8,
    /// Of the receiving end: how many senders it made.
    pub made: u8,
    /// Of the receiving end: how many senders it took in again.
    pub joined: u8,
    /// Of a sender: what it has sent.
    pub sent: LinkedList<M>,
    /// Of the receiving end: what it has taken.
    pub taken: LinkedList<M>,
    /// Of the receiving end, once it took in the interface's sender: what that has sent.
    pub first: LinkedList<M>,
    /// Of the receiving end, once it took in the engine's sender: what that has sent.
    pub second: LinkedList<M>,
}

/// The rule of the channel: what each sender has sent comes in order, whole.
pub struct InOrder;

impl<M: Message> Protocol<M, KnownOfPass<M>> for InOrder {
    ghost use Rattle.event_pipe.specs.Rule.{Delivers, idle};

    ghost holds = { Delivers M.means };

    ghost first = { idle };
}

/// A send, at the back.
pub struct Sending;

impl<M> Outcome<M, KnownOfPass<M>> for Sending {
    ghost use Rattle.event_pipe.specs.Rule.{SendAdds};

    ghost then = { SendAdds };
}

impl<M> Lesson<M, KnownOfPass<M>> for Sending {
    ghost use Rattle.std.specs.Prelude.{⊤};

    ghost fact = { λ v items. ⊤ };
}

/// A receive, at the front.
pub struct Taking;

impl<M: Message> Outcome<M, KnownOfPass<M>> for Taking {
    ghost use Rattle.event_pipe.specs.Rule.{Gets};

    ghost then = { Gets M.means };
}

impl<M> Lesson<M, KnownOfPass<M>> for Taking {
    ghost use Rattle.std.specs.Prelude.{⊤};

    ghost fact = { λ v items. ⊤ };
}

/// The fact that the receiving end learns once both senders were taken in.
pub struct AllSent;

impl<M: Message> Lesson<M, KnownOfPass<M>> for AllSent {
    ghost use Rattle.event_pipe.specs.Rule.{Total};

    ghost fact = { Total M.means };
}

/// The interface's pass is made of the receiving end's.
pub struct SplitIface;

impl<M> Split<KnownOfPass<M>> for SplitIface {
    ghost use Rattle.event_pipe.specs.Rule.{made_first, sender};

    ghost left = { made_first };

    ghost right = { λ v. sender 1 };
}

/// The engine's pass is made of the receiving end's.
pub struct SplitEngine;

impl<M> Split<KnownOfPass<M>> for SplitEngine {
    ghost use Rattle.event_pipe.specs.Rule.{made_second, sender};

    ghost left = { made_second };

    ghost right = { λ v. sender 2 };
}

/// The interface's pass is joined to the receiving end's.
pub struct JoinIface;

impl<M> Join<KnownOfPass<M>> for JoinIface {
    ghost use Rattle.event_pipe.specs.Rule.{joined_first, sender};

    ghost both = { joined_first };

    ghost spent = { sender 3 };
}

/// The engine's pass is joined to the receiving end's.
pub struct JoinEngine;

impl<M> Join<KnownOfPass<M>> for JoinEngine {
    ghost use Rattle.event_pipe.specs.Rule.{joined_second, sender};

    ghost both = { joined_second };

    ghost spent = { sender 3 };
}

fn rest_while_full<R: Wait>(rt: &R) {
    AtomicU64::new(0).park_timeout(rt, 0, Duration::from_micros(REST_WHILE_FULL));
}

/// One peer's end of the channel: it sends that peer's messages.
#[derive(Drop)]
pub struct PipeSend<M: Message = Sent> {
    sender: RuledSender<M, KnownOfPass<M>, InOrder>,
    pass: Pass<M, KnownOfPass<M>>,
    pub(crate) peer: Peer,
}

/// The end that takes what both peers' ends send.
#[derive(Drop)]
pub struct PipeTake<M: Message = Sent> {
    receiver: RuledReceiver<M, KnownOfPass<M>, InOrder>,
    pass: Pass<M, KnownOfPass<M>>,
}

impl<M: Message> PipeSend<M> {
    /// Sending a message of the sender's peer, at the back.
    pub fn send<R: Wait>(&mut self, rt: &R, message: M)
        requires sender { IsSender self.old }
        requires peer { M.means.role message ≡ role_of self.old.peer }
        requires ended { has_last M.means (messages_sent self.old) ≡ false }
        requires good { M.means.is_good message ≡ true }
        ensures keeps { KeepsSender self.old self.new }
        ensures adds { messages_sent self.new ≡ messages_sent self.old ++ message ∷ [] }
    {
        let Err(full) = self
            .sender
            .try_send_as::<Sending, R>(rt, &mut self.pass, message)
        else {
            return;
        };
        rest_while_full(rt);
        let mut message = full.into_inner();
        for _ in rt.forever() {
            match self
                .sender
                .send_as::<Sending, R>(rt, &mut self.pass, message)
            {
                Ok(()) => return,
                Err(e) => message = e.into_inner(),
            }
            thread::yield_now();
        }
    }
}

impl<M: Message> PipeTake<M> {
    /// Taking the front.
    pub fn take<R: Wait>(&mut self, rt: &R) -> M
        requires receiving_end { IsReceiver self.old }
        ensures keeps { KeepsReceiver self.old self.new }
        ensures gets { messages_taken self.new ≡ messages_taken self.old ++ result ∷ [] }
        ensures follows { MayFollow M.means (messages_taken self.old) result }
    {
        for _ in rt.forever() {
            match self.receiver.recv_as::<Taking, R>(rt, &mut self.pass) {
                Ok(message) => return message,
                Err(_) => {}
            }
            thread::yield_now();
        }
        unreachable!()
    }
}

/// A channel of `CHANNEL_ROOM` messages from two senders to one receiving end.
pub struct Pipe;

impl Pipe {
    /// The interface's sender, the engine's and the receiver.
    pub fn make<M: Message>(
        alloc: Global,
    ) -> Result<(PipeSend<M>, PipeSend<M>, PipeTake<M>), NoMemory>
        ensures iface { IfOk result (λ r. IsFreshSender r.0 peers.Iface) }
        ensures engine { IfOk result (λ r. IsFreshSender r.1 peers.Engine) }
        ensures receiving_end { IfOk result (λ r. IsFreshReceiver r.2) }
        ensures one { IfOk result (λ r. AreOne r.0 r.1 r.2) }
    {
        let (sender, receiver, mut pass) = bounded_with(alloc, CHANNEL_ROOM)?;
        let second = sender.try_clone()?;
        let iface = sender.another::<SplitIface>(&mut pass);
        let engine = sender.another::<SplitEngine>(&mut pass);
        Ok((
            PipeSend {
                sender,
                pass: iface,
                peer: Peer::Iface,
            },
            PipeSend {
                sender: second,
                pass: engine,
                peer: Peer::Engine,
            },
            PipeTake { receiver, pass },
        ))
    }

    /// Joins the three again.
    pub fn finish<M: Message>(iface: PipeSend<M>, engine: PipeSend<M>, receiving_end: PipeTake<M>)
        requires iface { IsSender iface × (iface.peer ≡ peers.Iface) }
        requires engine { IsSender engine × (engine.peer ≡ peers.Engine) }
        requires receiving_end { IsReceiver receiving_end }
        requires one { AreOne iface engine receiving_end }
        ensures iface { CameFrom M.means peers.Iface (messages_taken receiving_end) (messages_sent
            iface) }
        ensures engine { CameFrom M.means peers.Engine (messages_taken receiving_end)
            (messages_sent engine) }
        ensures room { AreWithinRoom iface engine receiving_end }
    {
        let PipeSend {
            sender,
            pass: first,
            peer: _,
        } = iface;
        let PipeSend {
            sender: _other,
            pass: second,
            peer: _,
        } = engine;
        let PipeTake {
            receiver: _receiver,
            mut pass,
        } = receiving_end;
        sender.absorb::<JoinIface>(&mut pass, first);
        sender.absorb::<JoinEngine>(&mut pass, second);
        sender.learn_as::<AllSent>(&mut pass);
    }
}
