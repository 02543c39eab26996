// The line of a peer that has not ended yet, as a mark.
ghost use Rattle.std.specs.Prelude.{◌≡◌, ◌≢◌, ◌++◌, ◌∷◌, [], ◌||◌, not, Some, true, false, IfOk};
ghost use Rattle.event_pipe.specs.Ends.{IsSender, KeepsSender, messages_sent};
ghost use Rattle.tap_runner.specs.Messages.{has_end_mark};
ghost use Rattle.tap_runner.specs.Lines.{with_byte, piece_in, last_pieces};
ghost use Rattle.tap_runner.specs.Marks.{piece_message, piece_messages};
ghost use Rattle.tap_runner.specs.Hearing.{Open, no_open_line, TapHears};

use crate::{TapMark, TapMessage};
use event_pipe::{Bytes, Peer, PipeSend};
use line_io::{NoMemory, Out, PEER_LINE};
use std::alloc::Global;
use std::marker::Model;
use std::sync::Wait;

// The longest mark that goes through the channel.
const MARK_ROOM: usize = PEER_LINE;

/// The line of a peer that has not ended yet.
#[derive(Drop)]
pub struct OpenLine {
    peer: Peer,
    // its mark, of which the end is missing if it is long
    mark: Out,
    is_long: bool,
    // there was no memory for a mark
    has_lacked: bool,
}

impl Model for OpenLine {
    ghost use Rattle.tap_runner.specs.Hearing.{Open, open_of, IsTapMark};

    ghost Value = { Open };

    ghost view = { λ p. open_of p.peer p.mark p.is_long p.has_lacked };

    ghost invariant = { λ p. IsTapMark p.peer p.mark p.is_long };
}

// The letter of a peer's marks.
fn letter(peer: Peer) -> u8
    ensures { result ≡ mark_letter peer }
{
    match peer {
        Peer::Iface => b'U',
        Peer::Engine => b'u',
    }
}

ghost use Rattle.tap_runner.specs.Marks.{mark_letter};

impl OpenLine {
    /// No byte was heard of this peer.
    pub fn make(alloc: Global, peer: Peer) -> Result<OpenLine, NoMemory>
        ensures { IfOk result (λ part. part ≡ no_open_line peer) }
    {
        let mut mark = Out::make(alloc, MARK_ROOM)?;
        mark.put(&[letter(peer), b' ']);
        Ok(OpenLine {
            peer,
            mark,
            is_long: false,
            has_lacked: false,
        })
    }

    /// True if there was no memory for a mark.
    pub fn has_lacked_memory(&self) -> bool
        ensures { result ≡ self.now.has_lacked }
    {
        self.has_lacked
    }

    // Nothing of the next line was heard.
    fn begin(&mut self)
        ensures { self.new ≡ record self.old { line = Some [] } }
    {
        self.mark.clear();
        self.mark.put(&[letter(self.peer), b' ']);
        self.is_long = false;
    }

    // The line goes on.
    fn put(&mut self, byte: u8)
        requires { byte ≢ 10 }
        ensures { self.new ≡ record self.old { line = with_byte self.old.line byte } }
    {
        if self.is_long || self.mark.spare() == 0 {
            self.is_long = true;
        } else {
            self.mark.put(&[byte]);
        }
    }

    // Sends its mark. One that is too long, or for which there is no memory, is sent as long.
    fn send<R: Wait>(&mut self, rt: &R, alloc: Global, to: &mut PipeSend<TapMessage>)
        requires sender { IsSender to.old }
        requires peer { to.old.peer ≡ self.old.peer }
        requires going { has_end_mark (messages_sent to.old) ≡ false }
        ensures keeps { KeepsSender to.old to.new }
        ensures hears { TapHears self.old self.new (messages_sent to.old) (messages_sent to.new)
            (piece_in self.old.line ∷ []) (Some []) }
    {
        let peer = self.peer;
        if self.is_long {
            to.send(
                rt,
                TapMessage {
                    peer,
                    mark: TapMark::Long,
                },
            );
        } else {
            match Bytes::make(alloc, self.mark.bytes()) {
                Ok(line) => to.send(
                    rt,
                    TapMessage {
                        peer,
                        mark: TapMark::Line(line),
                    },
                ),
                Err(_) => {
                    self.has_lacked = true;
                    to.send(
                        rt,
                        TapMessage {
                            peer,
                            mark: TapMark::Long,
                        },
                    );
                }
            }
        }
        self.begin();
    }

    // Hears a byte.
    fn take<R: Wait>(&mut self, rt: &R, alloc: Global, byte: u8, to: &mut PipeSend<TapMessage>)
        requires sender { IsSender to.old }
        requires peer { to.old.peer ≡ self.old.peer }
        requires going { has_end_mark (messages_sent to.old) ≡ false }
        ensures keeps { KeepsSender to.old to.new }
        ensures hears { TapHears self.old self.new (messages_sent to.old) (messages_sent to.new)
            (lines_ended_by self.old.line (byte ∷ [])) (line_after self.old.line (byte ∷ [])) }
    {
        if byte == b'\n' {
            self.send(rt, alloc, to);
        } else {
            self.put(byte);
        }
    }

    /// Hears bytes of its peer, and sends the mark of each line that they end.
    pub fn hear<R: Wait>(
        &mut self,
        rt: &R,
        alloc: Global,
        bytes: &[u8],
        to: &mut PipeSend<TapMessage>,
    )
        requires sender { IsSender to.old }
        requires peer { to.old.peer ≡ self.old.peer }
        requires going { has_end_mark (messages_sent to.old) ≡ false }
        ensures keeps { KeepsSender to.old to.new }
        ensures hears { TapHears self.old self.new (messages_sent to.old) (messages_sent to.new)
            (lines_ended_by self.old.line bytes.now) (line_after self.old.line bytes.now) }
    {
        for byte in bytes {
            self.take(rt, alloc, *byte, to);
        }
    }

    /// Sends the mark of a last line that no line feed ends, and then the end of its peer.
    pub fn end<R: Wait>(&mut self, rt: &R, alloc: Global, to: &mut PipeSend<TapMessage>)
        requires sender { IsSender to.old }
        requires peer { to.old.peer ≡ self.old.peer }
        requires going { has_end_mark (messages_sent to.old) ≡ false }
        ensures keeps { KeepsSender to.old to.new }
        ensures ends { EndsHearing self.old self.new (messages_sent to.old) (messages_sent to.new) }
    {
        if self.is_long || self.mark.bytes().len() > 2 {
            self.send(rt, alloc, to);
        }
        let peer = self.peer;
        to.send(
            rt,
            TapMessage {
                peer,
                mark: TapMark::End,
            },
        );
    }
}

ghost use Rattle.tap_runner.specs.Lines.{lines_ended_by, line_after};
ghost use Rattle.tap_runner.specs.Hearing.{EndsHearing};
