// An engine that is started again.
ghost use Rattle.std.specs.Prelude.{◌≡◌, ◌≤◌, ◌<◌, length, true, false, IfOk};
ghost use Rattle.std.specs.Borrow.{sem};
ghost use Rattle.engine_revival.specs.Calls as calls;
ghost use Rattle.engine_revival.specs.Calls.{LifeCallGives, may_call, revival_after};
ghost use Rattle.line_io.specs.Event.{has_feed};
ghost use Rattle.engine_revival.specs.Marks.{HaveRoom};
ghost use Rattle.engine_revival.specs.View.{opening_view, view_without_lines, RevivalInvariant};
ghost use Rattle.engine_revival.specs.declared.state.TheConstants.{MOST_LINE};

use crate::state::RevivalState;
use line_io::{NoMemory, Out, PEER_LINE};
use std::alloc::Global;
use std::marker::Model;

/// The room of the lines up: one as long as a line may be, and what stands in for the engine.
pub(crate) const UP_ROOM: usize = PEER_LINE + 40_000;

/// The room of the lines to the engine: all settings, and the orders of a search.
pub(crate) const CHILD_ROOM: usize = 1_310_720;

/// Room for the marks of the lines up and of those to the engine, each on a line after its letter.
pub const MARKS_ROOM: usize = 2_000_000;

// The state, and the lines of the last call.
#[derive(Drop)]
pub(crate) struct RevivalParts {
    state: RevivalState,
    up: Out,
    child: Out,
}

impl RevivalParts {
    fn clear(&mut self)
        ensures { self.new ≡ view_without_lines self.old }
    {
        self.up.clear();
        self.child.clear();
    }

    fn order(&mut self, line: &[u8])
        requires one_line { has_feed line.now ≡ false }
        requires short { length line.now ≤ MOST_LINE }
        requires keeps { RevivalInvariant self.old }
        ensures gives { LifeCallGives self.old.state (calls.Order line.now)
            self.new.state self.new.up.text self.new.child.text }
        ensures keeps { RevivalInvariant self.new }
    {
        self.clear();
        self.state.order(line, &mut self.child);
        self.state.settle(&mut self.up, &mut self.child);
    }

    fn hear(&mut self, line: &[u8])
        requires short { length line.now ≤ MOST_LINE }
        requires keeps { RevivalInvariant self.old }
        ensures gives { LifeCallGives self.old.state (calls.Heard line.now)
            self.new.state self.new.up.text self.new.child.text }
        ensures keeps { RevivalInvariant self.new }
    {
        self.clear();
        self.state.hear(line, &mut self.up);
        self.state.settle(&mut self.up, &mut self.child);
    }

    fn begin(&mut self)
        requires may { may_call self.old.state calls.Begin ≡ true }
        requires keeps { RevivalInvariant self.old }
        ensures gives { LifeCallGives self.old.state calls.Begin
            self.new.state self.new.up.text self.new.child.text }
        ensures keeps { RevivalInvariant self.new }
    {
        self.clear();
        self.state.begin(&mut self.child);
        self.state.settle(&mut self.up, &mut self.child);
    }

    fn close(&mut self)
        requires keeps { RevivalInvariant self.old }
        ensures gives { LifeCallGives self.old.state calls.Over
            self.new.state self.new.up.text self.new.child.text }
        ensures keeps { RevivalInvariant self.new }
    {
        self.clear();
        self.state.close();
        self.state.settle(&mut self.up, &mut self.child);
    }
}

/// An engine that may die and is started again, which to those who give the orders is one engine.
///
/// A life of the engine begins and ends; up to nine are begun. What each call does is said by `after`, `up_of` and
/// `child_of` (specs/Calls): the orders that are accepted, what the present life gets of them and when, which of its
/// lines are passed up, and what stands in for it once no life follows.
#[derive(Drop)]
pub struct Revival {
    parts: RevivalParts,
}

impl Model for Revival {
    ghost use Rattle.engine_revival.specs.View.{View, RevivalInvariant};

    ghost Value = { View };

    ghost view = { λ r. r.parts };

    ghost invariant = { λ r. RevivalInvariant r.parts };
}

/// The output of a call: whole lines to those who give the orders, and to the engine, each with its line feed.
#[derive(Clone, Copy)]
pub struct RevivalStep<'a> {
    pub up: &'a [u8],
    pub child: &'a [u8],
}

impl Revival {
    ghost use Rattle.engine_revival.specs.Lending.{CallGives};
    ghost use Rattle.engine_revival.specs.Steps.{may_begin, is_alive, is_ended};

    /// The first life is begun. It takes all memory that it ever uses.
    pub fn make(alloc: Global, lives: u32) -> Result<Revival, NoMemory>
        ensures { IfOk result (λ revival. revival ≡ opening_view lives) }
    {
        let up = Out::make(alloc, UP_ROOM)?;
        let child = Out::make(alloc, CHILD_ROOM)?;
        let state = RevivalState::make(alloc, lives)?;
        Ok(Revival {
            parts: RevivalParts { state, up, child },
        })
    }

    /// An order came. The line has no line feed.
    pub fn order<'a>(&'a mut self, line: &[u8]) -> RevivalStep<'a>
        requires may { may_call self.old.state (calls.Order line.now) ≡ true }
        requires one_line { has_feed line.now ≡ false }
        requires short { length line.now ≤ MOST_LINE }
        ensures* gives { sem 𝓛 (CallGives self.entry (calls.Order line.now) result) }
        ensures marks { HaveRoom result.up.now result.child.now }
    {
        self.take_order(line);
        self.lines()
    }

    /// The present life wrote a line. It has no line feed.
    pub fn heard<'a>(&'a mut self, line: &[u8]) -> RevivalStep<'a>
        requires may { may_call self.old.state (calls.Heard line.now) ≡ true }
        requires short { length line.now ≤ MOST_LINE }
        ensures* gives { sem 𝓛 (CallGives self.entry (calls.Heard line.now) result) }
        ensures marks { HaveRoom result.up.now result.child.now }
    {
        self.take_heard(line);
        self.lines()
    }

    /// The present life has ended: whether another may begin. `begin` comes next if so, else `over`.
    pub fn ended(&mut self) -> bool
        requires { may_call self.old.state calls.Ended ≡ true }
        ensures state { self.new.state ≡ revival_after self.old.state calls.Ended }
        ensures may { result ≡ may_begin self.old.state }
    {
        self.parts.state.end()
    }

    /// Another life is begun.
    pub fn begin(&mut self) -> RevivalStep<'_>
        requires { may_call self.old.state calls.Begin ≡ true }
        ensures* gives { sem 𝓛 (CallGives self.entry calls.Begin result) }
        ensures marks { HaveRoom result.up.now result.child.now }
    {
        self.take_begin();
        self.lines()
    }

    /// The present life has ended, and no life follows.
    pub fn over(&mut self) -> RevivalStep<'_>
        requires { may_call self.old.state calls.Over ≡ true }
        ensures* gives { sem 𝓛 (CallGives self.entry calls.Over result) }
        ensures marks { HaveRoom result.up.now result.child.now }
    {
        self.take_over();
        self.lines()
    }

    /// True if a setting came that the lists have no room for. No life is begun from then on.
    pub fn full(&self) -> bool
        ensures { result ≡ self.now.state.full }
    {
        self.parts.state.is_full()
    }

    /// True if `quit` was accepted. No order is accepted from then on, and nothing is written to the
    /// life after it.
    pub fn has_quit(&self) -> bool
        ensures { result ≡ self.now.state.quit }
    {
        self.parts.state.has_quit()
    }

    /// True if a life is begun and has not ended.
    pub fn is_alive(&self) -> bool
        ensures { result ≡ is_alive self.now.state.life }
    {
        self.parts.state.is_alive()
    }

    /// True if a life has ended, and neither `begin` nor `over` came since.
    pub fn awaits_next(&self) -> bool
        ensures { result ≡ is_ended self.now.state.life }
    {
        self.parts.state.is_ended()
    }

    pub(crate) fn take_order(&mut self, line: &[u8])
        requires one_line { has_feed line.now ≡ false }
        requires short { length line.now ≤ MOST_LINE }
        ensures gives { LifeCallGives self.old.state (calls.Order line.now)
            self.new.state self.new.up.text self.new.child.text }
    {
        self.parts.order(line);
    }

    pub(crate) fn take_heard(&mut self, line: &[u8])
        requires short { length line.now ≤ MOST_LINE }
        ensures gives { LifeCallGives self.old.state (calls.Heard line.now)
            self.new.state self.new.up.text self.new.child.text }
    {
        self.parts.hear(line);
    }

    pub(crate) fn take_begin(&mut self)
        requires { may_call self.old.state calls.Begin ≡ true }
        ensures gives { LifeCallGives self.old.state calls.Begin
            self.new.state self.new.up.text self.new.child.text }
    {
        self.parts.begin();
    }

    pub(crate) fn take_over(&mut self)
        ensures gives { LifeCallGives self.old.state calls.Over
            self.new.state self.new.up.text self.new.child.text }
    {
        self.parts.close();
    }

    pub(crate) fn lines(&self) -> RevivalStep<'_>
        ensures up { result.up.now ≡ self.now.up.text }
        ensures child { result.child.now ≡ self.now.child.text }
        ensures marks { HaveRoom result.up.now result.child.now }
    {
        RevivalStep {
            up: self.parts.up.bytes(),
            child: self.parts.child.bytes(),
        }
    }
}
