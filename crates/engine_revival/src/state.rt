// The state kept between two calls.
ghost use Rattle.std.specs.Prelude.{◌≡◌, ◌≤◌, ◌<◌, ◌+◌, ◌++◌, ◌∷◌, [], length, false, IfOk};
ghost use Rattle.line_io.specs.Out.{with};
ghost use Rattle.engine_revival.specs.Orders.{revival_order_of};
ghost use Rattle.engine_revival.specs.Asked.{revival_order_in};
ghost use Rattle.engine_revival.specs.Dialogue.{said_in};
ghost use Rattle.engine_revival.specs.Kept.{SpellsRevivalOrder, spelled};
ghost use Rattle.engine_revival.specs.Lists.{revival_batch_text};
ghost use Rattle.engine_revival.specs.Rooms.{IsRoomy};
ghost use Rattle.engine_revival.specs.Marks.{OrdersAreLines};
ghost use Rattle.line_io.specs.Event.{has_feed};
ghost use Rattle.engine_revival.specs.Steps.{opening_revival, state_with_kept, revival_with_value, with_button, settled_answers};
ghost use Rattle.engine_revival.specs.Steps.{is_alive, is_ended};
ghost use Rattle.engine_revival.specs.Steps.{state_after_line, state_after_reading, at_once, read_at_once, with_quit};
ghost use Rattle.engine_revival.specs.Steps.{state_once_heard, state_at_new_life, first_order, state_once_over, state_once_ended};
ghost use Rattle.engine_revival.specs.Steps.{state_once_settled, settled_orders, may_begin};
ghost use Rattle.engine_revival.specs.Steps.{due_orders, after_due, after_answer, readies};
ghost use Rattle.engine_revival.specs.Steps.{has_ready_room, is_order_refused, with_all_held};

use crate::life::{answer_to, due_to, is_given, owed_after};
use crate::order_list::{LIST_ORDERS, OrderList};
use crate::orders::{RevivalOrder, read_order};
use crate::words::{DialogueState, DueOrders, LifeState, StandInAnswer, said_in};
use crate::written_lines::{put_answer, put_if, put_line, put_quit, put_readies, put_uci};
use line_io::{NoMemory, Out, PEER_LINE};
use protocol_tokens::{is_quit, trim};
use std::alloc::Global;

/// The greatest number of bytes of a line.
pub const MOST_LINE: usize = PEER_LINE;

/// More orders than a life gets at once: two lists of them, and each `isready`.
pub(crate) const DUE_ORDERS: usize = 2 * LIST_ORDERS + READY_ORDERS;

/// How many `isready` may wait for their `readyok`.
pub const MOST_READY: u32 = 4_096;

const READY_ORDERS: usize = 4_096;

/// How many bytes they have at most, with their line feeds, and so their answers.
pub(crate) const READY_BYTES: usize = 8 * READY_ORDERS;

/// The greatest number of bytes of the orders of a search, with their line feeds.
pub(crate) const SEARCH_BYTES: usize = 2 * MOST_LINE + 17;

/// The state kept between two calls.
#[derive(Drop)]
pub(crate) struct RevivalState {
    lives: u32,
    begun: u32,
    quit: bool,
    full: bool,
    upper: DialogueState,
    life: LifeState,
    kept: OrderList,
    unsent: OrderList,
    search: OrderList,
    held_ready: u32,
    asked_ready: u32,
}

impl RevivalState {
    pub(crate) fn make(alloc: Global, lives: u32) -> Result<RevivalState, NoMemory>
        ensures { IfOk result (λ state. state ≡ opening_revival lives) }
    {
        Ok(RevivalState {
            lives,
            begun: 1,
            quit: false,
            full: false,
            upper: DialogueState::Before,
            life: LifeState::Fresh,
            kept: OrderList::make(alloc)?,
            unsent: OrderList::make(alloc)?,
            search: OrderList::make(alloc)?,
            held_ready: 0,
            asked_ready: 0,
        })
    }

    ghost use Rattle.std.specs.Prelude.{◌&&◌, Some};
    ghost use Rattle.engine_revival.specs.Lists.{revival_order_can_join};
    ghost use Rattle.engine_revival.specs.Steps.{quit_to, line_passed_up};
    ghost use Rattle.engine_revival.specs.declared.order_list.TheConstants.{LIST_ORDERS, LIST_BYTES};
    ghost use Rattle.engine_revival.specs.declared.state.RevivalState.{RevivalState};

    fn keep_value(&mut self, line: &[u8])
        requires spells { SpellsRevivalOrder line.now }
        requires roomy { IsRoomy self.old }
        ensures { self.new ≡ revival_with_value (revival_order_can_join self.old.kept (spelled
            line.now)
            && revival_order_can_join self.old.unsent (spelled line.now)) self.old (spelled
            line.now) }
    {
        if self.kept.fits(line) && self.unsent.fits(line) {
            self.kept.replace(line);
            self.unsent.replace(line);
        } else {
            self.full = true;
        }
    }

    fn keep_button(&mut self, line: &[u8])
        requires spells { SpellsRevivalOrder line.now }
        ensures { self.new
            ≡ with_button (revival_order_can_join self.old.unsent (spelled line.now))
            self.old (spelled line.now) }
    {
        if self.unsent.fits(line) {
            self.unsent.replace(line);
        } else {
            self.full = true;
        }
    }

    fn keep_search(&mut self, line: &[u8])
        requires spells { SpellsRevivalOrder line.now }
        requires few { length self.old.search < LIST_ORDERS }
        requires short { length (revival_batch_text self.old.search) + length line.now <
            LIST_BYTES }
        ensures { self.new ≡ record self.old { search = self.old.search ++ spelled line.now ∷ [] } }
    {
        self.search.add(line);
    }

    fn keep(&mut self, order: &RevivalOrder, line: &[u8])
        requires spells { SpellsRevivalOrder line.now }
        requires order { revival_order_of order.now ≡ spelled line.now }
        requires short { length line.now ≤ MOST_LINE }
        requires roomy { IsRoomy self.old }
        ensures { self.new ≡ state_with_kept self.old (spelled line.now) }
    {
        match order {
            RevivalOrder::Value { name: _, line: _ } => self.keep_value(line),
            RevivalOrder::Button { name: _, line: _ } => self.keep_button(line),
            RevivalOrder::NewGame => self.unsent.replace(line),
            RevivalOrder::IsReady => self.held_ready += 1,
            RevivalOrder::Position(_) => {
                self.search.clear();
                self.search.add(line);
            }
            RevivalOrder::Go { kind: _, line: _ } => self.keep_search(line),
            RevivalOrder::PonderHit => self.keep_search(line),
            RevivalOrder::Stop => self.keep_search(line),
            _ => {}
        }
    }

    fn has_ready_room(&self) -> bool
        requires roomy { IsRoomy self.now }
        ensures { result ≡ has_ready_room self.now }
    {
        self.held_ready + self.asked_ready < MOST_READY
    }

    fn refuses(&self, order: &RevivalOrder) -> bool
        requires roomy { IsRoomy self.now }
        ensures { result ≡ is_order_refused self.now (revival_order_of order.now) }
    {
        self.quit || (order.is_ready_order() && !self.has_ready_room())
    }

    // An order other than `quit` was read.
    fn take(&mut self, order: &RevivalOrder, line: &[u8], child: &mut Out)
        requires spells { SpellsRevivalOrder line.now }
        requires order { revival_order_of order.now ≡ spelled line.now }
        requires short { length line.now ≤ MOST_LINE }
        requires roomy { IsRoomy self.old }
        requires room { length child.old.text + MOST_LINE < child.old.room }
        ensures state { self.new ≡ state_after_reading self.old (Some (spelled line.now)) }
        ensures child { child.new
            ≡ with child.old (revival_batch_text (read_at_once self.old (Some (spelled
            line.now)))) }
        ensures short { length child.new.text ≤ length child.old.text + (MOST_LINE + 1) }
    {
        if self.refuses(order) {
            return;
        }
        let Some(upper) = self.upper.after_order(order) else {
            return;
        };
        self.keep(order, line);
        self.upper = upper;
        put_if(self.life.takes_at_once(order), line, child);
        self.life = self.life.after_at_once(order);
    }

    // A line that is not `quit` came, without white space at its ends.
    fn take_line(&mut self, line: &[u8], child: &mut Out)
        requires one_line { has_feed line.now ≡ false }
        requires short { length line.now ≤ MOST_LINE }
        requires roomy { IsRoomy self.old }
        requires room { length child.old.text + MOST_LINE < child.old.room }
        ensures state { self.new ≡ state_after_reading self.old (revival_order_in line.now) }
        ensures child { child.new
            ≡ with child.old (revival_batch_text (read_at_once self.old (revival_order_in
            line.now))) }
        ensures short { length child.new.text ≤ length child.old.text + (MOST_LINE + 1) }
    {
        if let Some(order) = read_order(line) {
            self.take(&order, line, child);
        }
    }

    fn take_quit(&mut self, child: &mut Out)
        requires room { length child.old.text + MOST_LINE < child.old.room }
        ensures state { self.new ≡ with_quit self.old }
        ensures child { child.new
            ≡ with child.old (revival_batch_text (quit_to self.old.quit self.old.life)) }
        ensures short { length child.new.text ≤ length child.old.text + (MOST_LINE + 1) }
    {
        if !self.quit && self.life.is_served() {
            put_quit(child);
        }
        self.quit = true;
    }

    /// An order came.
    pub(crate) fn order(&mut self, line: &[u8], child: &mut Out)
        requires one_line { has_feed line.now ≡ false }
        requires short { length line.now ≤ MOST_LINE }
        requires roomy { IsRoomy self.old }
        requires room { length child.old.text + MOST_LINE < child.old.room }
        ensures state { self.new ≡ state_after_line self.old line.now }
        ensures child { child.new ≡ with child.old (revival_batch_text (at_once self.old
            line.now)) }
        ensures short { length child.new.text ≤ length child.old.text + (MOST_LINE + 1) }
    {
        if is_quit(line) {
            self.take_quit(child);
        } else {
            self.take_line(trim(line), child);
        }
    }

    /// The life was heard.
    pub(crate) fn hear(&mut self, line: &[u8], up: &mut Out)
        requires { length up.old.text + length line.now < up.old.room }
        ensures state { self.new ≡ state_once_heard self.old (said_in line.now) }
        ensures up { up.new ≡ with up.old (line_passed_up self.old line.now) }
    {
        let said = said_in(line);
        if is_given(said, self.life, self.upper, self.asked_ready > 0) {
            put_line(line, up);
            self.upper = self.upper.after_said(said);
        }
        self.life = self.life.after_said(said);
        self.asked_ready = owed_after(said, self.asked_ready);
    }

    // What the life did not answer is held again.
    fn hold_all(&mut self)
        requires roomy { IsRoomy self.old }
        ensures { self.new ≡ with_all_held self.old }
    {
        self.held_ready += self.asked_ready;
        self.asked_ready = 0;
    }

    /// The life has ended: whether another may begin.
    pub(crate) fn end(&mut self) -> bool
        requires roomy { IsRoomy self.old }
        ensures state { self.new ≡ state_once_ended self.old }
        ensures may { result ≡ may_begin self.old }
    {
        self.hold_all();
        self.life = LifeState::Ended;
        self.begun < self.lives && !self.quit && !self.full
    }

    /// Another life begins.
    pub(crate) fn begin(&mut self, child: &mut Out)
        requires few { self.old.begun < self.old.lives }
        requires room { length child.old.text + MOST_LINE < child.old.room }
        ensures state { self.new ≡ state_at_new_life self.old }
        ensures child { child.new ≡ with child.old (revival_batch_text (first_order
            self.old.upper)) }
        ensures short { length child.new.text ≤ length child.old.text + (MOST_LINE + 1) }
    {
        self.begun += 1;
        self.unsent.copy_from(&self.kept);
        if self.upper.is_before() {
            self.life = LifeState::Fresh;
        } else {
            put_uci(child);
            self.life = LifeState::Boot;
        }
    }

    /// The life has ended, and no other follows.
    pub(crate) fn close(&mut self)
        requires roomy { IsRoomy self.old }
        ensures { self.new ≡ state_once_over self.old }
    {
        self.hold_all();
        self.life = LifeState::Over;
    }

    // The unsent settings and each `isready` that is held go to the life.
    fn hand_on(&mut self, child: &mut Out)
        requires roomy { IsRoomy self.old }
        requires room { length child.old.text + length (revival_batch_text self.old.unsent)
            + READY_BYTES ≤ child.old.room }
        ensures state { self.new ≡ after_due DueOrders.Settings self.old }
        ensures child { child.new
            ≡ with child.old (revival_batch_text self.old.unsent
            ++ revival_batch_text (readies self.old.held_ready)) }
        ensures lines { OrdersAreLines self.old.unsent LIST_ORDERS }
    {
        self.unsent.write(child);
        put_readies(self.held_ready, child);
        self.unsent.clear();
        self.asked_ready += self.held_ready;
        self.held_ready = 0;
    }

    fn write_due(&mut self, due: DueOrders, child: &mut Out)
        requires roomy { IsRoomy self.old }
        requires room { length child.old.text + length (revival_batch_text self.old.unsent)
            + (READY_BYTES + SEARCH_BYTES) ≤ child.old.room }
        ensures state { self.new ≡ after_due due self.old }
        ensures child { child.new
            ≡ with child.old (revival_batch_text (due_orders due
            self.old.unsent self.old.held_ready self.old.search)) }
        ensures lines { OrdersAreLines (due_orders due
            self.old.unsent self.old.held_ready self.old.search) DUE_ORDERS }
    {
        match due {
            DueOrders::Nothing => {}
            DueOrders::Settings => self.hand_on(child),
            DueOrders::Search => {
                self.hand_on(child);
                self.search.write(child);
                self.life = LifeState::Search;
            }
        }
    }

    fn stand_in(&mut self, answer: StandInAnswer)
        ensures { self.new ≡ after_answer answer self.old }
    {
        match answer {
            StandInAnswer::Nothing => {}
            StandInAnswer::ReadyOk => self.held_ready = 0,
            _ => {
                self.upper = DialogueState::Idle;
                self.held_ready = 0;
            }
        }
    }

    /// The consequences of each call.
    pub(crate) fn settle(&mut self, up: &mut Out, child: &mut Out)
        requires roomy { IsRoomy self.old }
        requires up { length up.old.text + (16 + READY_BYTES) ≤ up.old.room }
        requires child { length child.old.text + (LIST_BYTES + (READY_BYTES + SEARCH_BYTES))
            ≤ child.old.room }
        ensures state { self.new ≡ state_once_settled self.old }
        ensures up { up.new ≡ with up.old (settled_answers self.old) }
        ensures child { child.new ≡ with child.old (revival_batch_text (settled_orders self.old)) }
        ensures lines { OrdersAreLines (settled_orders self.old) DUE_ORDERS }
    {
        let due = due_to(self.life, self.quit, self.upper, self.held_ready > 0);
        let answer = answer_to(self.life, self.upper);
        put_answer(answer, self.held_ready, up);
        self.write_due(due, child);
        self.stand_in(answer);
    }

    pub(crate) fn is_alive(&self) -> bool
        ensures { result ≡ is_alive self.now.life }
    {
        !matches!(self.life, LifeState::Ended | LifeState::Over)
    }

    pub(crate) fn is_ended(&self) -> bool
        ensures { result ≡ is_ended self.now.life }
    {
        matches!(self.life, LifeState::Ended)
    }

    pub(crate) fn has_quit(&self) -> bool
        ensures { result ≡ self.now.quit }
    {
        self.quit
    }

    pub(crate) fn is_full(&self) -> bool
        ensures { result ≡ self.now.full }
    {
        self.full
    }
}
