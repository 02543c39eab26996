// Lists of orders, kept as their lines.
ghost use Rattle.std.specs.Prelude.{◌≡◌, ◌≤◌, ◌<◌, ◌+◌, ◌++◌, ◌∷◌, [], length, true, MatchOption};
ghost use Rattle.line_io.specs.Out.{with};
ghost use Rattle.engine_revival.specs.Orders.{revival_order_of};
ghost use Rattle.engine_revival.specs.Lists.{are_for_same, revival_orders_staying, revival_batch_text};
ghost use Rattle.engine_revival.specs.Marks.{OrdersAreLines};
ghost use Rattle.engine_revival.specs.Kept.{line_at, spelled, SpellsRevivalOrder, orders_at, IsLineIn, SpansAreIn};
ghost use Rattle.line_io.specs.Lines.{line_feed};

use crate::names::have_same_name;
use crate::orders::{RevivalOrder, read_order};
use arrayvec::ArrayVec;
use line_io::{NoMemory, Out};
use std::alloc::Global;
use std::marker::Model;
use std::mem;

/// The greatest number of settings of a list.
pub const MOST_ORDERS: usize = 512;

/// The greatest number of their bytes, with their line feeds.
pub const MOST_BYTES: usize = 1_048_576;

/// A list has room for one `ucinewgame` beside its settings.
pub(crate) const LIST_ORDERS: usize = MOST_ORDERS + 1;

pub(crate) const LIST_BYTES: usize = MOST_BYTES + 11;

/// Where a line is in a buffer, without its line feed.
#[derive(Clone, Copy, Default)]
pub(crate) struct LineSpan {
    at: usize,
    len: usize,
}

type ListedLines = ArrayVec<LineSpan, LIST_ORDERS>;

fn spelled(line: &[u8]) -> RevivalOrder<'_>
    ensures { revival_order_of result ≡ spelled line.now }
{
    match read_order(line) {
        Some(order) => order,
        None => RevivalOrder::Uci,
    }
}

// True if both begin a game, or set the same option.
fn are_for_same(a: &RevivalOrder, b: &RevivalOrder) -> bool
    ensures { result ≡ are_for_same (revival_order_of a.now) (revival_order_of b.now) }
{
    match (a, b) {
        (RevivalOrder::NewGame, RevivalOrder::NewGame) => true,
        (RevivalOrder::Value { name: a, line: _ }, RevivalOrder::Value { name: b, line: _ }) => {
            have_same_name(a, b)
        }
        (RevivalOrder::Button { name: a, line: _ }, RevivalOrder::Button { name: b, line: _ }) => {
            have_same_name(a, b)
        }
        _ => false,
    }
}

fn line_at(texts: &[u8], line: LineSpan) -> &[u8]
    requires { line.at + line.len ≤ length texts.now }
    ensures { result.now ≡ line_at texts.now line }
{
    &texts[line.at..line.at + line.len]
}

// The first line, and the others.
fn next_line(lines: &[LineSpan]) -> Option<(LineSpan, &[LineSpan])>
    ensures { MatchOption result (lines.now ≡ []) (λ p. lines.now ≡ p.0 ∷ p.1.now) }
{
    match lines {
        [] => None,
        [line, after @ ..] => Some((*line, after)),
    }
}

// Puts a line after the others.
fn put_line(line: &[u8], lines: &mut ListedLines, texts: &mut Out)
    requires spells { SpellsRevivalOrder line.now }
    requires within { SpansAreIn texts.old.text lines.old.items }
    requires few { length lines.old.items < LIST_ORDERS }
    requires room { length texts.old.text + length line.now < texts.old.room }
    ensures texts { texts.new ≡ with texts.old (line.now ++ line_feed ∷ []) }
    ensures orders { orders_at texts.new.text lines.new.items
        ≡ orders_at texts.old.text lines.old.items ++ spelled line.now ∷ [] }
    ensures within { SpansAreIn texts.new.text lines.new.items }
    ensures few { length lines.new.items ≡ length lines.old.items + 1 }
{
    let at = texts.bytes().len();
    texts.put(line);
    texts.put(b"\n");
    lines.push(LineSpan {
        at,
        len: line.len(),
    });
}

// Puts the orders of a list that stay beside another.
fn put_staying(
    held: &[LineSpan],
    old: &[u8],
    order: &RevivalOrder,
    lines: &mut ListedLines,
    texts: &mut Out,
)
    requires held { SpansAreIn old.now held.now }
    requires within { SpansAreIn texts.old.text lines.old.items }
    requires few { length lines.old.items + length held.now ≤ LIST_ORDERS }
    requires room { length texts.old.text + length (revival_batch_text (orders_at old.now held.now))
        ≤ texts.old.room }
    ensures texts { texts.new
        ≡ with texts.old
        (revival_batch_text (revival_orders_staying (revival_order_of order.now) (orders_at
        old.now held.now))) }
    ensures orders { orders_at texts.new.text lines.new.items
        ≡ orders_at texts.old.text lines.old.items
        ++ revival_orders_staying (revival_order_of order.now) (orders_at old.now held.now) }
    ensures within { SpansAreIn texts.new.text lines.new.items }
{
    let mut others = held;
    while let Some((span, after)) = next_line(others) {
        others = after;
        let line = line_at(old, span);
        if are_for_same(order, &spelled(line)) {
            continue;
        }
        put_line(line, lines, texts);
    }
}

/// Orders in a row, kept as their lines. The memory is taken when it is made.
#[derive(Drop)]
pub(crate) struct OrderList {
    texts: Out,
    /// The room for the lines that stay, while an order joins them.
    beside: Out,
    lines: ListedLines,
}

impl Model for OrderList {
    ghost use Rattle.std.specs.Prelude.{List};
    ghost use Rattle.engine_revival.specs.Orders.{RevivalOrder as AnyOrder};
    ghost use Rattle.engine_revival.specs.Kept.{orders_at, LineBufferIsKept};

    ghost Value = { List AnyOrder };

    ghost view = { λ l. orders_at l.texts.text l.lines.items };

    ghost invariant = { λ l. LineBufferIsKept l.texts l.beside l.lines.items };
}

impl OrderList {
    ghost use Rattle.std.specs.Prelude.{IfOk};
    ghost use Rattle.engine_revival.specs.Lists.{revival_order_can_join, revival_list_with};

    /// An empty list.
    pub(crate) fn make(alloc: Global) -> Result<OrderList, NoMemory>
        ensures { IfOk result (λ list. list ≡ []) }
    {
        let texts = Out::make(alloc, LIST_BYTES)?;
        let beside = Out::make(alloc, LIST_BYTES)?;
        Ok(OrderList {
            texts,
            beside,
            lines: ArrayVec::new(),
        })
    }

    /// True if the order of a line may join within both limits, after what it takes out.
    pub(crate) fn fits(&mut self, line: &[u8]) -> bool
        requires { SpellsRevivalOrder line.now }
        ensures same { self.new ≡ self.old }
        ensures fits { result ≡ revival_order_can_join self.old (spelled line.now) }
    {
        self.beside.clear();
        let mut lines = ArrayVec::new();
        put_staying(
            self.lines.as_slice(),
            self.texts.bytes(),
            &spelled(line),
            &mut lines,
            &mut self.beside,
        );
        lines.len() < MOST_ORDERS && self.beside.bytes().len() + line.len() < MOST_BYTES
    }

    /// Takes out what the order of a line takes the place of, and puts it last.
    pub(crate) fn replace(&mut self, line: &[u8])
        requires spells { SpellsRevivalOrder line.now }
        requires few { length (revival_list_with self.old (spelled line.now)) ≤ LIST_ORDERS }
        requires short { length (revival_batch_text (revival_list_with self.old (spelled
            line.now))) ≤ LIST_BYTES }
        ensures { self.new ≡ revival_list_with self.old (spelled line.now) }
    {
        self.beside.clear();
        let mut lines = ArrayVec::new();
        put_staying(
            self.lines.as_slice(),
            self.texts.bytes(),
            &spelled(line),
            &mut lines,
            &mut self.beside,
        );
        put_line(line, &mut lines, &mut self.beside);
        mem::swap(&mut self.texts, &mut self.beside);
        self.lines = lines;
    }

    /// Puts the order of a line last.
    pub(crate) fn add(&mut self, line: &[u8])
        requires spells { SpellsRevivalOrder line.now }
        requires few { length self.old < LIST_ORDERS }
        requires short { length (revival_batch_text self.old) + length line.now < LIST_BYTES }
        ensures { self.new ≡ self.old ++ spelled line.now ∷ [] }
    {
        put_line(line, &mut self.lines, &mut self.texts);
    }

    /// Writes the orders, each with its line feed.
    pub(crate) fn write(&self, out: &mut Out)
        requires { length out.old.text + length (revival_batch_text self.now) ≤ out.old.room }
        ensures out { out.new ≡ with out.old (revival_batch_text self.now) }
        ensures lines { OrdersAreLines self.now LIST_ORDERS }
    {
        out.put(self.texts.bytes());
    }

    /// Takes all orders out.
    pub(crate) fn clear(&mut self)
        ensures { self.new ≡ [] }
    {
        self.texts.clear();
        self.lines.clear();
    }

    /// Takes the orders of another list in place of its own.
    pub(crate) fn copy_from(&mut self, other: &OrderList)
        ensures { self.new ≡ other.now }
    {
        self.texts.clear();
        self.texts.put(other.texts.bytes());
        self.lines.clear();
        let _ = self.lines.try_extend_from_slice(other.lines.as_slice());
    }
}
