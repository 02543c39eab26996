// The orders that wait until the engine may be set up.
ghost use Rattle.std.specs.Prelude.{◌≡◌, ◌≤◌, ◌<◌, ◌+◌, ◌++◌, ◌∷◌, [], length, true};
ghost use Rattle.std.specs.Option.{option_map};
ghost use Rattle.line_io.specs.Out.{with};
ghost use Rattle.uci_lines.specs.OrderReading.{order_in as order_spelled};
ghost use Rattle.uci_lines.specs.Orders.{uci_order_of, uci_order_text};
ghost use Rattle.option_map.specs.DeclaredOptions.Data.{setup_seen};
ghost use Rattle.option_map.specs.WaitingOrders.Held.{held_orders_staying, held_batch_text, setup_of, setup_spelled};
ghost use Rattle.option_map.specs.WaitingOrders.KeptOrders.{orders_in, KeptOrdersAreIn};

use crate::declared_options::keeping::{KeptOrder, keep, next_order, setup_in};
use crate::waiting_orders::order::{AskedOption, OptionValue, SetupOrder};
use arrayvec::ArrayVec;
use line_io::{NoMemory, Out};
use std::alloc::Global;
use std::marker::Model;
use std::mem;
use uci_lines::{Order, read_order};

/// The greatest number of orders that may be held.
pub const MOST_ORDERS: usize = 256;

/// The greatest number of their bytes, with their line feeds.
pub const MOST_BYTES: usize = 65_536;

type OrdersInPlace = ArrayVec<KeptOrder, MOST_ORDERS>;

/// Orders that set up the engine and wait until it searches no longer: at most `MOST_ORDERS`, and `MOST_BYTES`
/// with their line feeds. An order that sets an option to a value takes the place of a held one for the same option, and
/// `ucinewgame` that of another `ucinewgame`. The memory is taken when it is made.
#[derive(Drop)]
pub struct HeldOrders {
    texts: Out,
    /// The room for the texts of the orders that stay, while an order joins them.
    other: Out,
    orders: OrdersInPlace,
}

impl Model for HeldOrders {
    ghost use Rattle.std.specs.Prelude.{List};
    ghost use Rattle.uci_lines.specs.Orders.{Order as AnyOrder};
    ghost use Rattle.option_map.specs.WaitingOrders.KeptOrders.{orders_in, KeptOrdersInvariant};

    ghost Value = { List AnyOrder };

    ghost view = { λ h. orders_in h.texts.text h.orders.items };

    ghost invariant = { λ h. KeptOrdersInvariant h.texts h.other h.orders.items };
}

/// The number of orders, and that of their bytes with their line feeds.
#[derive(Clone, Copy)]
struct OrdersExtent {
    count: usize,
    size: usize,
}

// The extent of the orders that stay beside an asked one.
fn measure_staying(held: &[KeptOrder], texts: &[u8], asked: &SetupOrder) -> OrdersExtent
    requires held { KeptOrdersAreIn (length texts.now) held.now }
    requires few { length held.now ≤ MOST_ORDERS }
    requires fits { length (held_batch_text (orders_in texts.now held.now)) ≤ MOST_BYTES }
    ensures count { result.count
        ≡ length (held_orders_staying (setup_seen asked.now) (orders_in texts.now held.now)) }
    ensures size { result.size
        ≡ length
        (held_batch_text (held_orders_staying (setup_seen asked.now) (orders_in texts.now
        held.now))) }
{
    let mut extent = OrdersExtent { count: 0, size: 0 };
    let mut others = held;
    while let Some((order, after)) = next_order(others) {
        others = after;
        let setup = setup_in(texts, order);
        if asked.is_for_same(&setup) {
            continue;
        }
        extent.count += 1;
        extent.size += setup.size() + 1;
    }
    extent
}

fn put(setup: SetupOrder, orders: &mut OrdersInPlace, texts: &mut Out)
    requires within { KeptOrdersAreIn (length texts.old.text) orders.old.items }
    requires few { length orders.old.items < MOST_ORDERS }
    requires room { length texts.old.text + length (uci_order_text (setup_seen setup))
        ≤ texts.old.room }
    ensures orders { orders_in texts.new.text orders.new.items
        ≡ orders_in texts.old.text orders.old.items ++ setup_seen setup.entry ∷ [] }
    ensures within { KeptOrdersAreIn (length texts.new.text) orders.new.items }
    ensures few { length orders.new.items ≡ length orders.old.items + 1 }
    ensures length { length texts.new.text
        ≤ length texts.old.text + length (uci_order_text (setup_seen setup.entry)) }
    ensures room { texts.new.room ≡ texts.old.room }
{
    let order = keep(setup, texts);
    orders.push(order);
}

// Puts the orders that stay beside an asked one.
fn put_staying(
    held: &[KeptOrder],
    old: &[u8],
    asked: &SetupOrder,
    orders: &mut OrdersInPlace,
    texts: &mut Out,
)
    requires held { KeptOrdersAreIn (length old.now) held.now }
    requires within { KeptOrdersAreIn (length texts.old.text) orders.old.items }
    requires few { length orders.old.items
        + length (held_orders_staying (setup_seen asked.now) (orders_in old.now held.now))
        ≤ MOST_ORDERS }
    requires room { length texts.old.text
        + length (held_batch_text (held_orders_staying (setup_seen asked.now) (orders_in old.now
        held.now)))
        ≤ texts.old.room }
    ensures orders { orders_in texts.new.text orders.new.items
        ≡ orders_in texts.old.text orders.old.items
        ++ held_orders_staying (setup_seen asked.now) (orders_in old.now held.now) }
    ensures within { KeptOrdersAreIn (length texts.new.text) orders.new.items }
    ensures few { length orders.new.items
        ≡ length orders.old.items
        + length (held_orders_staying (setup_seen asked.now) (orders_in old.now held.now)) }
    ensures length { length texts.new.text
        ≤ length texts.old.text
        + length (held_batch_text (held_orders_staying (setup_seen asked.now) (orders_in old.now
        held.now))) }
    ensures room { texts.new.room ≡ texts.old.room }
{
    let mut others = held;
    while let Some((order, after)) = next_order(others) {
        others = after;
        let setup = setup_in(old, order);
        if asked.is_for_same(&setup) {
            continue;
        }
        put(setup, orders, texts);
    }
}

fn put_batch(held: &[KeptOrder], old: &[u8], out: &mut Out)
    requires held { KeptOrdersAreIn (length old.now) held.now }
    requires room { length out.old.text + length (held_batch_text (orders_in old.now held.now))
        ≤ out.old.room }
    ensures { out.new ≡ with out.old (held_batch_text (orders_in old.now held.now)) }
{
    let mut others = held;
    while let Some((order, after)) = next_order(others) {
        others = after;
        setup_in(old, order).write_line(out);
    }
}

fn order_in(line: &[u8]) -> Option<Order<'_>>
    ensures { option_map uci_order_of result ≡ order_spelled line.now }
{
    read_order(line).ok()
}

fn setup_of(order: Order<'_>) -> Option<SetupOrder<'_>>
    ensures { option_map setup_seen result ≡ setup_of (uci_order_of order.entry) }
{
    match order {
        Order::NewGame => Some(SetupOrder::NewGame),
        Order::SetOption {
            name,
            value: Some(value),
        } => Some(SetupOrder::Set(AskedOption {
            name,
            value: Some(OptionValue::Text(value)),
        })),
        Order::SetOption { name, value: None } => Some(SetupOrder::Set(AskedOption {
            name,
            value: None,
        })),
        _ => None,
    }
}

// The order of a line that begins a game or sets an option.
fn setup_spelled(line: &[u8]) -> Option<SetupOrder<'_>>
    ensures { option_map setup_seen result ≡ setup_spelled line.now }
{
    setup_of(order_in(line)?)
}

impl HeldOrders {
    ghost use Rattle.std.specs.Prelude.{IfOk};
    ghost use Rattle.option_map.specs.WaitingOrders.Held.{held_order_can_join, held_list_with, spelled_joins, with_spelled};

    /// Holds nothing.
    pub fn make(alloc: Global) -> Result<HeldOrders, NoMemory>
        ensures { IfOk result (λ held. held ≡ []) }
    {
        let texts = Out::make(alloc, MOST_BYTES)?;
        let other = Out::make(alloc, MOST_BYTES)?;
        Ok(HeldOrders {
            texts,
            other,
            orders: ArrayVec::new(),
        })
    }

    /// True if an order may join within both limits, after what it takes out.
    pub fn fits_order(&self, asked: &SetupOrder) -> bool
        ensures { result ≡ held_order_can_join self.now (setup_seen asked.now) }
    {
        let staying = measure_staying(self.orders.as_slice(), self.texts.bytes(), asked);
        staying.count < MOST_ORDERS
            && staying.size < MOST_BYTES
            && asked.is_within(MOST_BYTES - 1 - staying.size)
    }

    /// Takes out what the order is to take the place of, and puts the order last.
    pub fn add_order(&mut self, asked: SetupOrder)
        requires { held_order_can_join self.old (setup_seen asked) ≡ true }
        ensures { self.new ≡ held_list_with self.old (setup_seen asked.entry) }
    {
        self.other.clear();
        let mut orders = ArrayVec::new();
        put_staying(
            self.orders.as_slice(),
            self.texts.bytes(),
            &asked,
            &mut orders,
            &mut self.other,
        );
        put(asked, &mut orders, &mut self.other);
        mem::swap(&mut self.texts, &mut self.other);
        self.orders = orders;
    }

    /// True if the order that a line spells may join: one that sets an option or `ucinewgame`, without line feed.
    pub fn fits(&self, line: &[u8]) -> bool
        ensures { result ≡ spelled_joins self.now (setup_spelled line.now) }
    {
        match setup_spelled(line) {
            Some(asked) => self.fits_order(&asked),
            None => false,
        }
    }

    /// Adds the order that a line spells.
    pub fn add(&mut self, line: &[u8])
        requires { spelled_joins self.old (setup_spelled line.now) ≡ true }
        ensures { self.new ≡ with_spelled self.old (setup_spelled line.now) }
    {
        if let Some(asked) = setup_spelled(line) {
            self.add_order(asked);
        }
    }

    /// Writes the orders, each with its line feed.
    pub fn write(&self, out: &mut Out)
        requires { length out.old.text + length (held_batch_text self.now) ≤ out.old.room }
        ensures { out.new ≡ with out.old (held_batch_text self.now) }
    {
        put_batch(self.orders.as_slice(), self.texts.bytes(), out);
    }

    /// The number of held orders.
    pub fn count(&self) -> usize
        ensures { result ≡ length self.now }
    {
        self.orders.len()
    }

    /// The length of the orders, for proofs alone. It changes nothing.
    pub fn facts(&self)
        ensures few { length self.now ≤ MOST_ORDERS }
        ensures short { length (held_batch_text self.now) ≤ MOST_BYTES }
    {
        // Read for the proof alone, which then has what holds of the fields.
        let _count = self.orders.len();
    }

    /// Takes all orders out.
    pub fn clear(&mut self)
        ensures { self.new ≡ [] }
    {
        self.texts.clear();
        self.orders.clear();
    }
}
