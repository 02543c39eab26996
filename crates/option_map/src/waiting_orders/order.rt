// Orders that set up the engine, as data.
ghost use Rattle.std.specs.Prelude.{◌≡◌, ◌≤◌, ◌+◌, length, nat_le, Some};
ghost use Rattle.std.specs.Fmt.{signed_decimal};
ghost use Rattle.line_io.specs.Out.{with};
ghost use Rattle.uci_lines.specs.Orders.{uci_order_text, optional_now};
ghost use Rattle.uci_lines.specs.Orders as orders;
ghost use Rattle.option_map.specs.WaitingOrders.Held.{held_for_same, held_order_line};

use crate::feature_lists::measure::number_length;
use crate::waiting_orders::held::MOST_BYTES;
use itoa::Buffer;
use line_io::{Out, PEER_LINE};
use uci_lines::{Order, write_order};

/// The bytes of an order beside the name that it sets, and beside name and value.
const BUTTON_BYTES: usize = 15;

const SETTING_BYTES: usize = 22;

/// The greatest length of the order that a line asks for.
pub const ORDER_BYTES: usize = PEER_LINE + 164;

/// The value that an option is set to.
#[derive(Clone, Copy, PartialEq, Eq)]
pub enum OptionValue<'a> {
    Text(&'a [u8]),
    Number(i64),
}

/// An order that sets an option, by its declared name. A button is set to no value.
#[derive(Clone, Copy, PartialEq, Eq)]
pub struct AskedOption<'a> {
    pub name: &'a [u8],
    pub value: Option<OptionValue<'a>>,
}

/// An order that sets up the engine.
#[derive(Clone, Copy)]
pub enum SetupOrder<'a> {
    NewGame,
    Set(AskedOption<'a>),
}

fn put_order(name: &[u8], value: Option<&[u8]>, out: &mut Out)
    requires { length out.old.text
        + length (uci_order_text (orders.SetOption name.now (optional_now value))) ≤ out.old.room }
    ensures { out.new
        ≡ with out.old (uci_order_text (orders.SetOption name.now (optional_now value.entry))) }
{
    write_order(&Order::SetOption { name, value }, out);
}

fn put_number(name: &[u8], n: i64, out: &mut Out)
    requires { length out.old.text
        + length (uci_order_text (orders.SetOption name.now (Some (signed_decimal n))))
        ≤ out.old.room }
    ensures { out.new
        ≡ with out.old (uci_order_text (orders.SetOption name.now (Some (signed_decimal n)))) }
{
    put_order(name, Some(Buffer::new().format(n).as_bytes()), out);
}

// True if three lengths have a sum within a length.
fn is_sum_within(first: usize, second: usize, third: usize, most: usize) -> bool
    ensures { result ≡ nat_le (first + second + third) most }
{
    first <= most && second <= most - first && third <= most - first - second
}

impl AskedOption<'_> {
    ghost use Rattle.option_map.specs.DeclaredOptions.Data.{order_seen, order_size};

    /// Writes the order, with no line feed.
    pub fn write(&self, out: &mut Out)
        requires { length out.old.text + length (uci_order_text (order_seen self.now))
            ≤ out.old.room }
        ensures { out.new ≡ with out.old (uci_order_text (order_seen self.now)) }
    {
        match self.value {
            None => put_order(self.name, None, out),
            Some(OptionValue::Text(text)) => put_order(self.name, Some(text), out),
            Some(OptionValue::Number(n)) => put_number(self.name, n, out),
        }
    }

    // True if its text has at most so many bytes.
    fn is_within(&self, most: usize) -> bool
        ensures { result ≡ nat_le (order_size self.now.name.now self.now.value) most }
    {
        match self.value {
            None => is_sum_within(BUTTON_BYTES, self.name.len(), 0, most),
            Some(OptionValue::Text(text)) => {
                is_sum_within(SETTING_BYTES, self.name.len(), text.len(), most)
            }
            Some(OptionValue::Number(n)) => {
                is_sum_within(SETTING_BYTES, self.name.len(), number_length(n), most)
            }
        }
    }

    // The length of its text in bytes.
    fn size(&self) -> usize
        requires { order_size self.now.name.now self.now.value ≤ MOST_BYTES }
        ensures { result ≡ order_size self.now.name.now self.now.value }
    {
        match self.value {
            None => BUTTON_BYTES + self.name.len(),
            Some(OptionValue::Text(text)) => SETTING_BYTES + self.name.len() + text.len(),
            Some(OptionValue::Number(n)) => SETTING_BYTES + self.name.len() + number_length(n),
        }
    }
}

impl SetupOrder<'_> {
    ghost use Rattle.option_map.specs.DeclaredOptions.Data.{setup_seen};

    fn write(&self, out: &mut Out)
        requires { length out.old.text + length (uci_order_text (setup_seen self.now))
            ≤ out.old.room }
        ensures { out.new ≡ with out.old (uci_order_text (setup_seen self.now)) }
    {
        match self {
            SetupOrder::NewGame => write_order(&Order::NewGame, out),
            SetupOrder::Set(asked) => asked.write(out),
        }
    }

    /// Writes the order and its line feed.
    pub(crate) fn write_line(&self, out: &mut Out)
        requires { length out.old.text + length (held_order_line (setup_seen self.now)) ≤
            out.old.room }
        ensures { out.new ≡ with out.old (held_order_line (setup_seen self.now)) }
    {
        self.write(out);
        out.put(b"\n");
    }

    /// True if its text has at most so many bytes.
    #[tactic(auto, unfolding(uci_lines::specs::Orders::uci_order_text))]
    pub(crate) fn is_within(&self, most: usize) -> bool
        ensures { result ≡ nat_le (length (uci_order_text (setup_seen self.now))) most }
    {
        match self {
            SetupOrder::NewGame => b"ucinewgame".len() <= most,
            SetupOrder::Set(asked) => asked.is_within(most),
        }
    }

    /// The length of its text in bytes.
    #[tactic(auto, unfolding(uci_lines::specs::Orders::uci_order_text))]
    pub(crate) fn size(&self) -> usize
        requires { length (uci_order_text (setup_seen self.now)) ≤ MOST_BYTES }
        ensures { result ≡ length (uci_order_text (setup_seen self.now)) }
    {
        match self {
            SetupOrder::NewGame => b"ucinewgame".len(),
            SetupOrder::Set(asked) => asked.size(),
        }
    }

    /// True if both are for a game, or for the value of the same option.
    pub(crate) fn is_for_same(&self, other: &SetupOrder) -> bool
        ensures { result ≡ held_for_same (setup_seen self.now) (setup_seen other.now) }
    {
        match (self, other) {
            (SetupOrder::NewGame, SetupOrder::NewGame) => true,
            (
                SetupOrder::Set(
                    AskedOption {
                        name: a,
                        value: Some(_),
                    },
                ),
                SetupOrder::Set(
                    AskedOption {
                        name: b,
                        value: Some(_),
                    },
                ),
            ) => a == b,
            _ => false,
        }
    }
}
