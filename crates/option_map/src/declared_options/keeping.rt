// Orders whose texts stand in a buffer.
ghost use Rattle.std.specs.Prelude.{◌≡◌, ◌≤◌, ◌+◌, ◌∷◌, [], length, MatchOption};
ghost use Rattle.std.specs.Option.{option_map};
ghost use Rattle.line_io.specs.Out.{with};
ghost use Rattle.option_map.specs.DeclaredOptions.Data.{value_seen, setup_seen};
ghost use Rattle.option_map.specs.DeclaredOptions.Stored.{text_at, IsSpanIn};
ghost use Rattle.option_map.specs.WaitingOrders.KeptOrders.{value_in, kept_order_in, IsValueIn, IsOrderIn, value_bytes, setup_bytes};

use crate::declared_options::setting::TextSpan;
use crate::declared_options::stored::text_at;
use crate::waiting_orders::order::{AskedOption, OptionValue, SetupOrder};
use line_io::Out;

#[derive(Clone, Copy)]
pub(crate) enum KeptValue {
    Nothing,
    Text(TextSpan),
    Number(i64),
}

/// An order whose texts stand in a buffer.
#[derive(Clone, Copy, Default)]
pub(crate) enum KeptOrder {
    #[default]
    NewGame,
    Set { name: TextSpan, value: KeptValue },
}

fn value_in(texts: &[u8], value: KeptValue) -> Option<OptionValue<'_>>
    requires { IsValueIn (length texts.now) value }
    ensures { option_map value_seen result ≡ value_in texts.now value }
{
    match value {
        KeptValue::Nothing => None,
        KeptValue::Text(span) => Some(OptionValue::Text(text_at(texts, span))),
        KeptValue::Number(n) => Some(OptionValue::Number(n)),
    }
}

/// A kept order with its texts.
pub(crate) fn setup_in(texts: &[u8], order: KeptOrder) -> SetupOrder<'_>
    requires { IsOrderIn (length texts.now) order }
    ensures { setup_seen result ≡ kept_order_in texts.now order }
{
    match order {
        KeptOrder::NewGame => SetupOrder::NewGame,
        KeptOrder::Set { name, value } => SetupOrder::Set(AskedOption {
            name: text_at(texts, name),
            value: value_in(texts, value),
        }),
    }
}

fn keep_text(text: &[u8], texts: &mut Out) -> TextSpan
    requires { length texts.old.text + length text.now ≤ texts.old.room }
    ensures texts { texts.new ≡ with texts.old text.now }
    ensures text { text_at texts.new.text result ≡ text.now }
    ensures within { IsSpanIn (length texts.new.text) result }
{
    let at = texts.bytes().len();
    texts.put(text);
    TextSpan {
        at,
        len: text.len(),
    }
}

fn keep_value(value: Option<OptionValue>, texts: &mut Out) -> KeptValue
    requires { length texts.old.text + length (value_bytes value) ≤ texts.old.room }
    ensures texts { texts.new ≡ with texts.old (value_bytes value.entry) }
    ensures value { value_in texts.new.text result ≡ option_map value_seen value.entry }
    ensures within { IsValueIn (length texts.new.text) result }
{
    match value {
        None => KeptValue::Nothing,
        Some(OptionValue::Text(text)) => KeptValue::Text(keep_text(text, texts)),
        Some(OptionValue::Number(n)) => KeptValue::Number(n),
    }
}

/// Keeps an order, its texts after those of the others.
pub(crate) fn keep(setup: SetupOrder, texts: &mut Out) -> KeptOrder
    requires { length texts.old.text + length (setup_bytes setup) ≤ texts.old.room }
    ensures texts { texts.new ≡ with texts.old (setup_bytes setup.entry) }
    ensures order { kept_order_in texts.new.text result ≡ setup_seen setup.entry }
    ensures within { IsOrderIn (length texts.new.text) result }
{
    match setup {
        SetupOrder::NewGame => KeptOrder::NewGame,
        SetupOrder::Set(asked) => {
            let name = keep_text(asked.name, texts);
            let value = keep_value(asked.value, texts);
            KeptOrder::Set { name, value }
        }
    }
}

/// The first of kept orders, and the others.
pub(crate) fn next_order(orders: &[KeptOrder]) -> Option<(KeptOrder, &[KeptOrder])>
    ensures { MatchOption result (orders.now ≡ []) (λ p. orders.now ≡ p.0 ∷ p.1.now) }
{
    match orders {
        [] => None,
        [order, after @ ..] => Some((*order, after)),
    }
}
