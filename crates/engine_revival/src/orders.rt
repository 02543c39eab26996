// Orders as any interface spells them.
ghost use Rattle.std.specs.Prelude.{◌≡◌, ◌∷◌, ◌<◌, [], length, codes, MatchOption, IfSome, None};
ghost use Rattle.std.specs.Option.{option_map};
ghost use Rattle.protocol_tokens.specs.Tokens.{tokens};
ghost use Rattle.uci_lines.specs.Orders.{uci_order_of as own_order_of};
ghost use Rattle.uci_lines.specs.OrderReading.{order_in as own_order_in};
ghost use Rattle.uci_interface_lines.specs.Kinds.{has_token_word};
ghost use Rattle.uci_interface_lines.specs.Lines.{position_line_in};
ghost use Rattle.engine_revival.specs.Orders.{revival_order_of};
ghost use Rattle.engine_revival.specs.Steps.{is_ready_order};
ghost use Rattle.engine_revival.specs.Asked.{revival_order_in, position_asked, setting_asked, word_asked};

use protocol_tokens::{GoKind, named, next_token};
use uci_interface_lines::{go_kind, spoken};
use uci_lines::Order as OwnOrder;

/// An order to an engine. A setting, a `position` and a `go` have their line as it came.
#[derive(Clone, Copy)]
pub enum RevivalOrder<'a> {
    Uci,
    IsReady,
    NewGame,
    Stop,
    PonderHit,
    Quit,
    /// A setting to a value, with what follows the word `name`.
    Value { name: &'a [u8], line: &'a [u8] },
    /// A setting without a value, as of a button.
    Button { name: &'a [u8], line: &'a [u8] },
    Position(&'a [u8]),
    Go { kind: GoKind, line: &'a [u8] },
}

impl RevivalOrder<'_> {
    pub(crate) fn is_ready_order(&self) -> bool
        ensures { result ≡ is_ready_order (revival_order_of self.now) }
    {
        matches!(self, RevivalOrder::IsReady)
    }
}

/// True if `value` is among the tokens.
fn has_value(text: &[u8]) -> bool
    ensures { result ≡ has_token_word (codes "value") (tokens text.now) }
{
    let mut others = text;
    while let Some((token, behind)) = next_token(others) {
        if token == b"value".as_slice() {
            return true;
        }
        others = behind;
    }
    false
}

fn read_setting<'a>(line: &'a [u8], behind: &'a [u8]) -> Option<RevivalOrder<'a>>
    ensures { option_map revival_order_of result ≡ setting_asked (tokens behind.now) line.now }
{
    let (word, name) = next_token(behind)?;
    if word != b"name".as_slice() {
        return None;
    }
    let (_, others) = next_token(name)?;
    if has_value(others) {
        Some(RevivalOrder::Value { name, line })
    } else {
        Some(RevivalOrder::Button { name, line })
    }
}

static WORD_ORDERS: [(&[u8], RevivalOrder); 6] = [
    (b"uci", RevivalOrder::Uci),
    (b"isready", RevivalOrder::IsReady),
    (b"ucinewgame", RevivalOrder::NewGame),
    (b"stop", RevivalOrder::Stop),
    (b"ponderhit", RevivalOrder::PonderHit),
    (b"quit", RevivalOrder::Quit),
];

fn read_word(line: &[u8]) -> Option<RevivalOrder<'static>>
    ensures { option_map revival_order_of result ≡ word_asked line.now }
{
    named(&WORD_ORDERS, line)
}

// The order in the spelling that the bridge writes.
fn own_order(line: &[u8]) -> Option<OwnOrder<'_>>
    ensures { option_map own_order_of result ≡ own_order_in line.now }
{
    uci_lines::read_order(line).ok()
}

fn read_spoken(line: &[u8]) -> Option<RevivalOrder<'_>>
    ensures { option_map revival_order_of result ≡ position_asked None (position_line_in
        line.now) line.now }
{
    match spoken(line) {
        Some(_) => Some(RevivalOrder::Position(line)),
        None => None,
    }
}

fn read_position(line: &[u8]) -> Option<RevivalOrder<'_>>
    ensures { option_map revival_order_of result
        ≡ position_asked (own_order_in line.now) (position_line_in line.now) line.now }
{
    match own_order(line) {
        Some(_) => Some(RevivalOrder::Position(line)),
        None => read_spoken(line),
    }
}

/// The order that a line is, which has no white space at its ends: a word alone; `setoption name`, a name, and perhaps
/// `value` with what follows; a `position` in the spelling that the bridge writes, or one whose position and moves are
/// legal; a `go`, whatever follows it.
#[tactic(auto, unfolding(crate::specs::Asked::revival_order_in))]
pub fn read_order(line: &[u8]) -> Option<RevivalOrder<'_>>
    ensures { option_map revival_order_of result ≡ revival_order_in line.now }
{
    let (word, others) = next_token(line)?;
    if word == b"setoption".as_slice() {
        read_setting(line, others)
    } else if word == b"position".as_slice() {
        read_position(line)
    } else if word == b"go".as_slice() {
        Some(RevivalOrder::Go {
            kind: go_kind(line),
            line,
        })
    } else {
        read_word(line)
    }
}
