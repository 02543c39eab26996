// The numbers of a spin.
ghost use Rattle.std.specs.Prelude.{◌≡◌};
ghost use Rattle.std.specs.Option.{option_map};
ghost use Rattle.protocol_tokens.specs.Tokens.{tokens};
ghost use Rattle.uci_lines.specs.Options.{range_of_spin, limited, first_signed, range_from, no_range};

use crate::cut::is_word;
use crate::messages::OptionKind;
use protocol_tokens::{next_token, read_signed};

/// The three numbers, as far as they were read.
#[derive(Clone, Copy)]
pub(crate) struct SpinRange {
    pub default: Option<i64>,
    pub min: Option<i64>,
    pub max: Option<i64>,
}

impl SpinRange {
    ghost use Rattle.std.specs.Option.{option_map};
    ghost use Rattle.uci_lines.specs.Options.{range_of_spin, spin_in};
    ghost use Rattle.uci_lines.specs.Messages.{option_kind_of};

    /// The spin, with its default moved into the range. None if a number is missing or the range is empty.
    pub fn spin<'a>(self) -> Option<OptionKind<'a>>
        ensures { option_map option_kind_of result ≡ spin_in (range_of_spin self) }
    {
        let (default, min, max) = (self.default?, self.min?, self.max?);
        if min > max {
            return None;
        }
        let default = default.clamp(min, max);
        Some(OptionKind::Spin { default, min, max })
    }
}

fn first_signed(text: &[u8]) -> Option<i64>
    ensures { result ≡ first_signed (tokens text.now) }
{
    read_signed(next_token(text)?.0)
}

fn limited(range: SpinRange, word: &[u8], after: &[u8]) -> SpinRange
    ensures { range_of_spin result ≡ limited (range_of_spin range) word.now (tokens after.now) }
{
    if is_word(word, "default") {
        let default = first_signed(after).or(range.default);
        SpinRange { default, ..range }
    } else if is_word(word, "min") {
        let min = first_signed(after).or(range.min);
        SpinRange { min, ..range }
    } else if is_word(word, "max") {
        let max = first_signed(after).or(range.max);
        SpinRange { max, ..range }
    } else {
        range
    }
}

pub(crate) fn read_range(text: &[u8]) -> SpinRange
    ensures { range_of_spin result ≡ range_from no_range (tokens text.now) }
{
    let mut range = SpinRange {
        default: None,
        min: None,
        max: None,
    };
    let mut others = text;
    while let Some((word, after)) = next_token(others) {
        range = limited(range, word, after);
        others = after;
    }
    range
}
