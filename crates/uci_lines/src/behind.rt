// The rest behind fixed words and numbers.
ghost use Rattle.std.specs.Prelude.{◌≡◌, drop};
ghost use Rattle.std.specs.List.{before_first};
ghost use Rattle.std.specs.Option.{option_map};
ghost use Rattle.protocol_tokens.specs.Tokens.{is_white, token_end};
ghost use Rattle.uci_lines.specs.Orders.{optional_now};
ghost use Rattle.uci_lines.specs.Behind.{after, exact_count, number_behind, perhaps_number};

use itoa::Buffer;
use protocol_tokens::{read_count, split_at_white};

/// The rest behind a word at the start.
pub(crate) fn after<'a>(word: &[u8], text: &'a [u8]) -> Option<&'a [u8]>
    ensures { optional_now result ≡ after word.now text.now }
{
    text.strip_prefix(word)
}

/// A count as it is written, without leading zeros.
fn exact_count(word: &[u8]) -> Option<u64>
    ensures { result ≡ exact_count word.now }
{
    let n = read_count(word)?;
    let mut digits = Buffer::new();
    if digits.format(n).as_bytes() == word {
        Some(n)
    } else {
        None
    }
}

/// The count after a word at the start, and what follows it.
#[tactic(auto, unfolding(crate::specs::Behind::number_behind))]
pub(crate) fn number_behind<'a>(word: &[u8], text: &'a [u8]) -> Option<(u64, &'a [u8])>
    ensures { option_map (λ p. (p.0, p.1.now)) result ≡ number_behind word.now text.now }
{
    let (digits, others) = split_at_white(after(word, text)?);
    Some((exact_count(digits)?, others))
}

/// The same, or no number and the whole text if they are not there.
pub(crate) fn perhaps_number<'a>(word: &[u8], text: &'a [u8]) -> (Option<u64>, &'a [u8])
    ensures number { result.0 ≡ (perhaps_number word.now text.now).0 }
    ensures others { result.1.now ≡ (perhaps_number word.now text.now).1 }
{
    match number_behind(word, text) {
        Some((n, others)) => (Some(n), others),
        None => (None, text),
    }
}
