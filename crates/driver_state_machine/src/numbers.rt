// Numbers in lines.
ghost use Rattle.std.specs.Prelude.{◌≡◌, ◌∷◌, [], pos};
ghost use Rattle.std.specs.Option.{option_map};
ghost use Rattle.protocol_tokens.specs.Tokens.{tokens};
ghost use Rattle.driver_state_machine.specs.Numbers.{plus_signed, next_number, natural, clamped_score, ten_times};

use protocol_tokens::{next_token, read_count, read_signed};

/// Perhaps a plus or a minus, then 1 to 18 digits.
fn read_plus_signed(text: &[u8]) -> Option<i64>
    ensures { result ≡ plus_signed text.now }
{
    match text {
        [b'+', digits @ ..] => Some(read_count(digits)? as i64),
        _ => read_signed(text),
    }
}

/// The number that a text begins with, and the text after it.
pub(crate) fn next_number(text: &[u8]) -> Option<(i64, &[u8])>
    ensures { option_map (λ p. (p.0, tokens p.1.now)) result ≡ next_number (tokens text.now) }
{
    let (token, others) = next_token(text)?;
    Some((read_plus_signed(token)?, others))
}

/// The largest score that is written.
const MOST_SCORE: i64 = 999_999_999;

/// The longest time that is written, of 18 digits.
const MOST_TIME: u64 = 999_999_999_999_999_999;

/// A negative number counts as 0.
pub(crate) fn natural(n: i64) -> u64
    ensures { result ≡ natural n }
{
    if n < 0 { 0 } else { n as u64 }
}

/// A score within nine digits.
pub(crate) fn clamped(score: i64) -> i64
    ensures { result ≡ clamped_score score }
{
    score.min(MOST_SCORE).max(-MOST_SCORE)
}

/// Hundredths of a second as milliseconds, within 18 digits.
pub(crate) fn ten_times(n: u64) -> u64
    ensures { result ≡ ten_times n }
{
    if n < 100_000_000_000_000_000 {
        n * 10
    } else {
        MOST_TIME
    }
}
