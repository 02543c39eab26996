// Numbers as texts.
ghost use Rattle.std.specs.Prelude.{◌≡◌, ◌≤◌, ◌+◌, ◌-◌, ◌*◌, ◌<◌, ◌^◌, length, drop, Some, None, IfSome, position};
ghost use Rattle.std.specs.List.{before_first, after_first};
ghost use Rattle.protocol_tokens.specs.Numbers.{digits, number, count, signed_number, centis, thousandths, seconds, is_point};
ghost use Rattle.protocol_tokens.specs.declared.numbers.TheConstants.{SECOND};

/// A second in milliseconds.
pub const SECOND: u64 = 1_000;

/// A minute in milliseconds.
pub const MINUTE: u64 = 60 * SECOND;

/// The number that 1 to `most` decimal digits write.
pub fn read_digits(text: &[u8], most: usize) -> Option<u64>
    requires { most ≤ 18 }
    ensures value { result ≡ digits most text.now }
    ensures below { IfSome result (λ n. n < 10 ^ most) }
    ensures short { IfSome result (λ n. n < 10 ^ length text.now) }
{
    if text.is_empty() || text.len() > most {
        return None;
    }
    let mut n = 0u64;
    for b in text {
        if !b.is_ascii_digit() {
            return None;
        }
        n = n * 10 + u64::from(*b - b'0');
    }
    Some(n)
}

/// A number of 1 to 9 digits.
pub fn read_number(text: &[u8]) -> Option<u32>
    ensures value { result ≡ number text.now }
    ensures below { IfSome result (λ n. n < 10 ^ 9) }
{
    Some(read_digits(text, 9)? as u32)
}

/// A number of 1 to 18 digits.
pub fn read_count(text: &[u8]) -> Option<u64>
    ensures value { result ≡ count text.now }
    ensures below { IfSome result (λ n. n < 10 ^ 18) }
{
    read_digits(text, 18)
}

/// Perhaps a minus, then 1 to 18 digits.
pub fn read_signed(text: &[u8]) -> Option<i64>
    ensures { result ≡ signed_number text.now }
{
    match text {
        [b'-', digits @ ..] => Some(-(read_count(digits)? as i64)),
        _ => Some(read_count(text)? as i64),
    }
}

/// Perhaps a minus, then 1 to 9 digits.
pub fn read_centis(text: &[u8]) -> Option<i64>
    ensures { result ≡ centis text.now }
{
    match text {
        [b'-', digits @ ..] => Some(-i64::from(read_number(digits)?)),
        _ => Some(i64::from(read_number(text)?)),
    }
}

/// 1 to 3 digits after a point, as thousandths.
fn read_thousandths(text: &[u8]) -> Option<u64>
    ensures value { result ≡ thousandths text.now }
    ensures below { IfSome result (λ n. n < SECOND) }
{
    let n = read_digits(text, 3)?;
    match text.len() {
        1 => Some(n * 100),
        2 => Some(n * 10),
        _ => Some(n),
    }
}

fn point_at(text: &[u8]) -> Option<usize>
    ensures { result ≡ position is_point text.now }
{
    text.iter().position(|b| *b == b'.')
}

/// 1 to 6 digits, and perhaps a point and 1 to 3 digits more: seconds, given in milliseconds.
pub fn read_seconds(text: &[u8]) -> Option<u64>
    ensures value { result ≡ seconds text.now }
    ensures below { IfSome result (λ n. n < 10 ^ 9) }
{
    match point_at(text) {
        Some(at) => {
            let whole = read_digits(&text[..at], 6)?;
            let part = read_thousandths(&text[at + 1..])?;
            Some(whole * SECOND + part)
        }
        None => Some(read_digits(text, 6)? * SECOND),
    }
}
