// Numbers of 64 bits as replies write them.
ghost use Rattle.std.specs.Prelude.{◌≡◌, ◌==◌, ◌<◌, ◌^◌, position, IfSome};
ghost use Rattle.std.specs.Option.{option_map};
ghost use Rattle.cecp_engine_lines.specs.ReplyReading.{plain_number, number_in_64_bits, written_signed, is_space, number_field, score_field};

/// The number that up to 20 digits without a leading zero write.
fn read_plain(text: &[u8]) -> Option<u128>
    ensures { result ≡ plain_number text.now }
{
    if text.is_empty() || text[0] == b'0' && text.len() != 1 || text.len() > 20 {
        return None;
    }
    let mut n = 0u128;
    for b in text {
        if !b.is_ascii_digit() {
            return None;
        }
        n = n * 10 + u128::from(*b - b'0');
    }
    Some(n)
}

/// A number of 64 bits as it is written.
pub(crate) fn read_written(text: &[u8]) -> Option<u64>
    ensures value { result ≡ number_in_64_bits text.now }
    ensures below { IfSome result (λ n. n < 2 ^ 64) }
{
    let n = read_plain(text)?;
    if n < 0x1_0000_0000_0000_0000 {
        Some(n as u64)
    } else {
        None
    }
}

fn read_score(text: &[u8]) -> Option<i64>
    ensures { result ≡ written_signed text.now }
{
    match text {
        [b'-', digits @ ..] => {
            let n = read_written(digits)?;
            if n == 0x8000_0000_0000_0000 {
                Some(i64::MIN)
            } else if n == 0 || n > 0x8000_0000_0000_0000 {
                None
            } else {
                Some(-(n as i64))
            }
        }
        _ => {
            let n = read_written(text)?;
            if n < 0x8000_0000_0000_0000 {
                Some(n as i64)
            } else {
                None
            }
        }
    }
}

/// Where a byte stands first.
pub(crate) fn position_of(byte: u8, text: &[u8]) -> Option<usize>
    ensures { result ≡ position (λ b. b == byte) text.now }
{
    text.iter().position(|b| *b == byte)
}

pub(crate) fn space_at(text: &[u8]) -> Option<usize>
    ensures { result ≡ position is_space text.now }
{
    position_of(b' ', text)
}

/// A number before a blank, and what follows.
pub(crate) fn read_number_field(text: &[u8]) -> Option<(u64, &[u8])>
    ensures { option_map (λ p. (p.0, p.1.now)) result ≡ number_field text.now }
{
    let at = space_at(text)?;
    Some((read_written(&text[..at])?, &text[at + 1..]))
}

pub(crate) fn read_score_field(text: &[u8]) -> Option<(i64, &[u8])>
    ensures { option_map (λ p. (p.0, p.1.now)) result ≡ score_field text.now }
{
    let at = space_at(text)?;
    Some((read_score(&text[..at])?, &text[at + 1..]))
}
