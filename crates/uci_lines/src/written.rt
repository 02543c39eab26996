// Names, values, moves and positions as they stand in orders.
ghost use Rattle.std.specs.Prelude.{◌≡◌, position};
ghost use Rattle.std.specs.Option.{option_map};
ghost use Rattle.uci_lines.specs.Written.{is_trimmed_text, option_value_cut, is_written_move, is_blank_byte, is_moves, is_fen, fields_before, is_count, is_positive};

use crate::behind::after;
use chess_board::{read_move, write_move};
use fen_text::{read_fen, write_fen};
use protocol_tokens::trim;

/// True if a text is not empty, and neither begins nor ends with white space.
pub(crate) fn is_text(text: &[u8]) -> bool
    ensures { result ≡ is_trimmed_text text.now }
{
    !text.is_empty() && trim(text) == text
}

/// The texts before and after the first ` value `.
pub(crate) fn cut_value(text: &[u8]) -> Option<(&[u8], &[u8])>
    ensures { option_map (λ p. (p.0.now, p.1.now)) result ≡ option_value_cut text.now }
{
    for i in 0..text.len() {
        let (name, others) = text.split_at(i);
        if let Some(value) = after(b" value ", others) {
            return Some((name, value));
        }
    }
    None
}

fn is_written_move(text: &[u8]) -> bool
    ensures { result ≡ is_written_move text.now }
{
    match read_move(text) {
        Some(m) => write_move(m).as_slice() == text,
        None => false,
    }
}

fn blank_at(text: &[u8]) -> Option<usize>
    ensures { result ≡ position is_blank_byte text.now }
{
    text.iter().position(|b| *b == b' ')
}

/// True if a text is one move or more as they are written, with one blank between.
pub(crate) fn is_moves(text: &[u8]) -> bool
    ensures { result ≡ is_moves text.now }
{
    let mut others = text;
    while let Some(at) = blank_at(others) {
        let (part, _) = others.split_at(at);
        if !is_written_move(part) {
            return false;
        }
        let (_, behind) = others.split_at(at + 1);
        others = behind;
    }
    is_written_move(others)
}

/// True if a text is that of a position as it is written.
pub(crate) fn is_fen(text: &[u8]) -> bool
    ensures { result ≡ is_fen text.now }
{
    match read_fen(text) {
        Ok(position) => {
            position.facts();
            write_fen(&position).as_slice() == text
        }
        Err(_) => false,
    }
}

/// Cuts a text at its sixth blank, if it has one.
pub(crate) fn split_fields(text: &[u8]) -> (&[u8], &[u8])
    ensures fields { result.0.now ≡ (fields_before 5 text.now).0 }
    ensures others { result.1.now ≡ (fields_before 5 text.now).1 }
{
    let mut blanks = 5u8;
    for (i, byte) in text.iter().enumerate() {
        if *byte == b' ' {
            if blanks == 0 {
                return text.split_at(i);
            }
            blanks -= 1;
        }
    }
    (text, &[])
}

/// True if a number is written with at most 18 digits.
pub(crate) fn is_count(n: u64) -> bool
    ensures { result ≡ is_count n }
{
    n < 1_000_000_000_000_000_000
}

pub(crate) fn is_positive(n: u64) -> bool
    ensures { result ≡ is_positive n }
{
    n > 0 && is_count(n)
}
