//! The fields of a text except the board.
ghost use Rattle.std.specs.Prelude.{◌≡◌, ◌==◌, length, Option, map, count_by};
ghost use Rattle.std.specs.List.{slice_get, list_all};
ghost use Rattle.std.specs.Option.{option_map, option_and_then};
ghost use Rattle.fen_text.specs.Seen.{optional_bytes};
ghost use Rattle.fen_text.specs.Fields.{side_of, is_right, at_most_once, file_if, letters_of, rights_of, en_passant_of, count_of, count_or};
ghost use Rattle.protocol_tokens.specs.Tokens.{tokens};

use chess_board::{Rights, Side, Square, Variant};
use protocol_tokens::{is_white, read_digits};

/// The field with this number, counted from 0.
pub(crate) fn nth_field(text: &[u8], n: usize) -> Option<&[u8]>
    ensures { optional_bytes result ≡ slice_get (tokens text.now) n }
{
    text.split(|b| is_white(*b))
        .filter(|field| !field.is_empty())
        .nth(n)
}

pub(crate) fn read_side(field: Option<&[u8]>) -> Option<Side>
    ensures { result ≡ option_and_then side_of (optional_bytes field.entry) }
{
    match field? {
        [b'w'] => Some(Side::White),
        [b'b'] => Some(Side::Black),
        _ => None,
    }
}

fn is_right(letter: u8) -> bool
    ensures { result ≡ is_right letter }
{
    matches!(letter, b'K' | b'Q' | b'k' | b'q')
}

/// True if the letter is there; None if it is there more than once.
fn at_most_once(letter: u8, field: &[u8]) -> Option<bool>
    ensures { result ≡ at_most_once letter field.now }
{
    match field.iter().filter(|b| **b == letter).count() {
        0 => Some(false),
        1 => Some(true),
        _ => None,
    }
}

fn are_rights(field: &[u8]) -> bool
    ensures { result ≡ list_all is_right field.now }
{
    field.iter().all(|b| is_right(*b))
}

/// The file of the rook whose right is held.
fn file_if(held: bool, file: u8) -> Option<u8>
    ensures { result ≡ file_if held file }
{
    if held { Some(file) } else { None }
}

/// The rights of normal chess: the rooks are on the files h and a.
fn read_letters(field: &[u8]) -> Option<Rights>
    ensures { result ≡ letters_of field.now }
{
    if !are_rights(field) {
        return None;
    }
    let wk = at_most_once(b'K', field)?;
    let wq = at_most_once(b'Q', field)?;
    let bk = at_most_once(b'k', field)?;
    let bq = at_most_once(b'q', field)?;
    Some(Rights {
        variant: Variant::Normal,
        wk: file_if(wk, 7),
        wq: file_if(wq, 0),
        bk: file_if(bk, 7),
        bq: file_if(bq, 0),
    })
}

pub(crate) fn read_rights(field: Option<&[u8]>) -> Option<Rights>
    ensures { result ≡ option_and_then rights_of (optional_bytes field.entry) }
{
    match field? {
        [] => None,
        [b'-'] => Some(Rights {
            variant: Variant::Normal,
            wk: None,
            wq: None,
            bk: None,
            bq: None,
        }),
        letters => read_letters(letters),
    }
}

/// The square that a pawn passed, if there is one.
pub(crate) fn read_en_passant(field: Option<&[u8]>) -> Option<Option<Square>>
    ensures { option_map (λ passed. option_map (λ square. square.index) passed) result
        ≡ option_and_then en_passant_of (optional_bytes field.entry) }
{
    match field? {
        [b'-'] => Some(None),
        [file @ b'a'..=b'h', rank @ (b'3' | b'6')] => Some(Square::at(*file - b'a', *rank - b'1')),
        _ => None,
    }
}

fn read_count(field: &[u8]) -> Option<u32>
    ensures { result ≡ count_of field.now }
{
    Some(read_digits(field, 5)? as u32)
}

/// A count, or what stands for it if the field is missing.
pub(crate) fn read_count_or(missing: u32, field: Option<&[u8]>) -> Option<u32>
    ensures { result ≡ count_or missing (optional_bytes field.entry) }
{
    match field {
        None => Some(missing),
        Some(field) => read_count(field),
    }
}
