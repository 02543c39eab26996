// Rows of tables, each a line of a text: fields with bars between, most of them `name=value`.
use crate::board::positions;
use chess_board::Move;
use std::process::Abort;

/// The text before the first bar, and the text behind it: nothing if there is no bar.
pub(crate) fn cut(row: &str) -> (&str, &str) {
    row.split_once('|').unwrap_or((row, ""))
}

/// The first letter of a word that tells of what kind a row is: one is enough, and cheap to prove.
pub(crate) fn first(word: &str) -> u8 {
    match word.as_bytes().first() {
        Some(letter) => *letter,
        None => b' ',
    }
}

/// The value of the field of a name. None if there is no such field.
pub(crate) fn text_in<'a>(fields: &'a str, name: &str) -> Option<&'a str> {
    for field in fields.split('|') {
        if let Some((prefix, value)) = field.split_once('=') {
            if prefix == name {
                return Some(value);
            }
        }
    }
    None
}

/// The value of a field that is there.
pub(crate) fn text_of<'a>(rt: &impl Abort, fields: &'a str, name: &str) -> &'a str {
    text_in(fields, name).expect(rt, name)
}

/// The same as bytes, if there is such a field.
pub(crate) fn bytes_in<'a>(fields: &'a str, name: &str) -> Option<&'a [u8]> {
    match text_in(fields, name) {
        Some(text) => Some(text.as_bytes()),
        None => None,
    }
}

pub(crate) fn bytes_of<'a>(rt: &impl Abort, fields: &'a str, name: &str) -> &'a [u8] {
    text_of(rt, fields, name).as_bytes()
}

/// The number that a text spells.
fn number(rt: &impl Abort, text: &str) -> u64 {
    text.parse::<u64>().expect(rt, text)
}

/// The number of a field, if there is such a field.
pub(crate) fn number_in(rt: &impl Abort, fields: &str, name: &str) -> Option<u64> {
    match text_in(fields, name) {
        Some(text) => Some(number(rt, text)),
        None => None,
    }
}

pub(crate) fn number_of(rt: &impl Abort, fields: &str, name: &str) -> u64 {
    number_in(rt, fields, name).expect(rt, name)
}

pub(crate) fn small_of(rt: &impl Abort, fields: &str, name: &str) -> u32 {
    text_of(rt, fields, name).parse::<u32>().expect(rt, name)
}

pub(crate) fn signed_of(rt: &impl Abort, fields: &str, name: &str) -> i64 {
    text_of(rt, fields, name).parse::<i64>().expect(rt, name)
}

/// The move of a field, if there is such a field.
pub(crate) fn move_in(rt: &impl Abort, fields: &str, name: &str) -> Option<Move> {
    match text_in(fields, name) {
        Some(text) => Some(positions::move_of(rt, text)),
        None => None,
    }
}

pub(crate) fn move_of(rt: &impl Abort, fields: &str, name: &str) -> Move {
    move_in(rt, fields, name).expect(rt, name)
}
