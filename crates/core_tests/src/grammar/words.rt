// Tokens and numbers as both protocols have them.
use crate::expect::{expect, expect_text};
use protocol_tokens::{
    is_white, named, next_token, read_centis, read_count, read_digits, read_number, read_seconds,
    read_signed, split_at_white, split_token, trim, trim_end, trim_start,
};

// A text, and the number it spells, if it spells one.
const NUMBERS: [(&str, Option<u32>); 5] = [
    ("007", Some(7)),
    ("999999999", Some(999_999_999)),
    ("1000000000", None),
    ("", None),
    ("1x", None),
];

const SIGNED: [(&str, Option<i64>); 4] = [
    ("-12", Some(-12)),
    ("12", Some(12)),
    ("-", None),
    ("+12", None),
];

// A text in seconds, and its milliseconds.
const SECONDS: [(&str, Option<u64>); 6] = [
    ("5", Some(5_000)),
    ("0.5", Some(500)),
    ("2.025", Some(2_025)),
    ("2.", None),
    ("2.0255", None),
    ("1234567", None),
];

#[test]
fn numbers_are_read(rt: HostRuntime) {
    for (text, want) in &NUMBERS {
        expect(&rt, read_number(text.as_bytes()) == *want, text);
    }
    expect(&rt, read_digits(b"42", 2) == Some(42), "42");
    expect(&rt, read_digits(b"042", 2).is_none(), "042");
    let most = Some(999_999_999_999_999_999);
    expect(&rt, read_count(b"999999999999999999") == most, "most");
    expect(&rt, read_count(b"1000000000000000000").is_none(), "more");
}

#[test]
fn signed_numbers_are_read(rt: HostRuntime) {
    for (text, want) in &SIGNED {
        expect(&rt, read_signed(text.as_bytes()) == *want, text);
    }
    expect(&rt, read_centis(b"-100") == Some(-100), "-100");
    expect(&rt, read_centis(b"30000") == Some(30_000), "30000");
}

#[test]
fn seconds_are_read(rt: HostRuntime) {
    for (text, want) in &SECONDS {
        expect(&rt, read_seconds(text.as_bytes()) == *want, text);
    }
}

// A byte, and whether it is white space.
const WHITE: [(u8, bool); 5] = [
    (b' ', true),
    (b'\t', true),
    (b'\r', true),
    (b'\n', false),
    (b'a', false),
];

// A text, and its first token with what is after it.
const TOKENS: [(&str, Option<(&[u8], &[u8])>); 3] = [
    (" \tlevel  40 5\r", Some((b"level", b"40 5"))),
    ("5", Some((b"5", b""))),
    (" \r", None),
];

const WORDS: [(&[u8], u32); 3] = [(b"one", 1), (b"two", 2), (b"one", 3)];

#[test]
fn white_space_is_known(rt: HostRuntime) {
    for (byte, want) in &WHITE {
        assert!(rt; is_white(*byte) == *want, "white space {byte}");
    }
}

/// A line with white space of each kind.
const LINE: &[u8] = b" \tlevel  40 5\r";

#[test]
fn lines_are_trimmed(rt: HostRuntime) {
    expect_text(&rt, trim_start(LINE), "level  40 5\r");
    expect_text(&rt, trim_end(LINE), " \tlevel  40 5");
    expect_text(&rt, trim(LINE), "level  40 5");
}

#[test]
fn lines_are_cut_at_white_space(rt: HostRuntime) {
    let (word, rest) = split_token(LINE);
    expect_text(&rt, word, "level");
    expect_text(&rt, rest, "40 5");
    let (none, after) = split_token(b" \r");
    expect(&rt, none.is_empty() && after.is_empty(), "no token");
    let (prefix, behind) = split_at_white(b"level\t40 5");
    expect_text(&rt, prefix, "level");
    expect_text(&rt, behind, "\t40 5");
}

#[test]
fn tokens_are_found(rt: HostRuntime) {
    for (text, want) in &TOKENS {
        expect(&rt, next_token(text.as_bytes()) == *want, text);
    }
}

#[test]
fn words_are_found(rt: HostRuntime) {
    expect(&rt, named(&WORDS, b"one") == Some(1), "one");
    expect(&rt, named(&WORDS, b"two") == Some(2), "two");
    expect(&rt, named(&WORDS, b"three").is_none(), "three");
}
