// The parts of a `feature` line.
ghost use Rattle.std.specs.Prelude.{◌≡◌, ◌+◌, ◌<◌, ◌≤◌, ◌∷◌, [], length, drop, position, MatchOption, IfSome};
ghost use Rattle.std.specs.List.{before_first, after_first, position_or_len};
ghost use Rattle.std.specs.Option.{option_map};
ghost use Rattle.protocol_tokens.specs.Tokens.{is_white, token_end};
ghost use Rattle.driver_state_machine.specs.Parts.{ends_name, is_quote, feature_of, cut_seen, cut_of, feature_value_cut, cut_without_feature, feature_parts, onto, FitsIn, IsNamed};

use protocol_tokens::{is_white, split_at_white, trim_start};

/// A feature: `NAME=VALUE`. The value has its quotes no more (CECP version 2, "feature").
#[derive(Clone, Copy)]
pub struct NamedFeature<'a> {
    pub name: &'a [u8],
    pub value: &'a [u8],
}

/// The part at the start of a text: a feature, or something else that is ignored; and what follows.
#[derive(Clone, Copy)]
pub struct CutFeature<'a> {
    pub part: Option<NamedFeature<'a>>,
    pub rest: &'a [u8],
}

fn ends_name(byte: u8) -> bool
    ensures { result ≡ ends_name byte }
{
    is_white(byte) || byte == b'=' || byte == b'"'
}

fn name_end(text: &[u8]) -> Option<usize>
    ensures { result ≡ position ends_name text.now }
{
    text.iter().position(|b| ends_name(*b))
}

fn quote_at(text: &[u8]) -> Option<usize>
    ensures { result ≡ position is_quote text.now }
{
    text.iter().position(|b| *b == b'"')
}

/// A name, and what follows it.
fn split_name(text: &[u8]) -> (&[u8], &[u8])
    ensures name { result.0.now ≡ before_first ends_name text.now }
    ensures rest { result.1.now ≡ drop (position_or_len ends_name text.now) text.now }
{
    match name_end(text) {
        Some(at) => text.split_at(at),
        None => (text, &[]),
    }
}

/// The text before a quote, and the text behind it.
fn split_quote(text: &[u8]) -> (&[u8], &[u8])
    ensures before { result.0.now ≡ before_first is_quote text.now }
    ensures after { result.1.now ≡ after_first is_quote text.now }
{
    match quote_at(text) {
        Some(at) => (&text[..at], &text[at + 1..]),
        None => (text, &[]),
    }
}

/// The feature of this name, whose value the text begins with.
fn cut_value<'a>(name: &'a [u8], text: &'a [u8]) -> CutFeature<'a>
    ensures { cut_seen result ≡ feature_value_cut name.now text.now }
{
    let (value, rest) = match text {
        [b'"', inner @ ..] => split_quote(inner),
        _ => split_at_white(text),
    };
    CutFeature {
        part: Some(NamedFeature { name, value }),
        rest,
    }
}

/// Skips the bytes up to the next white space.
fn skip(text: &[u8]) -> CutFeature<'_>
    ensures { cut_seen result ≡ cut_without_feature text.now }
{
    let (_, rest) = split_at_white(text);
    CutFeature { part: None, rest }
}

/// The part at the start of a text that begins with no white space.
fn cut_prefix(text: &[u8]) -> CutFeature<'_>
    requires { 0 < length text.now }
    ensures { cut_seen result ≡ cut_of text.now (drop 1 text.now) }
{
    let behind = &text[1..];
    let (name, after) = split_name(text);
    match after {
        [b'=', value @ ..] if !name.is_empty() => cut_value(name, value),
        _ => skip(behind),
    }
}

/// The part at the start of a text, and what follows. None if the text is blank.
pub fn next_cut(text: &[u8]) -> Option<CutFeature<'_>>
    ensures parts { MatchOption result
        (feature_parts text.now ≡ [])
        (λ c. feature_parts text.now ≡ onto (cut_seen c).part (feature_parts c.rest.now)) }
    ensures shorter { IfSome result (λ c. length c.rest.now < length text.now) }
    ensures fits { IfSome result (λ c. FitsIn text.now (cut_seen c)) }
    ensures named { IfSome result (λ c. IsNamed (cut_seen c)) }
{
    let prefix = trim_start(text);
    if prefix.is_empty() {
        None
    } else {
        Some(cut_prefix(prefix))
    }
}
