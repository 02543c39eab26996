// The values of a combo.
ghost use Rattle.std.specs.Prelude.{◌≡◌, ◌∷◌, [], MatchOption, position};
ghost use Rattle.std.specs.List.{before_first, after_first, list_any};
ghost use Rattle.option_map.specs.DeclaredOptions.Choices.{is_bad_value, are_bad_values, has_bars, unstarred, choices_in};
ghost use Rattle.option_map.specs.DeclaredOptions.Names.{is_quote};
ghost use Rattle.uci_lines.specs.Choices.{values};

use crate::declared_options::names::holds;
use uci_lines::next_value;

fn has_bars(value: &[u8]) -> bool
    ensures { result ≡ has_bars value.now }
{
    let mut others = value;
    while let [_, after @ ..] = others {
        if others.starts_with(b"///") {
            return true;
        }
        others = after;
    }
    false
}

fn is_bad_value(value: &[u8]) -> bool
    ensures { result ≡ is_bad_value value.now }
{
    match value {
        [] => true,
        [first, ..] => holds(b'"', value) || has_bars(value) || *first == b'*',
    }
}

/// True if a combo has no value, or one that cannot be shown.
pub(crate) fn are_bad_values(text: &[u8]) -> bool
    ensures { result ≡ are_bad_values (values text.now) }
{
    let Some((first, mut others)) = next_value(text) else {
        return true;
    };
    if is_bad_value(first) {
        return true;
    }
    while let Some((value, after)) = next_value(others) {
        if is_bad_value(value) {
            return true;
        }
        others = after;
    }
    false
}

/// A choice without its star.
pub(crate) fn unstarred(choice: &[u8]) -> &[u8]
    ensures { result.now ≡ unstarred choice.now }
{
    match choice {
        [b'*', value @ ..] => value,
        _ => choice,
    }
}

fn quote_at(text: &[u8]) -> Option<usize>
    ensures { result ≡ position is_quote text.now }
{
    text.iter().position(|b| *b == b'"')
}

/// The text before the first quote, and the text behind it.
fn split_at_quote(text: &[u8]) -> (&[u8], &[u8])
    ensures choice { result.0.now ≡ before_first is_quote text.now }
    ensures others { result.1.now ≡ after_first is_quote text.now }
{
    match quote_at(text) {
        Some(at) => (&text[..at], &text[at + 1..]),
        None => (text, &[]),
    }
}

/// The first choice of those that are kept, each with a quote at its end, and the text of the others.
pub(crate) fn next_choice(text: &[u8]) -> Option<(&[u8], &[u8])>
    ensures first { MatchOption result (choices_in text.now ≡ []) (λ p. choices_in text.now
        ≡ p.0.now ∷ choices_in p.1.now) }
{
    if text.is_empty() {
        None
    } else {
        Some(split_at_quote(text))
    }
}
