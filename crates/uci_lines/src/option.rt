// The declarations of options (UCI, "option").
ghost use Rattle.std.specs.Prelude.{◌≡◌, ◌∷◌, [], true, codes, length, ◌≤◌, ◌<◌, MatchOption, IfSome};
ghost use Rattle.std.specs.Option.{option_map};
ghost use Rattle.protocol_tokens.specs.Tokens.{tokens, trimmed};
ghost use Rattle.uci_lines.specs.Cuts.{found_token, is_word, is_choice};
ghost use Rattle.uci_lines.specs.Choices.{values, before_choice, from_choice, default_value};
ghost use Rattle.uci_lines.specs.Options.{is_on, text_after, shape_named, option_with, option_said};
ghost use Rattle.uci_lines.specs.Writable.{CanWriteEngineMsg};
ghost use Rattle.uci_lines.specs.Messages.{option_kind_of, declared_by, uci_message_of};

use crate::cut::{Delimiter, find_word, is_word};
use crate::messages::{EngineMsg, OptionKind, OptionMsg};
use crate::range::read_range;
use protocol_tokens::{split_token, trim};

fn is_on(text: &[u8]) -> bool
    ensures { result ≡ is_on (found_token (is_word (codes "default")) true text.now) }
{
    match find_word(text, Delimiter::Default) {
        Some(found) => is_word(split_token(found.after).0, "true"),
        None => false,
    }
}

fn text_default(text: &[u8]) -> &[u8]
    ensures { result.now ≡ text_after (found_token (is_word (codes "default")) true text.now) }
{
    match find_word(text, Delimiter::Default) {
        Some(found) => {
            let text = trim(found.after);
            if is_word(text, "<empty>") { &[] } else { text }
        }
        None => &[],
    }
}

/// The text before the first `default` or `var`.
fn before_choice(text: &[u8]) -> &[u8]
    ensures { result.now ≡ before_choice (found_token is_choice true text.now) text.now }
{
    match find_word(text, Delimiter::Choice) {
        Some(found) => found.before,
        None => text,
    }
}

fn combo_default(text: &[u8]) -> &[u8]
    ensures { result.now ≡ default_value text.now }
{
    match find_word(text, Delimiter::Default) {
        Some(found) => trim(before_choice(found.after)),
        None => &[],
    }
}

/// The text before the first `default` or `var`, trimmed, and the text that begins with it.
fn split_choice(text: &[u8]) -> (&[u8], &[u8])
    ensures value { result.0.now
        ≡ trimmed (before_choice (found_token is_choice true text.now) text.now) }
    ensures others { result.1.now ≡ from_choice (found_token is_choice true text.now) text.now }
    ensures shorter { length result.1.now ≤ length text.now }
{
    match find_word(text, Delimiter::Choice) {
        Some(found) => {
            let (_, others) = text.split_at(found.before.len());
            (trim(found.before), others)
        }
        None => (trim(text), &[]),
    }
}

/// The first value of a combo, and the text from which the later ones are read. None if there is none.
pub fn next_value(text: &[u8]) -> Option<(&[u8], &[u8])>
    ensures first { MatchOption result (values text.now ≡ [])
        (λ p. values text.now ≡ p.0.now ∷ values p.1.now) }
    ensures shorter { IfSome result (λ p. length p.1.now < length text.now) }
{
    let mut others = text;
    while let Some(found) = find_word(others, Delimiter::Choice) {
        let (value, after) = split_choice(found.after);
        if found.word == b"var".as_slice() {
            return Some((value, after));
        }
        others = after;
    }
    None
}

fn read_kind<'a>(word: &[u8], text: &'a [u8]) -> Option<OptionKind<'a>>
    ensures { option_map option_kind_of result ≡ shape_named word.now text.now }
{
    if is_word(word, "check") {
        Some(OptionKind::Check { on: is_on(text) })
    } else if is_word(word, "spin") {
        read_range(text).spin()
    } else if is_word(word, "combo") {
        Some(OptionKind::Combo {
            default: combo_default(text),
            values: text,
        })
    } else if is_word(word, "button") {
        Some(OptionKind::Button)
    } else if is_word(word, "string") {
        Some(OptionKind::Text {
            default: text_default(text),
        })
    } else {
        None
    }
}

fn option_after(text: &[u8]) -> Option<OptionMsg<'_>>
    ensures { declared_by result
        ≡ option_with (found_token (is_word (codes "type")) true text.now) }
{
    let found = find_word(text, Delimiter::Kind)?;
    let (word, others) = split_token(found.after);
    let kind = read_kind(word, others)?;
    let name = trim(found.before);
    Some(OptionMsg { name, kind })
}

/// The message of the text behind `option`.
#[tactic(auto, unfolding(crate::specs::Options::option_said))]
pub(crate) fn read_option(text: &[u8]) -> EngineMsg<'_>
    ensures value { uci_message_of result ≡ option_said text.now }
    ensures writable { CanWriteEngineMsg (uci_message_of result) }
{
    let (word, others) = split_token(text);
    if !is_word(word, "name") {
        return EngineMsg::Nothing;
    }
    match option_after(others) {
        Some(option) => EngineMsg::OptionLine(option),
        None => EngineMsg::Nothing,
    }
}
