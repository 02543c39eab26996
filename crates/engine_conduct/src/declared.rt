// The options that an engine declares.
ghost use Rattle.std.specs.Prelude.{◌≡◌, ◌<◌, length};
ghost use Rattle.protocol_tokens.specs.Tokens.{tokens, rest_after_token};
ghost use Rattle.uci_lines.specs.Choices.{values};
ghost use Rattle.uci_lines.specs.Engine.{engine_message};
ghost use Rattle.engine_conduct.specs.Words.{behind_word};
ghost use Rattle.engine_conduct.specs.Defaults.{behind_kind, breaks_check, breaks_combo, breaks_default, breaks_spin, first_signed_default, is_among, is_off_option, spin_default};

use crate::words::{behind_first, behind_word, has_token, is_word};
use protocol_tokens::{next_token, read_signed};
use uci_lines::{EngineMsg, OptionKind, next_value, read_engine};

// What follows the type of an option.
fn behind_kind(text: &[u8]) -> &[u8]
    ensures { tokens result.now ≡ behind_kind (behind_word (codes "type") (tokens text.now)) }
{
    let Some(kind) = behind_word(text, "type") else {
        return &[];
    };
    match next_token(kind) {
        Some((_, others)) => others,
        None => &[],
    }
}

ghost use Rattle.std.specs.Prelude.{codes};

// Options that are off by default.
fn is_off_option(name: &[u8]) -> bool
    ensures { result ≡ is_off_option name.now }
{
    name.eq_ignore_ascii_case(b"UCI_Chess960")
        || name.eq_ignore_ascii_case(b"UCI_ShowCurrLine")
        || name.eq_ignore_ascii_case(b"UCI_ShowRefutations")
        || name.eq_ignore_ascii_case(b"UCI_LimitStrength")
}

fn is_no_truth(default: &[u8]) -> bool
    ensures { result ≡ is_no_truth (tokens default.now) }
{
    match next_token(default) {
        Some((token, _)) => !is_word(token, "true") && !is_word(token, "false"),
        None => true,
    }
}

ghost use Rattle.engine_conduct.specs.Defaults.{is_no_truth};

fn breaks_check(name: &[u8], on: bool, text: &[u8]) -> bool
    ensures { result ≡ breaks_check name.now on (behind_word (codes "default") (tokens text.now)) }
{
    match behind_word(text, "default") {
        Some(default) => is_no_truth(default) || (on && is_off_option(name)),
        None => on && is_off_option(name),
    }
}

fn first_signed_default(token: &[u8], text: &[u8]) -> Option<i64>
    ensures { result ≡ first_signed_default token.now (tokens text.now) }
{
    if is_word(token, "default") {
        read_signed(next_token(text)?.0)
    } else {
        None
    }
}

// The default of a spin, which is the last one.
fn spin_default(text: &[u8]) -> Option<i64>
    ensures { result ≡ spin_default None (tokens text.now) }
{
    let mut found = None;
    let mut others = text;
    while let Some((token, behind)) = next_token(others) {
        found = first_signed_default(token, behind).or(found);
        others = behind;
    }
    found
}

ghost use Rattle.std.specs.Prelude.{None};

fn breaks_spin(default: Option<i64>, min: i64, max: i64) -> bool
    ensures { result ≡ breaks_spin default min max }
{
    match default {
        Some(default) => default < min || default > max,
        None => false,
    }
}

// The value is one of these, case ignored.
fn is_among(value: &[u8], text: &[u8]) -> bool
    ensures { result ≡ is_among value.now (values text.now) }
{
    let mut others = text;
    while let Some((other, behind)) = next_value(others) {
        if value.eq_ignore_ascii_case(other) {
            return true;
        }
        others = behind;
    }
    false
}

fn breaks_combo(default: &[u8], choices: &[u8], text: &[u8]) -> bool
    ensures { result ≡ breaks_combo default.now (values choices.now) (tokens text.now) }
{
    has_token(text, "default") && !is_among(default, choices)
}

fn breaks_kind(name: &[u8], kind: OptionKind<'_>, text: &[u8]) -> bool
    ensures { result ≡ breaks_kind name.now (option_kind_of kind.entry) (tokens text.now) }
{
    match kind {
        OptionKind::Check { on } => breaks_check(name, on, text),
        OptionKind::Spin {
            default: _,
            min,
            max,
        } => breaks_spin(spin_default(text), min, max),
        OptionKind::Combo { default, values } => breaks_combo(default, values, text),
        OptionKind::Button | OptionKind::Text { default: _ } => false,
    }
}

ghost use Rattle.uci_lines.specs.Messages.{option_kind_of};
ghost use Rattle.engine_conduct.specs.Defaults.{breaks_kind};

/// True if the default of an option is not one that its type allows.
pub(crate) fn breaks_default(line: &[u8]) -> bool
    ensures { result ≡ breaks_default (engine_message line.now)
        (behind_kind (behind_word (codes "type") (tokens (rest_after_token line.now)))) }
{
    match read_engine(line) {
        EngineMsg::OptionLine(option) => {
            breaks_kind(option.name, option.kind, behind_kind(behind_first(line)))
        }
        _ => false,
    }
}
