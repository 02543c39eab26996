// The form of an engine's lines.
ghost use Rattle.std.specs.Prelude.{◌≡◌};
ghost use Rattle.protocol_tokens.specs.Tokens.{tokens, rest_after_token};
ghost use Rattle.engine_conduct.specs.Words.{is_number};
ghost use Rattle.engine_conduct.specs.Forms.{all_followed, begins_line, begins_move, begins_number, begins_score, behind_number, breaks_form, breaks_info_form, is_declaration, is_followed, is_id, is_signed_number, is_text_word, tells};

use crate::words::{
    EngineWord, InfoWord, behind_first, info_word, is_null_move, is_number, is_word, spells_move,
};
use protocol_tokens::next_token;
use uci_lines::{EngineMsg, read_engine};

// A sign may stand before the digits.
fn is_signed_number(token: &[u8]) -> bool
    ensures { result ≡ is_signed_number token.now }
{
    match token {
        [b'+', digits @ ..] => is_number(digits),
        [b'-', digits @ ..] => is_number(digits),
        _ => is_number(token),
    }
}

fn begins_number(text: &[u8]) -> bool
    ensures { result ≡ begins_number (tokens text.now) }
{
    match next_token(text) {
        Some((token, _)) => is_number(token),
        None => false,
    }
}

// The rest of a score behind `cp` or `mate`.
fn begins_value(text: &[u8]) -> bool
    ensures { result ≡ begins_value (tokens text.now) }
{
    match next_token(text) {
        Some((token, _)) => is_signed_number(token),
        None => false,
    }
}

ghost use Rattle.engine_conduct.specs.Forms.{begins_value};

fn begins_score(text: &[u8]) -> bool
    ensures { result ≡ begins_score (tokens text.now) }
{
    let Some((unit, others)) = next_token(text) else {
        return false;
    };
    if is_word(unit, "cp") || is_word(unit, "mate") {
        begins_value(others)
    } else {
        is_word(unit, "lowerbound") || is_word(unit, "upperbound")
    }
}

fn begins_move(text: &[u8]) -> bool
    ensures { result ≡ begins_move (tokens text.now) }
{
    match next_token(text) {
        Some((token, _)) => spells_move(token) || is_null_move(token),
        None => false,
    }
}

// A line of moves may be empty.
fn begins_line(text: &[u8]) -> bool
    ensures { result ≡ begins_line (tokens text.now) }
{
    match next_token(text) {
        Some((token, _)) => spells_move(token) || is_null_move(token) || info_word(token).is_some(),
        None => true,
    }
}

/// The text behind the number of a processor, if there is one.
pub(crate) fn behind_number(text: &[u8]) -> &[u8]
    ensures { tokens result.now ≡ behind_number (tokens text.now) }
{
    if let Some((token, others)) = next_token(text) {
        if is_number(token) && !is_null_move(token) {
            return others;
        }
    }
    text
}

fn is_followed(word: InfoWord, text: &[u8]) -> bool
    ensures { result ≡ is_followed word (tokens text.now) }
{
    match word {
        InfoWord::Depth | InfoWord::Count => begins_number(text),
        InfoWord::Score => begins_score(text),
        InfoWord::CurrMove => begins_move(text),
        InfoWord::Pv | InfoWord::Refutation => begins_line(text),
        InfoWord::CurrLine => begins_line(behind_number(text)),
        InfoWord::SelDepth | InfoWord::Text | InfoWord::Passing => true,
    }
}

// The word of `info` that a token is, if there is one, has what must stand behind it.
fn is_told(word: Option<InfoWord>, text: &[u8]) -> bool
    ensures { result ≡ is_told word (tokens text.now) }
{
    match word {
        Some(word) => is_followed(word, text),
        None => true,
    }
}

ghost use Rattle.engine_conduct.specs.Forms.{is_told};

/// True if what is behind a token is free text.
pub(crate) fn is_text_word(word: Option<InfoWord>) -> bool
    ensures { result ≡ is_text_word word }
{
    matches!(word, Some(InfoWord::Text))
}

fn all_followed(text: &[u8]) -> bool
    ensures { result ≡ all_followed (tokens text.now) }
{
    let mut others = text;
    while let Some((token, behind)) = next_token(others) {
        let word = info_word(token);
        if is_text_word(word) {
            return true;
        }
        if !is_told(word, behind) {
            return false;
        }
        others = behind;
    }
    true
}

/// True if a word is among the tokens before the first `string`.
pub(crate) fn tells(text: &[u8], word: &str) -> bool
    ensures { result ≡ tells word.now (tokens text.now) }
{
    let mut others = text;
    while let Some((token, behind)) = next_token(others) {
        if is_text_word(info_word(token)) {
            return false;
        }
        if is_word(token, word) {
            return true;
        }
        others = behind;
    }
    false
}

fn breaks_info_form(text: &[u8]) -> bool
    ensures { result ≡ breaks_info_form (tokens text.now) }
{
    !all_followed(text) || (tells(text, "seldepth") && !tells(text, "depth"))
}

fn is_id(text: &[u8]) -> bool
    ensures { result ≡ is_id (tokens text.now) }
{
    match next_token(text) {
        Some((token, _)) => is_word(token, "name") || is_word(token, "author"),
        None => false,
    }
}

fn is_declaration(line: &[u8]) -> bool
    ensures { result ≡ is_declaration (engine_message line.now) }
{
    match read_engine(line) {
        EngineMsg::OptionLine(option) => !option.name.is_empty(),
        _ => false,
    }
}

ghost use Rattle.uci_lines.specs.Engine.{engine_message};

/// True if a line that begins with this word breaks the rule `form`.
pub(crate) fn breaks_form(word: EngineWord, line: &[u8]) -> bool
    ensures { result ≡ breaks_form word line.now }
{
    match word {
        EngineWord::Id => !is_id(behind_first(line)),
        EngineWord::UciOk | EngineWord::ReadyOk => false,
        EngineWord::Best => next_token(behind_first(line)).is_none(),
        EngineWord::Info => breaks_info_form(behind_first(line)),
        EngineWord::Option => !is_declaration(line),
    }
}
