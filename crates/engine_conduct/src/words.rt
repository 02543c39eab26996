// The words of an engine's lines, and what may stand behind them.
ghost use Rattle.std.specs.Prelude.{◌≡◌};
ghost use Rattle.std.specs.Char.{is_ascii_digit};
ghost use Rattle.std.specs.List.{list_all};
ghost use Rattle.std.specs.Option.{option_map};
ghost use Rattle.protocol_tokens.specs.Tokens.{tokens, first_token, rest_after_token};
ghost use Rattle.uci_lines.specs.Cuts.{is_word};
ghost use Rattle.uci_lines.specs.Orders.{optional_now};
ghost use Rattle.engine_conduct.specs.Words.{behind_word, engine_word, engine_word_in, has_token, info_word, spells_move, is_number, is_null_move, token_alone};

use chess_board::read_move;
use protocol_tokens::{next_token, split_token};

/// The words with which an engine's lines begin.
#[derive(Clone, Copy)]
pub(crate) enum EngineWord {
    Id,
    UciOk,
    ReadyOk,
    Best,
    Info,
    Option,
}

/// The words of `info` (UCI, April 2006, "info").
#[derive(Clone, Copy)]
pub(crate) enum InfoWord {
    Depth,
    SelDepth,
    /// `time`, `nodes`, `multipv` or `currmovenumber`, each before a number.
    Count,
    Score,
    CurrMove,
    Pv,
    Refutation,
    CurrLine,
    Text,
    /// Any other.
    Passing,
}

pub(crate) fn is_word(token: &[u8], word: &str) -> bool
    ensures { result ≡ is_word word.now token.now }
{
    token == word.as_bytes()
}

fn engine_word(token: &[u8]) -> Option<EngineWord>
    ensures { result ≡ engine_word token.now }
{
    if is_word(token, "id") {
        Some(EngineWord::Id)
    } else if is_word(token, "uciok") {
        Some(EngineWord::UciOk)
    } else if is_word(token, "readyok") {
        Some(EngineWord::ReadyOk)
    } else if is_word(token, "bestmove") {
        Some(EngineWord::Best)
    } else if is_word(token, "info") {
        Some(EngineWord::Info)
    } else if is_word(token, "option") {
        Some(EngineWord::Option)
    } else {
        None
    }
}

/// The word with which a line of the engine begins.
pub(crate) fn engine_word_in(line: &[u8]) -> Option<EngineWord>
    ensures { result ≡ engine_word_in line.now }
{
    engine_word(split_token(line).0)
}

/// The word of `info` that a token is.
pub(crate) fn info_word(token: &[u8]) -> Option<InfoWord>
    ensures { result ≡ info_word token.now }
{
    if is_word(token, "depth") {
        Some(InfoWord::Depth)
    } else if is_word(token, "seldepth") {
        Some(InfoWord::SelDepth)
    } else if is_word(token, "time") || is_word(token, "nodes") {
        Some(InfoWord::Count)
    } else if is_word(token, "multipv") || is_word(token, "currmovenumber") {
        Some(InfoWord::Count)
    } else if is_word(token, "score") {
        Some(InfoWord::Score)
    } else if is_word(token, "currmove") {
        Some(InfoWord::CurrMove)
    } else if is_word(token, "pv") {
        Some(InfoWord::Pv)
    } else if is_word(token, "refutation") {
        Some(InfoWord::Refutation)
    } else if is_word(token, "currline") {
        Some(InfoWord::CurrLine)
    } else if is_word(token, "string") {
        Some(InfoWord::Text)
    } else if is_passing(token) {
        Some(InfoWord::Passing)
    } else {
        None
    }
}

ghost use Rattle.engine_conduct.specs.Words.{is_passing};

fn is_passing(token: &[u8]) -> bool
    ensures { result ≡ is_passing token.now }
{
    is_word(token, "hashfull")
        || is_word(token, "nps")
        || is_word(token, "tbhits")
        || is_word(token, "sbhits")
        || is_word(token, "cpuload")
        || is_word(token, "lowerbound")
        || is_word(token, "upperbound")
}

fn is_digit(byte: u8) -> bool
    ensures { result ≡ is_ascii_digit byte }
{
    byte.is_ascii_digit()
}

fn are_digits(bytes: &[u8]) -> bool
    ensures { result ≡ list_all is_ascii_digit bytes.now }
{
    bytes.iter().all(|b| is_digit(*b))
}

/// True if a token has digits alone.
pub(crate) fn is_number(token: &[u8]) -> bool
    ensures { result ≡ is_number token.now }
{
    !token.is_empty() && are_digits(token)
}

/// True if a token spells a move.
pub(crate) fn spells_move(token: &[u8]) -> bool
    ensures { result ≡ spells_move token.now }
{
    read_move(token).is_some()
}

/// True if a token is the null move.
pub(crate) fn is_null_move(token: &[u8]) -> bool
    ensures { result ≡ is_null_move token.now }
{
    is_word(token, "0000")
}

/// True if a word is among the tokens of a text.
pub(crate) fn has_token(text: &[u8], word: &str) -> bool
    ensures { result ≡ has_token word.now (tokens text.now) }
{
    let mut others = text;
    while let Some((token, behind)) = next_token(others) {
        if is_word(token, word) {
            return true;
        }
        others = behind;
    }
    false
}

/// The text behind the first token that is this word.
pub(crate) fn behind_word<'a>(text: &'a [u8], word: &str) -> Option<&'a [u8]>
    ensures { option_map (λ t. tokens t.now) result ≡ behind_word word.now (tokens text.now) }
{
    let mut others = text;
    while let Some((token, behind)) = next_token(others) {
        if is_word(token, word) {
            return Some(behind);
        }
        others = behind;
    }
    None
}

/// The token of a text that has one alone.
pub(crate) fn token_alone(text: &[u8]) -> Option<&[u8]>
    ensures { optional_now result ≡ token_alone (tokens text.now) }
{
    let (token, others) = next_token(text)?;
    match next_token(others) {
        Some(_) => None,
        None => Some(token),
    }
}

/// The text behind the first token of a line.
pub(crate) fn behind_first(line: &[u8]) -> &[u8]
    ensures { result.now ≡ rest_after_token line.now }
{
    split_token(line).1
}
