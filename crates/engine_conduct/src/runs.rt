// The lines of moves that an engine reports.
ghost use Rattle.std.specs.Prelude.{◌≡◌, Some};
ghost use Rattle.protocol_tokens.specs.Tokens.{tokens};
ghost use Rattle.uci_lines.specs.Moves.{longest_move_run};
ghost use Rattle.engine_conduct.specs.Runs.{are_legal, has_illegal_run, has_unlisted_run, run_behind, starts_unlisted};

use crate::form::{behind_number, is_text_word};
use crate::listed::is_unlisted;
use crate::search::Pondering;
use crate::words::{InfoWord, info_word};
use chess_board::{Move, Position};
use protocol_tokens::next_token;
use uci_lines::next_move;

// The moves of a text are legal, each in its turn.
fn are_legal(start: &Position, text: &[u8]) -> bool
    ensures { result ≡ are_legal (Some start.now) (longest_move_run (tokens text.now)) }
{
    let mut at = *start;
    let mut others = text;
    while let Some((m, behind)) = next_move(others) {
        match at.try_play(m) {
            Some(next) => at = next,
            None => return false,
        }
        others = behind;
    }
    true
}

// The text whose moves are a line from the position of the search, behind a word of `info`.
fn run_behind<'a>(pondering: Pondering, word: Option<InfoWord>, text: &'a [u8]) -> &'a [u8]
    ensures { tokens result.now ≡ run_behind pondering word (tokens text.now) }
{
    match (pondering, word) {
        (_, Some(InfoWord::Pv)) => text,
        (Pondering::No, Some(InfoWord::CurrMove | InfoWord::Refutation)) => text,
        (Pondering::No, Some(InfoWord::CurrLine)) => behind_number(text),
        _ => &[],
    }
}

/// True if a reported line has a move that is not legal in its turn.
pub(crate) fn has_illegal_run(pondering: Pondering, at: &Position, text: &[u8]) -> bool
    ensures { result ≡ has_illegal_run pondering at.now (tokens text.now) }
{
    let mut others = text;
    while let Some((token, behind)) = next_token(others) {
        let word = info_word(token);
        if is_text_word(word) {
            return false;
        }
        if !are_legal(at, run_behind(pondering, word, behind)) {
            return true;
        }
        others = behind;
    }
    false
}

// The first move of a text is legal, and was not to be searched.
fn starts_unlisted(at: &Position, listed: &[Move], text: &[u8]) -> bool
    ensures { result ≡ starts_unlisted at.now listed.now (longest_move_run (tokens text.now)) }
{
    match next_move(text) {
        Some((m, _)) => at.legal(m) && is_unlisted(listed, m),
        None => false,
    }
}

/// True if a reported line begins with a move that was not to be searched.
pub(crate) fn has_unlisted_run(
    pondering: Pondering,
    at: &Position,
    listed: &[Move],
    text: &[u8],
) -> bool
    ensures { result ≡ has_unlisted_run pondering at.now listed.now (tokens text.now) }
{
    let mut others = text;
    while let Some((token, behind)) = next_token(others) {
        let word = info_word(token);
        if is_text_word(word) {
            return false;
        }
        if starts_unlisted(at, listed, run_behind(pondering, word, behind)) {
            return true;
        }
        others = behind;
    }
    false
}
