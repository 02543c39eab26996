// The first rule that a line of the engine breaks.
ghost use Rattle.std.specs.Prelude.{◌≡◌};
ghost use Rattle.protocol_tokens.specs.Tokens.{tokens};
ghost use Rattle.uci_lines.specs.Engine.{engine_message};
ghost use Rattle.engine_conduct.specs.Broken.{breaks_declared, breaks_late, breaks_move, breaks_ponder, breaks_pv, breaks_searchmoves, breaks_unasked, illegal_answer, illegal_hint, is_best_word, line_breaks, tells_thinking, unlisted_answer};

use crate::declared::breaks_default;
use crate::form::{breaks_form, tells};
use crate::known::Known;
use crate::listed::is_unlisted;
use crate::rule::ConductRule;
use crate::runs::{has_illegal_run, has_unlisted_run};
use crate::words::{EngineWord, behind_first};
use chess_board::{Move, Position};
use uci_lines::{EngineMsg, read_engine};

fn breaks_unasked(known: &Known, word: EngineWord) -> bool
    ensures { result ≡ breaks_unasked known.now.due word }
{
    match word {
        EngineWord::UciOk => known.due.boots == 0,
        EngineWord::ReadyOk => known.due.readies == 0,
        EngineWord::Best => known.due.answers == 0,
        _ => false,
    }
}

// A report that only a search makes.
fn tells_thinking(text: &[u8]) -> bool
    ensures { result ≡ tells_thinking (tokens text.now) }
{
    tells(text, "depth")
        || tells(text, "score")
        || tells(text, "pv")
        || tells(text, "currmove")
        || tells(text, "refutation")
        || tells(text, "currline")
}

fn breaks_late(known: &Known, word: EngineWord, line: &[u8]) -> bool
    ensures { result ≡ breaks_late known.now.due word line.now }
{
    match word {
        EngineWord::Info => known.due.answers == 0 && tells_thinking(behind_first(line)),
        _ => false,
    }
}

fn breaks_declared(known: &Known, word: EngineWord, line: &[u8]) -> bool
    ensures { result ≡ breaks_declared known.now.due word line.now }
{
    match word {
        EngineWord::Option => known.due.boots == 0 || breaks_default(line),
        _ => false,
    }
}

fn is_best_word(word: EngineWord) -> bool
    ensures { result ≡ is_best_word word }
{
    matches!(word, EngineWord::Best)
}

// The moves of a `bestmove`: the move, and the one to ponder on.
fn moves_answered(line: &[u8]) -> (Option<Move>, Option<Move>)
    ensures { result ≡ moves_answered (engine_message line.now) }
{
    match read_engine(line) {
        EngineMsg::Best { best, hint } => (best, hint),
        _ => (None, None),
    }
}

ghost use Rattle.engine_conduct.specs.Broken.{moves_answered};

fn illegal_answer(at: &Position, best: Option<Move>) -> bool
    ensures { result ≡ illegal_answer at.now best }
{
    match best {
        Some(m) => !at.legal(m),
        None => !at.moves().as_slice().is_empty(),
    }
}

fn illegal_hint(at: &Position, best: Option<Move>, hint: Option<Move>) -> bool
    ensures { result ≡ illegal_hint at.now best hint }
{
    match (best, hint) {
        (Some(m), Some(reply)) => match at.try_play(m) {
            Some(next) => !next.legal(reply),
            None => false,
        },
        _ => false,
    }
}

fn unlisted_answer(at: &Position, listed: &[Move], best: Option<Move>) -> bool
    ensures { result ≡ unlisted_answer at.now listed.now best }
{
    match best {
        Some(m) => at.legal(m) && is_unlisted(listed, m),
        None => false,
    }
}

fn breaks_move(known: &Known, word: EngineWord, line: &[u8]) -> bool
    ensures { result ≡ breaks_move (search_place known.now.search) word line.now }
{
    match (word, known.search.place()) {
        (EngineWord::Best, Some((at, pondering))) => {
            pondering.is_judged() && illegal_answer(&at, moves_answered(line).0)
        }
        _ => false,
    }
}

ghost use Rattle.engine_conduct.specs.Searches.{search_place};

fn breaks_pv(known: &Known, word: EngineWord, line: &[u8]) -> bool
    ensures { result ≡ breaks_pv (search_place known.now.search) word line.now }
{
    match (word, known.search.place()) {
        (EngineWord::Info, Some((at, pondering))) => {
            has_illegal_run(pondering, &at, behind_first(line))
        }
        _ => false,
    }
}

fn breaks_searchmoves(known: &Known, listed: &[Move], word: EngineWord, line: &[u8]) -> bool
    ensures { result ≡ breaks_searchmoves (search_place known.now.search) listed.now word line.now }
{
    match (word, known.search.place()) {
        (EngineWord::Best, Some((at, _))) => unlisted_answer(&at, listed, moves_answered(line).0),
        (EngineWord::Info, Some((at, pondering))) => {
            has_unlisted_run(pondering, &at, listed, behind_first(line))
        }
        _ => false,
    }
}

fn breaks_ponder(known: &Known, word: EngineWord, line: &[u8]) -> bool
    ensures { result ≡ breaks_ponder (search_place known.now.search) word line.now }
{
    match (word, known.search.place()) {
        (EngineWord::Best, Some((at, pondering))) => {
            let (best, hint) = moves_answered(line);
            pondering.is_judged() && illegal_hint(&at, best, hint)
        }
        _ => false,
    }
}

/// The first rule that a line breaks which begins with this word.
pub(crate) fn line_breaks(
    known: &Known,
    listed: &[Move],
    word: EngineWord,
    line: &[u8],
) -> Option<ConductRule>
    ensures { result ≡ line_breaks known.now listed.now word line.now }
{
    if breaks_form(word, line) {
        Some(ConductRule::Form)
    } else if breaks_unasked(known, word) {
        Some(ConductRule::Unasked)
    } else if breaks_late(known, word, line) {
        Some(ConductRule::Late)
    } else if breaks_declared(known, word, line) {
        Some(ConductRule::Declared)
    } else if is_best_word(word) && known.search.is_bound() {
        Some(ConductRule::Infinite)
    } else if breaks_move(known, word, line) {
        Some(ConductRule::Best)
    } else if breaks_pv(known, word, line) {
        Some(ConductRule::Pv)
    } else if breaks_searchmoves(known, listed, word, line) {
        Some(ConductRule::SearchMoves)
    } else if breaks_ponder(known, word, line) {
        Some(ConductRule::Ponder)
    } else {
        None
    }
}
