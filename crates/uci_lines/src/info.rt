// The engine's report on its search (UCI, "info").
ghost use Rattle.std.specs.Prelude.{◌≡◌, ◌≤◌, length};
ghost use Rattle.protocol_tokens.specs.Tokens.{tokens};
ghost use Rattle.uci_lines.specs.Infos.{ends_info, field_named, first_count, score_of, first_score, first_move, newer_run, hear, facts_in, facts_from};
ghost use Rattle.uci_lines.specs.Moves.{longest_move_run};
ghost use Rattle.uci_lines.specs.Writable.{can_write};
ghost use Rattle.uci_lines.specs.Info.{info_of, Info as AnyInfo};
ghost use Rattle.std.specs.Option.{option_or};

use crate::cut::is_word;
use crate::messages::{Info, Score};
use crate::moves::{after_moves, next_move};
use chess_board::{Move, read_move};
use protocol_tokens::{next_token, read_centis, read_count};

/// The words of an `info` line.
#[derive(Clone, Copy)]
pub(crate) enum InfoField {
    Depth,
    Time,
    Nodes,
    MultiPv,
    Number,
    Score,
    Bound,
    Current,
    Pv,
    Text,
    Other,
}

fn field_named(word: &[u8]) -> InfoField
    ensures { result ≡ field_named word.now }
{
    if is_word(word, "depth") {
        InfoField::Depth
    } else if is_word(word, "time") {
        InfoField::Time
    } else if is_word(word, "nodes") {
        InfoField::Nodes
    } else if is_word(word, "multipv") {
        InfoField::MultiPv
    } else if is_word(word, "currmovenumber") {
        InfoField::Number
    } else if is_word(word, "score") {
        InfoField::Score
    } else if is_word(word, "lowerbound") || is_word(word, "upperbound") {
        InfoField::Bound
    } else if is_word(word, "currmove") {
        InfoField::Current
    } else if is_word(word, "pv") {
        InfoField::Pv
    } else if is_word(word, "string") {
        InfoField::Text
    } else {
        InfoField::Other
    }
}

/// True if what follows the word is ignored.
fn ends_info(field: InfoField) -> bool
    ensures { result ≡ ends_info field }
{
    matches!(field, InfoField::Text)
}

fn first_move(text: &[u8]) -> Option<Move>
    ensures value { result ≡ first_move (tokens text.now) }
    ensures officer { can_write result }
{
    read_move(next_token(text)?.0)
}

fn score_of(unit: &[u8], number: &[u8]) -> Option<Score>
    ensures { result ≡ score_of unit.now number.now }
{
    if is_word(unit, "cp") {
        Some(Score::Cp(read_centis(number)?))
    } else if is_word(unit, "mate") {
        Some(Score::Mate(read_centis(number)?))
    } else {
        None
    }
}

fn first_score(text: &[u8]) -> Option<Score>
    ensures { result ≡ first_score (tokens text.now) }
{
    let (unit, others) = next_token(text)?;
    let (number, _) = next_token(others)?;
    score_of(unit, number)
}

/// A run of moves takes the place of an earlier one, unless it is empty.
fn newer_run<'a>(new: &'a [u8], old: &'a [u8]) -> &'a [u8]
    ensures { longest_move_run (tokens result.now) ≡ newer_run (longest_move_run (tokens
        new.now)) (longest_move_run (tokens old.now)) }
{
    if next_move(new).is_some() { new } else { old }
}

/// Takes in the number at the start of a text, if there is one, and gives the text that is read on.
fn take_count<'a>(count: &mut Option<u64>, text: &'a [u8]) -> &'a [u8]
    ensures value { count.new ≡ option_or (first_count (tokens text.now)) count.old }
    ensures others { (facts : AnyInfo) → facts_from facts (tokens result.now)
        ≡ facts_from facts (tokens text.now) }
    ensures within { length result.now ≤ length text.now }
{
    if let Some((token, others)) = next_token(text) {
        if let Some(number) = read_count(token) {
            *count = Some(number);
            return others;
        }
    }
    text
}

/// Takes in what a field reports, with the text after its word, and gives the text that is read on: no number
/// and no move is a word of `info`, and so they are passed over.
#[tactic(auto, using(crate::proofs::Tellings::facts_after))]
fn hear<'a>(field: InfoField, info: &mut Info<'a>, text: &'a [u8]) -> &'a [u8]
    ensures value { facts_from (info_of info.new) (tokens result.now)
        ≡ facts_from (hear field (info_of info.old) (tokens text.now)) (tokens text.now) }
    ensures officer { can_write info.old.current → can_write info.new.current }
    ensures within { length result.now ≤ length text.now }
{
    match field {
        InfoField::Depth => return take_count(&mut info.depth, text),
        InfoField::Time => return take_count(&mut info.time, text),
        InfoField::Nodes => return take_count(&mut info.nodes, text),
        InfoField::MultiPv => return take_count(&mut info.multipv, text),
        InfoField::Number => return take_count(&mut info.number, text),
        InfoField::Score => info.score = first_score(text).or(info.score),
        InfoField::Bound => info.bound = true,
        InfoField::Current => info.current = first_move(text).or(info.current),
        InfoField::Pv => {
            info.pv = newer_run(text, info.pv);
            return after_moves(text);
        }
        InfoField::Text | InfoField::Other => {}
    }
    text
}

/// Reads what follows `info`.
#[tactic(auto, unfolding(crate::specs::Infos::facts_in))]
pub(crate) fn read_info(text: &[u8]) -> Info<'_>
    ensures value { info_of result ≡ facts_in text.now }
    ensures officer { can_write result.current }
{
    let mut info = Info {
        depth: None,
        time: None,
        nodes: None,
        multipv: None,
        number: None,
        score: None,
        bound: false,
        current: None,
        pv: &[],
    };
    let mut others = text;
    while let Some((word, after)) = next_token(others) {
        let field = field_named(word);
        if ends_info(field) {
            break;
        }
        others = hear(field, &mut info, after);
    }
    info
}
