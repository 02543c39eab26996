// The reply that a line spells.
ghost use Rattle.std.specs.Prelude.{◌≡◌, ◌↔◌, Some, position};
ghost use Rattle.std.specs.Option.{option_map};
ghost use Rattle.std.specs.List.{list_all};
ghost use Rattle.cecp_lines.specs.Replies.{Reply as AnyReply, reply_of, SpellsReply, is_feature_name, is_name_byte};
ghost use Rattle.cecp_lines.specs.Reading.{is_equals};
ghost use Rattle.cecp_engine_lines.specs.ReplyReading.{rest_after_prefix, is_paren, fixed_of, reason_of, feature_in, is_repeated, error_in, pong_reply_in};
ghost use Rattle.cecp_engine_lines.specs.ReplyReading.{is_brace, lost_in, last_in, stat01_in, hint_in_reply, thinking_in, with_score, with_prefix, reply_in};

use crate::move_texts::{read_written_move, spelling_of};
use crate::written_numbers::{
    position_of, read_number_field, read_score_field, read_written, space_at,
};
use cecp_lines::{Loss, Outcome, Reason, Reply, UserError, is_quotable};
use chess_board::{Move, Side};
use protocol_tokens::{is_white, named, trim};

const FIXED: [(&[u8], Reply<'static>); 15] = [
    (b"offer draw", Reply::OfferDraw),
    (b"resign", Reply::Resign),
    (
        b"tellusererror Illegal position",
        Reply::TellError(UserError::Position),
    ),
    (
        b"tellusererror Illegal move by engine",
        Reply::TellError(UserError::Move),
    ),
    (
        b"tellusererror Engine ended",
        Reply::TellError(UserError::Ended),
    ),
    (b"1-0 {White mates}", Reply::Result(Outcome::WhiteMates)),
    (b"0-1 {Black mates}", Reply::Result(Outcome::BlackMates)),
    (b"1/2-1/2 {Stalemate}", Reply::Result(Outcome::Stalemate)),
    (
        b"1/2-1/2 {Draw by insufficient material}",
        Reply::Result(Outcome::Dead),
    ),
    (
        b"1/2-1/2 {Draw by repetition}",
        Reply::Result(Outcome::Repetition),
    ),
    (
        b"1/2-1/2 {Draw by fifty-move rule}",
        Reply::Result(Outcome::Fifty),
    ),
    (
        b"0-1 {Illegal move by engine}",
        Reply::Lost {
            side: Side::White,
            loss: Loss::IllegalMove(None),
        },
    ),
    (
        b"1-0 {Illegal move by engine}",
        Reply::Lost {
            side: Side::Black,
            loss: Loss::IllegalMove(None),
        },
    ),
    (
        b"0-1 {Engine ended}",
        Reply::Lost {
            side: Side::White,
            loss: Loss::Ended,
        },
    ),
    (
        b"1-0 {Engine ended}",
        Reply::Lost {
            side: Side::Black,
            loss: Loss::Ended,
        },
    ),
];

static REASONS: [(&[u8], Reason); 10] = [
    (b"unknown command", Reason::UnknownCommand),
    (b"bad argument", Reason::BadArgument),
    (b"engine ended", Reason::EngineEnded),
    (b"not analyzing", Reason::NotAnalyzing),
    (b"no move to undo", Reason::NoMoveToUndo),
    (b"unknown option", Reason::UnknownOption),
    (b"bad value", Reason::BadValue),
    (b"too many settings", Reason::TooManySettings),
    (b"too many pings", Reason::TooManyPings),
    (b"line too long", Reason::LineTooLong),
];

fn fixed_reply(line: &[u8]) -> Option<Reply<'static>>
    ensures { result ≡ fixed_of line.now }
{
    named(&FIXED, line)
}

fn reason_named(words: &[u8]) -> Option<Reason>
    ensures { result ≡ reason_of words.now }
{
    named(&REASONS, words)
}

/// The rest behind a prefix.
fn behind_prefix<'a>(prefix: &[u8], line: &'a [u8]) -> Option<&'a [u8]>
    ensures { option_map (λ t. t.now) result ≡ rest_after_prefix prefix.now line.now }
{
    line.strip_prefix(prefix)
}

fn paren_at(text: &[u8]) -> Option<usize>
    ensures { result ≡ position is_paren text.now }
{
    position_of(b')', text)
}

fn equals_at(text: &[u8]) -> Option<usize>
    ensures { result ≡ position is_equals text.now }
{
    position_of(b'=', text)
}

fn may_be_named(byte: u8) -> bool
    ensures { result ≡ is_name_byte byte }
{
    !(is_white(byte) || byte == b'=')
}

fn are_name_bytes(name: &[u8]) -> bool
    ensures { result ≡ list_all is_name_byte name.now }
{
    name.iter().all(|b| may_be_named(*b))
}

fn is_name(name: &[u8]) -> bool
    ensures { result ≡ is_feature_name name.now }
{
    !name.is_empty() && are_name_bytes(name)
}

fn read_feature(text: &[u8]) -> Option<Reply<'_>>
    ensures { option_map reply_of result ≡ feature_in text.now }
{
    let at = equals_at(text)?;
    let name = &text[..at];
    let value = &text[at + 1..];
    if is_name(name) {
        Some(Reply::Feature { name, value })
    } else {
        None
    }
}

fn is_repeated_line(reason: Reason, line: &[u8]) -> bool
    ensures { result ≡ is_repeated reason line.now }
{
    match reason {
        Reason::LineTooLong => line == b"...".as_slice(),
        _ => trim(line) == line,
    }
}

fn read_error(text: &[u8]) -> Option<Reply<'_>>
    ensures { option_map reply_of result ≡ error_in text.now }
{
    let at = paren_at(text)?;
    let (words, rest) = text.split_at(at);
    let reason = reason_named(words)?;
    let line = behind_prefix(b"): ", rest)?;
    if is_repeated_line(reason, line) {
        Some(Reply::Error { reason, line })
    } else {
        None
    }
}

fn brace_at(text: &[u8]) -> Option<usize>
    ensures { result ≡ position is_brace text.now }
{
    position_of(b'}', text)
}

/// The result of a game that this side has lost by an answer which is quoted up to a brace.
fn read_lost(side: Side, text: &[u8]) -> Option<Reply<'_>>
    ensures { option_map reply_of result ≡ lost_in side text.now }
{
    let at = brace_at(text)?;
    let (answer, rest) = text.split_at(at);
    if rest == b"}".as_slice() && is_quotable(answer) {
        let loss = Loss::IllegalMove(Some(answer));
        Some(Reply::Lost { side, loss })
    } else {
        None
    }
}

fn read_pong(text: &[u8]) -> Option<Reply<'_>>
    ensures { option_map reply_of result ≡ pong_reply_in text.now }
{
    let n = read_written(text)?;
    if n < 0x1_0000_0000 {
        Some(Reply::Pong(n as u32))
    } else {
        None
    }
}

/// The last number of `stat01`, and the current move if there is one.
fn read_last(text: &[u8]) -> Option<(u64, Option<Move>)>
    ensures { result ≡ last_in text.now }
{
    match space_at(text) {
        Some(at) => {
            let all = read_written(&text[..at])?;
            let current = read_written_move(&text[at + 1..])?;
            Some((all, Some(current)))
        }
        None => Some((read_written(text)?, None)),
    }
}

fn read_stat01(text: &[u8]) -> Option<Reply<'_>>
    ensures { option_map reply_of result ≡ stat01_in text.now }
{
    let (time, text) = read_number_field(text)?;
    let (nodes, text) = read_number_field(text)?;
    let (depth, text) = read_number_field(text)?;
    let (left, text) = read_number_field(text)?;
    let (all, current) = read_last(text)?;
    Some(Reply::Stat01 {
        time,
        nodes,
        depth,
        left,
        all,
        current,
    })
}

/// The hint of a ponder search, if the text begins with one, and what follows.
fn read_hint(text: &[u8]) -> Option<(Option<&[u8]>, &[u8])>
    ensures { option_map (λ p. (option_map (λ h. h.now) p.0, p.1.now)) result ≡ hint_in_reply
        text.now }
{
    match behind_prefix(b"(", text) {
        Some(inner) => {
            let at = paren_at(inner)?;
            let (hint, rest) = inner.split_at(at);
            Some((Some(hint), behind_prefix(b") ", rest)?))
        }
        None => Some((None, text)),
    }
}

fn read_thinking(text: &[u8]) -> Option<Reply<'_>>
    ensures { option_map reply_of result ≡ thinking_in text.now }
{
    let (depth, text) = read_number_field(text)?;
    let (score, text) = read_score_field(text)?;
    let (time, text) = read_number_field(text)?;
    let (nodes, text) = read_number_field(text)?;
    let (hint, pv) = read_hint(text)?;
    let spelling = spelling_of(hint, pv)?;
    Some(Reply::Thinking {
        depth,
        score,
        time,
        nodes,
        spelling,
        hint,
        pv,
    })
}

fn read_with_prefix(line: &[u8]) -> Option<Reply<'_>>
    ensures { option_map reply_of result ≡ with_prefix line.now }
{
    if let Some(text) = behind_prefix(b"feature ", line) {
        return read_feature(text);
    }
    if let Some(text) = behind_prefix(b"move ", line) {
        return Some(Reply::Move(read_written_move(text)?));
    }
    if let Some(text) = behind_prefix(b"Illegal move: ", line) {
        return Some(Reply::Illegal(read_written_move(text)?));
    }
    if let Some(text) = behind_prefix(b"Illegal move (game too long): ", line) {
        return Some(Reply::IllegalLong(read_written_move(text)?));
    }
    if let Some(text) = behind_prefix(b"Error (", line) {
        return read_error(text);
    }
    if let Some(text) = behind_prefix(b"pong ", line) {
        return read_pong(text);
    }
    if let Some(text) = behind_prefix(b"Hint: ", line) {
        return Some(Reply::Hint(read_written_move(text)?));
    }
    if let Some(text) = behind_prefix(b"stat01: ", line) {
        return read_stat01(text);
    }
    read_with_score(line)
}

/// A reply that begins with a number.
fn read_with_score(line: &[u8]) -> Option<Reply<'_>>
    ensures { option_map reply_of result ≡ with_score line.now }
{
    if let Some(text) = behind_prefix(b"0-1 {Illegal move by engine: ", line) {
        return read_lost(Side::White, text);
    }
    if let Some(text) = behind_prefix(b"1-0 {Illegal move by engine: ", line) {
        return read_lost(Side::Black, text);
    }
    read_thinking(line)
}

fn read_longer(line: &[u8]) -> Option<Reply<'_>>
    ensures { option_map reply_of result ≡ reply_in line.now }
{
    match fixed_reply(line) {
        Some(reply) => Some(reply),
        None => read_with_prefix(line),
    }
}

/// The reply whose text the line is, without its line feed. None if no reply has this text.
pub fn read_reply(line: &[u8]) -> Option<Reply<'_>>
    ensures value { option_map reply_of result ≡ reply_in line.now }
    // A reply is read if and only if the line is its text.
    ensures reported { (t : AnyReply) → (option_map reply_of result ≡ Some t) ↔ SpellsReply
        line.now t }
{
    read_longer(line)
}
