// The texts of replies.
ghost use Rattle.std.specs.Prelude.{◌≡◌, ◌+◌, ◌≤◌, ◌++◌, codes, length, decimal, true, IfSome};
ghost use Rattle.std.specs.Fmt.{signed_decimal};
ghost use Rattle.std.specs.Option.{option_map};
ghost use Rattle.line_io.specs.Out.{with};
ghost use Rattle.chess_board.specs.Text.{text_of_move};
ghost use Rattle.cecp_lines.specs.Replies.{Feature, Error, Pong, Stat01, is_search_report, reply_of, reply_text, reason_text, user_error_text, outcome_text, hint_in_parentheses, current_text, field, HasWritableMoves, IsWritable};

use crate::losses::put_lost;
use crate::reply::{Outcome, Reason, Reply, UserError};
use chess_board::{Move, write_move};
use itoa::Buffer;
use line_io::Out;

fn words_of(reason: Reason) -> &'static [u8]
    ensures { result.now ≡ reason_text reason }
{
    match reason {
        Reason::UnknownCommand => b"unknown command",
        Reason::BadArgument => b"bad argument",
        Reason::EngineEnded => b"engine ended",
        Reason::NotAnalyzing => b"not analyzing",
        Reason::NoMoveToUndo => b"no move to undo",
        Reason::UnknownOption => b"unknown option",
        Reason::BadValue => b"bad value",
        Reason::TooManySettings => b"too many settings",
        Reason::TooManyPings => b"too many pings",
        Reason::LineTooLong => b"line too long",
    }
}

fn user_error_line(user_error: UserError) -> &'static [u8]
    ensures { result.now ≡ user_error_text user_error }
{
    match user_error {
        UserError::Position => b"tellusererror Illegal position",
        UserError::Move => b"tellusererror Illegal move by engine",
        UserError::Ended => b"tellusererror Engine ended",
    }
}

fn result_line(outcome: Outcome) -> &'static [u8]
    ensures { result.now ≡ outcome_text outcome }
{
    match outcome {
        Outcome::WhiteMates => b"1-0 {White mates}",
        Outcome::BlackMates => b"0-1 {Black mates}",
        Outcome::Stalemate => b"1/2-1/2 {Stalemate}",
        Outcome::Dead => b"1/2-1/2 {Draw by insufficient material}",
        Outcome::Repetition => b"1/2-1/2 {Draw by repetition}",
        Outcome::Fifty => b"1/2-1/2 {Draw by fifty-move rule}",
    }
}

fn put_move(m: Move, out: &mut Out)
    requires writable { IsWritable m }
    requires room { length out.old.text + length (text_of_move m) ≤ out.old.room }
    ensures { out.new ≡ with out.old (text_of_move m) }
{
    out.put(write_move(m).as_slice());
}

/// Some words and a move.
fn put_text_and_move(words: &[u8], m: Move, out: &mut Out)
    requires writable { IsWritable m }
    requires room { length out.old.text + length (words.now ++ text_of_move m) ≤ out.old.room }
    ensures { out.new ≡ with out.old (words.now ++ text_of_move m) }
{
    out.put(words);
    put_move(m, out);
}

/// A number and a blank.
fn put_field(n: u64, out: &mut Out)
    requires { length out.old.text + length (field (decimal n)) ≤ out.old.room }
    ensures { out.new ≡ with out.old (field (decimal n)) }
{
    let mut digits = Buffer::new();
    out.put(digits.format(n).as_bytes());
    out.put(b" ");
}

fn put_score(n: i64, out: &mut Out)
    requires { length out.old.text + length (field (signed_decimal n)) ≤ out.old.room }
    ensures { out.new ≡ with out.old (field (signed_decimal n)) }
{
    let mut digits = Buffer::new();
    out.put(digits.format(n).as_bytes());
    out.put(b" ");
}

fn put_hint(hint: Option<&[u8]>, out: &mut Out)
    requires { length out.old.text + length (hint_in_parentheses (option_map (λ h. h.now) hint))
        ≤ out.old.room }
    ensures { out.new ≡ with out.old (hint_in_parentheses (option_map (λ h. h.now) hint.entry)) }
{
    if let Some(text) = hint {
        out.put(b"(");
        out.put(text);
        out.put(b") ");
    }
}

fn put_current(current: Option<Move>, out: &mut Out)
    requires writable { IfSome current IsWritable }
    requires room { length out.old.text + length (current_text current) ≤ out.old.room }
    ensures { out.new ≡ with out.old (current_text current) }
{
    if let Some(m) = current {
        out.put(b" ");
        put_move(m, out);
    }
}

fn put_feature(name: &[u8], value: &[u8], out: &mut Out)
    requires { length out.old.text + length (reply_text (Feature name.now value.now))
        ≤ out.old.room }
    ensures { out.new ≡ with out.old (reply_text (Feature name.now value.now)) }
{
    out.put(b"feature ");
    out.put(name);
    out.put(b"=");
    out.put(value);
}

fn put_error(reason: Reason, line: &[u8], out: &mut Out)
    requires { length out.old.text + length (reply_text (Error reason line.now)) ≤ out.old.room }
    ensures { out.new ≡ with out.old (reply_text (Error reason line.now)) }
{
    out.put(b"Error (");
    out.put(words_of(reason));
    out.put(b"): ");
    out.put(line);
}

fn put_pong(n: u32, out: &mut Out)
    requires { length out.old.text + length (reply_text (Pong n)) ≤ out.old.room }
    ensures { out.new ≡ with out.old (reply_text (Pong n)) }
{
    let mut digits = Buffer::new();
    out.put(b"pong ");
    out.put(digits.format(n).as_bytes());
}

/// The four numbers of a thinking line.
#[derive(Clone, Copy)]
struct ThinkingNumbers {
    depth: u64,
    score: i64,
    time: u64,
    nodes: u64,
}

impl ThinkingNumbers {
    fn new(depth: u64, score: i64, time: u64, nodes: u64) -> ThinkingNumbers
        ensures { result ≡ record { depth = depth; score = score; time = time; nodes = nodes } }
    {
        ThinkingNumbers {
            depth,
            score,
            time,
            nodes,
        }
    }
}

/// The five numbers of a `stat01` line.
#[derive(Clone, Copy)]
struct Stat01Numbers {
    time: u64,
    nodes: u64,
    depth: u64,
    left: u64,
    all: u64,
}

impl Stat01Numbers {
    fn new(time: u64, nodes: u64, depth: u64, left: u64, all: u64) -> Stat01Numbers
        ensures { result ≡ record {
          time = time;
          nodes = nodes;
          depth = depth;
          left = left;
          all = all;
        } }
    {
        Stat01Numbers {
            time,
            nodes,
            depth,
            left,
            all,
        }
    }
}

fn put_thought(n: ThinkingNumbers, out: &mut Out)
    requires { length out.old.text + length (field (decimal n.depth)
        ++ field (signed_decimal n.score) ++ field (decimal n.time) ++ field (decimal n.nodes))
        ≤ out.old.room }
    ensures { out.new ≡ with out.old (field (decimal n.depth) ++ field (signed_decimal n.score)
        ++ field (decimal n.time) ++ field (decimal n.nodes)) }
{
    put_field(n.depth, out);
    put_score(n.score, out);
    put_field(n.time, out);
    put_field(n.nodes, out);
}

fn put_thinking(n: ThinkingNumbers, hint: Option<&[u8]>, pv: &[u8], out: &mut Out)
    requires { length out.old.text + length (field (decimal n.depth)
        ++ field (signed_decimal n.score) ++ field (decimal n.time) ++ field (decimal n.nodes)
        ++ hint_in_parentheses (option_map (λ h. h.now) hint) ++ pv.now) ≤ out.old.room }
    ensures { out.new ≡ with out.old (field (decimal n.depth) ++ field (signed_decimal n.score)
        ++ field (decimal n.time) ++ field (decimal n.nodes)
        ++ hint_in_parentheses (option_map (λ h. h.now) hint.entry) ++ pv.now) }
{
    put_thought(n, out);
    put_hint(hint, out);
    out.put(pv);
}

/// The first four numbers of a `stat01` line.
fn put_progress(n: Stat01Numbers, out: &mut Out)
    requires { length out.old.text + length (field (decimal n.time) ++ field (decimal n.nodes)
        ++ field (decimal n.depth) ++ field (decimal n.left)) ≤ out.old.room }
    ensures { out.new ≡ with out.old (field (decimal n.time) ++ field (decimal n.nodes)
        ++ field (decimal n.depth) ++ field (decimal n.left)) }
{
    put_field(n.time, out);
    put_field(n.nodes, out);
    put_field(n.depth, out);
    put_field(n.left, out);
}

fn put_stat01(n: Stat01Numbers, current: Option<Move>, out: &mut Out)
    requires writable { IfSome current IsWritable }
    requires room { length out.old.text
        + length (reply_text (Stat01 n.time n.nodes n.depth n.left n.all current)) ≤ out.old.room }
    ensures { out.new
        ≡ with out.old (reply_text (Stat01 n.time n.nodes n.depth n.left n.all current)) }
{
    let mut digits = Buffer::new();
    out.put(b"stat01: ");
    put_progress(n, out);
    out.put(digits.format(n.all).as_bytes());
    put_current(current, out);
}

// Writes the text of a reply that reports the search.
fn put_search_report(reply: &Reply, out: &mut Out)
    requires report { is_search_report (reply_of reply.now) ≡ true }
    requires moves { HasWritableMoves (reply_of reply.now) }
    requires room { length out.old.text + length (reply_text (reply_of reply.now)) ≤ out.old.room }
    ensures { out.new ≡ with out.old (reply_text (reply_of reply.now)) }
{
    match reply {
        Reply::Thinking {
            depth,
            score,
            time,
            nodes,
            spelling: _,
            hint,
            pv,
        } => {
            let numbers = ThinkingNumbers::new(*depth, *score, *time, *nodes);
            put_thinking(numbers, *hint, pv, out)
        }
        Reply::Stat01 {
            time,
            nodes,
            depth,
            left,
            all,
            current,
        } => {
            let numbers = Stat01Numbers::new(*time, *nodes, *depth, *left, *all);
            put_stat01(numbers, *current, out)
        }
        _ => unreachable!(),
    }
}

/// Writes the text of a reply, without a line feed.
pub fn write_reply(reply: &Reply, out: &mut Out)
    requires moves { HasWritableMoves (reply_of reply.now) }
    requires room { length out.old.text + length (reply_text (reply_of reply.now)) ≤ out.old.room }
    ensures { out.new ≡ with out.old (reply_text (reply_of reply.now)) }
{
    match reply {
        Reply::Feature { name, value } => put_feature(name, value, out),
        Reply::Move(m) => put_text_and_move(b"move ", *m, out),
        Reply::Illegal(m) => put_text_and_move(b"Illegal move: ", *m, out),
        Reply::IllegalLong(m) => put_text_and_move(b"Illegal move (game too long): ", *m, out),
        Reply::Error { reason, line } => put_error(*reason, line, out),
        Reply::TellError(user_error) => out.put(user_error_line(*user_error)),
        Reply::Pong(n) => put_pong(*n, out),
        Reply::OfferDraw => out.put(b"offer draw"),
        Reply::Resign => out.put(b"resign"),
        Reply::Lost { side, loss } => put_lost(*side, *loss, out),
        Reply::Hint(m) => put_text_and_move(b"Hint: ", *m, out),
        Reply::Result(outcome) => out.put(result_line(*outcome)),
        Reply::Thinking { .. } => put_search_report(reply, out),
        Reply::Stat01 { .. } => put_search_report(reply, out),
    }
}
