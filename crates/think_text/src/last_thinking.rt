// The last thinking line that was written of a search.
ghost use Rattle.std.specs.Prelude.{◌≡◌, ◌+◌, ◌≤◌, ◌/◌, length, is_some};
ghost use Rattle.std.specs.Option.{option_map, unwrap_or};
ghost use Rattle.line_io.specs.Out.{empty, with};
ghost use Rattle.cecp_lines.specs.Replies.{Thinking, reply_of, reply_text};
ghost use Rattle.uci_lines.specs.Info.{info_of};
ghost use Rattle.uci_lines.specs.Scores.{IsCentis};
ghost use Rattle.think_text.specs.Line.{InfoIsHeard, IsPlayableAsHint, ThinkingLineHasRoom, value_of, thinking_line, text_with_line};
ghost use Rattle.think_text.specs.Last.{last_after, with_hint, thinking_line_from};
ghost use Rattle.think_text.specs.declared.last_thinking.TheConstants.{BARE_LINE, LAST_LINE};

use crate::Pondered;
use crate::line::{next_legal, write_moves};
use crate::texts::{bytes_of, hint_text, put_move};
use crate::value::value_of;
use cecp_lines::{Reply, Spelling, write_reply};
use chess_board::Position;
use line_io::{NoMemory, Out, PEER_LINE};
use std::alloc::Global;
use std::marker::Model;
use uci_lines::{Info, Score};

/// The greatest length of a thinking line without a hint.
const BARE_LINE: usize = PEER_LINE * 8 / 5 + 128;

/// The greatest length of a thinking line.
pub const LAST_LINE: usize = BARE_LINE + 10;

/// A thinking line without its hint and its moves.
#[derive(Clone, Copy)]
struct LineStart {
    depth: u64,
    score: i64,
    time: u64,
    nodes: u64,
    spelling: Spelling,
}

/// The last thinking line that was written of a search, without its hint. The memory is taken when it is made.
#[derive(Drop)]
pub struct LastThinking {
    start: Option<LineStart>,
    moves: Out,
}

impl Model for LastThinking {
    ghost use Rattle.std.specs.Prelude.{Option};
    ghost use Rattle.think_text.specs.Last.{ThinkingLine, last_line, LastIsKept};

    ghost Value = { Option ThinkingLine };

    ghost view = { λ l. last_line l.start l.moves.text };

    ghost invariant = { λ l. LastIsKept l.start l.moves };
}

fn line_start(info: &Info, depth: u64, score: Score, spelling: Spelling) -> LineStart
    requires { IsCentis score }
    ensures { result ≡ record {
      depth = depth;
      score = value_of score;
      time = unwrap_or info.now.time 0 / 10;
      nodes = unwrap_or info.now.nodes 0;
      spelling = spelling;
    } }
{
    LineStart {
        depth,
        score: value_of(score),
        time: info.time.unwrap_or(0) / 10,
        nodes: info.nodes.unwrap_or(0),
        spelling,
    }
}

// The thinking line of this start.
fn reply_from<'a>(start: &LineStart, hint: Option<&'a [u8]>, moves: &'a [u8]) -> Reply<'a>
    ensures { reply_of result
        ≡ Thinking start.now.depth start.now.score start.now.time start.now.nodes start.now.spelling
        (option_map (λ h. h.now) hint.entry) moves.now }
{
    Reply::Thinking {
        depth: start.depth,
        score: start.score,
        time: start.time,
        nodes: start.nodes,
        spelling: start.spelling,
        hint,
        pv: moves,
    }
}

// Writes a thinking line.
fn write_line(start: &LineStart, hint: Option<Pondered>, moves: &[u8], out: &mut Out)
    requires hint { IsPlayableAsHint hint }
    requires room { length out.old.text
        + length (reply_text (with_hint hint (thinking_line_from moves.now start.now))) ≤ out.old.room }
    ensures { out.new ≡ with out.old (reply_text (with_hint hint (thinking_line_from moves.now start.now))) }
{
    let text = hint_text(start.spelling, hint);
    write_reply(&reply_from(start, bytes_of(&text), moves), out);
}

impl LastThinking {
    ghost use Rattle.std.specs.Prelude.{IfOk, None, IfSome};

    /// No line was written.
    pub fn make(alloc: Global) -> Result<LastThinking, NoMemory>
        ensures { IfOk result (λ last. last ≡ None) }
    {
        let moves = Out::make(alloc, BARE_LINE)?;
        Ok(LastThinking { start: None, moves })
    }

    /// Forgets the line.
    pub fn clear(&mut self)
        ensures { self.new ≡ None }
    {
        self.start = None;
    }

    /// Takes the thinking line of a report in place of the last one: depth in plies, score in hundredths of a pawn,
    /// time in hundredths of a second, nodes, and the moves of the engine's line as long as each is legal in its turn
    /// (Chess Engine Communication Protocol, version 2, section "Thinking Output"). Each move is written in the
    /// position in which it is played. There is no line, the last one stays and false is returned, if depth, score or
    /// a first legal move is missing.
    pub fn take(&mut self, spelling: Spelling, info: &Info, at: &Position) -> bool
        requires heard { InfoIsHeard (info_of info.now) }
        requires room { ThinkingLineHasRoom (empty BARE_LINE) (thinking_line spelling (info_of
            info.now) at.now None) }
        ensures there { result ≡ is_some (thinking_line spelling (info_of info.now) at.now None) }
        ensures line { self.new
            ≡ last_after self.old (thinking_line spelling (info_of info.now) at.now None) }
    {
        let (Some(depth), Some(score)) = (info.depth, info.score) else {
            return false;
        };
        let Some(first) = next_legal(info.pv, at) else {
            return false;
        };
        self.start = Some(line_start(info, depth, score, spelling));
        self.moves.clear();
        put_move(spelling, at, first.m, &mut self.moves);
        write_moves(spelling, first.others, &first.after, &mut self.moves);
        true
    }

    /// Writes the line, if there is one, and returns true if there is. A hint, the move that the engine ponders on, is
    /// in parentheses before the moves.
    pub fn write(&self, hint: Option<Pondered>, out: &mut Out) -> bool
        requires hint { IsPlayableAsHint hint }
        requires room { length out.old.text + LAST_LINE ≤ out.old.room }
        ensures there { result ≡ is_some self.now }
        ensures text { out.new ≡ text_with_line out.old (option_map (with_hint hint) self.now) }
        ensures short { IfSome self.now (λ line. length (reply_text (with_hint hint line)) ≤ LAST_LINE) }
    {
        match &self.start {
            Some(start) => {
                write_line(start, hint, self.moves.bytes(), out);
                true
            }
            None => false,
        }
    }
}
