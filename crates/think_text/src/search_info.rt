// The values kept of a search.
ghost use Rattle.std.specs.Prelude.{◌≡◌, ◌+◌, ◌≤◌, length, IfSome};
ghost use Rattle.line_io.specs.Out.{with};
ghost use Rattle.cecp_lines.specs.Replies.{IsWritable, reply_text};
ghost use Rattle.uci_lines.specs.Info.{info_of};
ghost use Rattle.think_text.specs.Line.{InfoIsHeard};
ghost use Rattle.think_text.specs.Kept.{nothing_seen, after_info, newer_move, newer_score, is_first, stat01_of};

use crate::value::value_of;
use cecp_lines::{Reply, write_reply};
use chess_board::{Move, Position};
use line_io::Out;
use uci_lines::Info;

/// The engine's report on its search, each value as it was reported last; else 0 or None. The time is
/// in milliseconds, the score in hundredths of a pawn.
#[derive(Clone, Copy, PartialEq, Eq)]
pub struct SearchInfo {
    pub depth: u64,
    pub time: u64,
    pub nodes: u64,
    /// The move that is searched.
    pub current: Option<Move>,
    /// The last number of a searched move, from 1.
    pub number: u64,
    pub score: Option<i64>,
}

fn newer_move(at: &Position, new: Option<Move>, old: Option<Move>) -> Option<Move>
    ensures { result ≡ newer_move at.now new old }
{
    match new {
        Some(m) if at.legal(m) => Some(m),
        _ => old,
    }
}

fn is_first(multipv: Option<u64>) -> bool
    ensures { result ≡ is_first multipv }
{
    match multipv {
        Some(n) => n == 1,
        None => true,
    }
}

fn newer_score(info: &Info, old: Option<i64>) -> Option<i64>
    requires { InfoIsHeard (info_of info.now) }
    ensures { result ≡ newer_score (info_of info.now) old }
{
    match info.score {
        Some(score) if !info.bound && is_first(info.multipv) => Some(value_of(score)),
        _ => old,
    }
}

impl SearchInfo {
    /// Nothing was reported.
    pub fn new() -> SearchInfo
        ensures { result ≡ nothing_seen }
    {
        SearchInfo {
            depth: 0,
            time: 0,
            nodes: 0,
            current: None,
            number: 0,
            score: None,
        }
    }

    /// Takes in what is reported of a search in a position.
    pub fn hear(&mut self, info: &Info, at: &Position)
        requires { InfoIsHeard (info_of info.now) }
        ensures { self.new ≡ after_info self.old (info_of info.now) at.now }
    {
        self.depth = info.depth.unwrap_or(self.depth);
        self.time = info.time.unwrap_or(self.time);
        self.nodes = info.nodes.unwrap_or(self.nodes);
        self.current = newer_move(at, info.current, self.current);
        self.number = info.number.unwrap_or(self.number);
        self.score = newer_score(info, self.score);
    }
}

/// Writes the line that answers `.` during analysis, with the present position (Chess Engine Communication
/// Protocol, version 2, section "Analyze Mode").
pub fn stat01(search_info: &SearchInfo, at: &Position, out: &mut Out)
    requires current { IfSome search_info.now.current IsWritable }
    requires room { length out.old.text + length (reply_text (stat01_of search_info.now at.now))
        ≤ out.old.room }
    ensures { out.new ≡ with out.old (reply_text (stat01_of search_info.now at.now)) }
{
    let all = at.moves().len() as u64;
    let reply = Reply::Stat01 {
        time: search_info.time / 10,
        nodes: search_info.nodes,
        depth: search_info.depth,
        left: all.saturating_sub(search_info.number),
        all,
        current: search_info.current,
    };
    write_reply(&reply, out);
}
