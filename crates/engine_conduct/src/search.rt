// The search whose answer is due.
ghost use Rattle.std.specs.Prelude.{◌≡◌};
ghost use Rattle.protocol_tokens.specs.Tokens.{tokens};
ghost use Rattle.engine_conduct.specs.Searches.{began_search, pondering_hit, is_bound, is_judged, lost_place, pondering_of, search_hit, search_place, search_stopped, stopped_in};

use crate::orders::{begins_pondering, is_unlimited};
use chess_board::Position;

/// A search on the move that the other side is expected to make.
#[derive(Clone, Copy, PartialEq, Eq)]
pub enum Pondering {
    /// It is no such search.
    No,
    /// The move was not played yet.
    Open,
    /// The move was played: `ponderhit`.
    Hit,
    /// It was stopped before.
    Stopped,
}

/// Whether a search goes on until `stop`.
#[derive(Clone, Copy, PartialEq, Eq)]
pub enum SearchEnd {
    Own,
    Stop,
}

/// A search whose answer alone is due. `at` is its position, if there is one.
#[derive(Clone, Copy)]
pub struct DueSearch {
    pub at: Option<Position>,
    pub pondering: Pondering,
    pub end: SearchEnd,
}

/// The search whose answer is due.
#[derive(Clone, Copy)]
pub enum OpenSearch {
    None,
    /// A `go` came while an answer to another was due: nothing is known of it.
    Mixed,
    Alone(DueSearch),
}

fn pondering_of(line: &[u8]) -> Pondering
    ensures { result ≡ pondering_of (tokens line.now) }
{
    if begins_pondering(line) {
        Pondering::Open
    } else {
        Pondering::No
    }
}

fn search_end_of(line: &[u8]) -> SearchEnd
    ensures { result ≡ search_end_of (tokens line.now) }
{
    if is_unlimited(line) {
        SearchEnd::Stop
    } else {
        SearchEnd::Own
    }
}

ghost use Rattle.engine_conduct.specs.Searches.{search_end_of};

/// The search of a `go` for which no other answer is due.
pub(crate) fn began_search(at: Option<Position>, line: &[u8]) -> OpenSearch
    ensures { result ≡ began_search at (tokens line.now) }
{
    OpenSearch::Alone(DueSearch {
        at,
        pondering: pondering_of(line),
        end: search_end_of(line),
    })
}

impl Pondering {
    fn stopped(self) -> Pondering
        ensures { result ≡ stopped_in self }
    {
        match self {
            Pondering::Open => Pondering::Stopped,
            _ => self,
        }
    }

    fn hit(self) -> Pondering
        ensures { result ≡ pondering_hit self }
    {
        match self {
            Pondering::Open => Pondering::Hit,
            _ => self,
        }
    }

    /// True if its moves are judged: it does not ponder, or the move was played.
    pub(crate) fn is_judged(self) -> bool
        ensures { result ≡ is_judged self }
    {
        matches!(self, Pondering::No | Pondering::Hit)
    }
}

impl OpenSearch {
    /// After `stop`.
    pub(crate) fn stopped(self) -> OpenSearch
        ensures { result ≡ search_stopped self }
    {
        match self {
            OpenSearch::Alone(search) => OpenSearch::Alone(DueSearch {
                at: search.at,
                pondering: search.pondering.stopped(),
                end: SearchEnd::Own,
            }),
            _ => self,
        }
    }

    /// After `ponderhit`.
    pub(crate) fn hit(self) -> OpenSearch
        ensures { result ≡ search_hit self }
    {
        match self {
            OpenSearch::Alone(search) => OpenSearch::Alone(DueSearch {
                at: search.at,
                pondering: search.pondering.hit(),
                end: search.end,
            }),
            _ => self,
        }
    }

    /// Without a position.
    pub(crate) fn lost_place(self) -> OpenSearch
        ensures { result ≡ lost_place self }
    {
        match self {
            OpenSearch::Alone(search) => OpenSearch::Alone(DueSearch {
                at: None,
                pondering: search.pondering,
                end: search.end,
            }),
            _ => self,
        }
    }

    /// True if it must go on until it is told to end.
    pub(crate) fn is_bound(self) -> bool
        ensures { result ≡ is_bound self }
    {
        match self {
            OpenSearch::Alone(search) => search.pondering == Pondering::Open
                || search.end == SearchEnd::Stop,
            _ => false,
        }
    }

    /// Its position, and how it ponders, if it has a position.
    pub(crate) fn place(self) -> Option<(Position, Pondering)>
        ensures { result ≡ search_place self }
    {
        match self {
            OpenSearch::Alone(search) => Some((search.at?, search.pondering)),
            _ => None,
        }
    }
}
