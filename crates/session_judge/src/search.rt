// Searches, as a log shows them.
use chess_board::Move;
use protocol_tokens::GoKind;

/// A search. They are numbered from 1, and the number stays at the last value of its type. `kind` is that of its `go`,
/// and Move once `ponderhit` was written in it. `begun` and `ended` are the lines of its `go` and of its `bestmove`.
/// `shown` is the move that was shown after its `bestmove` and before the next `go`.
#[derive(Clone, Copy, PartialEq, Eq)]
pub struct Search {
    pub number: u64,
    pub kind: GoKind,
    pub begun: u64,
    pub ended: Option<u64>,
    pub stopped: bool,
    pub shown: Option<Move>,
}
