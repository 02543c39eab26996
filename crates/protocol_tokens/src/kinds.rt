// The kinds of a search.

/// The purpose of a search: a move to be played, pondering, analysis.
#[derive(Clone, Copy, Debug, PartialEq, Eq)]
pub enum GoKind {
    Move,
    Ponder,
    Analyse,
}
