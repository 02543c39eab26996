// The rules of the dialogue with an engine.

/// The rule that a mark breaks (UCI, April 2006; and when a bridge shows a move). A mark that breaks several is refused
/// by the first.
#[derive(Clone, Copy, PartialEq, Eq)]
pub enum Rule {
    /// The first order is not `uci`, or a later one is.
    First,
    /// An order is written to an engine that has ended or was lost.
    Gone,
    /// An order comes after `quit`.
    Quit,
    /// A `go` does not come directly after a `position`, or another order comes directly after one.
    Order,
    /// `setoption`, `ucinewgame`, `isready`, `position` or `go` is written to an engine that is not idle.
    Busy,
    /// `stop` is written outside a search, or in one that is stopped.
    Stop,
    /// `ponderhit` is written outside a Ponder search, or in one that is stopped.
    Hit,
    /// A `position` line cannot be read, or a move of it is not legal in its turn.
    Position,
    /// A move is shown that is not the answer of the search for a move that was answered last, or is not legal in its
    /// position, or after that answer was shown.
    Move,
}
