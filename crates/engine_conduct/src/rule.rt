// The sentences of UCI's description that an engine may break.

/// The rule that a line of the engine breaks, or its end (UCI, April 2006). A line that breaks several is blamed for the
/// first.
#[derive(Clone, Copy, PartialEq, Eq)]
pub enum ConductRule {
    /// A line does not have the form that its first word asks for: "id: name, author", "5 different types of options",
    /// "depth <x>", "cp <x>", "mate <y>", "long algebraic notation", "there must also be a depth present".
    Form,
    /// An answer to nothing: "After receiving the uci command", "when the engine has received an isready", "it should
    /// also just ignore it".
    Unasked,
    /// A report on a search, while none is due an answer: "should never start calculating or pondering without
    /// receiving a go command first".
    Late,
    /// An option that is declared after the start, or has a default that its type does not allow: "once at engine startup
    /// after the uci", "an integer in a certain range", "a predefined value", "either be true or false", "default false".
    Declared,
    /// An answer to a search that was to go on: "Do not exit the search without being told so in this mode!", "even if
    /// it's mate!".
    Infinite,
    /// A `bestmove` that is not legal where the engine searched: "found the move best in this position".
    Best,
    /// A line of moves that are not legal in their turn: "the best line found"; of a search that ponders on another move,
    /// "it should not display any mainlines".
    Pv,
    /// A move that was not to be searched: "restrict search to this moves only".
    SearchMoves,
    /// A move to ponder on that is not legal: "the move it likes to ponder on".
    Ponder,
    /// The engine ended while an answer was due: "should not quit alone", "for every go command a bestmove command is
    /// needed".
    Gone,
}

/// A line that breaks a rule, by its number.
#[derive(Clone, Copy, PartialEq, Eq)]
pub struct ConductFault {
    pub line: u64,
    pub rule: ConductRule,
}
