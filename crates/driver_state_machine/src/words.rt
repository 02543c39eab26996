// The words of a driver.

use chess_board::Move;
use protocol_tokens::GoKind;

/// The times and the depth of a `go` order (UCI, "go"). Times are in milliseconds.
#[derive(Clone, Copy, PartialEq, Eq)]
pub struct GoClocks {
    pub wtime: u64,
    pub btime: u64,
    pub winc: u64,
    pub binc: u64,
    /// The time of the move, in place of the clocks.
    pub movetime: Option<u64>,
    /// Moves to the next time control, 0 if the time is for the whole game.
    pub movestogo: u64,
    /// In plies, 0 if there is no limit.
    pub depth: u64,
}

/// The report of a thinking line: depth in plies, score in hundredths of a pawn, time in milliseconds, nodes, and
/// the first move of the line.
#[derive(Clone, Copy, PartialEq, Eq)]
pub struct Thought {
    pub depth: u64,
    pub score: i64,
    pub time: u64,
    pub nodes: u64,
    pub best: Move,
}

/// The next step once an engine that left analysis has answered the `ping` after `exit`.
#[derive(Clone, Copy)]
pub enum AfterAnalysis {
    /// The search is answered.
    Answer,
    /// The engine is set to think on its move.
    Play,
}

/// The phase of a search.
#[derive(Clone, Copy)]
pub enum Phase {
    /// The engine was set to think on its move, and perhaps to move at once.
    Thinks { at_once: bool },
    /// The engine was set to analyse.
    Analyses,
    /// An analysis of which the engine knows nothing: it cannot analyse, or there is no move.
    Rests,
    /// The engine is to leave analysis, and to answer a `ping` then.
    Leaves(AfterAnalysis),
    /// The engine is set to think, and perhaps to move at once, once it has answered an earlier `ping`.
    WaitsToThink { at_once: bool },
    /// The engine is set to analyse once it has answered an earlier `ping`, and perhaps to leave at once.
    WaitsToAnalyse(Option<AfterAnalysis>),
}

/// An open search: a `go` that was not answered.
#[derive(Clone, Copy)]
pub struct OpenSearch {
    /// The kind of its `go`.
    pub kind: GoKind,
    pub clocks: GoClocks,
    /// The best move so far: the first legal one, until the engine reports another. None if there is no legal move.
    pub kept: Option<Move>,
    pub phase: Phase,
}

/// The message that is passed up to the interface.
#[derive(Clone, Copy, PartialEq, Eq)]
pub enum ToIface {
    Nothing,
    /// `readyok`
    Ready,
    /// `bestmove`, with `0000` if there is no move.
    Best(Option<Move>),
    /// `info`
    Info(Thought),
}

/// The message that is written to the engine.
#[derive(Clone, Copy, PartialEq, Eq)]
pub enum ToEngine {
    Nothing,
    /// `xboard`, `protover 2`
    Greeting,
    /// `quit`
    Quit,
    /// The position is set up, the clocks are set, and the engine is set to think, and perhaps to move at once.
    Play { clocks: GoClocks, at_once: bool },
    /// The clocks are set, and the engine is set to think.
    Resume { clocks: GoClocks },
    /// The position is set up for this search, and the engine is set to analyse; and perhaps to leave, with the
    /// `ping` of this number.
    Analyse { clocks: GoClocks, ping: Option<u32> },
    /// `?`
    OrderMoveNow,
    /// `exit`, and the `ping` of this number.
    Leave { ping: u32 },
    /// `force`, and the `ping` of this number.
    Retreat { ping: u32 },
}

/// The change of the game that is known of the engine, besides what is set up.
#[derive(Clone, Copy, PartialEq, Eq)]
pub enum BoardChange {
    Same,
    /// The engine played a move.
    Moved(Move),
    /// Nothing is known of it any more.
    Lost,
}

/// The effect of a call.
#[derive(Clone, Copy, PartialEq, Eq)]
pub struct DriverAction {
    pub up: ToIface,
    pub down: ToEngine,
    pub board: BoardChange,
}
