// The replies to the interface.

use chess_board::{Move, Side};

/// Why a line was refused.
#[derive(Clone, Copy, PartialEq, Eq)]
pub enum Reason {
    UnknownCommand,
    BadArgument,
    EngineEnded,
    NotAnalyzing,
    NoMoveToUndo,
    UnknownOption,
    BadValue,
    TooManySettings,
    TooManyPings,
    LineTooLong,
}

/// An error that the user is to see.
#[derive(Clone, Copy, PartialEq, Eq)]
pub enum UserError {
    /// A position that is none.
    Position,
    /// An illegal move by the engine.
    Move,
    /// The engine ended.
    Ended,
}

/// The outcome of a game.
#[derive(Clone, Copy, PartialEq, Eq)]
pub enum Outcome {
    WhiteMates,
    BlackMates,
    Stalemate,
    Dead,
    Repetition,
    Fifty,
}

/// How the engine has lost a game, if not on the board and not by resigning.
#[derive(Clone, Copy, PartialEq, Eq)]
pub enum Loss<'a> {
    /// Its answer is no legal move. The answer is quoted if it can be.
    IllegalMove(Option<&'a [u8]>),
    /// It ended.
    Ended,
}

/// The spelling of the moves of a thinking line.
#[derive(Clone, Copy, Debug, PartialEq, Eq)]
pub enum Spelling {
    /// By their squares: `g1f3`, `a7a8q`.
    Coordinates,
    /// In standard algebraic notation: `Nf3`, `a8=Q+`.
    San,
}

/// A line for the interface: Chess Engine Communication Protocol, version 2, section "Commands from
/// the engine to xboard". The thinking line and `stat01` are those of its sections "Thinking
/// Output" and "Analyze Mode".
#[derive(Clone, Copy, PartialEq, Eq)]
pub enum Reply<'a> {
    /// A feature and its value, with the quotes if it has some.
    Feature {
        name: &'a [u8],
        value: &'a [u8],
    },
    Move(Move),
    Illegal(Move),
    /// A move that would make the game too long.
    IllegalLong(Move),
    /// A refusal of the trimmed line.
    Error {
        reason: Reason,
        line: &'a [u8],
    },
    TellError(UserError),
    Pong(u32),
    OfferDraw,
    Resign,
    /// The engine, which plays this side, has lost.
    Lost {
        side: Side,
        loss: Loss<'a>,
    },
    Hint(Move),
    Result(Outcome),
    /// Depth in plies, score in hundredths of a pawn, time in hundredths of a second, nodes, the
    /// move that is pondered on, and one or more moves with one blank between. All moves have one spelling.
    Thinking {
        depth: u64,
        score: i64,
        time: u64,
        nodes: u64,
        spelling: Spelling,
        hint: Option<&'a [u8]>,
        pv: &'a [u8],
    },
    /// Time in hundredths of a second, nodes, depth, how many moves are left and how many there
    /// are, and the move that is searched.
    Stat01 {
        time: u64,
        nodes: u64,
        depth: u64,
        left: u64,
        all: u64,
        current: Option<Move>,
    },
}
