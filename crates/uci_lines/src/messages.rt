// The messages of an engine.
use chess_board::Move;

/// The message in a line of the engine (UCI, "Engine to GUI").
#[derive(Clone, Copy)]
pub enum EngineMsg<'a> {
    /// `id name` and a text.
    Name(&'a [u8]),
    UciOk,
    ReadyOk,
    /// `bestmove`: the move, and the one on which the engine would ponder, each if it is a move text.
    Best {
        best: Option<Move>,
        hint: Option<Move>,
    },
    OptionLine(OptionMsg<'a>),
    Info(Info<'a>),
    /// Any other line.
    Nothing,
}

/// An option that the engine declares.
#[derive(Clone, Copy)]
pub struct OptionMsg<'a> {
    pub name: &'a [u8],
    pub kind: OptionKind<'a>,
}

/// The kind of an option, with what it is by default.
#[derive(Clone, Copy)]
pub enum OptionKind<'a> {
    Check { on: bool },
    Spin { default: i64, min: i64, max: i64 },
    /// The values stand in the text after `combo`, from which `next_value` reads them.
    Combo { default: &'a [u8], values: &'a [u8] },
    Button,
    /// `string`; `<empty>` is the empty text.
    Text { default: &'a [u8] },
}

/// The engine's report on its search. Times are in milliseconds.
#[derive(Clone, Copy)]
pub struct Info<'a> {
    pub depth: Option<u64>,
    pub time: Option<u64>,
    pub nodes: Option<u64>,
    pub multipv: Option<u64>,
    /// `currmovenumber`.
    pub number: Option<u64>,
    pub score: Option<Score>,
    /// True if the score is a lower or upper bound.
    pub bound: bool,
    /// `currmove`.
    pub current: Option<Move>,
    /// The text that begins with the moves of the engine's line: `next_move` reads them one by one.
    pub pv: &'a [u8],
}

/// A score in hundredths of a pawn, or in moves to mate, from the engine's point of view.
#[derive(Clone, Copy, PartialEq, Eq)]
pub enum Score {
    /// In hundredths of a pawn: above 0 if the engine is better.
    Cp(i64),
    /// In moves to mate: 0 or below if the engine is mated.
    Mate(i64),
}
