// The messages of the interface.

use chess_board::Move;

/// A message of the interface: a command of the Chess Engine Communication Protocol, version 2,
/// section "Commands from xboard to the engine".
#[derive(Clone, Copy)]
pub enum IfaceMsg<'a> {
    /// A line of white space alone.
    Blank,
    /// A command that asks for nothing here, as `accepted` or `ics`: the trimmed line.
    Ignored(&'a [u8]),
    New,
    Quit,
    Force,
    Go,
    PlayOther,
    /// The command `?`.
    MoveNow,
    Draw,
    Hint,
    Undo,
    Remove,
    Hard,
    Easy,
    Post,
    NoPost,
    Analyze,
    Exit,
    /// The command `.`.
    Dot,
    Result,
    /// The version of the protocol.
    Protover(u32),
    Ping(u32),
    /// The command `usermove`, or a move text alone.
    UserMove(Move),
    /// The command `setboard`: a text that is to be read as FEN.
    SetBoard(&'a [u8]),
    /// Moves a session (0 for the whole game), base time and increment, the times in milliseconds.
    Level {
        mps: u32,
        base_ms: u64,
        inc_ms: u64,
    },
    /// Milliseconds a move.
    St(u64),
    /// A limit of depth.
    Sd(u32),
    /// The engine's clock, in hundredths of a second.
    Time(i64),
    /// The opponent's clock, in hundredths of a second.
    Otim(i64),
    SetOption {
        name: &'a [u8],
        value: Option<&'a [u8]>,
    },
    /// Megabytes for tables.
    Memory(u32),
    Cores(u32),
    EgtPath {
        kind: &'a [u8],
        path: &'a [u8],
    },
}

/// Why a line is no message.
#[derive(Clone, Copy, Debug, PartialEq, Eq)]
pub enum IfaceFault {
    UnknownCommand,
    BadArgument,
}
