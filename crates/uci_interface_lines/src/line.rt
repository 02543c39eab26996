// A `position` line.
use chess_board::Position;

/// The meaning of a `position` line: the position before the moves; the bytes after the token `moves`, trimmed, empty
/// if there is none; the position after all moves.
#[derive(Clone, Copy)]
pub struct Spoken<'a> {
    pub start: Position,
    pub moves: &'a [u8],
    pub end: Position,
}
