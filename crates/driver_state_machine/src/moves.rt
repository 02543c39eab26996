// The moves that a CECP engine names.
ghost use Rattle.std.specs.Prelude.{◌≡◌, Some, None, MatchOption};
ghost use Rattle.protocol_tokens.specs.Tokens.{tokens};
ghost use Rattle.driver_state_machine.specs.Moves.{coordinates, WritesEngineMove, WritesNone, EngineMoveIs, IsThought, IsFirstMove};

use chess_board::{Move, Position, read_move};
use protocol_tokens::next_token;
use san_text::{read_long_form, read_san};

/// The legal move that a text names by its squares.
fn read_legal(at: &Position, text: &[u8]) -> Option<Move>
    ensures { result ≡ coordinates at.now text.now }
{
    let m = read_move(text)?;
    if at.legal(m) { Some(m) } else { None }
}

/// The legal move that a text is in standard algebraic notation, or else in long algebraic form.
fn written_move(at: &Position, text: &[u8]) -> Option<Move>
    ensures { MatchOption result (WritesNone at.now text.now) (WritesEngineMove at.now text.now) }
{
    match read_san(at, text) {
        Ok(m) => Some(m),
        Err(_) => read_long_form(at, text),
    }
}

/// The legal move that a text names: by its squares, or else in standard algebraic notation, or else in long algebraic
/// form. None if there is none.
pub fn shown_move(at: &Position, text: &[u8]) -> Option<Move>
    ensures { EngineMoveIs at.now text.now result }
{
    match read_legal(at, text) {
        Some(m) => Some(m),
        None => written_move(at, text),
    }
}

/// The first legal move that the tokens of a text name.
pub fn thought_move(at: &Position, text: &[u8]) -> Option<Move>
    ensures { IsThought at.now (tokens text.now) result }
{
    let mut others = text;
    while let Some((token, after)) = next_token(others) {
        if let Some(m) = shown_move(at, token) {
            return Some(m);
        }
        others = after;
    }
    None
}

/// The first legal move in the order of their texts.
pub fn first_move(at: &Position) -> Option<Move>
    ensures { IsFirstMove at.now result }
{
    match at.moves().as_slice() {
        [first, ..] => Some(*first),
        [] => None,
    }
}
