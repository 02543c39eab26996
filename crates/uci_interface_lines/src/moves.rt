// Moves that lead from a position to another.
ghost use Rattle.std.specs.Prelude.{◌≡◌, Some, true};
ghost use Rattle.protocol_tokens.specs.Tokens.{tokens};
ghost use Rattle.chess_board.specs.Place.{legal};
ghost use Rattle.chess_board.specs.Spelling.{move_spelled_by};
ghost use Rattle.uci_interface_lines.specs.Lines.{position_after_texts, position_after_spoken_move, played_if_legal};

use chess_board::{Move, Position, read_move};
use protocol_tokens::next_token;

fn play(at: &Position, m: Move) -> Position
    requires { legal at.now m ≡ true }
    ensures { result ≡ position_after_spoken_move at.now m }
{
    at.play(m)
}

/// The position after the move that a text spells, if it is legal.
fn play_text(at: &Position, text: &[u8]) -> Option<Position>
    ensures { result ≡ played_if_legal at.now (move_spelled_by text.now) }
{
    let m = read_move(text)?;
    if at.legal(m) { Some(play(at, m)) } else { None }
}

/// The position after the moves of a text, if each is legal in its turn.
pub fn play_all(start: Position, moves: &[u8]) -> Option<Position>
    ensures { result ≡ position_after_texts (tokens moves.now) (Some start) }
{
    let mut at = start;
    let mut others = moves;
    while let Some((text, behind)) = next_token(others) {
        at = play_text(&at, text)?;
        others = behind;
    }
    Some(at)
}
