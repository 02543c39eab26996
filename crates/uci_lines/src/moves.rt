// Moves in the engine's lines.
ghost use Rattle.std.specs.Prelude.{◌≡◌, ◌∷◌, ◌<◌, ◌≤◌, [], length, MatchOption, IfSome};
ghost use Rattle.protocol_tokens.specs.Tokens.{tokens};
ghost use Rattle.chess_board.specs.Text.{IsOfficer};
ghost use Rattle.uci_lines.specs.Moves.{longest_move_run, after_run};

use chess_board::{Move, read_move};
use protocol_tokens::next_token;

/// The first token of a text, and the text after it, as `next_token`: most moves are four bytes before a blank.
fn next_text(text: &[u8]) -> Option<(&[u8], &[u8])>
    ensures first { MatchOption result (tokens text.now ≡ [])
        (λ p. tokens text.now ≡ p.0.now ∷ tokens p.1.now) }
    ensures shorter { IfSome result (λ p. length p.1.now < length text.now) }
{
    if let [a, b, c, d, b' ', others @ ..] = text {
        if *a > b' ' && *b > b' ' && *c > b' ' && *d > b' ' {
            return Some((&text[..4], others));
        }
    }
    next_token(text)
}

/// The first move of a text of moves, and the text after it. None if the text begins with no move.
pub fn next_move(text: &[u8]) -> Option<(Move, &[u8])>
    ensures first { MatchOption result (longest_move_run (tokens text.now) ≡ [])
        (λ p. longest_move_run (tokens text.now) ≡ p.0 ∷ longest_move_run (tokens p.1.now)) }
    ensures officer { IfSome result (λ p. IsOfficer p.0.promotion) }
    ensures shorter { IfSome result (λ p. length p.1.now < length text.now) }
{
    let (token, others) = next_text(text)?;
    Some((read_move(token)?, others))
}

/// The text after the move texts at the start of a text, as many as there are.
pub(crate) fn after_moves(text: &[u8]) -> &[u8]
    ensures others { tokens result.now ≡ after_run (tokens text.now) }
    ensures within { length result.now ≤ length text.now }
{
    let mut others = text;
    while let Some((token, after)) = next_text(others) {
        if read_move(token).is_none() {
            break;
        }
        others = after;
    }
    others
}
