// The position that the interface orders.
ghost use Rattle.std.specs.Prelude.{◌≡◌, Some, None, is_some};
ghost use Rattle.std.specs.Bool.{OnTrue, OnFalse};
ghost use Rattle.std.specs.Option.{unwrap_or};
ghost use Rattle.protocol_tokens.specs.Tokens.{tokens};
ghost use Rattle.chess_board.specs.Play.{start_position};
ghost use Rattle.chess_board.specs.Spelling.{move_spelled_by};
ghost use Rattle.game_record.specs.Game.{game_from};
ghost use Rattle.cecp_driver.specs.Ordered.{push_one, game_after_texts, game_ordered_in};

use chess_board::{Position, read_move};
use game_record::Game;
use protocol_tokens::next_token;
use uci_interface_lines::spoken;

/// Plays the move that a text names. False if it may not be played.
fn push_text(text: &[u8], game: &mut Game) -> bool
    ensures played { OnTrue result (push_one game.old (move_spelled_by text.now) ≡ Some game.new) }
    ensures not { OnFalse result (push_one game.old (move_spelled_by text.now) ≡ None) }
{
    game.facts();
    match read_move(text) {
        Some(m) => game.try_play(m).is_ok(),
        None => false,
    }
}

/// Plays the moves that the tokens of a text name. False if one may not be played.
fn push_all(moves: &[u8], game: &mut Game) -> bool
    ensures played { OnTrue result (game_after_texts (tokens moves.now) (Some game.old)
        ≡ Some game.new) }
    ensures not { OnFalse result (game_after_texts (tokens moves.now) (Some game.old) ≡ None) }
{
    let mut others = moves;
    while let Some((token, after)) = next_token(others) {
        if !push_text(token, game) {
            return false;
        }
        others = after;
    }
    true
}

/// Sets a game to what a `position` line orders. False if it orders none; the game is a new one then.
pub(crate) fn take_position(line: &[u8], game: &mut Game) -> bool
    ensures there { result ≡ is_some (game_ordered_in line.now) }
    ensures game { game.new ≡ unwrap_or (game_ordered_in line.now) (game_from start_position) }
{
    if let Some(said) = spoken(line) {
        game.reset(said.start);
        if push_all(said.moves, game) {
            return true;
        }
    }
    game.reset(Position::start());
    false
}
