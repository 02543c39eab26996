// Writing a game.
ghost use Rattle.std.specs.Prelude.{◌≡◌, ◌+◌, ◌≤◌, length};
ghost use Rattle.line_io.specs.Out.{with};
ghost use Rattle.san_text.specs.GameText.{tag_of, game_text};
ghost use Rattle.san_text.specs.declared.game.TheConstants.{GAME_ROOM};

use crate::game_parts::{put_beginning, put_moves, result_text};
use chess_board::Position;
use fen_text::write_fen;
use game_record::{Game, MOST_PLIES};
use line_io::Out;

/// No text of a game is longer: 15 bytes for each of at most 12,000 moves, and 120 for the rest.
pub const GAME_ROOM: usize = 15 * MOST_PLIES + 120;

fn put_tag(start: &Position, out: &mut Out)
    requires { length out.old.text + 102 ≤ out.old.room }
    ensures text { out.new ≡ with out.old (tag_of start.now) }
    ensures few { length out.new.text ≤ length out.old.text + 102 }
{
    if start.is_standard() {
        return;
    }
    start.facts();
    out.put(b"[FEN \"");
    out.put(write_fen(start).as_slice());
    out.put(b"\"]\n");
}

/// Writes a game: first the line `[FEN "F"]`, unless it begins at the standard start with the counts 0
/// and 1, and then a line with the moves, the numbers and the result, with one blank between them.
///
/// `N.` stands before each move of White, and `N...` before the first move if Black plays it. The
/// result is `1-0`, `0-1`, `1/2-1/2`, or `*` if the game has not ended.
pub fn write_game(game: &Game, out: &mut Out)
    requires { length out.old.text + GAME_ROOM ≤ out.old.room }
    ensures text { out.new ≡ with out.old (game_text game.now) }
    ensures few { length out.new.text ≤ length out.old.text + GAME_ROOM }
{
    game.facts();
    put_tag(game.start(), out);
    put_beginning(game.start(), out);
    put_moves(game.start(), game.moves(), out);
    out.put(result_text(game.now().side(), game.ended()));
    out.put(b"\n");
}
