// The parts of the line of a game, each with a blank after it.
ghost use Rattle.std.specs.Prelude.{◌≡◌, ◌+◌, ◌*◌, ◌≤◌, ◌++◌, ◌∷◌, [], length, decimal};
ghost use Rattle.line_io.specs.Out.{with};
ghost use Rattle.chess_board.specs.Laws.{IsLegal};
ghost use Rattle.game_record.specs.Game.{ply_of, plies_of, AreLegal};
ghost use Rattle.san_text.specs.GameSan.{san_of_ply};
ghost use Rattle.san_text.specs.GameText.{move_number_by, first_number_by, move_parts, result_text_by, spaced_parts};
ghost use Rattle.chess_board.specs.Play.{top_count};

use crate::write_san;
use chess_board::{Move, Position, Side};
use game_record::GameEnd;
use itoa::Buffer;
use line_io::Out;

// A number, what stands after it, and a blank.
fn put_number(number: u32, behind: &[u8], out: &mut Out)
    requires small { number ≤ top_count }
    requires behind { length behind.now ≤ 3 }
    requires room { length out.old.text + 9 ≤ out.old.room }
    ensures text { out.new ≡ with out.old (spaced_parts ((decimal number ++ behind.now) ∷ [])) }
    ensures few { length out.new.text ≤ length out.old.text + 6 + length behind.now }
{
    let mut digits = Buffer::new();
    out.put(digits.format(number).as_bytes());
    out.put(behind);
    out.put(b" ");
}

/// Puts what stands before a move by its side: its number, if White plays it.
fn put_place(at: &Position, out: &mut Out)
    requires room { length out.old.text + 9 ≤ out.old.room }
    ensures text { out.new ≡ with out.old (spaced_parts (move_number_by at.now.side at.now.full)) }
    ensures few { length out.new.text ≤ length out.old.text + 7 }
{
    at.facts();
    match at.side() {
        Side::White => put_number(at.full(), b".", out),
        Side::Black => {}
    }
}

/// Puts what stands before the first move of a game, if Black plays it.
pub fn put_beginning(start: &Position, out: &mut Out)
    requires room { length out.old.text + 9 ≤ out.old.room }
    ensures text { out.new
        ≡ with out.old (spaced_parts (first_number_by start.now.side start.now.full)) }
    ensures few { length out.new.text ≤ length out.old.text + 9 }
{
    start.facts();
    match start.side() {
        Side::White => {}
        Side::Black => put_number(start.full(), b"...", out),
    }
}

// A move after its number.
fn put_move(at: &Position, m: Move, out: &mut Out)
    requires legal { IsLegal at.now m.from.index m.to.index m.promotion }
    requires room { length out.old.text + 17 ≤ out.old.room }
    ensures text { out.new ≡ with out.old
        (spaced_parts (move_number_by at.now.side at.now.full ++ san_of_ply at.now (ply_of m) ∷
        [])) }
    ensures few { length out.new.text ≤ length out.old.text + 15 }
{
    put_place(at, out);
    out.put(write_san(at, m).as_slice());
    out.put(b" ");
}

/// Puts the moves of a game from a position on.
pub fn put_moves(start: &Position, moves: &[Move], out: &mut Out)
    requires legal { AreLegal start.now (plies_of moves.now) }
    requires room { length out.old.text + 15 * length moves.now + 2 ≤ out.old.room }
    ensures text { out.new
        ≡ with out.old (spaced_parts (move_parts start.now (plies_of moves.now))) }
    ensures few { length out.new.text ≤ length out.old.text + 15 * length moves.now }
{
    let mut at = *start;
    for m in moves {
        put_move(&at, *m, out);
        at = at.play(*m);
    }
}

/// The result of a game that has ended so, or has not, if this side is on move.
pub fn result_text(side: Side, ended: Option<GameEnd>) -> &'static [u8]
    ensures text { result.now ≡ result_text_by side ended }
    ensures short { length result.now ≤ 7 }
{
    match (side, ended) {
        (_, None) => b"*",
        (Side::White, Some(GameEnd::Mate)) => b"0-1",
        (Side::Black, Some(GameEnd::Mate)) => b"1-0",
        (_, Some(_)) => b"1/2-1/2",
    }
}
