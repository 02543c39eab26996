// Lines to the interface.
ghost use Rattle.std.specs.Prelude.{◌≡◌, ◌+◌, ◌≤◌, ◌∷◌, ◌++◌, [], length, IfSome, codes, decimal};
ghost use Rattle.std.specs.Fmt.{signed_decimal};
ghost use Rattle.line_io.specs.Out.{with};
ghost use Rattle.chess_board.specs.Text.{IsOfficer};
ghost use Rattle.driver_state_machine.specs.Lines.{bestmove_line_text, figures_text, info_text, name_or_usual, blanked_byte, blanked_text, id_text};
ghost use Rattle.line_io.specs.Lines.{line_feed};

use crate::Thought;
use crate::down::{put_count, put_line, write_word};
use chess_board::{Move, write_move};
use itoa::Buffer;
use line_io::Out;

fn put_signed(n: i64, out: &mut Out)
    requires room { length out.old.text + 21 ≤ out.old.room }
    ensures text { out.new ≡ with out.old (signed_decimal n) }
    ensures short { length out.new.text ≤ length out.old.text + 21 }
{
    let mut digits = Buffer::new();
    out.put(digits.format(n).as_bytes());
}

/// Writes `bestmove`, with `0000` if there is no move.
pub fn write_best(best: Option<Move>, out: &mut Out)
    requires officer { IfSome best (λ m. IsOfficer m.promotion) }
    requires room { length out.old.text + 15 ≤ out.old.room }
    ensures text { out.new ≡ with out.old (bestmove_line_text best ++ line_feed ∷ []) }
    ensures short { length out.new.text ≤ length out.old.text + 15 }
{
    match best {
        Some(m) => put_line(b"bestmove ", write_move(m).as_slice(), out),
        None => write_word(b"bestmove 0000", out),
    }
}

/// Writes the depth.
fn put_depth(n: u64, out: &mut Out)
    requires room { length out.old.text + 31 ≤ out.old.room }
    ensures text { out.new ≡ with out.old (codes "info depth " ++ decimal n) }
    ensures short { length out.new.text ≤ length out.old.text + 31 }
{
    out.put(b"info depth ");
    put_count(n, out);
}

/// Writes the score.
fn put_score(thought: &Thought, out: &mut Out)
    requires room { length out.old.text + 31 ≤ out.old.room }
    ensures text { out.new ≡ with out.old (codes " score cp " ++ signed_decimal thought.now.score) }
    ensures short { length out.new.text ≤ length out.old.text + 31 }
{
    out.put(b" score cp ");
    put_signed(thought.score, out);
}

/// Writes the time.
fn put_time(n: u64, out: &mut Out)
    requires room { length out.old.text + 26 ≤ out.old.room }
    ensures text { out.new ≡ with out.old (codes " time " ++ decimal n) }
    ensures short { length out.new.text ≤ length out.old.text + 26 }
{
    out.put(b" time ");
    put_count(n, out);
}

/// Writes the nodes.
fn put_nodes(n: u64, out: &mut Out)
    requires room { length out.old.text + 27 ≤ out.old.room }
    ensures text { out.new ≡ with out.old (codes " nodes " ++ decimal n) }
    ensures short { length out.new.text ≤ length out.old.text + 27 }
{
    out.put(b" nodes ");
    put_count(n, out);
}

/// Writes the figures of a thought.
fn put_figures(thought: &Thought, out: &mut Out)
    requires room { length out.old.text + 115 ≤ out.old.room }
    ensures text { out.new ≡ with out.old (figures_text thought.now) }
    ensures short { length out.new.text ≤ length out.old.text + 115 }
{
    put_depth(thought.depth, out);
    put_score(thought, out);
    put_time(thought.time, out);
    put_nodes(thought.nodes, out);
}

/// Writes `info`.
pub fn write_info(thought: &Thought, out: &mut Out)
    requires officer { IsOfficer thought.now.best.promotion }
    requires room { length out.old.text + 160 ≤ out.old.room }
    ensures text { out.new ≡ with out.old (info_text thought.now ++ line_feed ∷ []) }
    ensures short { length out.new.text ≤ length out.old.text + 160 }
{
    put_figures(thought, out);
    put_line(b" pv ", write_move(thought.best).as_slice(), out);
}

/// The control character behind the printable ones.
const DELETE: u8 = 127;

/// A control character as a blank.
fn blanked_byte(byte: u8) -> u8
    ensures { result ≡ blanked_byte byte }
{
    if byte < b' ' || byte == DELETE {
        b' '
    } else {
        byte
    }
}

/// Writes a text with a blank in place of each control character.
fn put_blanked(text: &[u8], out: &mut Out)
    requires room { length out.old.text + length text.now ≤ out.old.room }
    ensures text { out.new ≡ with out.old (blanked_text text.now) }
    ensures short { length out.new.text ≤ length out.old.text + length text.now }
{
    let mut rest = text;
    while let [byte, others @ ..] = rest {
        out.put(&[blanked_byte(*byte)]);
        rest = others;
    }
}

/// The engine's name, or one for an engine that has none.
fn name_or_usual(name: &[u8]) -> &[u8]
    ensures name { result.now ≡ name_or_usual name.now }
    ensures short { length result.now ≤ length name.now + 11 }
{
    if name.is_empty() {
        b"CECP engine"
    } else {
        name
    }
}

/// Writes `id name`, with a name of the driver's own if the engine has none, and without control characters.
pub fn write_id(name: &[u8], out: &mut Out)
    requires room { length out.old.text + length name.now + 20 ≤ out.old.room }
    ensures text { out.new ≡ with out.old (id_text name.now ++ line_feed ∷ []) }
    ensures short { length out.new.text ≤ length out.old.text + length name.now + 20 }
{
    out.put(b"id name ");
    put_blanked(name_or_usual(name), out);
    out.put(b"\n");
}
