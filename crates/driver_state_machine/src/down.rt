// Lines to the engine.
ghost use Rattle.std.specs.Prelude.{◌≡◌, ◌+◌, ◌≤◌, ◌∷◌, ◌++◌, [], length, decimal};
ghost use Rattle.line_io.specs.Out.{with};
ghost use Rattle.chess_board.specs.Text.{text_of_move, IsOfficer};
ghost use Rattle.driver_state_machine.specs.Lines.{option_answer_text, driver_move_text};
ghost use Rattle.line_io.specs.Lines.{line_feed};

use chess_board::{Move, write_move};
use itoa::Buffer;
use line_io::Out;

/// Writes a number of 20 digits at most.
pub(crate) fn put_count(n: u64, out: &mut Out)
    requires room { length out.old.text + 20 ≤ out.old.room }
    ensures text { out.new ≡ with out.old (decimal n) }
    ensures short { length out.new.text ≤ length out.old.text + 20 }
{
    let mut digits = Buffer::new();
    out.put(digits.format(n).as_bytes());
}

/// Writes a line.
pub fn write_word(word: &[u8], out: &mut Out)
    requires room { length out.old.text + length word.now + 1 ≤ out.old.room }
    ensures text { out.new ≡ with out.old (word.now ++ line_feed ∷ []) }
    ensures short { length out.new.text ≤ length out.old.text + length word.now + 1 }
{
    out.put(word);
    out.put(b"\n");
}

/// Writes a line with a number after a word.
pub fn write_numbered(word: &[u8], n: u64, out: &mut Out)
    requires room { length out.old.text + length word.now + 21 ≤ out.old.room }
    ensures text { out.new ≡ with out.old (word.now ++ decimal n ++ line_feed ∷ []) }
    ensures short { length out.new.text ≤ length out.old.text + length word.now + 21 }
{
    out.put(word);
    put_count(n, out);
    out.put(b"\n");
}

/// Writes a line of two pieces.
pub(crate) fn put_line(word: &[u8], text: &[u8], out: &mut Out)
    requires room { length out.old.text + length word.now + length text.now + 1 ≤ out.old.room }
    ensures text { out.new ≡ with out.old (word.now ++ text.now ++ line_feed ∷ []) }
    ensures short { length out.new.text
        ≤ length out.old.text + length word.now + length text.now + 1 }
{
    out.put(word);
    out.put(text);
    out.put(b"\n");
}

/// Writes a move, after `usermove` or alone.
pub fn write_moved(m: Move, has_usermove: bool, out: &mut Out)
    requires officer { IsOfficer m.promotion }
    requires room { length out.old.text + 15 ≤ out.old.room }
    ensures text { out.new ≡ with out.old (driver_move_text has_usermove (text_of_move m) ++
        line_feed ∷ []) }
    ensures short { length out.new.text ≤ length out.old.text + 15 }
{
    let text = write_move(m);
    if has_usermove {
        put_line(b"usermove ", text.as_slice(), out);
    } else {
        put_line(b"", text.as_slice(), out);
    }
}

/// Writes the answer to a feature.
pub fn write_answer(name: &[u8], is_rejected: bool, out: &mut Out)
    requires room { length out.old.text + length name.now + 10 ≤ out.old.room }
    ensures text { out.new ≡ with out.old (option_answer_text is_rejected name.now ++ line_feed ∷
        []) }
    ensures short { length out.new.text ≤ length out.old.text + length name.now + 10 }
{
    if is_rejected {
        out.put(b"rejected ");
    } else {
        out.put(b"accepted ");
    }
    out.put(name);
    out.put(b"\n");
}
