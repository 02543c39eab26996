// The marks of a step.
ghost use Rattle.std.specs.Prelude.{◌≡◌, ◌+◌, ◌*◌, ◌<◌, ◌≤◌, ◌^◌, [], ◌∷◌, ◌++◌, length};
ghost use Rattle.line_io.specs.Event.{event_of};
ghost use Rattle.script_lines.specs.Marks.{line_marked, event_marked};
ghost use Rattle.line_io.specs.Out.{with};
ghost use Rattle.script_lines.specs.StepLine.{step_number_line};
ghost use Rattle.script_lines.specs.StepText.{lines_marked, numbered_marks, marks_of_written, written_marks};
ghost use Rattle.script_lines.specs.declared.step_text.TheConstants.{STEP_ROOM};
ghost use Rattle.line_io.specs.Lines.{line_feed};
ghost use Rattle.line_io.specs.declared.limits.TheConstants.{PEER_LINE, SCRIPT_LINE};

use crate::{Mark, write_mark_line, write_step};
use line_io::{Event, Out, SCRIPT_LINE, split_line};

/// Room for the text of any step.
pub const STEP_ROOM: usize = 16 * SCRIPT_LINE;

fn put_line(letter: u8, line: &[u8], out: &mut Out)
    requires { length out.old.text + length line.now + 3 ≤ out.old.room }
    ensures { out.new ≡ with out.old (line_marked letter line.now) }
{
    out.put(&[letter, b' ']);
    out.put(line);
    out.put(b"\n");
}

// Puts the lines of a text, each after the letter of its mark.
fn put_lines(letter: u8, text: &[u8], out: &mut Out)
    requires { length out.old.text + 4 * length text.now ≤ out.old.room }
    ensures written { out.new ≡ with out.old (lines_marked letter text.now) }
    ensures room { length out.new.text ≤ length out.old.text + 4 * length text.now }
{
    let mut rest = text;
    while !rest.is_empty() {
        let (line, after) = split_line(rest);
        put_line(letter, line, out);
        rest = after;
    }
}

/// Puts the marks of the lines in the texts that a step wrote to the interface and to the engine.
pub fn put_written(iface: &[u8], engine: &[u8], out: &mut Out)
    requires { length out.old.text + 4 * length iface.now + 4 * length engine.now ≤ out.old.room }
    ensures written { out.new ≡ with out.old (written_marks iface.now engine.now) }
{
    put_lines(b'X', iface, out);
    put_lines(b'U', engine, out);
}

fn put_step_line(number: u64, out: &mut Out)
    requires number { number < 10 ^ 18 }
    requires room { length out.old.text + 21 ≤ out.old.room }
    ensures written { out.new ≡ with out.old (step_number_line number ++ line_feed ∷ []) }
    ensures few { length out.new.text ≤ length out.old.text + 21 }
{
    write_step(number, out);
    out.put(b"\n");
}

fn put_marks(event: &Event, iface: &[u8], engine: &[u8], out: &mut Out)
    requires mark { length (event_marked (event_of event.now)) ≤ PEER_LINE + 3 }
    requires iface { length iface.now ≤ SCRIPT_LINE }
    requires engine { length engine.now ≤ SCRIPT_LINE }
    requires room { length out.old.text + (PEER_LINE + 3 + 8 * SCRIPT_LINE) ≤ out.old.room }
    ensures { out.new ≡ with out.old (marks_of_written (event_of event.now) iface.now engine.now) }
{
    write_mark_line(&Mark::Event(*event), out);
    put_written(iface, engine, out);
}

/// Puts the marks of a step: that of its event, and those of the lines in the texts that it wrote
/// to the interface and to the engine.
pub fn put_step(event: &Event, iface: &[u8], engine: &[u8], out: &mut Out)
    requires mark { length (event_marked (event_of event.now)) ≤ PEER_LINE + 3 }
    requires iface { length iface.now ≤ SCRIPT_LINE }
    requires engine { length engine.now ≤ SCRIPT_LINE }
    requires room { length out.old.text + STEP_ROOM ≤ out.old.room }
    ensures written { out.new
        ≡ with out.old (marks_of_written (event_of event.now) iface.now engine.now) }
{
    put_marks(event, iface, engine, out);
}

/// Puts a step of a script with a header: the line with its number, and its marks.
pub fn put_numbered_step(number: u64, event: &Event, iface: &[u8], engine: &[u8], out: &mut Out)
    requires number { number < 10 ^ 18 }
    requires mark { length (event_marked (event_of event.now)) ≤ PEER_LINE + 3 }
    requires iface { length iface.now ≤ SCRIPT_LINE }
    requires engine { length engine.now ≤ SCRIPT_LINE }
    requires room { length out.old.text + STEP_ROOM ≤ out.old.room }
    ensures written { out.new
        ≡ with out.old (numbered_marks number (event_of event.now) iface.now engine.now) }
{
    put_step_line(number, out);
    put_marks(event, iface, engine, out);
}
