// Marks: the lines of a script.
ghost use Rattle.std.specs.Prelude.{◌≡◌, ◌+◌, ◌++◌, ◌≤◌, length, Some, IfOk, OnErr};
ghost use Rattle.line_io.specs.Event.{is_line};
ghost use Rattle.script_lines.specs.Marks.{IsMarkSpelled, SpellsMark, SpellsNone, is_written, iface_event, engine_event, event_if_read, plain_mark, mark_if_read, mark_spelled, mark_text, line_end, mark_line};
ghost use Rattle.line_io.specs.Out.{with};

use line_io::{Event, Out, PEER_LINE, SCRIPT_LINE};

/// A line that spells no mark.
#[derive(Clone, Copy, Debug)]
pub struct BadMark;

/// The meaning of a line of a script: what happened, or a line that was written to a peer.
///
/// A mark is a letter, one blank and a line, or a letter and a sign: `x LINE`, `u LINE` for a line
/// of the interface, of the engine; `x!`, `u!` for a long one, `x.`, `u.` for the end of its input,
/// `x?`, `u?` for a write to it that failed; `X LINE`, `U LINE` for a line written to it.
#[derive(Clone, Copy)]
pub enum Mark<'a> {
    Event(Event<'a>),
    ToIface(&'a [u8]),
    ToEngine(&'a [u8]),
}

// A line that a peer may send.
fn is_line(line: &[u8]) -> bool
    ensures { result ≡ is_line line.now }
{
    line.len() <= PEER_LINE && !line.contains(&b'\n')
}

// A line that was written, and whose mark is a line of a script.
fn is_written(line: &[u8]) -> bool
    ensures { result ≡ is_written line.now }
{
    line.len() <= SCRIPT_LINE - 2 && !line.contains(&b'\n')
}

fn iface_event(sign: u8, rest: &[u8]) -> Option<Event<'_>>
    ensures { event_if_read result ≡ iface_event sign rest.now }
{
    match sign {
        b' ' if is_line(rest) => Some(Event::Iface(rest)),
        b'!' if rest.is_empty() => Some(Event::IfaceLong),
        b'.' if rest.is_empty() => Some(Event::IfaceEnd),
        b'?' if rest.is_empty() => Some(Event::IfaceLost),
        _ => None,
    }
}

fn engine_event(sign: u8, rest: &[u8]) -> Option<Event<'_>>
    ensures { event_if_read result ≡ engine_event sign rest.now }
{
    match sign {
        b' ' if is_line(rest) => Some(Event::Engine(rest)),
        b'!' if rest.is_empty() => Some(Event::EngineLong),
        b'.' if rest.is_empty() => Some(Event::EngineEnd),
        b'?' if rest.is_empty() => Some(Event::EngineLost),
        _ => None,
    }
}

/// The mark that a line spells, without its line feed.
pub fn read_mark(line: &[u8]) -> Result<Mark<'_>, BadMark>
    ensures exact { mark_if_read result ≡ mark_spelled line.now }
    ensures spelled { IfOk result (λ mark. SpellsMark line.now (plain_mark mark)) }
    ensures bad { OnErr result (SpellsNone line.now) }
{
    mark_in(line)
}

fn mark_in(line: &[u8]) -> Result<Mark<'_>, BadMark>
    ensures { mark_if_read result ≡ mark_spelled line.now }
{
    let [letter, sign, rest @ ..] = line else {
        return Err(BadMark);
    };
    match *letter {
        b'x' => iface_event(*sign, rest).map(Mark::Event).ok_or(BadMark),
        b'u' => engine_event(*sign, rest).map(Mark::Event).ok_or(BadMark),
        b'X' if *sign == b' ' && is_written(rest) => Ok(Mark::ToIface(rest)),
        b'U' if *sign == b' ' && is_written(rest) => Ok(Mark::ToEngine(rest)),
        _ => Err(BadMark),
    }
}

/// Writes the text of a mark, without a line feed. `Open` has none.
pub fn write_mark(mark: &Mark, out: &mut Out)
    requires { length out.old.text + length (mark_text (plain_mark mark.now)) ≤ out.old.room }
    ensures written { out.new ≡ with out.old (mark_text (plain_mark mark.now)) }
    // The text written of a mark that some line spells is read again.
    ensures again { IsMarkSpelled (plain_mark mark.now)
        → mark_spelled (mark_text (plain_mark mark.now)) ≡ Some (plain_mark mark.now) }
{
    put_text(mark, out);
}

fn put_text(mark: &Mark, out: &mut Out)
    requires { length out.old.text + length (mark_text (plain_mark mark.now)) ≤ out.old.room }
    ensures { out.new ≡ with out.old (mark_text (plain_mark mark.now)) }
{
    match mark {
        Mark::Event(Event::Open) => {}
        Mark::Event(Event::Iface(line)) => put_line(b"x ", line, out),
        Mark::Event(Event::IfaceLong) => out.put(b"x!"),
        Mark::Event(Event::IfaceEnd) => out.put(b"x."),
        Mark::Event(Event::IfaceLost) => out.put(b"x?"),
        Mark::Event(Event::Engine(line)) => put_line(b"u ", line, out),
        Mark::Event(Event::EngineLong) => out.put(b"u!"),
        Mark::Event(Event::EngineEnd) => out.put(b"u."),
        Mark::Event(Event::EngineLost) => out.put(b"u?"),
        Mark::ToIface(line) => put_line(b"X ", line, out),
        Mark::ToEngine(line) => put_line(b"U ", line, out),
    }
}

// The bytes behind a mark's text in a script.
fn line_end(mark: &Mark) -> &'static [u8]
    ensures { result.now ≡ line_end (plain_mark mark.now) }
{
    match mark {
        Mark::Event(Event::Open) => b"",
        _ => b"\n",
    }
}

/// Writes a mark as a line of a script: its text and a line feed. `Open` has no line.
pub fn write_mark_line(mark: &Mark, out: &mut Out)
    requires { length out.old.text + length (mark_line (plain_mark mark.now)) ≤ out.old.room }
    ensures written { out.new ≡ with out.old (mark_line (plain_mark mark.now)) }
{
    write_mark(mark, out);
    out.put(line_end(mark));
}

fn put_line(prefix: &[u8], line: &[u8], out: &mut Out)
    requires { length out.old.text + length prefix.now + length line.now ≤ out.old.room }
    ensures { out.new ≡ with out.old (prefix.now ++ line.now) }
{
    out.put(prefix);
    out.put(line);
}
