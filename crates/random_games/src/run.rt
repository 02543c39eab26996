// A whole drill.
ghost use Rattle.std.specs.Prelude.{◌≡◌, ◌≤◌, ◌+◌, decimal, length, IfOk};
ghost use Rattle.line_io.specs.Out.{with, empty};
ghost use Rattle.fen_text.specs.Written.{position_fen};
ghost use Rattle.random_games.specs.Played.{Drills};
ghost use Rattle.random_games.specs.Tally.{drill_report_line};
ghost use Rattle.random_games.specs.declared.run.TheConstants.{LINE_ROOM, MOST_ROUNDS};

use crate::round::Drill;
use crate::tally::Tally;
use chess_board::Position;
use fen_text::write_fen;
use itoa::Buffer;
use line_io::{NoMemory, Out};
use std::alloc::Global;

// The line of a drill.
const LINE_ROOM: usize = 400;

/// The most rounds of a drill.
pub const MOST_ROUNDS: u32 = 100_000;

fn put_number(number: u64, words: &[u8], out: &mut Out)
    requires { length out.old.text + 20 + length words.now ≤ out.old.room }
    ensures text { out.new ≡ with (with out.old (decimal number)) words.now }
    ensures few { length out.new.text ≤ length out.old.text + 20 + length words.now }
{
    let mut digits = Buffer::new();
    out.put(digits.format(number).as_bytes());
    out.put(words);
}

// Puts the line of a drill.
fn put_line(number: u32, count: u32, tally: Tally, position: &Position, out: &mut Out)
    requires { out.old ≡ empty LINE_ROOM }
    ensures { out.new.text ≡ drill_report_line number count tally (position_fen position.now) }
{
    out.put(b"drill ");
    put_number(u64::from(number), b" ", out);
    put_number(u64::from(count), b": ", out);
    put_number(tally.steps.saturating_sub(1), b" events, ", out);
    put_number(tally.to_iface, b" lines to the interface, ", out);
    put_number(tally.to_engine, b" lines to the engine, ", out);
    put_number(tally.shown, b" moves shown, ", out);
    out.put(write_fen(position).as_slice());
    out.put(b"\n");
}

/// Plays the drill of a number with so many rounds, and gives its line, with its line feed.
pub fn drill_line(alloc: Global, number: u32, count: u32) -> Result<Out, NoMemory>
    requires { count ≤ MOST_ROUNDS }
    ensures { IfOk result (λ line. Drills number count line.text) }
{
    let mut line = Out::make(alloc, LINE_ROOM)?;
    let mut drill = Drill::make(alloc, number)?;
    drill.session.greet();
    drill.session.prepare();
    drill.play_rounds(count);
    drill.session.close();
    let tally = drill.session.tally();
    put_line(number, count, tally, drill.game.now(), &mut line);
    Ok(line)
}
