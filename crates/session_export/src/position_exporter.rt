// The export of a session: its positions.
ghost use Rattle.std.specs.Prelude.{◌≡◌, ◌+◌, ◌≤◌, ◌∷◌, ◌++◌, [], length, decimal};
ghost use Rattle.line_io.specs.Lines.{line_feed};
ghost use Rattle.line_io.specs.Out.{with};
ghost use Rattle.protocol_tokens.specs.Bytes.{blank};

use crate::{SessionWriter, StepExporter};
use arrayvec::ArrayVec;
use fen_text::write_fen;
use game_record::Game;
use itoa::Buffer;
use line_io::{Event, NoMemory, Out};
use replay_command_base::Ending;
use std::alloc::Global;

/// A session whose positions are written.
pub type PositionWriter = SessionWriter<PositionExporter>;

/// The text of a position.
type Fen = ArrayVec<u8, 96>;

/// The text of the last position of a session, if there was one.
#[derive(Drop)]
pub struct PositionExporter {
    last: Option<Fen>,
}

/// The line of a position has at most so many bytes.
const POSITION_ROOM: usize = 138;

// Puts the line of a position.
fn put_position(number: u64, fen: &Fen, text: &mut Out)
    requires room { length text.old.text + POSITION_ROOM ≤ text.old.room }
    ensures put { text.new ≡ with text.old
        (decimal number ++ blank ∷ (fen.now.items ++ line_feed ∷ [])) }
    ensures few { length text.new.text ≤ length text.old.text + POSITION_ROOM }
{
    let mut digits = Buffer::new();
    text.put(digits.format(number).as_bytes());
    text.put(b" ");
    text.put(fen.as_slice());
    text.put(b"\n");
}

impl PositionExporter {
    ghost use Rattle.session_export.specs.PositionExports.{is_last};

    // True if this is the text of the last position.
    fn is_last(&self, fen: &Fen) -> bool
        ensures { result ≡ is_last self.now fen.now.items }
    {
        match &self.last {
            Some(last) => last.as_slice() == fen.as_slice(),
            None => false,
        }
    }
}

impl StepExporter for PositionExporter {
    ghost use Rattle.session_export.specs.PositionExports.{exports_positions};

    ghost means = { exports_positions };

    fn make(_alloc: Global) -> Result<PositionExporter, NoMemory> {
        Ok(PositionExporter { last: None })
    }

    fn put_step_text(&mut self, number: u64, _event: &Event, game: &Game, text: &mut Out) {
        let now = write_fen(game.now());
        if !self.is_last(&now) {
            put_position(number, &now, text);
        }
        self.last = Some(now);
    }

    fn finish(&self, _ending: Ending, _text: &mut Out) {}
}
