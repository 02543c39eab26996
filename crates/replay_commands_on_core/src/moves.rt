// The command `moves`.
ghost use Rattle.std.specs.Prelude.{◌≡◌, ◌+◌, ◌*◌, ◌≤◌, length, IfOk, Contains};
ghost use Rattle.line_io.specs.Out.{empty, with};
ghost use Rattle.chess_board.specs.declared.board.Move.{Move as AnyMove};
ghost use Rattle.chess_board.specs.Text.{IsOfficer, text_of_move};
ghost use Rattle.fen_text.specs.Fen.{position_of};
ghost use Rattle.replay_commands_on_core.specs.Commands.{argument_bytes};
ghost use Rattle.replay_command_base.specs.Diagnostics.{command_status, one_line};
ghost use Rattle.replay_commands_on_core.specs.Moves.{Lists, WritesMoves, fen_argument, move_lines};
ghost use Rattle.replay_commands_on_core.specs.declared.moves.TheConstants.{LINES_ROOM};

use chess_board::{Move, Position, move_texts_are_exact, move_texts_are_short, write_move};
use fen_text::read_fen;
use line_io::{NoMemory, Out, Sink};
use replay_command_base::{Ending, report_without_buffer, write_lines};
use std::alloc::Global;

// A position has at most 512 legal moves, each of at most five bytes and a line feed.
const LINES_ROOM: usize = 3_072;

// The words with a blank between each two.
fn join_arguments(alloc: Global, arguments: &[Vec<u8>]) -> Result<Vec<u8>, NoMemory>
    ensures { IfOk result (λ text. text.items ≡ fen_argument (argument_bytes arguments.now)) }
{
    let [first, rest @ ..] = arguments else {
        return Ok(Vec::new(alloc));
    };
    let mut text = Vec::from_slice(alloc, first.as_slice())?;
    add_arguments(rest, &mut text)?;
    Ok(text)
}

ghost use Rattle.std.specs.Prelude.{◌++◌};
ghost use Rattle.replay_commands_on_core.specs.Moves.{behind_blanks};

// Adds each word after a blank.
fn add_arguments(arguments: &[Vec<u8>], text: &mut Vec<u8>) -> Result<(), NoMemory>
    ensures { IfOk result (λ _. text.new.items ≡ text.old.items ++ behind_blanks
        (argument_bytes arguments.now)) }
{
    for word in arguments {
        text.push(b' ')?;
        text.extend_from_slice(word.as_slice())?;
    }
    Ok(())
}

// Puts the text of a move, and a line feed.
fn put_line(m: Move, out: &mut Out)
    requires officer { IsOfficer m.promotion }
    requires room { length out.old.text + 6 ≤ out.old.room }
    ensures put { out.new ≡ with out.old (one_line (text_of_move m)) }
    ensures few { length out.new.text ≤ length out.old.text + 6 }
{
    move_texts_are_short(m);
    out.put(write_move(m).as_slice());
    out.put(b"\n");
}

// Puts the texts of moves, one a line.
fn put_moves(moves: &[Move], out: &mut Out)
    requires officers { (m : AnyMove) → Contains moves.now m → IsOfficer m.promotion }
    requires room { length out.old.text + length moves.now * 6 ≤ out.old.room }
    ensures { out.new ≡ with out.old (move_lines moves.now) }
{
    for m in moves {
        put_line(*m, out);
    }
}

// A text that may spell a position, and room for the lines of its moves.
#[derive(Drop)]
struct Listing {
    fen: Vec<u8>,
    lines: Out,
}

impl Listing {
    // Takes all memory that is ever used.
    fn make(alloc: Global, arguments: &[Vec<u8>]) -> Result<Listing, NoMemory>
        ensures { IfOk result (λ listing. (listing.fen.items ≡ fen_argument (argument_bytes
            arguments.now))
            × (listing.lines ≡ empty LINES_ROOM)) }
    {
        Ok(Listing {
            fen: join_arguments(alloc, arguments)?,
            lines: Out::make(alloc, LINES_ROOM)?,
        })
    }

    // Writes the legal moves of a position.
    fn write_moves<O: Sink, D: Sink>(
        &mut self,
        position: &Position,
        output: &mut O,
        diag: &mut D,
    ) -> Ending
        requires { self.old.lines ≡ empty LINES_ROOM }
        ensures { WritesMoves position.now (diag.new ≡ diag.old) (command_status result)
            (O.state output.old) (O.state output.new) (D.state diag.old) (D.state diag.new) }
    {
        let moves = position.moves();
        move_texts_are_exact();
        put_moves(moves.as_slice(), &mut self.lines);
        write_lines(self.lines.bytes(), output, diag)
    }

    // Writes the legal moves of the position that the text spells, or reports its fault.
    fn list<O: Sink, D: Sink>(&mut self, output: &mut O, diag: &mut D) -> Ending
        requires { self.old.lines ≡ empty LINES_ROOM }
        ensures { Lists (position_of self.old.fen.items)
            (output.new ≡ output.old) (diag.new ≡ diag.old) (command_status result)
            (O.state output.old) (O.state output.new) (D.state diag.old) (D.state diag.new) }
    {
        match read_fen(self.fen.as_slice()) {
            Err(fault) => report_without_buffer(Ending::NoPosition(fault), diag),
            Ok(position) => self.write_moves(&position, output, diag),
        }
    }
}

/// Lists the legal moves of the position that these arguments spell, one a line.
pub fn list_moves<O: Sink, D: Sink>(
    alloc: Global,
    arguments: &[Vec<u8>],
    output: &mut O,
    diag: &mut D,
) -> Ending
    ensures { Lists (position_of (fen_argument (argument_bytes arguments.now)))
        (output.new ≡ output.old) (diag.new ≡ diag.old) (command_status result)
        (O.state output.old) (O.state output.new) (D.state diag.old) (D.state diag.new) }
{
    match Listing::make(alloc, arguments) {
        Err(_) => report_without_buffer(Ending::NoMemory, diag),
        Ok(mut listing) => listing.list(output, diag),
    }
}
