// The line of the game that is searched in.
ghost use Rattle.std.specs.Prelude.{◌≡◌, IfSome};
ghost use Rattle.uci_lines.specs.Spells.{begins_white};
ghost use Rattle.uci_interface_lines.specs.Lines.{position_line_in};
ghost use Rattle.session_judge.specs.DialogueEvents.{end_of};
ghost use Rattle.session_judge.specs.Played.{LineExtends, LineGoesOn, LeadsTo};

use chess_board::Position;
use protocol_tokens::{is_white, next_token};
use std::alloc::Global;
use std::marker::Model;
use uci_interface_lines::{play_all, spoken};

/// The last `position` line that has moves, and the position to which it leads, so that of a line which only adds moves
/// to it no more than these are played. It changes no answer: without memory for a line all its moves are played.
#[derive(Drop)]
pub(crate) struct PlayedLine {
    line: Vec<u8>,
    end: Option<Position>,
}

impl Model for PlayedLine {
    ghost use Rattle.std.specs.Prelude.{⊤, IfSome};
    ghost use Rattle.session_judge.specs.Played.{LeadsTo};

    ghost Value = { ⊤ };

    ghost view = { λ p. tt };

    ghost invariant = { λ p. IfSome p.end (λ at. LeadsTo p.line.items at) };
}

fn begins_white(text: &[u8]) -> bool
    ensures { result ≡ begins_white text.now }
{
    match text.first() {
        Some(byte) => is_white(*byte),
        None => true,
    }
}

// The part that a line adds to a known one, if it begins with it.
fn added<'a>(known: &[u8], line: &'a [u8]) -> Option<&'a [u8]>
    ensures { IfSome result (λ more. LineExtends known.now line.now more.now) }
{
    let more = line.strip_prefix(known)?;
    if begins_white(more) { Some(more) } else { None }
}

// The position to which a known line leads, and what another line adds to it.
fn goes_on<'a>(known: &[u8], end: Option<Position>, line: &'a [u8]) -> Option<(Position, &'a [u8])>
    requires { IfSome end (λ at. LeadsTo known.now at) }
    ensures { IfSome result (λ p. LineGoesOn line.now p.0 p.1.now) }
{
    match (end, added(known, line)) {
        (Some(at), Some(more)) => Some((at, more)),
        _ => None,
    }
}

// Keeps a line and the position to which it leads, unless there is no memory.
fn keep(kept: &mut Vec<u8>, line: &[u8], end: Position) -> Option<Position>
    requires { LeadsTo line.now end }
    ensures { IfSome result (λ at. LeadsTo kept.new.items at) }
{
    kept.clear();
    match kept.extend_from_slice(line) {
        Ok(()) => Some(end),
        Err(_) => None,
    }
}

// The position to which a line leads that adds this to one which leads to another.
fn play_more(line: &[u8], at: Position, more: &[u8], kept: &mut PlayedLine) -> Option<Position>
    requires { LineGoesOn line.now at more.now }
    ensures { result ≡ end_of (position_line_in line.now) }
{
    let end = play_all(at, more)?;
    kept.keep(line, end);
    Some(end)
}

// The position to which the moves of a line lead from its start; it is kept if there are some.
fn play_whole(line: &[u8], kept: &mut PlayedLine) -> Option<Position>
    ensures { result ≡ end_of (position_line_in line.now) }
{
    match spoken(line) {
        Some(said) => {
            if next_token(said.moves).is_some() {
                kept.keep(line, said.end);
            }
            Some(said.end)
        }
        None => None,
    }
}

impl PlayedLine {
    pub(crate) fn new(alloc: Global) -> PlayedLine {
        PlayedLine {
            line: Vec::new(alloc),
            end: None,
        }
    }

    fn keep(&mut self, line: &[u8], end: Position)
        requires { LeadsTo line.now end }
    {
        self.end = keep(&mut self.line, line, end);
    }

    fn known<'a>(&self, line: &'a [u8]) -> Option<(Position, &'a [u8])>
        ensures { IfSome result (λ p. LineGoesOn line.now p.0 p.1.now) }
    {
        goes_on(self.line.as_slice(), self.end, line)
    }

    /// The position to which a `position` line leads.
    pub(crate) fn end_of(&mut self, line: &[u8]) -> Option<Position>
        ensures { result ≡ end_of (position_line_in line.now) }
    {
        match self.known(line) {
            Some((at, more)) => play_more(line, at, more, self),
            None => play_whole(line, self),
        }
    }
}
