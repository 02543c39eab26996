// The meaning of a `position` line.
ghost use Rattle.std.specs.Prelude.{◌≡◌, ◌↔◌, Some};
ghost use Rattle.std.specs.Option.{option_map};
ghost use Rattle.protocol_tokens.specs.Tokens.{tokens};
ghost use Rattle.uci_interface_lines.specs.Lines.{Line, if_right, line_in_variant, position_in_fields, position_line_by, position_line_in, start_position_by, variant_start};
ghost use Rattle.uci_interface_lines.specs.Views.{spoken_line};
ghost use Rattle.uci_interface_lines.specs.Speaks.{SaysPosition, SaysPositionBy};

use crate::line::Spoken;
use crate::moves::play_all;
use crate::words::{behind_first, split_at_moves};
use chess_board::{Position, Variant};
use fen_text::read_fen_by;
use protocol_tokens::next_token;

fn variant_start(variant: Variant) -> Position
    ensures { result ≡ variant_start variant }
{
    match variant {
        Variant::Normal => Position::start(),
        Variant::Fischer => Position::fischer_start(),
    }
}

/// The position of these fields, if they spell one.
fn read_fields(variant: Variant, text: &[u8]) -> Option<Position>
    ensures { result ≡ if_right (position_in_fields variant (tokens text.now)) }
{
    match read_fen_by(variant, text) {
        Ok(position) => Some(position),
        Err(_) => None,
    }
}

/// The start: `startpos` alone, or `fen` and a position.
fn read_start(variant: Variant, text: &[u8]) -> Option<Position>
    ensures { result ≡ start_position_by variant (tokens text.now) }
{
    let (word, others) = next_token(text)?;
    if word == b"startpos".as_slice() {
        match next_token(others) {
            None => Some(variant_start(variant)),
            Some(_) => None,
        }
    } else if word == b"fen".as_slice() {
        read_fields(variant, others)
    } else {
        None
    }
}

fn read_behind(variant: Variant, text: &[u8]) -> Option<Spoken<'_>>
    ensures { option_map spoken_line result ≡ line_in_variant variant (tokens text.now) }
{
    let (first, moves) = split_at_moves(text);
    let start = read_start(variant, first)?;
    let end = play_all(start, moves)?;
    Some(Spoken { start, moves, end })
}

#[tactic(auto, unfolding(crate::specs::Lines::position_line_by))]
fn line_said(variant: Variant, line: &[u8]) -> Option<Spoken<'_>>
    ensures { option_map spoken_line result ≡ position_line_by variant line.now }
{
    read_behind(variant, behind_first(line))
}

/// The rest behind the first token of a line, which should be `position`, by the rules of a variant: the start, which
/// is `startpos` or `fen` and a position that `read_fen_by` accepts, and then nothing, or `moves` and moves that are legal
/// in their turn. None if anything else is there.
pub fn spoken_by(variant: Variant, line: &[u8]) -> Option<Spoken<'_>>
    ensures value { option_map spoken_line result ≡ position_line_by variant line.now }
    // The reading is what the line says.
    ensures exact { (said : Line)
        → (option_map spoken_line result ≡ Some said) ↔ SaysPositionBy variant line.now said }
{
    line_said(variant, line)
}

/// The same in normal chess.
pub fn spoken(line: &[u8]) -> Option<Spoken<'_>>
    ensures value { option_map spoken_line result ≡ position_line_in line.now }
    // The reading is what the line says.
    ensures exact { (said : Line)
        → (option_map spoken_line result ≡ Some said) ↔ SaysPosition line.now said }
{
    spoken_by(Variant::Normal, line)
}
