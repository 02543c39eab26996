// When a game is over.
ghost use Rattle.std.specs.Prelude.{◌≡◌};
ghost use Rattle.line_io.specs.Event.{event_of};
ghost use Rattle.cecp_lines.specs.Reading.{message_or_fault};
ghost use Rattle.session_export.specs.Games.{asks_anew, begins_game, is_over};

use cecp_lines::{IfaceMsg, read_iface};
use game_record::Game;
use line_io::Event;

fn begins_game(line: &[u8]) -> bool
    ensures { result ≡ begins_game (message_or_fault line.now) }
{
    matches!(
        read_iface(line),
        Ok(IfaceMsg::New) | Ok(IfaceMsg::SetBoard(_))
    )
}

// True if the interface begins a game.
fn asks_anew(event: &Event) -> bool
    ensures { result ≡ asks_anew (event_of event.now) }
{
    match event {
        Event::Iface(line) => begins_game(line),
        _ => false,
    }
}

/// True if a game is over if this event leaves another.
pub fn is_over(before: &Game, event: &Event, after: &Game) -> bool
    ensures { result ≡ is_over before.now (event_of event.now) after.now }
{
    // The line is read again only if the game has no moves left.
    before.plies() > 0 && !(after.plies() > 0) && asks_anew(event)
}
