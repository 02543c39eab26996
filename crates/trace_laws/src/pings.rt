// Pings of lawful traces.
ghost use Rattle.trace_laws.specs.Pings.{NoneIsHeld, PingsHavePongs, PongsWait};

use policy_rules::Settings;

/// A law: each accepted ping gets one pong, in order, or is still held; no pong is written while a Move is owed, and
/// otherwise no ping is held in an open session.
pub fn pings_get_pongs(settings: Settings)
    ensures pongs { PingsHavePongs settings }
    ensures wait { PongsWait settings }
    ensures held { NoneIsHeld settings }
{
    let _ = settings;
}
