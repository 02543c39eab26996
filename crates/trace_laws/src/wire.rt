// The engine as the wire shows it.
ghost use Rattle.trace_laws.specs.Wire.{EndsAreOnWire, EngineIsOnWire, GoLineFollowsPosition};
ghost use Rattle.trace_laws.specs.Wire.{GoneEngineGetsNoLine, IdleEngineGetsLines, PonderGetsHitLine, SearchGetsStopLine};

use policy_rules::Settings;

/// A law: the state of the engine is a fold of the orders that were written and of what the engine's lines say, and
/// so is which sides have ended of the events. The desk has no say in either.
pub fn engine_on_wire(settings: Settings)
    ensures engine { EngineIsOnWire settings }
    ensures ends { EndsAreOnWire settings }
{
    let _ = settings;
}

/// A law: in a lawful trace settings, `isready`, `position` and `go` reach only an engine that is idle on the wire,
/// `stop` an open search that is not stopped, `ponderhit` an open Ponder search that is not stopped, and nothing
/// reaches a gone engine. Each `go` comes directly after a `position`.
pub fn order_places(settings: Settings)
    ensures idle { IdleEngineGetsLines settings }
    ensures stop { SearchGetsStopLine settings }
    ensures hit { PonderGetsHitLine settings }
    ensures gone { GoneEngineGetsNoLine settings }
    ensures paired { GoLineFollowsPosition settings }
{
    let _ = settings;
}
