// Laws on the lines that a driver writes to its engine.
ghost use Rattle.judge_and_driver_laws.specs.Driver.Runs.{HearsTheOrdered};
ghost use Rattle.judge_and_driver_laws.specs.Driver.Wire.{LinesAreCecp};

/// The text of each line to the engine is one line, and spells the message that the line is, and this message does to each
/// game what the line does to the engine's.
pub fn lines_are_cecp()
    ensures { LinesAreCecp }
{}

/// Along every list of events each line to the engine spells a message, and at each `go` and `analyze` a bridge that takes
/// these lines as an interface's, and the engine's own moves as `usermove`, has the ordered game, whatever its settings are.
pub fn engines_hear_the_ordered()
    ensures { HearsTheOrdered }
{}
