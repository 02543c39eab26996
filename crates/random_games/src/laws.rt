//! Laws about the definitions that contracts cite, each a clause of a function that does nothing.
ghost use Rattle.random_games.specs.Alike.{DrillsAreOne};

/// A drill of a number and a count has one line.
pub fn drills_are_one()
    ensures { DrillsAreOne }
{}
