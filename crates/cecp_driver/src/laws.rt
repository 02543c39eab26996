// Laws of every list of calls: functions that do nothing, whose contracts are the laws.
ghost use Rattle.cecp_driver.specs.EngineGame.{SearchesTheOrdered};
ghost use Rattle.cecp_driver.specs.Runs.{HasOneScript, RunsAreSound};

/// Wherever `go` or `analyze` is written, the engine has the ordered game: the one that the lines before set up, with
/// each legal move by which the engine closed a search.
pub fn searches_are_on_the_ordered_game()
    ensures { SearchesTheOrdered }
{}

/// The output of a driver to the interface along every list of events: legal moves, one `bestmove` for a `go`, and
/// `bestmove 0000` only with a cause.
pub fn runs_are_sound()
    ensures { RunsAreSound }
{}

/// Some events have one script alone.
pub fn scripts_are_one()
    ensures { HasOneScript }
{}
