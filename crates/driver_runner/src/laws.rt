// Results that the contract of a run excludes.
ghost use Rattle.driver_runner.specs.Laws.{DriverLogIsNotEmpty, DriverLogIsNotLonger};

/// A law: over a host that reports its bytes a run in which nothing failed leaves no empty log, and
/// none with a byte after its script.
pub fn logs_are_whole()
    ensures not_empty { DriverLogIsNotEmpty }
    ensures not_longer { DriverLogIsNotLonger }
{}
