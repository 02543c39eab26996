// Results that the contract of a run excludes.
ghost use Rattle.tap_runner.specs.Laws.{TapLogIsNotEmpty, TapLogIsNotLonger};

/// A law: over a host that reports its bytes a run in which nothing failed leaves no empty log, and
/// none with a byte after its marks.
pub fn logs_are_whole()
    ensures not_empty { TapLogIsNotEmpty }
    ensures not_longer { TapLogIsNotLonger }
{}
