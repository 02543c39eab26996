// Results that the contract of a run excludes.
ghost use Rattle.bridge_runner.specs.Laws.{BridgeLogIsNotEmpty, BridgeLogIsNotLonger};

/// A law: over a host that reports its bytes a run in which nothing failed leaves no empty log, and
/// none with a byte after its script.
pub fn logs_are_whole()
    ensures not_empty { BridgeLogIsNotEmpty }
    ensures not_longer { BridgeLogIsNotLonger }
{}
