// The traces that there are, and what stands for them.
ghost use Rattle.trace_laws.specs.Existence.{EventsMayCome, TracesExist};
ghost use Rattle.trace_laws.specs.Limits.{CoresAreWithinLimits};

use policy_rules::Settings;

/// A law: for each list of events that may come there is a lawful trace with them, and the events of a lawful
/// trace may come. So "lawful" forbids no event and is never empty.
pub fn traces_exist(settings: Settings)
    ensures exist { TracesExist settings }
    ensures events { EventsMayCome settings }
{
    let _ = settings;
}

/// A law: a core that stands for a lawful trace holds at most 256 orders of 65,536 bytes and 64 pings, and its open
/// current search is of the kind that is called for.
pub fn cores_within_limits(settings: Settings)
    ensures limits { CoresAreWithinLimits settings }
{
    let _ = settings;
}
