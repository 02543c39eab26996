// Laws on the log of a lawful trace, as the judge reads it.
ghost use Rattle.judge_and_driver_laws.specs.Judge.Logs.{LogsAreClean, NoOrderCrosses, SearchesTheDesk};
ghost use Rattle.judge_and_driver_laws.specs.Judge.Scripts.{Scripts1AreClean, Scripts2AreClean};
ghost use Rattle.judge_and_driver_laws.specs.Judge.Tapped.{AllTapsAreClean};

use policy_rules::Settings;

/// A law: in the log of a lawful trace no mark breaks a rule of the dialogue with the engine, no order crosses a line of the
/// engine, and the position that an open current search was given is the desk's, with the hint if it ponders.
pub fn logs_are_clean(settings: Settings)
    ensures clean { LogsAreClean settings }
    ensures apart { NoOrderCrosses settings }
    ensures position { SearchesTheDesk settings }
{
    let _ = settings;
}

/// A law: no mark of the script of a lawful trace breaks a rule, in version 1 and in version 2.
pub fn scripts_are_clean(settings: Settings)
    ensures version_1 { Scripts1AreClean settings }
    ensures version_2 { Scripts2AreClean settings }
{
    let _ = settings;
}

/// A law: in the log of a tap beside a lawful trace no mark breaks a rule, whatever the settings are. The tap may have heard a
/// line of the engine before an order that the bridge wrote before it read the line: an answer only before `stop`, `ponderhit`
/// and `quit`.
pub fn taps_are_clean()
    ensures { AllTapsAreClean }
{}
