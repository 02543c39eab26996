// All laws of lawful traces.
ghost use Rattle.trace_laws.specs.Laws.{HasLaws};

use policy_rules::Settings;

/// The laws of the lawful traces with these settings, all together, for the contracts of programs.
pub fn laws_hold(settings: Settings)
    ensures { HasLaws settings }
{
    let _ = settings;
}
