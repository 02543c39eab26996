// Settings of lawful traces.
ghost use Rattle.trace_laws.specs.Values.{LastAskedStands, SearchesHaveSettings};

use policy_rules::Settings;

/// A law: the last value that was asked for an option is the last that was written, or is held; if a search is
/// begun it was written.
pub fn last_settings_stand(settings: Settings)
    ensures stand { LastAskedStands settings }
    ensures searches { SearchesHaveSettings settings }
{
    let _ = settings;
}
