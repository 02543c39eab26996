//! The script of a session: what happened and what was written, line by line.
#![tactic(auto)]

ghost use Rattle.trace_scripts.specs.OneWay.{HasOneSession, HasOneTrace};

use adapter_core::one_dialogue;
use policy_rules::Settings;

/// A law: a script is read back in one way only. One of version 1 has one trace under the
/// settings; one of version 2 or 3 has one trace, and states its settings.
pub fn scripts_have_one_trace(settings: Settings)
    ensures version_1 { HasOneTrace settings }
    ensures version_2 { HasOneSession settings }
{
    one_dialogue(settings);
}
