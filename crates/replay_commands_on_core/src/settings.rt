// The arguments of settings.
ghost use Rattle.std.specs.Prelude.{◌≡◌, IfSome};
ghost use Rattle.policy_rules.specs.SettingRules.Policy.{IsProper};
ghost use Rattle.replay_commands_on_core.specs.Commands.{argument_bytes};
ghost use Rattle.replay_commands_on_core.specs.Words.{has_name, settings_of};

use policy_rules::{Settings, name_in, read_choice};

// True if one of the words has this name.
fn has_name(arguments: &[Vec<u8>], name: &[u8]) -> bool
    ensures { result ≡ has_name name.now (argument_bytes arguments.now) }
{
    let mut rest = arguments;
    while let [word, others @ ..] = rest {
        if name_in(word.as_slice()) == name {
            return true;
        }
        rest = others;
    }
    false
}

/// The settings that the arguments give: a name that is not given has its usual value.
pub fn read_settings(arguments: &[Vec<u8>]) -> Option<Settings>
    ensures value { result ≡ settings_of (argument_bytes arguments.now) }
    ensures proper { IfSome result (λ settings. IsProper settings) }
{
    let mut settings = Settings::usual();
    let mut rest = arguments;
    while let [word, others @ ..] = rest {
        if has_name(others, name_in(word.as_slice())) {
            return None;
        }
        settings = settings.with(read_choice(word.as_slice())?);
        rest = others;
    }
    Some(settings)
}
