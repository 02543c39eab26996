// The command `migrate`.
ghost use Rattle.std.specs.Prelude.{◌≡◌};
ghost use Rattle.replay_command_base.specs.Diagnostics.{command_status};
ghost use Rattle.replay_command_base.specs.Streams.{filter_streams};
ghost use Rattle.policy_rules.specs.SettingRules.Policy.{IsProper};
ghost use Rattle.replay_commands_without_core.specs.Migrated.{Migrated};

use crate::migration::Migration;
use line_io::{Sink, Source};
use policy_rules::Settings;
use replay_command_base::{Ending, run_filter};
use std::alloc::Global;

/// Writes the script of version 1 in the input as one with a header, of these settings, and reports
/// how that ended. No core runs: the script need not be lawful.
pub fn migrate<I: Source, O: Sink, D: Sink>(
    alloc: Global,
    settings: &Settings,
    input: &mut I,
    output: &mut O,
    diag: &mut D,
) -> Ending
    requires { IsProper settings.now }
    ensures { Migrated settings.now (input.new ≡ input.old) (output.new ≡ output.old)
        (filter_streams (I.state input.old) (O.state output.old) (D.state diag.old))
        (filter_streams (I.state input.new) (O.state output.new) (D.state diag.new))
        (command_status result) }
{
    run_filter(alloc, Migration::new(settings), input, output, diag)
}
