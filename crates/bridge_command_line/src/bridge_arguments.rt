// The command of the bridge, and its arguments.
ghost use Rattle.std.specs.Prelude.{◌≡◌, true, false, IfOk};
ghost use Rattle.clap.specs.Words.{app_of, rule_of};
ghost use Rattle.bridge_command_line.specs.BridgeCommand.{bridge, bare_bridge, with_all_options, bridge_engine_rule, arg_rule};

use crate::{log_file, with_arg, with_policy};
use clap::{Arg, ArgAction, Command};
use std::alloc::{AllocError, Global};

fn engine<'a>(alloc: Global) -> Arg<'a>
    ensures rule { rule_of result ≡ bridge_engine_rule }
    ensures local { result.global ≡ false }
{
    Arg::new(alloc, "ENGINE").required(true)
}

fn args<'a>(alloc: Global) -> Arg<'a>
    ensures rule { rule_of result ≡ arg_rule }
    ensures local { result.global ≡ false }
{
    Arg::new(alloc, "ARG")
        .action(ArgAction::Append)
        .num_args(..)
}

// The command without its arguments, and without flags for help and version.
fn bare_command<'a>(alloc: Global) -> Command<'a>
    ensures { app_of result ≡ bare_bridge }
{
    Command::new(alloc, "bridge")
        .no_binary_name(true)
        .disable_help_flag(true)
        .disable_version_flag(true)
}

// The command with the options.
fn with_options<'a>(alloc: Global) -> Result<Command<'a>, AllocError>
    ensures { IfOk result (λ c. app_of c ≡ with_all_options) }
{
    let command = with_policy(alloc, bare_command(alloc))?;
    with_arg(command, log_file(alloc, "adapter.log"))
}

/// The command of the bridge.
pub(crate) fn bridge_command<'a>(alloc: Global) -> Result<Command<'a>, AllocError>
    ensures { IfOk result (λ c. app_of c ≡ bridge) }
{
    let command = with_options(alloc)?;
    let command = with_arg(command, engine(alloc))?;
    with_arg(command, args(alloc))
}
