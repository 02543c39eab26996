// The command, and its arguments.
ghost use Rattle.std.specs.Prelude.{◌≡◌, true, false, IfOk};
ghost use Rattle.clap.specs.Words.{app_of, rule_of};
ghost use Rattle.bridge_command_line.specs.WineravineCommand.{wineravine, bare_wineravine, with_new_settings, with_names, early_settings_rule, resign_when_gone_rule, handle_draws_rule, show_san_rule, strength_options_rule, fence_stops_rule, result_reasons_rule, time_margin_rule, plain_texts_rule, path_options_rule, repeat_thinking_rule, log_dir_rule, set_option_rule, wineravine_engine_rule};

use crate::arguments::{and_arg, option};
use crate::{flag_option, log_file, with_arg, with_policy};
use clap::builder::ValueParser;
use clap::{Arg, ArgAction, Command};
use policy_rules::MOST_MARGIN;
use program_command_line::VERSION;
use std::alloc::{AllocError, Global};

fn early_settings<'a>(alloc: Global) -> Arg<'a>
    ensures rule { rule_of result ≡ early_settings_rule }
    ensures local { result.global ≡ false }
{
    let help = "Whether settings that come before the engine's options wait for them";
    flag_option(alloc, "EarlySettings", "true", help)
}

fn resign_when_gone<'a>(alloc: Global) -> Arg<'a>
    ensures rule { rule_of result ≡ resign_when_gone_rule }
    ensures local { result.global ≡ false }
{
    let help = "Whether an engine that is gone resigns the game in which it owes a move";
    flag_option(alloc, "ResignWhenGone", "true", help)
}

fn handle_draws<'a>(alloc: Global) -> Arg<'a>
    ensures rule { rule_of result ≡ handle_draws_rule }
    ensures local { result.global ≡ false }
{
    let help = "Whether an offer of a draw is answered, by the last scores";
    flag_option(alloc, "HandleDraws", "true", help)
}

fn show_san<'a>(alloc: Global) -> Arg<'a>
    ensures rule { rule_of result ≡ show_san_rule }
    ensures local { result.global ≡ false }
{
    let help = "Whether thinking lines have Nf3 and not g1f3";
    flag_option(alloc, "ShowSan", "true", help)
}

fn strength_options<'a>(alloc: Global) -> Arg<'a>
    ensures rule { rule_of result ≡ strength_options_rule }
    ensures local { result.global ≡ false }
{
    let help = "Whether the options that limit the engine's strength are shown";
    flag_option(alloc, "StrengthOptions", "true", help)
}

fn fence_stops<'a>(alloc: Global) -> Arg<'a>
    ensures rule { rule_of result ≡ fence_stops_rule }
    ensures local { result.global ≡ false }
{
    let help = "Whether a search waits until the engine has read the stop before it";
    flag_option(alloc, "FenceStops", "true", help)
}

fn result_reasons<'a>(alloc: Global) -> Arg<'a>
    ensures rule { rule_of result ≡ result_reasons_rule }
    ensures local { result.global ≡ false }
{
    let help = "Whether the result of a game that the engine loses by a fault says which";
    flag_option(alloc, "ResultReasons", "true", help)
}

fn time_margin<'a>(alloc: Global) -> Arg<'a>
    ensures rule { rule_of result ≡ time_margin_rule }
    ensures local { result.global ≡ false }
{
    let help = "What is kept back of a fixed time for a move, 0 to 10000";
    option(alloc, "TimeMargin", "20", "milliseconds", help).value_parser(ValueParser::unsigned(
        0,
        u64::from(MOST_MARGIN),
    ))
}

fn plain_texts<'a>(alloc: Global) -> Arg<'a>
    ensures rule { rule_of result ≡ plain_texts_rule }
    ensures local { result.global ≡ false }
{
    let help =
        "Whether options with control characters are left out, and the name has blanks for them";
    flag_option(alloc, "PlainTexts", "true", help)
}

fn path_options<'a>(alloc: Global) -> Arg<'a>
    ensures rule { rule_of result ≡ path_options_rule }
    ensures local { result.global ≡ false }
{
    let help = "Whether options for paths and files are shown as such";
    flag_option(alloc, "PathOptions", "true", help)
}

fn repeat_thinking<'a>(alloc: Global) -> Arg<'a>
    ensures rule { rule_of result ≡ repeat_thinking_rule }
    ensures local { result.global ≡ false }
{
    let help = "Whether the last thinking line is shown again once the expected move is played";
    flag_option(alloc, "RepeatThinking", "true", help)
}

fn log_dir<'a>(alloc: Global) -> Arg<'a>
    ensures rule { rule_of result ≡ log_dir_rule }
    ensures local { result.global ≡ false }
{
    Arg::new(alloc, "LogDir")
        .long("LogDir")
        .value_parser(ValueParser::NonEmptyString)
        .value_name("folder")
        .help("The folder of the logs, in which each run makes a new one, in place of --LogFile")
}

fn set_option<'a>(alloc: Global) -> Arg<'a>
    ensures rule { rule_of result ≡ set_option_rule }
    ensures local { result.global ≡ false }
{
    Arg::new(alloc, "Option")
        .long("Option")
        .action(ArgAction::Append)
        .value_name("name=value")
        .help("Sets an option of the engine, or presses a button if there is no =; may be repeated")
}

fn engine<'a>(alloc: Global) -> Arg<'a>
    ensures rule { rule_of result ≡ wineravine_engine_rule }
    ensures local { result.global ≡ false }
{
    Arg::new(alloc, "ENGINE")
        .required(true)
        .action(ArgAction::Append)
        .num_args(1..)
        .trailing_var_arg(true)
        .help_heading("Engine")
        .help("The engine's program, and all of its arguments behind it")
}

// The command without its arguments.
fn bare_command<'a>(alloc: Global) -> Command<'a>
    ensures { app_of result ≡ bare_wineravine }
{
    Command::new(alloc, "wineravine")
        .no_binary_name(true)
        .version(VERSION)
        .about("A UCI chess engine under an interface of the XBoard family")
        .override_usage("wineravine [SETTINGS] ENGINE [ARG..]")
        .next_help_heading("Settings")
}

// The command with the settings that `bridge` has no arguments for.
fn with_new<'a>(alloc: Global, command: Command<'a>) -> Result<Command<'a>, AllocError>
    ensures { IfOk result (λ c. app_of c ≡ with_new_settings (app_of command.entry)) }
{
    let command = with_arg(command, early_settings(alloc));
    let command = and_arg(command, resign_when_gone(alloc));
    let command = and_arg(command, handle_draws(alloc));
    let command = and_arg(command, show_san(alloc));
    let command = and_arg(command, strength_options(alloc));
    let command = and_arg(command, fence_stops(alloc));
    let command = and_arg(command, result_reasons(alloc));
    let command = and_arg(command, time_margin(alloc));
    let command = and_arg(command, plain_texts(alloc));
    let command = and_arg(command, path_options(alloc));
    and_arg(command, repeat_thinking(alloc))
}

// The command with what names the log, options of the engine, and the engine.
fn with_named<'a>(alloc: Global, command: Command<'a>) -> Result<Command<'a>, AllocError>
    ensures { IfOk result (λ c. app_of c ≡ with_names (app_of command.entry)) }
{
    let command = with_arg(command, log_file(alloc, "wineravine.log"));
    let command = and_arg(command, log_dir(alloc));
    let command = and_arg(command, set_option(alloc));
    and_arg(command, engine(alloc))
}

/// The command of the program.
pub fn wineravine_command<'a>(alloc: Global) -> Result<Command<'a>, AllocError>
    ensures { IfOk result (λ c. app_of c ≡ wineravine) }
{
    let command = with_policy(alloc, bare_command(alloc))?;
    let command = with_new(alloc, command)?;
    with_named(alloc, command)
}
