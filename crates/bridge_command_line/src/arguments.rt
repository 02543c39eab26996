// The arguments that both commands have.
ghost use Rattle.std.specs.Prelude.{◌≡◌, true, false, IfOk, IsOkAnd};
ghost use Rattle.clap.specs.Words.{app_of, rule_of, with_rule};
ghost use Rattle.bridge_command_line.specs.Arguments.{option_rule, flag_rule, resign_rule, resign_moves_rule, resign_score_rule, show_ponder_rule, log_file_rule, with_policy_rules};

use clap::builder::ValueParser;
use clap::{Arg, Command};
use policy_rules::{MOST_MOVES, MOST_SCORE};
use std::alloc::{AllocError, Global};

/// An option with one value, the value that it has if no word gives one, and what help says of
/// it.
pub fn option<'a>(
    alloc: Global,
    name: &'a str,
    usual: &'a str,
    value: &'a str,
    help: &'a str,
) -> Arg<'a>
    ensures rule { rule_of result ≡ option_rule name.now usual.now }
    ensures local { result.global ≡ false }
{
    Arg::new(alloc, name)
        .long(name)
        .default_value(usual)
        .value_name(value)
        .help(help)
}

/// An option whose value is `true` or `false`.
pub fn flag_option<'a>(alloc: Global, name: &'a str, usual: &'a str, help: &'a str) -> Arg<'a>
    ensures rule { rule_of result ≡ flag_rule name.now usual.now }
    ensures local { result.global ≡ false }
{
    option(alloc, name, usual, "true|false", help)
        .value_parser(ValueParser::bool())
        .hide_possible_values(true)
}

fn resign<'a>(alloc: Global) -> Arg<'a>
    ensures rule { rule_of result ≡ resign_rule }
    ensures local { result.global ≡ false }
{
    flag_option(alloc, "Resign", "false", "Whether a lost game is resigned")
}

fn resign_moves<'a>(alloc: Global) -> Arg<'a>
    ensures rule { rule_of result ≡ resign_moves_rule }
    ensures local { result.global ≡ false }
{
    let help = "How many scores in a row decide, 1 to 1000";
    option(alloc, "ResignMoves", "3", "number", help).value_parser(ValueParser::unsigned(
        1,
        u64::from(MOST_MOVES),
    ))
}

fn resign_score<'a>(alloc: Global) -> Arg<'a>
    ensures rule { rule_of result ≡ resign_score_rule }
    ensures local { result.global ≡ false }
{
    let help = "How bad each of them is at least, 0 to 100000";
    option(alloc, "ResignScore", "600", "centipawns", help).value_parser(ValueParser::unsigned(
        0,
        u64::from(MOST_SCORE),
    ))
}

fn show_ponder<'a>(alloc: Global) -> Arg<'a>
    ensures rule { rule_of result ≡ show_ponder_rule }
    ensures local { result.global ≡ false }
{
    let help = "Whether thinking is shown while the engine ponders";
    flag_option(alloc, "ShowPonder", "true", help)
}

/// The option that names the log.
pub fn log_file<'a>(alloc: Global, usual: &'a str) -> Arg<'a>
    ensures rule { rule_of result ≡ log_file_rule usual.now }
    ensures local { result.global ≡ false }
{
    option(
        alloc,
        "LogFile",
        usual,
        "file",
        "The log, made anew by each run",
    )
}

/// The command with one argument more.
pub fn with_arg<'a>(command: Command<'a>, arg: Arg<'a>) -> Result<Command<'a>, AllocError>
    requires { arg.global ≡ false }
    ensures { IfOk result (λ c. app_of c ≡ with_rule (app_of command.entry) (rule_of arg.entry)) }
{
    command.arg(arg)
}

/// The same, where the command may not have come about.
pub(crate) fn and_arg<'a>(
    command: Result<Command<'a>, AllocError>,
    arg: Arg<'a>,
) -> Result<Command<'a>, AllocError>
    requires { arg.global ≡ false }
    ensures { IfOk result (λ c. IsOkAnd command.entry
        (λ before. app_of c ≡ with_rule (app_of before) (rule_of arg.entry))) }
{
    with_arg(command?, arg)
}

/// The command with the options that say when a game is resigned, and whether pondering is shown.
pub fn with_policy<'a>(alloc: Global, command: Command<'a>) -> Result<Command<'a>, AllocError>
    ensures { IfOk result (λ c. app_of c ≡ with_policy_rules (app_of command.entry)) }
{
    let command = with_arg(command, resign(alloc));
    let command = and_arg(command, resign_moves(alloc));
    let command = and_arg(command, resign_score(alloc));
    and_arg(command, show_ponder(alloc))
}
