// The request that the arguments make.
ghost use Rattle.std.specs.Prelude.{◌≡◌, ◌<◌, ◌++◌, false, [], length, map, drop, option_map, is_some, string_bytes, IfOk, IfErr, OnOk};
ghost use Rattle.clap.specs.Words.{rows_of, found_of, kind_of, HasKind};
ghost use Rattle.line_io.specs.Event.{has_feed};
ghost use Rattle.policy_rules.specs.SettingRules.Policy.{IsProper};
ghost use Rattle.program_command_line.specs.Arguments.Request.{argument_bytes_of};
ghost use Rattle.bridge_command_line.specs.WineravineArguments.{wineravine_argument_faults, wineravine_argument_values, has_feed_within, wineravine_log_name, wineravine_engine_command, WineravineSettingsAreAsked, wineravine_log_folder, has_two_logs, WineravineRequestIs, Ask, Fail, ErrorAsksFor, Blames, BlamesValues};
ghost use Rattle.bridge_command_line.specs.Values.{all_values, argument_or_empty};

use crate::found::number;
use crate::lines::{any_with_feed, has_feed, lines_setting};
use crate::wineravine_arguments::wineravine_command;
use crate::{copied_value, first_value, flag, is_named, policy_of, put_copies, texts, values};
use clap::error::ErrorKind;
use clap::{ArgMatches, Error};
use policy_rules::{MOST_MARGIN, Settings, USUAL_MARGIN};
use program_command_line::ArgumentsRefusal;
use std::alloc::{AllocError, Global};

/// A run, as arguments ask for it.
#[derive(Drop)]
pub struct WineravineRequest {
    pub settings: Settings,
    /// The file of the log, if there is no folder.
    pub log_name: String,
    /// The folder in which a new log is to be made.
    pub log_folder: Option<String>,
    /// The interface's lines that come before all others.
    pub first: Vec<u8>,
    /// The engine's program and its arguments.
    pub engine: Vec<String>,
}

/// The request that the arguments make.
#[derive(Drop)]
pub enum AskedProgram {
    Run(WineravineRequest),
    /// The text of help.
    Help,
    /// The name and the version.
    Version,
}

/// Why the arguments ask for nothing.
#[derive(Drop)]
pub enum WrongArguments {
    /// They fit nothing, for the reason that this text gives: it names the word that is wrong.
    Words(String),
    NoMemory,
}

impl From<AllocError> for WrongArguments {
    ghost use Rattle.std.specs.Prelude.{◌≡◌};
    ghost use Rattle.bridge_command_line.specs.declared.wineravine_request.WrongArguments.TheVariants as wrong;

    ghost from_gives = { λ e r. r ≡ wrong.NoMemory };

    fn from(_: AllocError) -> Self {
        WrongArguments::NoMemory
    }
}

// The matches that the command finds in the arguments, or the error that it answers.
#[tactic(auto, unfolding(crate::specs::WineravineArguments::wineravine_argument_faults, crate::specs::WineravineArguments::wineravine_argument_values))]
fn find_in<'a>(alloc: Global, texts: &'a [&'a str]) -> Result<ArgMatches<'a>, Error>
    ensures found { IfOk result (λ m. rows_of (found_of m)
        ≡ wineravine_argument_values (map (λ s. s.now) texts.now)) }
    ensures taken { OnOk result (wineravine_argument_faults (map (λ s. s.now) texts.now) ≡ []) }
    ensures fails { IfErr result (HasKind (wineravine_argument_faults (map (λ s. s.now)
        texts.now))) }
{
    let command = wineravine_command(alloc)?;
    match command.try_get_matches_from(texts) {
        Ok(found) => Ok(found),
        Err(error) => Err(error),
    }
}

// The text of an error of the command.
fn text_of(alloc: Global, error: &Error) -> Result<String, AllocError> {
    format!(in alloc; "{error}")
}

// Arguments that are wrong for a reason that the command does not know.
fn wrong_by(alloc: Global, kind: ErrorKind, reason: &str) -> WrongArguments {
    let Ok(mut command) = wineravine_command(alloc) else {
        return WrongArguments::NoMemory;
    };
    let Ok(error) = command.error(kind, reason) else {
        return WrongArguments::NoMemory;
    };
    match text_of(alloc, &error) {
        Ok(text) => WrongArguments::Words(text),
        Err(_) => WrongArguments::NoMemory,
    }
}

// The request that an error of the command makes.
fn asked_by(alloc: Global, error: &Error) -> Result<AskedProgram, WrongArguments>
    ensures shown { IfOk result (ErrorAsksFor (kind_of error.now)) }
    ensures blamed { IfErr result (Blames (kind_of error.now)) }
{
    match error.kind() {
        ErrorKind::DisplayHelp => Ok(AskedProgram::Help),
        ErrorKind::DisplayVersion => Ok(AskedProgram::Version),
        ErrorKind::OutOfMemory => Err(WrongArguments::NoMemory),
        _ => Err(WrongArguments::Words(text_of(alloc, error)?)),
    }
}

fn settings_of(found: &ArgMatches) -> Settings
    ensures asked { WineravineSettingsAreAsked (rows_of (found_of found.now)) result }
    ensures proper { IsProper result }
{
    Settings {
        early_settings: flag(found, "EarlySettings"),
        resign_when_gone: flag(found, "ResignWhenGone"),
        handle_draws: flag(found, "HandleDraws"),
        show_san: flag(found, "ShowSan"),
        strength_options: flag(found, "StrengthOptions"),
        fence_stops: flag(found, "FenceStops"),
        result_reasons: flag(found, "ResultReasons"),
        time_margin: number(found, "TimeMargin", 0, MOST_MARGIN, USUAL_MARGIN),
        plain_texts: flag(found, "PlainTexts"),
        path_options: flag(found, "PathOptions"),
        repeat_thinking: flag(found, "RepeatThinking"),
        ..policy_of(found)
    }
}

// A value that has a line feed, and the option whose value it is.
#[derive(Clone, Copy)]
struct BadValue<'a> {
    option: &'static str,
    value: &'a str,
}

// The name of the log if it has a line feed.
fn log_name_with_feed<'a>(found: &ArgMatches<'a>) -> Option<&'a str>
    ensures { is_some result ≡ has_feed (wineravine_log_name (rows_of (found_of found.now))) }
{
    let name = first_value(found, "LogFile")?;
    if has_feed(name) { Some(name) } else { None }
}

// The folder of logs if it has a line feed.
fn log_folder_with_feed<'a>(found: &ArgMatches<'a>) -> Option<&'a str>
    ensures { is_some result ≡ has_feed (argument_or_empty (wineravine_log_folder (rows_of (found_of
        found.now)))) }
{
    let folder = first_value(found, "LogDir")?;
    if has_feed(folder) { Some(folder) } else { None }
}

// The first value that has a line feed, among those that may be any text.
fn value_with_feed<'a>(found: &ArgMatches<'a>) -> Option<BadValue<'a>>
    ensures { is_some result ≡ has_feed_within (rows_of (found_of found.now)) }
{
    if let Some(value) = log_name_with_feed(found) {
        return Some(BadValue {
            option: "LogFile",
            value,
        });
    }
    if let Some(value) = log_folder_with_feed(found) {
        return Some(BadValue {
            option: "LogDir",
            value,
        });
    }
    let value = any_with_feed(values(found, "Option"))?;
    Some(BadValue {
        option: "Option",
        value,
    })
}

// Arguments that are wrong for a value with a line feed.
fn wrong_value(alloc: Global, bad: &BadValue) -> WrongArguments {
    let BadValue { option, value } = *bad;
    match format!(in alloc; "invalid value {value:?} for '--{option}': it has a line feed") {
        Ok(reason) => wrong_by(alloc, ErrorKind::InvalidValue, reason.as_str()),
        Err(_) => WrongArguments::NoMemory,
    }
}

// Puts copies of the engine's arguments, which follow its program.
fn put_args(
    alloc: Global,
    engine: Option<&[&str]>,
    arguments: &mut Vec<String>,
) -> Result<(), AllocError>
    ensures { OnOk result (map string_bytes arguments.new.items ≡ map string_bytes
        arguments.old.items
        ++ drop 1 (all_values (option_map (λ v. map (λ s. s.now) v.now) engine.entry))) }
{
    let Some([_, args @ ..]) = engine else {
        return Ok(());
    };
    put_copies(alloc, args, arguments)
}

fn engine_of(alloc: Global, found: &ArgMatches) -> Result<Vec<String>, AllocError>
    ensures arguments { IfOk result (λ v. map string_bytes v.items
        ≡ wineravine_engine_command (rows_of (found_of found.now))) }
    ensures some { IfOk result (λ v. 0 < length v.items) }
{
    let mut engine: Vec<String> = Vec::new(alloc);
    engine.push(copied_value(alloc, found, "ENGINE")?)?;
    put_args(alloc, values(found, "ENGINE"), &mut engine)?;
    Ok(engine)
}

// The folder of a new log, if one is asked for.
fn log_folder_of(alloc: Global, found: &ArgMatches) -> Result<Option<String>, AllocError>
    ensures { IfOk result (λ folder. option_map string_bytes folder
        ≡ wineravine_log_folder (rows_of (found_of found.now))) }
{
    match first_value(found, "LogDir") {
        Some(folder) => Ok(Some(String::from_str(alloc, folder)?)),
        None => Ok(None),
    }
}

fn request_of(alloc: Global, found: &ArgMatches) -> Result<WineravineRequest, AllocError>
    ensures asked { IfOk result (WineravineRequestIs (rows_of (found_of found.now))) }
    ensures proper { IfOk result (λ r. IsProper r.settings) }
    ensures some { IfOk result (λ r. 0 < length r.engine.items) }
{
    Ok(WineravineRequest {
        settings: settings_of(found),
        log_name: copied_value(alloc, found, "LogFile")?,
        log_folder: log_folder_of(alloc, found)?,
        first: lines_setting(alloc, values(found, "Option"))?,
        engine: engine_of(alloc, found)?,
    })
}

// True if both a file and a folder of logs are named.
fn has_two_logs(found: &ArgMatches) -> bool
    ensures { result ≡ has_two_logs (rows_of (found_of found.now)) }
{
    is_named(found, "LogFile") && first_value(found, "LogDir").is_some()
}

// Arguments that are wrong since both are named.
fn wrong_logs(alloc: Global) -> WrongArguments {
    let reason = "the argument '--LogDir <folder>' cannot be used with '--LogFile <file>'";
    wrong_by(alloc, ErrorKind::ArgumentConflict, reason)
}

// The run that the values ask for.
fn run_of(alloc: Global, found: &ArgMatches) -> Result<WineravineRequest, WrongArguments>
    ensures no_feed { OnOk result (has_feed_within (rows_of (found_of found.now)) ≡ false) }
    ensures one_log { OnOk result (has_two_logs (rows_of (found_of found.now)) ≡ false) }
    ensures asked { IfOk result (WineravineRequestIs (rows_of (found_of found.now))) }
    ensures proper { IfOk result (λ r. IsProper r.settings) }
    ensures some { IfOk result (λ r. 0 < length r.engine.items) }
    ensures wrong { IfErr result (BlamesValues (rows_of (found_of found.now))) }
{
    if has_two_logs(found) {
        return Err(wrong_logs(alloc));
    }
    match value_with_feed(found) {
        Some(bad) => Err(wrong_value(alloc, &bad)),
        None => Ok(request_of(alloc, found)?),
    }
}

/// Reads the arguments after the program's name.
pub fn read_wineravine_arguments(
    alloc: Global,
    arguments: &[Vec<u8>],
) -> Result<AskedProgram, WrongArguments>
    ensures asked { IfOk result (Ask (argument_bytes_of arguments.now)) }
    ensures wrong { IfErr result (Fail (argument_bytes_of arguments.now)) }
{
    let texts = match texts(alloc, arguments) {
        Ok(texts) => texts,
        Err(ArgumentsRefusal::NoMemory) => return Err(WrongArguments::NoMemory),
        Err(ArgumentsRefusal::Usage) => {
            let reason = "invalid UTF-8 was detected in one or more arguments";
            return Err(wrong_by(alloc, ErrorKind::InvalidValue, reason));
        }
    };
    match find_in(alloc, texts.as_slice()) {
        Ok(found) => Ok(AskedProgram::Run(run_of(alloc, &found)?)),
        Err(error) => asked_by(alloc, &error),
    }
}
