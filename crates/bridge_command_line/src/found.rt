// The values that a command finds in arguments.
ghost use Rattle.std.specs.Prelude.{◌≡◌, ◌≤◌, ◌++◌, Err, map, option_map, string_bytes, IfOk, OnOk};
ghost use Rattle.clap.specs.Words.{first_of, one_of, all_of, rows_of, found_of};
ghost use Rattle.policy_rules.specs.SettingRules.Policy.{IsProper};
ghost use Rattle.program_command_line.specs.Arguments.Request.{argument_bytes_of, AreUtf8};
ghost use Rattle.program_command_line.specs.declared.arguments.refusal.ArgumentsRefusal.TheVariants as refusals;
ghost use Rattle.bridge_command_line.specs.Values.{AsksNumber, AsksPolicy, HasUsualOthers, all_values, is_named, is_true_text, setting_within, source_of, argument_or_empty};

use clap::ArgMatches;
use clap::parser::ValueSource;
use policy_rules::{MOST_MOVES, MOST_SCORE, Settings, USUAL_MOVES, USUAL_SCORE};
use program_command_line::ArgumentsRefusal;
use std::alloc::{AllocError, Global};

/// The arguments as texts. A word that is not UTF-8 is refused.
pub fn texts<'a>(alloc: Global, arguments: &'a [Vec<u8>]) -> Result<Vec<&'a str>, ArgumentsRefusal>
    ensures texts { IfOk result (λ v. map (λ s. s.now) v.items ≡ argument_bytes_of arguments.now) }
    ensures utf8 { OnOk result (AreUtf8 (argument_bytes_of arguments.now)) }
    ensures usage { result ≡ Err refusals.Usage → ¬ (AreUtf8 (argument_bytes_of arguments.now)) }
{
    let mut texts: Vec<&'a str> = Vec::new(alloc);
    for argument in arguments {
        let Ok(text) = str::from_utf8(argument.as_slice()) else {
            return Err(ArgumentsRefusal::Usage);
        };
        if texts.push(text).is_err() {
            return Err(ArgumentsRefusal::NoMemory);
        }
    }
    Ok(texts)
}

/// The first value that an argument has.
pub fn first_value<'a>(found: &ArgMatches<'a>, name: &str) -> Option<&'a str>
    ensures { option_map (λ s. s.now) result ≡ first_of name.now (rows_of (found_of found.now)) }
{
    found.get_str(name)
}

/// All values that an argument has.
pub fn values<'f, 'a>(found: &'f ArgMatches<'a>, name: &str) -> Option<&'f [&'a str]>
    ensures { option_map (λ v. map (λ s. s.now) v.now) result
        ≡ all_of name.now (rows_of (found_of found.now)) }
{
    found.get_strs(name)
}

// Where the value of an argument comes from.
fn source_of(found: &ArgMatches, name: &str) -> Option<ValueSource>
    ensures { result ≡ source_of name.now (rows_of (found_of found.now)) }
{
    found.value_source(name)
}

/// True if words, and not a default, give an argument its value.
pub fn is_named(found: &ArgMatches, name: &str) -> bool
    ensures { result ≡ is_named name.now (rows_of (found_of found.now)) }
{
    matches!(source_of(found, name), Some(ValueSource::CommandLine))
}

/// True if an option's value is `true`.
pub fn flag(found: &ArgMatches, name: &str) -> bool
    ensures { result ≡ is_true_text (first_of name.now (rows_of (found_of found.now))) }
{
    match first_value(found, name) {
        Some(text) => text == "true",
        None => false,
    }
}

fn copied(alloc: Global, text: &str) -> Result<String, AllocError>
    ensures { IfOk result (λ s. string_bytes s ≡ text.now) }
{
    String::from_str(alloc, text)
}

/// A copy of the first value that an argument has.
pub fn copied_value(alloc: Global, found: &ArgMatches, name: &str) -> Result<String, AllocError>
    ensures { IfOk result (λ s. string_bytes s
        ≡ argument_or_empty (first_of name.now (rows_of (found_of found.now)))) }
{
    match first_value(found, name) {
        Some(text) => copied(alloc, text),
        None => Ok(String::new(alloc)),
    }
}

/// Puts copies of the texts at the end.
pub fn put_copies(alloc: Global, texts: &[&str], copies: &mut Vec<String>) -> Result<(), AllocError>
    ensures { OnOk result (map string_bytes copies.new.items
        ≡ map string_bytes copies.old.items ++ map (λ s. s.now) texts.now) }
{
    for text in texts {
        copies.push(copied(alloc, text)?)?;
    }
    Ok(())
}

/// Puts copies of all values of an argument at the end, if it has any.
pub fn put_values(
    alloc: Global,
    found: &ArgMatches,
    name: &str,
    copies: &mut Vec<String>,
) -> Result<(), AllocError>
    ensures { OnOk result (map string_bytes copies.new.items ≡ map string_bytes copies.old.items
        ++ all_values (all_of name.now (rows_of (found_of found.now)))) }
{
    put_all(alloc, values(found, name), copies)
}

fn put_all(
    alloc: Global,
    texts: Option<&[&str]>,
    copies: &mut Vec<String>,
) -> Result<(), AllocError>
    ensures { OnOk result (map string_bytes copies.new.items ≡ map string_bytes copies.old.items
        ++ all_values (option_map (λ v. map (λ s. s.now) v.now) texts.entry)) }
{
    let Some(texts) = texts else {
        return Ok(());
    };
    put_copies(alloc, texts, copies)
}

// The number that an option's value spells. The command lets none pass that is not within its
// bounds, and the usual number stands in for such a one.
pub(crate) fn number(found: &ArgMatches, name: &str, least: u32, most: u32, usual: u32) -> u32
    requires { (least ≤ usual) × (usual ≤ most) }
    ensures value { AsksNumber least most usual
        (one_of name.now (rows_of (found_of found.now))) result }
    ensures bounds { (least ≤ result) × (result ≤ most) }
{
    within(found.get_one::<u32>(name), least, most, usual)
}

fn within(number: Option<u32>, least: u32, most: u32, usual: u32) -> u32
    requires { (least ≤ usual) × (usual ≤ most) }
    ensures value { result ≡ setting_within least most usual number }
    ensures bounds { (least ≤ result) × (result ≤ most) }
{
    match number {
        Some(number) => {
            if least <= number && number <= most {
                number
            } else {
                usual
            }
        }
        None => usual,
    }
}

/// The settings that say when a game is resigned, and whether pondering is shown, as they were
/// found, and the usual others.
pub fn policy_of(found: &ArgMatches) -> Settings
    ensures asked { AsksPolicy (rows_of (found_of found.now)) result }
    ensures others { HasUsualOthers result }
    ensures proper { IsProper result }
{
    Settings {
        resign: flag(found, "Resign"),
        resign_moves: number(found, "ResignMoves", 1, MOST_MOVES, USUAL_MOVES),
        resign_score: number(found, "ResignScore", 0, MOST_SCORE, USUAL_SCORE),
        show_ponder: flag(found, "ShowPonder"),
        ..Settings::usual()
    }
}
