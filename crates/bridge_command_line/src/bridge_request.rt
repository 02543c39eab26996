// The request that the arguments make.
ghost use Rattle.std.specs.Prelude.{◌≡◌, ◌<◌, [], length, Err, map, string_bytes, IfOk, OnOk};
ghost use Rattle.clap.specs.Words.{rows_of, found_of};
ghost use Rattle.clap.specs.declared.error.kind.ErrorKind.TheVariants as kinds;
ghost use Rattle.policy_rules.specs.SettingRules.Policy.{IsProper};
ghost use Rattle.program_command_line.specs.Arguments.Request.{argument_bytes_of};
ghost use Rattle.program_command_line.specs.declared.arguments.refusal.ArgumentsRefusal.TheVariants as refusals;
ghost use Rattle.bridge_command_line.specs.BridgeArguments.{bridge_argument_faults, bridge_argument_values, BridgeArgumentsAreTaken, BridgeRequestIs, bridge_engine_command};

use crate::bridge_arguments::bridge_command;
use crate::{copied_value, policy_of, put_values, texts};
use clap::ArgMatches;
use clap::error::ErrorKind;
use policy_rules::Settings;
use program_command_line::ArgumentsRefusal;
use std::alloc::{AllocError, Global};

/// The request that the arguments make.
#[derive(Drop)]
pub struct BridgeRequest {
    pub settings: Settings,
    pub log_name: String,
    /// The engine's program and its arguments.
    pub engine: Vec<String>,
}

fn refusal_of(kind: ErrorKind) -> ArgumentsRefusal
    ensures { result ≡ refusals.Usage → ¬ (kind ≡ kinds.OutOfMemory) }
{
    match kind {
        ErrorKind::OutOfMemory => ArgumentsRefusal::NoMemory,
        _ => ArgumentsRefusal::Usage,
    }
}

// The matches that the command finds in the arguments.
fn find_in<'a>(alloc: Global, texts: &'a [&'a str]) -> Result<ArgMatches<'a>, ArgumentsRefusal>
    ensures found { IfOk result (λ m. rows_of (found_of m)
        ≡ bridge_argument_values (map (λ s. s.now) texts.now)) }
    ensures taken { OnOk result (bridge_argument_faults (map (λ s. s.now) texts.now) ≡ []) }
    ensures usage { result ≡ Err refusals.Usage
        → ¬ (bridge_argument_faults (map (λ s. s.now) texts.now) ≡ []) }
{
    let command = bridge_command(alloc)?;
    match command.try_get_matches_from(texts) {
        Ok(found) => Ok(found),
        Err(error) => Err(refusal_of(error.kind())),
    }
}

// The engine's program and its arguments.
fn engine_of(alloc: Global, found: &ArgMatches) -> Result<Vec<String>, AllocError>
    ensures arguments { IfOk result (λ v. map string_bytes v.items
        ≡ bridge_engine_command (rows_of (found_of found.now))) }
    ensures some { IfOk result (λ v. 0 < length v.items) }
{
    let mut engine: Vec<String> = Vec::new(alloc);
    engine.push(copied_value(alloc, found, "ENGINE")?)?;
    put_values(alloc, found, "ARG", &mut engine)?;
    Ok(engine)
}

fn request_of(alloc: Global, found: &ArgMatches) -> Result<BridgeRequest, AllocError>
    ensures asked { IfOk result (BridgeRequestIs (rows_of (found_of found.now))) }
    ensures proper { IfOk result (λ r. IsProper r.settings) }
    ensures some { IfOk result (λ r. 0 < length r.engine.items) }
{
    Ok(BridgeRequest {
        settings: policy_of(found),
        log_name: copied_value(alloc, found, "LogFile")?,
        engine: engine_of(alloc, found)?,
    })
}

/// Reads the arguments after the program's name.
pub fn read_bridge_arguments(
    alloc: Global,
    arguments: &[Vec<u8>],
) -> Result<BridgeRequest, ArgumentsRefusal>
    ensures taken { OnOk result (BridgeArgumentsAreTaken (argument_bytes_of arguments.now)) }
    ensures usage { result ≡ Err refusals.Usage → ¬ (BridgeArgumentsAreTaken (argument_bytes_of
        arguments.now)) }
    ensures asked { IfOk result (BridgeRequestIs (bridge_argument_values (argument_bytes_of
        arguments.now))) }
    ensures proper { IfOk result (λ request. IsProper request.settings) }
    ensures engine { IfOk result (λ request. 0 < length request.engine.items) }
{
    let texts = texts(alloc, arguments)?;
    let found = find_in(alloc, texts.as_slice())?;
    Ok(request_of(alloc, &found)?)
}
