// The log and the engine that arguments ask for.
ghost use Rattle.std.specs.Prelude.{◌≡◌, ◌<◌, length, map, Err, IfOk, OnOk, string_bytes};
ghost use Rattle.std.specs.Str.{IsUtf8};
ghost use Rattle.program_command_line.specs.Arguments.Request.{argument_bytes_of, AreUtf8, EngineArgumentsAreTaken, EngineRequestIs};
ghost use Rattle.program_command_line.specs.declared.arguments.refusal.ArgumentsRefusal.TheVariants as refusals;

use crate::ArgumentsRefusal;
use std::alloc::Global;

/// A log and an engine, as arguments ask for them.
#[derive(Drop)]
pub struct EngineRequest {
    pub log_name: String,
    /// The engine's program and its arguments.
    pub engine: Vec<String>,
}

// A word as a text. One that is not UTF-8 is refused.
fn text_of(alloc: Global, argument: &[u8]) -> Result<String, ArgumentsRefusal>
    ensures text { IfOk result (λ s. string_bytes s ≡ argument.now) }
    ensures utf8 { OnOk result (IsUtf8 argument.now) }
    ensures usage { result ≡ Err refusals.Usage → ¬ (IsUtf8 argument.now) }
{
    let Ok(text) = str::from_utf8(argument) else {
        return Err(ArgumentsRefusal::Usage);
    };
    Ok(String::from_str(alloc, text)?)
}

// Arguments as texts.
fn texts_of(alloc: Global, arguments: &[Vec<u8>]) -> Result<Vec<String>, ArgumentsRefusal>
    ensures texts { IfOk result (λ v. map string_bytes v.items ≡ argument_bytes_of arguments.now) }
    ensures utf8 { OnOk result (AreUtf8 (argument_bytes_of arguments.now)) }
    ensures usage { result ≡ Err refusals.Usage → ¬ (AreUtf8 (argument_bytes_of arguments.now)) }
{
    let mut texts: Vec<String> = Vec::new(alloc);
    for argument in arguments {
        let text = text_of(alloc, argument.as_slice())?;
        if texts.push(text).is_err() {
            return Err(ArgumentsRefusal::NoMemory);
        }
    }
    Ok(texts)
}

/// Reads the arguments: the name of the log, the engine's program and its arguments. No word is an
/// option: each may begin with a dash.
pub fn read_arguments(
    alloc: Global,
    arguments: &[Vec<u8>],
) -> Result<EngineRequest, ArgumentsRefusal>
    ensures taken { OnOk result (EngineArgumentsAreTaken (argument_bytes_of arguments.now)) }
    ensures asked { IfOk result (EngineRequestIs (argument_bytes_of arguments.now)) }
    ensures engine { IfOk result (λ request. 0 < length request.engine.items) }
    ensures usage { result ≡ Err refusals.Usage → ¬ (EngineArgumentsAreTaken (argument_bytes_of
        arguments.now)) }
{
    let [log, engine @ ..] = arguments else {
        return Err(ArgumentsRefusal::Usage);
    };
    if engine.is_empty() {
        return Err(ArgumentsRefusal::Usage);
    }
    let log_name = text_of(alloc, log.as_slice())?;
    let engine = texts_of(alloc, engine)?;
    Ok(EngineRequest { log_name, engine })
}
