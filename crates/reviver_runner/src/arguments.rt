// The request that the arguments make.
ghost use Rattle.std.specs.Prelude.{◌≡◌, ◌<◌, ◌≤◌, length, Err, None, IfOk, OnOk, IfSome, true, false};
ghost use Rattle.program_command_line.specs.Arguments.Request.{argument_bytes_of};
ghost use Rattle.program_command_line.specs.declared.arguments.refusal.ArgumentsRefusal.TheVariants as refusals;
ghost use Rattle.reviver_runner.specs.Arguments.{digit_of, is_digit, ReviverArgumentsAreTaken, ReviverRequestIs};

use program_command_line::{ArgumentsRefusal, EngineRequest};
use std::alloc::Global;

/// The request that the arguments make.
#[derive(Drop)]
pub struct ReviverRequest {
    /// The greatest number of lives begun.
    pub lives: u32,
    pub log_name: String,
    /// The engine's program and its arguments.
    pub engine: Vec<String>,
}

// One digit from 1 to 9.
#[tactic(auto, using(crate::proofs::Digits::digit_back))]
fn digit_in(argument: &[u8]) -> Option<u32>
    ensures digit { IfSome result (λ n. argument.now ≡ digit_of n) }
    ensures is { IfSome result (λ n. is_digit argument.now ≡ true) }
    ensures some { IfSome result (λ n. 1 ≤ n) }
    ensures few { IfSome result (λ n. n ≤ 9) }
    ensures none { result ≡ None → is_digit argument.now ≡ false }
{
    let [digit] = argument else {
        return None;
    };
    let digit = *digit;
    if digit < b'1' || b'9' < digit {
        return None;
    }
    Some(u32::from(digit - b'0'))
}

/// Reads the arguments: how many lives may be begun at most, the name of the log, the engine's program
/// and its arguments. No word is an option: each may begin with a dash.
pub fn read_arguments(
    alloc: Global,
    arguments: &[Vec<u8>],
) -> Result<ReviverRequest, ArgumentsRefusal>
    ensures taken { OnOk result (ReviverArgumentsAreTaken (argument_bytes_of arguments.now)) }
    ensures asked { IfOk result (ReviverRequestIs (argument_bytes_of arguments.now)) }
    ensures some { IfOk result (λ request. 1 ≤ request.lives) }
    ensures few { IfOk result (λ request. request.lives ≤ 9) }
    ensures engine { IfOk result (λ request. 0 < length request.engine.items) }
    ensures usage { result ≡ Err refusals.Usage → ¬ (ReviverArgumentsAreTaken (argument_bytes_of
        arguments.now)) }
{
    let [digit, rest @ ..] = arguments else {
        return Err(ArgumentsRefusal::Usage);
    };
    let Some(lives) = digit_in(digit.as_slice()) else {
        return Err(ArgumentsRefusal::Usage);
    };
    let EngineRequest { log_name, engine } = program_command_line::read_arguments(alloc, rest)?;
    Ok(ReviverRequest {
        lives,
        log_name,
        engine,
    })
}
