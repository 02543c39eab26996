// The name of a new log, and the place of the log.
ghost use Rattle.std.specs.Prelude.{◌≡◌, ◌++◌, ◌∷◌, [], string_bytes, map, option_map, IfOk, OnOk};
ghost use Rattle.child_engine.specs.Places.{asked_place};
ghost use Rattle.wineravine_runner.specs.LogNames.{behind_slash, engine_in_log, is_log_letter, log_letter, new_log_name, next_part, place_in};

use bridge_command_line::WineravineRequest;
use child_engine::{LogPlace, NewLog};
use itoa::Buffer;
use std::alloc::{AllocError, Global};

/// The greatest number of bytes of an engine's name in the name of a log.
pub(crate) const MOST_NAME: usize = 64;

// Goes on by a byte with what stands behind the last slash.
fn put_byte(byte: u8, part: &mut Vec<u8>) -> Result<(), AllocError>
    ensures { OnOk result (part.new.items ≡ next_part part.old.items byte) }
{
    if byte == b'/' {
        part.clear();
        return Ok(());
    }
    part.push(byte)?;
    Ok(())
}

// What stands behind the last slash.
fn behind_slash(alloc: Global, text: &[u8]) -> Result<Vec<u8>, AllocError>
    ensures { IfOk result (λ part. part.items ≡ behind_slash text.now) }
{
    let mut part: Vec<u8> = Vec::new(alloc);
    for byte in text {
        put_byte(*byte, &mut part)?;
    }
    Ok(part)
}

fn is_log_letter(byte: u8) -> bool
    ensures { result ≡ is_log_letter byte }
{
    byte.is_ascii_alphanumeric() || byte == b'.' || byte == b'-' || byte == b'_' || byte == b'+'
}

// The letter for a byte of an engine's name.
fn log_letter(byte: u8) -> u8
    ensures { result ≡ log_letter byte }
{
    if is_log_letter(byte) { byte } else { b'_' }
}

#[tactic(auto, using(crate::proofs::LogLetters::one_letter))]
fn put_letter(byte: u8, name: &mut String) -> Result<(), AllocError>
    ensures { OnOk result (string_bytes name.new ≡ string_bytes name.old ++ log_letter byte ∷ []) }
{
    name.push(char::from(log_letter(byte)))
}

fn put_letters(bytes: &[u8], name: &mut String) -> Result<(), AllocError>
    ensures { OnOk result (string_bytes name.new
        ≡ string_bytes name.old ++ map log_letter bytes.now) }
{
    for byte in bytes {
        put_letter(*byte, name)?;
    }
    Ok(())
}

// The name of the engine in the name of a log.
fn engine_in_log(alloc: Global, engine: &str) -> Result<String, AllocError>
    ensures { IfOk result (λ name. string_bytes name ≡ engine_in_log engine.now) }
{
    let mut part = behind_slash(alloc, engine.as_bytes())?;
    part.truncate(MOST_NAME);
    if part.is_empty() {
        return String::from_str(alloc, "engine");
    }
    let mut name = String::new(alloc);
    put_letters(part.as_slice(), &mut name)?;
    Ok(name)
}

/// The name of a new log, by the engine's program and the number of this process.
pub(crate) fn new_log_name(
    alloc: Global,
    engine: &str,
    process_id: u32,
) -> Result<String, AllocError>
    ensures { IfOk result (λ name. string_bytes name ≡ new_log_name engine.now process_id) }
{
    let mut name = engine_in_log(alloc, engine)?;
    name.push_str("-")?;
    name.push_str(Buffer::new().format(process_id))?;
    Ok(name)
}

/// The place of the log that was asked for, which has this name if it is a new one.
pub(crate) fn log_place<'a>(request: &'a WineravineRequest, name: &'a str) -> LogPlace<'a>
    ensures { asked_place result ≡ place_in (option_map string_bytes request.now.log_folder)
        (string_bytes request.now.log_name) name.now }
{
    match &request.log_folder {
        Some(folder) => LogPlace::New(NewLog {
            folder: folder.as_str(),
            name,
        }),
        None => LogPlace::File(request.log_name.as_str()),
    }
}
