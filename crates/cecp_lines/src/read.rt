// The message that a line spells.
ghost use Rattle.std.specs.Prelude.{◌≡◌, ◌↔◌, Ok, Err, ◌+◌, ◌*◌, ◌^◌, ◌<◌, ◌≤◌, length, position, IfSome};
ghost use Rattle.std.specs.Option.{option_map, option_and_then};
ghost use Rattle.cecp_lines.specs.Messages.{IfaceMsg as AnyIfaceMsg, message_of, read_as};
ghost use Rattle.cecp_lines.specs.declared.iface.IfaceFault.TheVariants.{UnknownCommand, BadArgument};
ghost use Rattle.cecp_lines.specs.Reading.{message_or_fault, SpellsIfaceMsg, IsUnknown, IsBad, only_token, bare_message, argument, protover, minutes_seconds, base_time, level, setting, egt_path, other_line, is_colon, is_equals};

use crate::iface::{IfaceFault, IfaceMsg};
use crate::words::{BareWord, Command, Verb, command_named};
use chess_board::read_move;
use protocol_tokens::{
    MINUTE, SECOND, read_centis, read_digits, read_number, read_seconds, split_token, trim,
};

/// The one token of a text of one token.
fn lone_token(text: &[u8]) -> Option<&[u8]>
    ensures { option_map (λ t. t.now) result ≡ only_token text.now }
{
    let (token, rest) = split_token(text);
    if rest.is_empty() { Some(token) } else { None }
}

fn read_lone_number(text: &[u8]) -> Option<u32>
    ensures { result ≡ option_and_then number (only_token text.now) }
{
    read_number(lone_token(text)?)
}

fn read_lone_centis(text: &[u8]) -> Option<i64>
    ensures { result ≡ option_and_then centis (only_token text.now) }
{
    read_centis(lone_token(text)?)
}

fn read_lone_seconds(text: &[u8]) -> Option<u64>
    ensures { result ≡ option_and_then seconds (only_token text.now) }
{
    read_seconds(lone_token(text)?)
}

ghost use Rattle.protocol_tokens.specs.Numbers.{digits, number, centis, seconds};

fn read_protover(text: &[u8]) -> Option<IfaceMsg<'_>>
    ensures { option_map message_of result ≡ protover text.now }
{
    let n = read_lone_number(text)?;
    if n >= 2 {
        Some(IfaceMsg::Protover(n))
    } else {
        None
    }
}

fn colon_at(text: &[u8]) -> Option<usize>
    ensures { result ≡ position is_colon text.now }
{
    text.iter().position(|b| *b == b':')
}

/// Minutes and seconds, of which there are at most 59, in milliseconds.
fn read_minutes_seconds(minutes: &[u8], seconds: &[u8]) -> Option<u64>
    ensures { result ≡ minutes_seconds (digits 4 minutes.now) (digits 2 seconds.now) }
{
    let minutes = read_digits(minutes, 4)?;
    let seconds = read_digits(seconds, 2)?;
    if seconds <= 59 {
        Some(minutes * MINUTE + seconds * SECOND)
    } else {
        None
    }
}

/// Minutes, and perhaps a colon and seconds, in milliseconds.
fn read_base(text: &[u8]) -> Option<u64>
    ensures { result ≡ base_time text.now }
{
    match colon_at(text) {
        Some(at) => read_minutes_seconds(&text[..at], &text[at + 1..]),
        None => Some(read_digits(text, 4)? * MINUTE),
    }
}

fn read_level(text: &[u8]) -> Option<IfaceMsg<'_>>
    ensures { option_map message_of result ≡ level text.now }
{
    let (mps, text) = split_token(text);
    let (base, text) = split_token(text);
    let mps = read_digits(mps, 4)? as u32;
    let base_ms = read_base(base)?;
    let inc_ms = read_lone_seconds(text)?;
    Some(IfaceMsg::Level {
        mps,
        base_ms,
        inc_ms,
    })
}

fn equals_at(text: &[u8]) -> Option<usize>
    ensures { result ≡ position is_equals text.now }
{
    text.iter().position(|b| *b == b'=')
}

fn read_setting(text: &[u8]) -> Option<IfaceMsg<'_>>
    ensures { option_map message_of result ≡ setting text.now }
{
    let (name, value) = match equals_at(text) {
        Some(at) => (trim(&text[..at]), Some(&text[at + 1..])),
        None => (text, None),
    };
    if name.is_empty() {
        None
    } else {
        Some(IfaceMsg::SetOption { name, value })
    }
}

fn read_egt_path(text: &[u8]) -> Option<IfaceMsg<'_>>
    ensures { option_map message_of result ≡ egt_path text.now }
{
    let (kind, path) = split_token(text);
    if path.is_empty() {
        None
    } else {
        Some(IfaceMsg::EgtPath { kind, path })
    }
}

/// The message of a command without arguments.
fn bare_message<'a>(word: BareWord) -> IfaceMsg<'a>
    ensures { message_of result ≡ bare_message word }
{
    match word {
        BareWord::New => IfaceMsg::New,
        BareWord::Quit => IfaceMsg::Quit,
        BareWord::Force => IfaceMsg::Force,
        BareWord::Go => IfaceMsg::Go,
        BareWord::PlayOther => IfaceMsg::PlayOther,
        BareWord::MoveNow => IfaceMsg::MoveNow,
        BareWord::Draw => IfaceMsg::Draw,
        BareWord::Hint => IfaceMsg::Hint,
        BareWord::Undo => IfaceMsg::Undo,
        BareWord::Remove => IfaceMsg::Remove,
        BareWord::Hard => IfaceMsg::Hard,
        BareWord::Easy => IfaceMsg::Easy,
        BareWord::Post => IfaceMsg::Post,
        BareWord::NoPost => IfaceMsg::NoPost,
        BareWord::Analyze => IfaceMsg::Analyze,
        BareWord::Exit => IfaceMsg::Exit,
        BareWord::Dot => IfaceMsg::Dot,
        BareWord::Result => IfaceMsg::Result,
    }
}

/// The message of a command with arguments and the trimmed rest of its line.
fn read_argument(verb: Verb, text: &[u8]) -> Option<IfaceMsg<'_>>
    ensures { option_map message_of result ≡ argument verb text.now }
{
    match verb {
        Verb::Protover => read_protover(text),
        Verb::Ping => Some(IfaceMsg::Ping(read_lone_number(text)?)),
        Verb::UserMove => Some(IfaceMsg::UserMove(read_move(lone_token(text)?)?)),
        Verb::SetBoard => Some(IfaceMsg::SetBoard(text)),
        Verb::Level => read_level(text),
        Verb::St => Some(IfaceMsg::St(read_lone_seconds(text)?)),
        Verb::Sd => Some(IfaceMsg::Sd(read_lone_number(text)?)),
        Verb::Time => Some(IfaceMsg::Time(read_lone_centis(text)?)),
        Verb::Otim => Some(IfaceMsg::Otim(read_lone_centis(text)?)),
        Verb::SetOption => read_setting(text),
        Verb::Memory => Some(IfaceMsg::Memory(read_lone_number(text)?)),
        Verb::Cores => Some(IfaceMsg::Cores(read_lone_number(text)?)),
        Verb::EgtPath => read_egt_path(text),
    }
}

/// A line that begins with no command word: white space, or a move alone.
fn read_other<'a>(word: &[u8], rest: &[u8]) -> Result<IfaceMsg<'a>, IfaceFault>
    ensures { read_as result ≡ other_line word.now rest.now }
{
    if word.is_empty() {
        return Ok(IfaceMsg::Blank);
    }
    if !rest.is_empty() {
        return Err(IfaceFault::UnknownCommand);
    }
    match read_move(word) {
        Some(m) => Ok(IfaceMsg::UserMove(m)),
        None => Err(IfaceFault::UnknownCommand),
    }
}

/// The message that a line spells, by what its first token means.
fn read_message(line: &[u8]) -> Result<IfaceMsg<'_>, IfaceFault>
    ensures { read_as result ≡ message_or_fault line.now }
{
    let (word, rest) = split_token(line);
    match command_named(word) {
        Some(Command::Ignored) => Ok(IfaceMsg::Ignored(trim(line))),
        Some(Command::Bare(word)) => Ok(bare_message(word)),
        Some(Command::With(verb)) => read_argument(verb, rest).ok_or(IfaceFault::BadArgument),
        None => read_other(word, rest),
    }
}

/// The message that a line of the interface spells (Chess Engine Communication Protocol, version 2,
/// section "Commands from xboard to the engine"). The line has no line feed.
pub fn read_iface(line: &[u8]) -> Result<IfaceMsg<'_>, IfaceFault>
    ensures value { read_as result ≡ message_or_fault line.now }
    // A message is read if and only if the line spells it.
    ensures spelled { (m : AnyIfaceMsg) → (read_as result ≡ Ok m) ↔ SpellsIfaceMsg line.now m }
    // The fault.
    ensures unknown { (result ≡ Err UnknownCommand) ↔ IsUnknown line.now }
    ensures bad { (result ≡ Err BadArgument) ↔ IsBad line.now }
{
    read_message(line)
}
