// The names of options.
ghost use Rattle.std.specs.Prelude.{◌≡◌, ◌≤◌, ◌<◌, ◌∷◌, [], length, MatchOption, IfSome, codes, nat_eq};
ghost use Rattle.std.specs.List.{starts_with};
ghost use Rattle.protocol_tokens.specs.Tokens.{tokens};
ghost use Rattle.option_map.specs.DeclaredOptions.Names.{folded, same_text, holds, has_command, begins_with_uci, limits_strength, is_hidden, has_value_token, is_bad_name};
ghost use Rattle.option_map.specs.declared.declared_options.names.TheConstants.{MOST_OPTION_NAME};

use arrayvec::ArrayVec;
use protocol_tokens::next_token;

/// The greatest length of the name of an option in bytes.
pub(crate) const MOST_OPTION_NAME: usize = 128;

/// A name of at most `MOST_OPTION_NAME` bytes.
pub(crate) type Name = ArrayVec<u8, MOST_OPTION_NAME>;

/// Equal, case ignored.
pub(crate) fn same_text(a: &[u8], b: &[u8]) -> bool
    ensures { result ≡ same_text a.now b.now }
{
    a.eq_ignore_ascii_case(b)
}

/// A name with ASCII letters in lower case.
pub(crate) fn folded(name: &[u8]) -> Name
    requires { length name.now ≤ MOST_OPTION_NAME }
    ensures { result.items ≡ folded name.now }
{
    let mut lower = ArrayVec::new();
    for byte in name {
        lower.push(byte.to_ascii_lowercase());
    }
    lower
}

/// A name as it is spelled.
pub(crate) fn spelled(name: &[u8]) -> Name
    requires { length name.now ≤ MOST_OPTION_NAME }
    ensures { result.items ≡ name.now }
{
    let mut copy = ArrayVec::new();
    for byte in name {
        copy.push(*byte);
    }
    copy
}

/// True if a byte is in a text.
pub(crate) fn holds(byte: u8, text: &[u8]) -> bool
    ensures { result ≡ holds byte text.now }
{
    text.iter().any(|b| *b == byte)
}

fn begins_with_uci(name: &[u8]) -> bool
    ensures { result ≡ begins_with_uci name.now }
{
    match name {
        [a, b, c, b'_', ..] => same_text(&[*a, *b, *c], b"uci"),
        _ => false,
    }
}

// True if an option of this name has a command of its own.
fn has_command(name: &[u8]) -> bool
    ensures { result ≡ has_command name.now }
{
    same_text(b"Ponder", name)
        || same_text(b"Hash", name)
        || same_text(b"Threads", name)
        || same_text(b"NalimovPath", name)
}

// True if an option of this name limits how strongly the engine plays.
fn limits_strength(name: &[u8]) -> bool
    ensures { result ≡ limits_strength name.now }
{
    same_text(b"UCI_LimitStrength", name) || same_text(b"UCI_Elo", name)
}

/// True if an option of this name is not shown; `strength` says whether those are that limit the strength.
pub(crate) fn is_hidden(strength: bool, name: &[u8]) -> bool
    ensures { result ≡ is_hidden strength name.now }
{
    has_command(name) || begins_with_uci(name) && !(strength && limits_strength(name))
}

fn has_value_token(name: &[u8]) -> bool
    ensures { result ≡ has_value_token name.now }
{
    let mut others = name;
    while let Some((token, after)) = next_token(others) {
        if token == b"value".as_slice() {
            return true;
        }
        others = after;
    }
    false
}

/// True if a name cannot be shown, or cannot be set.
pub(crate) fn is_bad_name(name: &[u8]) -> bool
    ensures { result ≡ is_bad_name name.now }
{
    name.is_empty()
        || name.len() > MOST_OPTION_NAME
        || holds(b'"', name)
        || holds(b'=', name)
        || has_value_token(name)
}
