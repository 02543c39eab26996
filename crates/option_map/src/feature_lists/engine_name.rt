// The name of an engine as the interface is shown it.
ghost use Rattle.std.specs.Prelude.{◌≡◌, ◌≤◌, length, []};
ghost use Rattle.protocol_tokens.specs.Tokens.{trim_left, trim_right, trimmed};
ghost use Rattle.option_map.specs.DeclaredOptions.Styles.{blanked_text, name_in_style};
ghost use Rattle.option_map.specs.FeatureLists.Features.{shown_name};
ghost use Rattle.option_map.specs.declared.feature_lists.list.TheConstants.{MOST_NAME};

use crate::declared_options::plain::blanked_byte;
use crate::declared_options::style::FeatureStyle;
use crate::feature_lists::list::{MOST_NAME, shown_name};
use arrayvec::ArrayVec;
use protocol_tokens::is_white;

/// A name that is shown.
pub type ShownName = ArrayVec<u8, MOST_NAME>;

// The text without the white space and control bytes at its start.
fn cut_start(text: &[u8]) -> &[u8]
    ensures { blanked_text result.now ≡ trim_left (blanked_text text.now) }
{
    let mut rest = text;
    while let [first, others @ ..] = rest {
        if !is_white(blanked_byte(*first)) {
            break;
        }
        rest = others;
    }
    rest
}

// The text without the white space and control bytes at its end.
fn cut_end(text: &[u8]) -> &[u8]
    ensures { blanked_text result.now ≡ trim_right (blanked_text text.now) }
{
    let mut rest = text;
    while let [others @ .., last] = rest {
        if !is_white(blanked_byte(*last)) {
            break;
        }
        rest = others;
    }
    rest
}

fn copied(name: &[u8]) -> ShownName
    requires { length name.now ≤ MOST_NAME }
    ensures { result.items ≡ name.now }
{
    let mut copy = ArrayVec::new();
    for byte in name {
        copy.push(*byte);
    }
    copy
}

fn blanked_copy(name: &[u8]) -> ShownName
    requires { length name.now ≤ MOST_NAME }
    ensures { result.items ≡ blanked_text name.now }
{
    let mut copy = ArrayVec::new();
    for byte in name {
        copy.push(blanked_byte(*byte));
    }
    copy
}

/// The name that is shown before the engine gave one.
pub fn unnamed() -> ShownName
    ensures { result.items ≡ shown_name [] }
{
    copied(shown_name(b""))
}

// The name that is shown of an engine that gave this one, with blanks for its control bytes.
fn plain_name(said: &[u8]) -> ShownName
    ensures { result.items ≡ shown_name (trimmed (blanked_text said.now)) }
{
    blanked_copy(shown_name(cut_end(cut_start(said))))
}

/// The name that is shown of an engine that gave this one: if texts are to be plain, it has a blank for each control
/// byte, before its ends are cut.
pub fn name_to_show(style: FeatureStyle, said: &[u8]) -> ShownName
    ensures { result.items ≡ shown_name (name_in_style style said.now) }
{
    if style.plain {
        plain_name(said)
    } else {
        copied(shown_name(said))
    }
}
