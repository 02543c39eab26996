// The lengths of feature lines.
ghost use Rattle.std.specs.Prelude.{◌≡◌, ◌≤◌, length, false, codes, ◌++◌, ◌*◌};
ghost use Rattle.std.specs.Fmt.{signed_decimal};
ghost use Rattle.std.specs.List.{list_any};
ghost use Rattle.uci_lines.specs.Choices.{values};
ghost use Rattle.uci_lines.specs.Messages.{option_kind_of};
ghost use Rattle.option_map.specs.DeclaredOptions.Names.{same_text};
ghost use Rattle.option_map.specs.DeclaredOptions.Choices.{bars_length, are_bad_values, choices_text, with_star};
ghost use Rattle.option_map.specs.DeclaredOptions.Settings.{if_within, setting_kind_text, shown_kind, shown_length, kept_as, spin_feature_text, is_bad_shape};
ghost use Rattle.option_map.specs.declared.declared_options.names.TheConstants.{MOST_OPTION_NAME};
ghost use Rattle.option_map.specs.declared.declared_options.options.TheConstants.{FEATURE_BYTES};

use crate::declared_options::names::same_text;
use crate::declared_options::style::{TextFeature, text_word};
use itoa::Buffer;
use uci_lines::{OptionKind, OptionMsg, next_value};

fn within(length: usize, most: usize) -> Option<usize>
    ensures { result ≡ if_within most length }
{
    if length <= most { Some(length) } else { None }
}

fn has_default(default: &[u8], text: &[u8]) -> bool
    ensures { result ≡ list_any (same_text default.now) (values text.now) }
{
    let mut others = text;
    while let Some((value, after)) = next_value(others) {
        if same_text(default, value) {
            return true;
        }
        others = after;
    }
    false
}

/// The length of the values with five bytes before each.
fn bars_length(text: &[u8], most: usize) -> Option<usize>
    requires { most ≤ 2 * FEATURE_BYTES }
    ensures { result ≡ if_within most (bars_length (values text.now)) }
{
    let mut sum = 0;
    let mut others = text;
    while let Some((value, after)) = next_value(others) {
        let more = sum + 5 + value.len();
        if more > most {
            return None;
        }
        sum = more;
        others = after;
    }
    Some(sum)
}

fn choices_length(default: &[u8], text: &[u8], most: usize) -> Option<usize>
    requires good { are_bad_values (values text.now) ≡ false }
    requires room { most ≤ FEATURE_BYTES }
    ensures { result
        ≡ if_within most (length (choices_text (with_star default.now (values text.now)))) }
{
    let bars = bars_length(text, most + 5)?;
    let star = if has_default(default, text) { 1 } else { 0 };
    within(bars - 5 + star, most)
}

/// The length of a number in bytes.
pub(crate) fn number_length(n: i64) -> usize
    ensures length { result ≡ length (signed_decimal n) }
    ensures short { result ≤ 40 }
{
    Buffer::new().format(n).len()
}

fn spin_length(default: i64, min: i64, max: i64) -> usize
    ensures { result ≡ length (spin_feature_text default min max) }
{
    9 + number_length(default) + number_length(min) + number_length(max)
}

fn kind_length(kind: OptionKind, feature: TextFeature, most: usize) -> Option<usize>
    requires good { is_bad_shape (option_kind_of kind) ≡ false }
    requires room { most ≤ FEATURE_BYTES }
    ensures { result
        ≡ if_within most
        (length (setting_kind_text feature (shown_kind (option_kind_of kind.entry)))) }
{
    match kind {
        OptionKind::Check { .. } => within(9, most),
        OptionKind::Spin { default, min, max } => within(spin_length(default, min, max), most),
        OptionKind::Combo { default, values } => within(
            8 + choices_length(default, values, most)?,
            most,
        ),
        OptionKind::Button => within(8, most),
        OptionKind::Text { default } => within(text_word(feature).len() + default.len(), most),
    }
}

/// The length of an option's feature line, 0 if it has none, if it is not above the most.
pub(crate) fn shown_length(
    msg: &OptionMsg,
    hidden: bool,
    feature: TextFeature,
    most: usize,
) -> Option<usize>
    requires good { is_bad_shape (option_kind_of msg.now.kind) ≡ false }
    requires short { length msg.now.name.now ≤ MOST_OPTION_NAME }
    requires room { most ≤ FEATURE_BYTES }
    ensures { result
        ≡ if_within most
        (shown_length (kept_as hidden feature msg.now.name.now (option_kind_of msg.now.kind))) }
{
    if hidden {
        return Some(0);
    }
    within(
        17 + msg.name.len() + kind_length(msg.kind, feature, most)?,
        most,
    )
}
