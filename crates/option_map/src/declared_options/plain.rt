// Texts without control bytes.
ghost use Rattle.std.specs.Prelude.{◌≡◌};
ghost use Rattle.std.specs.List.{list_any};
ghost use Rattle.uci_lines.specs.Choices.{values};
ghost use Rattle.uci_lines.specs.Messages.{option_kind_of};
ghost use Rattle.option_map.specs.DeclaredOptions.Styles.{is_control, has_control, is_control_shape, is_not_plain, blanked_byte};

use crate::declared_options::style::FeatureStyle;
use uci_lines::{OptionKind, OptionMsg, next_value};

/// The control byte above the printable ones.
const DELETE: u8 = 127;

fn is_control(byte: u8) -> bool
    ensures { result ≡ is_control byte }
{
    byte < b' ' || byte == DELETE
}

/// A blank for a control byte.
pub(crate) fn blanked_byte(byte: u8) -> u8
    ensures { result ≡ blanked_byte byte }
{
    if is_control(byte) { b' ' } else { byte }
}

fn has_control(text: &[u8]) -> bool
    ensures { result ≡ has_control text.now }
{
    text.iter().any(|b| is_control(*b))
}

fn is_control_value(text: &[u8]) -> bool
    ensures { result ≡ list_any has_control (values text.now) }
{
    let mut others = text;
    while let Some((value, after)) = next_value(others) {
        if has_control(value) {
            return true;
        }
        others = after;
    }
    false
}

fn is_control_kind(kind: OptionKind) -> bool
    ensures { result ≡ is_control_shape (option_kind_of kind.entry) }
{
    match kind {
        OptionKind::Combo { default, values } => has_control(default) || is_control_value(values),
        OptionKind::Text { default } => has_control(default),
        OptionKind::Check { .. } | OptionKind::Spin { .. } | OptionKind::Button => false,
    }
}

/// True if an option is not shown for a control byte in one of its texts.
pub(crate) fn is_not_plain(style: FeatureStyle, msg: &OptionMsg) -> bool
    ensures { result ≡ is_not_plain style msg.now.name.now (option_kind_of msg.now.kind) }
{
    style.plain && (has_control(msg.name) || is_control_kind(msg.kind))
}
