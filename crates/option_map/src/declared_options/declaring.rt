// The options that can be shown.
ghost use Rattle.std.specs.Prelude.{◌≡◌};
ghost use Rattle.uci_lines.specs.Messages.{option_kind_of};
ghost use Rattle.option_map.specs.DeclaredOptions.Settings.{cannot_be_shown, is_bad_shape, is_unshowable};

use crate::declared_options::choices::are_bad_values;
use crate::declared_options::names::{holds, is_bad_name};
use crate::declared_options::plain::is_not_plain;
use crate::declared_options::style::FeatureStyle;
use uci_lines::{OptionKind, OptionMsg};

fn is_bad_kind(kind: OptionKind) -> bool
    ensures { result ≡ is_bad_shape (option_kind_of kind.entry) }
{
    match kind {
        OptionKind::Combo { default, values } => holds(b'"', default) || are_bad_values(values),
        OptionKind::Text { default } => holds(b'"', default),
        OptionKind::Check { .. } | OptionKind::Spin { .. } | OptionKind::Button => false,
    }
}

fn cannot_be_shown(msg: &OptionMsg) -> bool
    ensures { result ≡ cannot_be_shown msg.now.name.now (option_kind_of msg.now.kind) }
{
    is_bad_name(msg.name) || is_bad_kind(msg.kind)
}

/// True if no feature line can show an option, no order can set it, or it is not to be shown in this style.
pub(crate) fn is_unshowable(style: FeatureStyle, msg: &OptionMsg) -> bool
    ensures { result ≡ is_unshowable style msg.now.name.now (option_kind_of msg.now.kind) }
{
    cannot_be_shown(msg) || is_not_plain(style, msg)
}
