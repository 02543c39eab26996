// The form in which options are kept.
ghost use Rattle.std.specs.Prelude.{◌≡◌, ◌≤◌, ◌+◌, length};
ghost use Rattle.option_map.specs.WaitingOrders.Asked.{IsRange};
ghost use Rattle.option_map.specs.DeclaredOptions.Stored.{setting_seen, setting_in, kind_seen, kind_in, text_at, IsKindIn, IsSpanIn};

use crate::declared_options::names::Name;
use crate::declared_options::setting::{OptionSetting, SettingKind, TextSpan};
use crate::declared_options::style::TextFeature;

/// The kind of an option, whose texts stand in a buffer of all texts.
#[derive(Clone, Copy)]
pub(crate) enum StoredKind {
    Check(bool),
    Spin { default: i64, min: i64, max: i64 },
    Combo(TextSpan),
    Button,
    Text(TextSpan),
}

#[derive(Drop)]
pub(crate) struct Stored {
    pub name: Name,
    pub kind: StoredKind,
    pub hidden: bool,
    pub text_feature: TextFeature,
}

/// The text of a span.
pub(crate) fn text_at(texts: &[u8], span: TextSpan) -> &[u8]
    requires { IsSpanIn (length texts.now) span }
    ensures { result.now ≡ text_at texts.now span }
{
    &texts[span.at..span.at + span.len]
}

fn kind_in(texts: &[u8], kind: StoredKind) -> SettingKind<'_>
    requires { IsKindIn (length texts.now) kind }
    ensures kind { kind_seen result ≡ kind_in texts.now kind }
    ensures range { IsRange (kind_seen result) }
{
    match kind {
        StoredKind::Check(on) => SettingKind::Check(on),
        StoredKind::Spin { default, min, max } => SettingKind::Spin { default, min, max },
        StoredKind::Combo(span) => SettingKind::Combo(text_at(texts, span)),
        StoredKind::Button => SettingKind::Button,
        StoredKind::Text(span) => SettingKind::Text(text_at(texts, span)),
    }
}

/// An option whose texts stand in the buffer.
pub(crate) fn setting_in<'a>(texts: &'a [u8], stored: &'a Stored) -> OptionSetting<'a>
    requires { IsKindIn (length texts.now) stored.now.kind }
    ensures setting { setting_seen result ≡ setting_in texts.now stored.now }
    ensures range { IsRange (kind_seen result.kind) }
{
    OptionSetting {
        name: stored.name.as_slice(),
        kind: kind_in(texts, stored.kind),
        hidden: stored.hidden,
        text_feature: stored.text_feature,
    }
}
