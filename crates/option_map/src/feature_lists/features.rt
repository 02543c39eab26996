// The feature lines of options.
ghost use Rattle.std.specs.Prelude.{◌≡◌, ◌≤◌, ◌+◌, length};
ghost use Rattle.std.specs.Fmt.{signed_decimal};
ghost use Rattle.line_io.specs.Out.{with};
ghost use Rattle.option_map.specs.DeclaredOptions.Choices.{choices_text, choices_in, with_bars};
ghost use Rattle.option_map.specs.DeclaredOptions.Settings.{setting_kind_text, feature_line, feature_text, spin_feature_text, bit_text};
ghost use Rattle.option_map.specs.DeclaredOptions.Stored.{setting_seen, kind_seen};
ghost use Rattle.std.specs.List.{flat_map};

use crate::declared_options::choices::next_choice;
use crate::declared_options::setting::{OptionSetting, SettingKind};
use crate::declared_options::style::{TextFeature, text_word};
use itoa::Buffer;
use line_io::Out;

fn put_number(n: i64, out: &mut Out)
    requires { length out.old.text + length (signed_decimal n) ≤ out.old.room }
    ensures { out.new ≡ with out.old (signed_decimal n) }
{
    out.put(Buffer::new().format(n).as_bytes());
}

fn put_spin(default: i64, min: i64, max: i64, out: &mut Out)
    requires { length out.old.text + length (spin_feature_text default min max) ≤
        out.old.room }
    ensures { out.new ≡ with out.old (spin_feature_text default min max) }
{
    out.put(b" -spin ");
    put_number(default, out);
    out.put(b" ");
    put_number(min, out);
    out.put(b" ");
    put_number(max, out);
}

fn put_bars_before(choice: &[u8], out: &mut Out)
    requires { length out.old.text + length (with_bars choice.now) ≤ out.old.room }
    ensures { out.new ≡ with out.old (with_bars choice.now) }
{
    out.put(b" /// ");
    out.put(choice);
}

fn put_barred(choices: &[u8], out: &mut Out)
    requires { length out.old.text + length (flat_map with_bars (choices_in choices.now))
        ≤ out.old.room }
    ensures { out.new ≡ with out.old (flat_map with_bars (choices_in choices.now)) }
{
    let mut others = choices;
    while let Some((choice, after)) = next_choice(others) {
        put_bars_before(choice, out);
        others = after;
    }
}

fn put_choices(choices: &[u8], out: &mut Out)
    requires { length out.old.text + length (choices_text (choices_in choices.now)) ≤ out.old.room }
    ensures { out.new ≡ with out.old (choices_text (choices_in choices.now)) }
{
    if let Some((choice, others)) = next_choice(choices) {
        out.put(choice);
        put_barred(others, out);
    }
}

fn put_kind(feature: TextFeature, kind: SettingKind, out: &mut Out)
    requires { length out.old.text + length (setting_kind_text feature (kind_seen kind)) ≤ out.old.room }
    ensures { out.new ≡ with out.old (setting_kind_text feature (kind_seen kind.entry)) }
{
    match kind {
        SettingKind::Check(on) => {
            out.put(b" -check ");
            out.put(if on { b"1" } else { b"0" });
        }
        SettingKind::Spin { default, min, max } => put_spin(default, min, max, out),
        SettingKind::Combo(choices) => {
            out.put(b" -combo ");
            put_choices(choices, out);
        }
        SettingKind::Button => out.put(b" -button"),
        SettingKind::Text(default) => {
            out.put(text_word(feature));
            out.put(default);
        }
    }
}

fn put_feature_line(setting: OptionSetting, out: &mut Out)
    requires { length out.old.text + length (feature_line (setting_seen setting)) ≤ out.old.room }
    ensures { out.new ≡ with out.old (feature_line (setting_seen setting.entry)) }
{
    out.put(b"feature option=\"");
    out.put(setting.name);
    put_kind(setting.text_feature, setting.kind, out);
    out.put(b"\"");
}

/// Puts the feature line of an option that is not hidden, with its line feed.
pub(crate) fn put_feature(setting: OptionSetting, out: &mut Out)
    requires { length out.old.text + length (feature_text (setting_seen setting)) ≤ out.old.room }
    ensures { out.new ≡ with out.old (feature_text (setting_seen setting.entry)) }
{
    if !setting.hidden {
        put_feature_line(setting, out);
        out.put(b"\n");
    }
}
