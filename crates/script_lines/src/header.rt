// The header of a script of version 2 or 3.
ghost use Rattle.std.specs.Prelude.{◌≡◌, ◌≤◌, ◌+◌, ◌↔◌, ◌∷◌, ◌++◌, [], length, Some, IfSome};
ghost use Rattle.line_io.specs.Out.{with};
ghost use Rattle.protocol_tokens.specs.Bytes.{blank};
ghost use Rattle.protocol_tokens.specs.Tokens.{tokens};
ghost use Rattle.policy_rules.specs.declared.setting_rules.settings.Settings.{Settings as SomeSettings};
ghost use Rattle.policy_rules.specs.SettingRules.Policy.{IsProper};
ghost use Rattle.policy_rules.specs.SettingRules.Table.{truth_text, setting_value_text};
ghost use Rattle.script_lines.specs.Header.{SpellsHeader, header_of, header_text, header_with, header_settings_in, setting_word_of, unusual_text, words_text};
ghost use Rattle.script_lines.specs.declared.header.TheConstants.{HEADER_ROOM};

use arrayvec::ArrayVec;
use itoa::Buffer;
use line_io::Out;
use policy_rules::{
    FIRST_SETTINGS, SETTINGS, STATED_SETTINGS, Setting, Settings, Value, read_choice,
};
use protocol_tokens::{next_token, split_token};

/// Room for any header, and for the words of later settings.
pub const HEADER_ROOM: usize = 512;

/// The text of a header, or a part of it.
type HeaderText = ArrayVec<u8, HEADER_ROOM>;

fn put(piece: &[u8], text: &mut HeaderText)
    requires { length text.old.items + length piece.now ≤ HEADER_ROOM }
    ensures { text.new.items ≡ text.old.items ++ piece.now }
{
    let _ = text.try_extend_from_slice(piece);
}

fn truth_text(value: bool) -> &'static [u8]
    ensures { result.now ≡ truth_text value }
{
    if value { b"true" } else { b"false" }
}

fn put_value(value: Value, text: &mut HeaderText)
    requires { length text.old.items + length (setting_value_text value) ≤ HEADER_ROOM }
    ensures { text.new.items ≡ text.old.items ++ setting_value_text value }
{
    match value {
        Value::Truth(value) => put(truth_text(value), text),
        Value::Number(value) => put(Buffer::new().format(value).as_bytes(), text),
    }
}

// Puts a blank and the word of a setting.
fn put_word(settings: &Settings, setting: Setting, text: &mut HeaderText)
    requires { length text.old.items + (length (setting_word_of settings.now setting) + 1) ≤
        HEADER_ROOM }
    ensures { text.new.items ≡ text.old.items ++ blank ∷ setting_word_of settings.now setting }
{
    put(b" ", text);
    put(setting.row().name.as_bytes(), text);
    put(b"=", text);
    put_value(settings.value(setting), text);
}

// Puts the words of these settings, with a blank before each.
fn put_words(settings: &Settings, list: &[Setting], text: &mut HeaderText)
    requires { length text.old.items + length (words_text settings.now list.now) ≤ HEADER_ROOM }
    ensures { text.new.items ≡ text.old.items ++ words_text settings.now list.now }
{
    let mut rest = list;
    while let [setting, others @ ..] = rest {
        put_word(settings, *setting, text);
        rest = others;
    }
}

// Puts the word of a setting that has not its usual value.
fn put_if_unusual(settings: &Settings, setting: Setting, text: &mut HeaderText)
    requires { length text.old.items + length (unusual_text settings.now (setting ∷ []))
        ≤ HEADER_ROOM }
    ensures { text.new.items ≡ text.old.items ++ unusual_text settings.now (setting ∷ []) }
{
    if !settings.is_usual(setting) {
        put_word(settings, setting, text);
    }
}

// Puts the words of those of these settings that have not their usual values.
fn put_unusual(settings: &Settings, list: &[Setting], text: &mut HeaderText)
    requires { length text.old.items + length (unusual_text settings.now list.now) ≤ HEADER_ROOM }
    ensures { text.new.items ≡ text.old.items ++ unusual_text settings.now list.now }
{
    let mut rest = list;
    while let [setting, others @ ..] = rest {
        put_if_unusual(settings, *setting, text);
        rest = others;
    }
}

fn header_with(version: &[u8], list: &[Setting], settings: &Settings) -> HeaderText
    requires { length (header_with version.now list.now settings.now) ≤ HEADER_ROOM }
    ensures { result.items ≡ header_with version.now list.now settings.now }
{
    let mut text = ArrayVec::new();
    put(version, &mut text);
    put_words(settings, list, &mut text);
    text
}

#[tactic(auto, unfolding(crate::specs::Header::header_text))]
fn header_text(settings: &Settings) -> HeaderText
    requires { length (header_text settings.now) ≤ HEADER_ROOM }
    ensures { result.items ≡ header_text settings.now }
{
    if settings.has_usual_rest() {
        header_with(b"#2", &SETTINGS[..FIRST_SETTINGS], settings)
    } else {
        let mut text = header_with(b"#3", &SETTINGS[..STATED_SETTINGS], settings);
        put_unusual(settings, &SETTINGS[STATED_SETTINGS..], &mut text);
        text
    }
}

// The settings that words choose, beginning with the usual ones.
fn read_settings(words: &[u8]) -> Option<Settings>
    ensures value { result ≡ header_settings_in (tokens words.now) }
    ensures proper { IfSome result (λ settings. IsProper settings) }
{
    let mut settings = Settings::usual();
    let mut rest = words;
    while let Some((word, others)) = next_token(rest) {
        settings = settings.with(read_choice(word)?);
        rest = others;
    }
    Some(settings)
}

/// The settings that a header states, if the line is one.
pub fn read_header(line: &[u8]) -> Option<Settings>
    ensures value { result ≡ header_of line.now }
    ensures exact { (settings : SomeSettings) → (result ≡ Some settings)
        ↔ SpellsHeader line.now settings }
{
    header_in(line)
}

// The settings that the words choose, if the line is what is written of them.
fn header_in(line: &[u8]) -> Option<Settings>
    ensures value { result ≡ header_of line.now }
    ensures proper { IfSome result (λ settings. IsProper settings) }
{
    let (_, words) = split_token(line);
    let settings = read_settings(words)?;
    if header_text(&settings).as_slice() == line {
        Some(settings)
    } else {
        None
    }
}

/// Writes the header of these settings, without a line feed.
pub fn write_header(settings: &Settings, out: &mut Out)
    requires proper { IsProper settings.now }
    requires room { length out.old.text + HEADER_ROOM ≤ out.old.room }
    ensures written { out.new ≡ with out.old (header_text settings.now) }
    ensures short { length (header_text settings.now) ≤ HEADER_ROOM }
    // The text written is read again.
    ensures again { header_of (header_text settings.now) ≡ Some settings.now }
{
    out.put(header_text(settings).as_slice());
}
