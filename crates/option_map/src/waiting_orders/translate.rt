// Lines of the interface that set options.
ghost use Rattle.std.specs.Prelude.{◌≡◌, ◌≤◌, ◌+◌, ◌||◌, length, Ok, Some, None};
ghost use Rattle.std.specs.Fmt.{signed_decimal};
ghost use Rattle.std.specs.Option.{option_map, option_and_then};
ghost use Rattle.std.specs.Str.{bytes_eq};
ghost use Rattle.protocol_tokens.specs.Numbers.{signed_number};
ghost use Rattle.line_io.specs.Out.{with};
ghost use Rattle.uci_lines.specs.Orders.{uci_order_of, uci_order_text, optional_now};
ghost use Rattle.uci_lines.specs.Orders as orders;
ghost use Rattle.cecp_lines.specs.Messages.{message_of};
ghost use Rattle.option_map.specs.DeclaredOptions.Choices.{chosen, choices_in};
ghost use Rattle.option_map.specs.DeclaredOptions.Data.{value_seen, order_seen, answer_seen};
ghost use Rattle.option_map.specs.DeclaredOptions.Stored.{setting_seen, kind_seen};
ghost use Rattle.option_map.specs.WaitingOrders.Asked.{switch, number_within, text_or_empty, value_by, set_by, set_to, asked_text, is_asked, with_asked, clamped, path_for, set_found};

use crate::declared_options::choices::{next_choice, unstarred};
use crate::declared_options::fault::OptionFault;
use crate::declared_options::names::same_text;
use crate::declared_options::options::Options;
use crate::declared_options::setting::{OptionSetting, SettingKind};
use crate::waiting_orders::order::{AskedOption, OptionValue};
use cecp_lines::IfaceMsg;
use line_io::Out;
use protocol_tokens::{read_signed, trim};

fn chosen<'a>(value: &[u8], choices: &'a [u8]) -> Option<&'a [u8]>
    ensures { optional_now result ≡ chosen value.now (choices_in choices.now) }
{
    let mut others = choices;
    while let Some((choice, after)) = next_choice(others) {
        let choice = unstarred(choice);
        if same_text(value, choice) {
            return Some(choice);
        }
        others = after;
    }
    None
}

fn is_either(value: &[u8], first: &[u8], second: &[u8]) -> bool
    ensures { result ≡ (bytes_eq value.now first.now || bytes_eq value.now second.now) }
{
    value == first || value == second
}

fn switch(value: &[u8]) -> Option<&[u8]>
    ensures { optional_now result ≡ switch value.now }
{
    if is_either(value, b"1", b"true") {
        Some(b"true")
    } else if is_either(value, b"0", b"false") {
        Some(b"false")
    } else {
        None
    }
}

fn text_or_empty(text: &[u8]) -> &[u8]
    ensures { result.now ≡ text_or_empty text.now }
{
    match text {
        [] => b"<empty>",
        _ => text,
    }
}

fn number_within(min: i64, max: i64, value: &[u8]) -> Option<i64>
    ensures { option_map signed_decimal result
        ≡ option_and_then (number_within min max) (signed_number value.now) }
{
    let n = read_signed(value)?;
    if n < min || n > max { None } else { Some(n) }
}

/// The order by a value that may be bad.
fn set_to<'a>(
    name: &'a [u8],
    value: Option<OptionValue<'a>>,
) -> Result<Option<AskedOption<'a>>, OptionFault>
    ensures { answer_seen result ≡ set_to name.now (option_map value_seen value.entry) }
{
    match value {
        Some(value) => Ok(Some(AskedOption {
            name,
            value: Some(value),
        })),
        None => Err(OptionFault::BadValue),
    }
}

fn value_by<'a>(kind: SettingKind<'a>, value: &'a [u8]) -> Option<OptionValue<'a>>
    ensures { option_map value_seen result ≡ value_by (kind_seen kind.entry) value.now }
{
    match kind {
        SettingKind::Check(_) => Some(OptionValue::Text(switch(value)?)),
        SettingKind::Spin { min, max, .. } => Some(OptionValue::Number(number_within(
            min, max, value,
        )?)),
        SettingKind::Combo(choices) => Some(OptionValue::Text(chosen(value, choices)?)),
        SettingKind::Button => None,
        SettingKind::Text(_) => Some(OptionValue::Text(text_or_empty(trim(value)))),
    }
}

// A button takes no value, and every other option needs one.
fn set_by<'a>(
    setting: OptionSetting<'a>,
    value: Option<&'a [u8]>,
) -> Result<Option<AskedOption<'a>>, OptionFault>
    ensures { answer_seen result ≡ set_by (setting_seen setting.entry) (optional_now value.entry) }
{
    match (value, setting.kind) {
        (Some(value), kind) => set_to(setting.name, value_by(kind, value)),
        (None, SettingKind::Button) => Ok(Some(AskedOption {
            name: setting.name,
            value: None,
        })),
        (None, _) => Err(OptionFault::BadValue),
    }
}

fn set_found<'a>(
    found: Option<OptionSetting<'a>>,
    value: Option<&'a [u8]>,
) -> Result<Option<AskedOption<'a>>, OptionFault>
    ensures { answer_seen result
        ≡ set_found (option_map setting_seen found.entry) (optional_now value.entry) }
{
    let Some(setting) = found else {
        return Err(OptionFault::UnknownOption);
    };
    if setting.hidden {
        return Err(OptionFault::UnknownOption);
    }
    set_by(setting, value)
}

// A number, moved into the range of a spin.
fn clamped(found: Option<OptionSetting<'_>>, n: u32) -> Option<AskedOption<'_>>
    ensures { option_map order_seen result ≡ clamped (option_map setting_seen found.entry) n }
{
    match found {
        Some(
            OptionSetting {
                name,
                kind: SettingKind::Spin { min, max, .. },
                ..
            },
        ) => Some(AskedOption {
            name,
            value: Some(OptionValue::Number(i64::from(n).min(max).max(min))),
        }),
        _ => None,
    }
}

fn path_for<'a>(found: Option<OptionSetting<'a>>, path: &'a [u8]) -> Option<AskedOption<'a>>
    ensures { option_map order_seen result
        ≡ path_for (option_map setting_seen found.entry) path.now }
{
    match found {
        Some(
            OptionSetting {
                name,
                kind: SettingKind::Text(_),
                ..
            },
        ) => Some(AskedOption {
            name,
            value: Some(OptionValue::Text(path)),
        }),
        _ => None,
    }
}

impl Options {
    ghost use Rattle.option_map.specs.WaitingOrders.Asked.{asked, asked_text, is_asked, with_asked};

    /// The order that a line asks for, if it asks for one.
    ///
    /// # Errors
    /// `UnknownOption` if no option of this name is declared that is not hidden, `BadValue` if the
    /// option does not take the value.
    pub fn asked<'a>(&'a self, msg: &IfaceMsg<'a>) -> Result<Option<AskedOption<'a>>, OptionFault>
        ensures { answer_seen result ≡ asked self.now (message_of msg.now) }
    {
        match msg {
            IfaceMsg::SetOption { name, value } => set_found(self.find(name), *value),
            IfaceMsg::Memory(n) => Ok(clamped(self.find(b"Hash"), *n)),
            IfaceMsg::Cores(n) => Ok(clamped(self.find(b"Threads"), *n)),
            IfaceMsg::EgtPath { kind, path } => {
                if !same_text(b"nalimov", kind) {
                    return Ok(None);
                }
                Ok(path_for(self.find(b"NalimovPath"), path))
            }
            _ => Ok(None),
        }
    }

    /// Writes the order that a line asks for, with no line feed, and reports whether it asks for one.
    ///
    /// # Errors
    /// As those of `asked`.
    pub fn translate(&self, msg: &IfaceMsg, out: &mut Out) -> Result<bool, OptionFault>
        requires { length out.old.text + length (asked_text (asked self.now (message_of msg.now)))
            ≤ out.old.room }
        ensures answer { result ≡ is_asked (asked self.now (message_of msg.now)) }
        ensures text { out.new ≡ with_asked out.old (asked self.now (message_of msg.now)) }
    {
        match self.asked(msg) {
            Ok(Some(asked)) => {
                asked.write(out);
                Ok(true)
            }
            Ok(None) => Ok(false),
            Err(fault) => Err(fault),
        }
    }
}
