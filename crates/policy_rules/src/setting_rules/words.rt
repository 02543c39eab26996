// Words NAME=VALUE.
ghost use Rattle.std.specs.Prelude.{◌≡◌, ◌==◌, ◌≤◌, position, IfSome};
ghost use Rattle.policy_rules.specs.SettingRules.Table.{IsWithinRange, range_of_setting};
ghost use Rattle.policy_rules.specs.SettingRules.Words.{choice_of, is_equals, name_in, number_in_range, setting_named, truth_in, range_value};

use crate::setting_rules::table::{Choice, Range, SETTINGS, Setting, Value};
use protocol_tokens::read_digits;

/// The greatest number of digits of the number of a setting.
const NUMBER_PLACES: usize = 6;

impl Setting {
    // The setting of a name, if there is one.
    fn named(name: &[u8]) -> Option<Setting>
        ensures { result ≡ setting_named name.now }
    {
        let mut rest = SETTINGS.as_slice();
        while let [setting, others @ ..] = rest {
            if name == setting.row().name.as_bytes() {
                return Some(*setting);
            }
            rest = others;
        }
        None
    }
}

fn read_truth(text: &[u8]) -> Option<bool>
    ensures { result ≡ truth_in text.now }
{
    if text == b"true".as_slice() {
        Some(true)
    } else if text == b"false".as_slice() {
        Some(false)
    } else {
        None
    }
}

/// The number within a range that a text of so many digits at most spells, if it spells one.
pub fn read_number(text: &[u8], places: usize, least: u32, most: u32) -> Option<u32>
    requires { places ≤ 18 }
    ensures value { result ≡ number_in_range places least most text.now }
    ensures range { IfSome result (λ n. (least ≤ n) × (n ≤ most)) }
{
    let number = read_digits(text, places)?;
    if u64::from(least) <= number && number <= u64::from(most) {
        Some(number as u32)
    } else {
        None
    }
}

impl Range {
    // The value within this range that a text spells, if it spells one.
    fn read(self, text: &[u8]) -> Option<Value>
        ensures value { result ≡ range_value self text.now }
        ensures within { IfSome result (λ value. IsWithinRange self value) }
    {
        match self {
            Range::Truth => Some(Value::Truth(read_truth(text)?)),
            Range::Number { least, most } => Some(Value::Number(read_number(
                text,
                NUMBER_PLACES,
                least,
                most,
            )?)),
        }
    }
}

fn equals_at(word: &[u8]) -> Option<usize>
    ensures { result ≡ position is_equals word.now }
{
    word.iter().position(|byte| *byte == b'=')
}

/// The name in a word NAME=VALUE: what is before the first `=`, or all if there is none.
pub fn name_in(word: &[u8]) -> &[u8]
    ensures { result.now ≡ name_in word.now }
{
    match equals_at(word) {
        Some(at) => &word[..at],
        None => word,
    }
}

/// The choice of a word NAME=VALUE, if it is one.
pub fn read_choice(word: &[u8]) -> Option<Choice>
    ensures value { result ≡ choice_of word.now }
    ensures within { IfSome result (λ choice. IsWithinRange (range_of_setting choice.setting)
        choice.value) }
{
    let at = equals_at(word)?;
    let setting = Setting::named(&word[..at])?;
    let value = setting.row().range.read(&word[at + 1..])?;
    Some(Choice { setting, value })
}
