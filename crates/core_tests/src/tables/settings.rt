// The table of settings, and what no word of a program shows of it.
use crate::expect::expect;
use policy_rules::{Range, SETTINGS, Setting, Settings, Value, name_in, read_number};

/// A name, and the text of its usual value.
const ROWS: [(&str, &str); 15] = [
    ("Resign", "false"),
    ("ResignMoves", "3"),
    ("ResignScore", "600"),
    ("ShowPonder", "true"),
    ("EarlySettings", "false"),
    ("ResignWhenGone", "false"),
    ("HandleDraws", "true"),
    ("ShowSan", "false"),
    ("StrengthOptions", "false"),
    ("FenceStops", "false"),
    ("ResultReasons", "false"),
    ("TimeMargin", "0"),
    ("PlainTexts", "false"),
    ("PathOptions", "false"),
    ("RepeatThinking", "false"),
];

/// True if a setting has this name and this usual value.
fn is_called(setting: Setting, name: &str, usual: &str) -> bool {
    let row = setting.row();
    row.name == name && row.usual == usual
}

/// True if the usual value of a setting is a number just if its range is one of numbers.
fn is_in_range(setting: Setting) -> bool {
    let has_numbers = matches!(setting.row().range, Range::Number { .. });
    let value = Settings::usual().value(setting);
    matches!(value, Value::Number(_)) == has_numbers
}

#[test]
fn has_a_row_for_each_setting(rt: HostRuntime) {
    for (setting, (name, usual)) in SETTINGS.iter().zip(&ROWS) {
        expect(&rt, is_called(*setting, name, usual), name);
        expect(&rt, is_in_range(*setting), name);
    }
}

#[test]
fn words_are_read(rt: HostRuntime) {
    for word in [b"ShowSan=true=".as_slice(), b"ShowSan"] {
        expect(&rt, name_in(word) == b"ShowSan".as_slice(), "a name");
    }
    expect(&rt, read_number(b"0042", 4, 42, 42) == Some(42), "a number");
    expect(&rt, read_number(b"43", 4, 0, 42).is_none(), "too large");
}
