// The table of settings.
ghost use Rattle.std.specs.Prelude.{◌≡◌, Some};
ghost use Rattle.policy_rules.specs.SettingRules.Policy.{usual, IsProper};
ghost use Rattle.policy_rules.specs.SettingRules.Table.{IsWithinRange, has_usual_rest, is_same_value, is_true, is_usual, is_usual_in, name_of, number_of_value, range_of_setting, usual_text, setting_value, with_choice};
ghost use Rattle.policy_rules.specs.SettingRules.Words.{range_value};
ghost use Rattle.policy_rules.specs.declared.setting_rules.table.Range.TheVariants as ranges;

use crate::setting_rules::settings::{MOST_MARGIN, MOST_MOVES, MOST_SCORE, Settings};

/// A setting, by its name.
#[derive(Clone, Copy)]
pub enum Setting {
    Resign,
    ResignMoves,
    ResignScore,
    ShowPonder,
    EarlySettings,
    ResignWhenGone,
    HandleDraws,
    ShowSan,
    StrengthOptions,
    FenceStops,
    ResultReasons,
    TimeMargin,
    PlainTexts,
    PathOptions,
    RepeatThinking,
}

/// The settings in the order in which a header states them.
pub const SETTINGS: [Setting; 15] = [
    Setting::Resign,
    Setting::ResignMoves,
    Setting::ResignScore,
    Setting::ShowPonder,
    Setting::EarlySettings,
    Setting::ResignWhenGone,
    Setting::HandleDraws,
    Setting::ShowSan,
    Setting::StrengthOptions,
    Setting::FenceStops,
    Setting::ResultReasons,
    Setting::TimeMargin,
    Setting::PlainTexts,
    Setting::PathOptions,
    Setting::RepeatThinking,
];

/// The number of them that every header states. A header of version 2 states no others.
pub const FIRST_SETTINGS: usize = 4;

/// The number of them that every header of version 3 states. Of the later ones it states those that
/// have not their usual value.
pub const STATED_SETTINGS: usize = 9;

/// The values that a setting may have.
#[derive(Clone, Copy)]
pub enum Range {
    Truth,
    Number { least: u32, most: u32 },
}

/// The value of a setting.
#[derive(Clone, Copy)]
pub enum Value {
    Truth(bool),
    Number(u32),
}

/// The choice of a word NAME=VALUE.
#[derive(Clone, Copy)]
pub struct Choice {
    pub setting: Setting,
    pub value: Value,
}

/// A row of the table.
#[derive(Clone, Copy)]
pub struct SettingRow {
    pub name: &'static str,
    pub range: Range,
    /// The text of the usual value.
    pub usual: &'static str,
}

fn truth(name: &'static str, usual: &'static str) -> SettingRow
    ensures name { result.name.now ≡ name.now }
    ensures range { result.range ≡ ranges.Truth }
    ensures usual { result.usual.now ≡ usual.now }
{
    SettingRow {
        name,
        range: Range::Truth,
        usual,
    }
}

fn number(name: &'static str, usual: &'static str, least: u32, most: u32) -> SettingRow
    ensures name { result.name.now ≡ name.now }
    ensures range { result.range ≡ ranges.Number least most }
    ensures usual { result.usual.now ≡ usual.now }
{
    SettingRow {
        name,
        range: Range::Number { least, most },
        usual,
    }
}

impl Setting {
    /// Its row of the table.
    pub fn row(self) -> SettingRow
        ensures name { result.name.now ≡ name_of self }
        ensures range { result.range ≡ range_of_setting self }
        ensures usual { result.usual.now ≡ usual_text self }
        // This text is read as the usual value.
        ensures read { range_value (range_of_setting self) (usual_text self) ≡ Some
            (setting_value usual self) }
    {
        match self {
            Setting::Resign => truth("Resign", "false"),
            Setting::ResignMoves => number("ResignMoves", "3", 1, MOST_MOVES),
            Setting::ResignScore => number("ResignScore", "600", 0, MOST_SCORE),
            Setting::ShowPonder => truth("ShowPonder", "true"),
            Setting::EarlySettings => truth("EarlySettings", "false"),
            Setting::ResignWhenGone => truth("ResignWhenGone", "false"),
            Setting::HandleDraws => truth("HandleDraws", "true"),
            Setting::ShowSan => truth("ShowSan", "false"),
            Setting::StrengthOptions => truth("StrengthOptions", "false"),
            Setting::FenceStops => truth("FenceStops", "false"),
            Setting::ResultReasons => truth("ResultReasons", "false"),
            Setting::TimeMargin => number("TimeMargin", "0", 0, MOST_MARGIN),
            Setting::PlainTexts => truth("PlainTexts", "false"),
            Setting::PathOptions => truth("PathOptions", "false"),
            Setting::RepeatThinking => truth("RepeatThinking", "false"),
        }
    }
}

impl Value {
    fn is_true(self) -> bool
        ensures { result ≡ is_true self }
    {
        match self {
            Value::Truth(value) => value,
            Value::Number(_) => false,
        }
    }

    fn number(self) -> u32
        ensures { result ≡ number_of_value self }
    {
        match self {
            Value::Truth(_) => 0,
            Value::Number(value) => value,
        }
    }
}

impl Settings {
    /// The value of a setting.
    pub fn value(&self, setting: Setting) -> Value
        ensures value { result ≡ setting_value self.now setting }
        ensures within { IsProper self.now → IsWithinRange (range_of_setting setting) result }
    {
        match setting {
            Setting::Resign => Value::Truth(self.resign),
            Setting::ResignMoves => Value::Number(self.resign_moves),
            Setting::ResignScore => Value::Number(self.resign_score),
            Setting::ShowPonder => Value::Truth(self.show_ponder),
            Setting::EarlySettings => Value::Truth(self.early_settings),
            Setting::ResignWhenGone => Value::Truth(self.resign_when_gone),
            Setting::HandleDraws => Value::Truth(self.handle_draws),
            Setting::ShowSan => Value::Truth(self.show_san),
            Setting::StrengthOptions => Value::Truth(self.strength_options),
            Setting::FenceStops => Value::Truth(self.fence_stops),
            Setting::ResultReasons => Value::Truth(self.result_reasons),
            Setting::TimeMargin => Value::Number(self.time_margin),
            Setting::PlainTexts => Value::Truth(self.plain_texts),
            Setting::PathOptions => Value::Truth(self.path_options),
            Setting::RepeatThinking => Value::Truth(self.repeat_thinking),
        }
    }

    /// The settings with one chosen anew.
    pub fn with(self, choice: Choice) -> Settings
        ensures chosen { result ≡ with_choice self choice }
        ensures proper { IsProper self → IsWithinRange (range_of_setting choice.setting)
            choice.value
            → IsProper result }
    {
        let Choice { setting, value } = choice;
        let mut settings = self;
        match setting {
            Setting::Resign => settings.resign = value.is_true(),
            Setting::ResignMoves => settings.resign_moves = value.number(),
            Setting::ResignScore => settings.resign_score = value.number(),
            Setting::ShowPonder => settings.show_ponder = value.is_true(),
            Setting::EarlySettings => settings.early_settings = value.is_true(),
            Setting::ResignWhenGone => settings.resign_when_gone = value.is_true(),
            Setting::HandleDraws => settings.handle_draws = value.is_true(),
            Setting::ShowSan => settings.show_san = value.is_true(),
            Setting::StrengthOptions => settings.strength_options = value.is_true(),
            Setting::FenceStops => settings.fence_stops = value.is_true(),
            Setting::ResultReasons => settings.result_reasons = value.is_true(),
            Setting::TimeMargin => settings.time_margin = value.number(),
            Setting::PlainTexts => settings.plain_texts = value.is_true(),
            Setting::PathOptions => settings.path_options = value.is_true(),
            Setting::RepeatThinking => settings.repeat_thinking = value.is_true(),
        }
        settings
    }

    /// True if the settings after the first ones all have their usual values.
    pub fn has_usual_rest(&self) -> bool
        ensures { result ≡ has_usual_rest self.now }
    {
        self.is_usual_in(&SETTINGS[FIRST_SETTINGS..])
    }

    // True if each of these settings has its usual value.
    fn is_usual_in(&self, settings: &[Setting]) -> bool
        ensures { result ≡ is_usual_in settings.now self.now }
    {
        settings.iter().all(|setting| self.is_usual(*setting))
    }

    /// True if a setting has its usual value.
    pub fn is_usual(&self, setting: Setting) -> bool
        ensures { result ≡ is_usual self.now setting }
    {
        is_same(self.value(setting), Settings::usual().value(setting))
    }
}

fn is_same(left: Value, right: Value) -> bool
    ensures { result ≡ is_same_value left right }
{
    match (left, right) {
        (Value::Truth(left), Value::Truth(right)) => left == right,
        (Value::Number(left), Value::Number(right)) => left == right,
        _ => false,
    }
}
