//! The settings of a session, their table, and when the bridge resigns or accepts a draw for the engine.
#![tactic(auto)]

mod score_rules;
mod setting_rules;

pub use score_rules::{Scores, counts_decide};
pub use setting_rules::{
    Choice, FIRST_SETTINGS, MOST_MARGIN, MOST_MOVES, MOST_SCORE, Range, SETTINGS, STATED_SETTINGS,
    Setting, SettingRow, Settings, USUAL_MARGIN, USUAL_MOVES, USUAL_SCORE, Value, name_in,
    read_choice, read_number,
};
