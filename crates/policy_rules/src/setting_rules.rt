// The settings of a session, and their table.
pub(crate) mod settings;
pub(crate) mod table;
pub(crate) mod words;

pub use settings::{
    MOST_MARGIN, MOST_MOVES, MOST_SCORE, Settings, USUAL_MARGIN, USUAL_MOVES, USUAL_SCORE,
};
pub use table::{
    Choice, FIRST_SETTINGS, Range, SETTINGS, STATED_SETTINGS, Setting, SettingRow, Value,
};
pub use words::{name_in, read_choice, read_number};
