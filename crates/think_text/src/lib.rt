//! The engine's reports on its search, and what the interface is shown of them.
#![tactic(auto)]

mod last_thinking;
mod laws;
mod line;
mod search_info;
mod texts;
mod value;

pub use last_thinking::{LAST_LINE, LastThinking};
pub use laws::{current_stays_writable, lines_differ_by_hint, thinking_lines_are_short};
pub use line::Pondered;
pub use search_info::{SearchInfo, stat01};
