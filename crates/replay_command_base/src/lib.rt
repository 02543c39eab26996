//! The common parts of the commands over the lines of a script: how one ends, its status and its diagnostic; and
//! line filters. A line filter puts a text for the lines that it takes; one run gives it the lines of an input,
//! writes its text, and ends with a status and a diagnostic.
#![tactic(auto)]

mod ending;
mod limits;
mod line_filter;
mod run;
mod writer;

pub use ending::{Ending, report_ending, report_without_buffer, write_lines};
pub use limits::{DIAGNOSTIC_ROOM, LINE_ROOM, TEXT_ROOM};
pub use line_filter::LineFilter;
pub use run::run_filter;
