//! The lines of scripts: marks, headers and step lines, and the text of a step.
#![tactic(auto)]

mod header;
mod laws;
mod marks;
mod step_line;
mod step_text;

pub use header::{HEADER_ROOM, read_header, write_header};
pub use laws::{lines_are_of_one_kind, scripts_are_read_back};
pub use marks::{BadMark, Mark, read_mark, write_mark, write_mark_line};
pub use step_line::{next_number, read_step, write_step};
pub use step_text::{STEP_ROOM, put_numbered_step, put_step, put_written};
