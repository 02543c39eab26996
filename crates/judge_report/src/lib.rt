//! The report of the judge on a log: a line for each search, and last whether the talk with the engine is lawful.
#![tactic(auto)]

mod conduct_report;
mod conduct_text;
mod report;
mod run;
mod text;

pub use conduct_report::ConductReport;
pub use report::{LAST_LINES, Report};
pub use run::{run_conduct_judge, run_judge};
