//! A session that is exported: its script is read line by line, and an exporter puts a text for each of its
//! steps and one for its end. One exporter writes the games of a session as they are over, another its
//! positions, each with the number of the line that led to it.
#![tactic(auto)]

mod exporter;
mod follow;
mod game_exporter;
mod games;
mod over;
mod position_exporter;
mod positions;
mod writer;

pub use exporter::{EXPORT_ROOM, StepExporter};
pub use game_exporter::{GameExporter, GameWriter};
pub use games::write_games;
pub use position_exporter::{PositionExporter, PositionWriter};
pub use positions::write_positions;
pub use writer::SessionWriter;
