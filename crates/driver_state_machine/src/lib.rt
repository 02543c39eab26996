//! The orders of a UCI interface and the lines of a CECP engine, and their effects: the searches of a driver that
//! stands between both (UCI, April 2006; Chess Engine Communication Protocol, version 2).
//!
//! They know no chess and no lines: moves and numbers come in as they were read. Beside them are the lines of
//! both sides: what is read of the engine's lines, and how the lines to both are written.
#![tactic(auto)]

mod clocks;
mod down;
mod driver_state;
mod feature;
mod laws;
mod moves;
mod numbers;
mod order_words;
mod said;
mod search;
mod up;
mod words;

pub use clocks::{read_clocks, write_clocks};
pub use down::{write_answer, write_moved, write_numbered, write_word};
pub use driver_state::{DriverCall, DriverStage, DriverState, DriverTurn, Reach, WantedSearch};
pub use feature::{CutFeature, NamedFeature, next_cut};
pub use laws::{
    moves_are_asked_for_once, open_searches_are_busy, searches_are_answered_once,
    searches_wait_for_pongs, when_nothing_is_given,
};
pub use moves::{first_move, shown_move, thought_move};
pub use order_words::{OrderWord, read_ordered};
pub use said::{EngineSaid, read_said};
pub use up::{write_best, write_id, write_info};
pub use words::{
    AfterAnalysis, BoardChange, DriverAction, GoClocks, OpenSearch, Phase, Thought, ToEngine,
    ToIface,
};
