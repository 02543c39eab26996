//! The laws of every lawful trace of a session, and of its lines: functions that do nothing, whose
//! contracts are laws.
#![tactic(auto)]

mod laws;
mod lines;
mod pings;
mod searches;
mod settings;
mod traces;
mod wire;

pub use laws::laws_hold;
pub use lines::written_texts_are_lines;
pub use pings::pings_get_pongs;
pub use searches::{searches_are_fenced, searches_end_once, searches_serve, traces_are_dialogues};
pub use settings::last_settings_stand;
pub use traces::{cores_within_limits, traces_exist};
pub use wire::{engine_on_wire, order_places};
