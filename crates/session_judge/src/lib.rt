//! The judge of a session's log: which order came to a busy engine, which move was shown late. It hears the marks of
//! any bridge's log, one by one, and judges the dialogue with the engine alone (UCI, April 2006), so that it takes orders of
//! any spelling. Memory is taken only for a line of the game, and no answer depends on whether there is any.
#![tactic(auto)]

mod dialogue_event;
mod engine;
mod judge;
mod listener;
mod played;
mod rule;
mod search;
mod talk;

pub use dialogue_event::{DialogueEvent, OrderKind};
pub use judge::{Judge, crossings_are_the_difference};
pub use listener::Listener;
pub use rule::Rule;
pub use search::Search;
pub use talk::LAST_NUMBER;
