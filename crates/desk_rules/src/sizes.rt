// The greatest length of the lines of a step in bytes, with their line feeds.

use crate::early::{EARLY_BYTES, MOST_EARLY};
use game_record::POSITION_TEXT;
use line_io::PEER_LINE;
use option_map::FEATURE_BYTES;
use think_text::LAST_LINE;

/// A reply that repeats no text.
pub const SHORT_REPLY: usize = 129;

/// An error with the line that it is about.
pub(crate) const ERROR_REPLY: usize = PEER_LINE + 64;

/// A thinking line.
pub const THINKING_LINE: usize = LAST_LINE + 1;

pub(crate) const FEATURE_LIST: usize = FEATURE_BYTES + 1_464;

/// A shown move, with the result or with `resign`; also a game that is given up.
pub(crate) const SHOWN_MOVE: usize = 400;

/// The replies to a line that is obeyed.
pub(crate) const OBEYED: usize = FEATURE_LIST + 200;

/// The refusals of early lines.
pub(crate) const EARLY_REFUSALS: usize = EARLY_BYTES + 64 * MOST_EARLY;

/// The replies when the engine leaves Boot.
pub(crate) const BOOT_REPLIES: usize = FEATURE_LIST + EARLY_REFUSALS;

/// The replies when the engine ends.
pub(crate) const ENGINE_END: usize = FEATURE_LIST + SHOWN_MOVE;

/// All replies of a step except pongs.
pub const STEP_REPLIES: usize = FEATURE_LIST + 50_000;

pub(crate) const POSITION_LINE: usize = POSITION_TEXT + 1;

pub(crate) const GO_LINE: usize = 114;

/// All orders of a step.
pub const STEP_ORDERS: usize = POSITION_LINE + 173;
