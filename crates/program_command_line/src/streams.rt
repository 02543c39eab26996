// Standard streams that may be closed at the start.
pub(crate) mod closed;
pub(crate) mod if_open;

pub use closed::{ClosedStreams, NO_MEMORY};
pub use if_open::IfOpen;
