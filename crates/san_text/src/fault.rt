// Why a text was not read.
use thiserror::Error;

/// Why a text in standard algebraic notation is no move of a position.
#[derive(Clone, Copy, Debug, PartialEq, Eq, Error)]
pub enum SanFault {
    /// The text has no spelling.
    #[error("no move text")]
    BadSan,
    /// It has one, and no legal move fits.
    #[error("no legal move fits")]
    NoFit,
    /// Two or more legal moves fit.
    #[error("more than one legal move fits")]
    Ambiguous,
}
