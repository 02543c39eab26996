// The scores of the engine, by which the bridge resigns or accepts a draw for it.
pub(crate) mod laws;
pub(crate) mod scores;

pub use laws::counts_decide;
pub use scores::Scores;
