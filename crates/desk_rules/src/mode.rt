// The task that the interface gives to the engine.
use chess_board::Side;

/// The task that the interface gives to the engine (CECP version 2: `force`, `go`, `playother`, `analyze`, `result`).
#[derive(Clone, Copy, PartialEq, Eq)]
pub enum Mode {
    /// Moves are only entered.
    Force,
    /// The engine plays this side.
    Plays(Side),
    Analyse,
    /// The game is over: nothing is played until the next command.
    Over,
}
