// The settings.
ghost use Rattle.std.specs.Prelude.{◌≡◌};
ghost use Rattle.policy_rules.specs.SettingRules.Policy.{usual, IsProper};

/// The most scores in a row that may decide.
pub const MOST_MOVES: u32 = 1_000;

/// The worst score that may be asked for, in hundredths of a pawn.
pub const MOST_SCORE: u32 = 100_000;

/// The usual number of scores in a row that decide.
pub const USUAL_MOVES: u32 = 3;

/// The usual least loss that each of them shows.
pub const USUAL_SCORE: u32 = 600;

/// The most milliseconds that may be kept back of the time for a move.
pub const MOST_MARGIN: u32 = 10_000;

/// The usual number of milliseconds that is kept back.
pub const USUAL_MARGIN: u32 = 0;

/// The choices of a program's arguments. A field has a row in the table of `table.rt`.
#[derive(Clone, Copy, PartialEq, Eq)]
pub struct Settings {
    /// True if the bridge resigns for the engine.
    pub resign: bool,
    /// The scores in a row that decide, 1 to `MOST_MOVES`.
    pub resign_moves: u32,
    /// The least loss that each shows, in hundredths of a pawn, 0 to `MOST_SCORE`.
    pub resign_score: u32,
    /// True if thinking is shown while the engine ponders.
    pub show_ponder: bool,
    /// True if settings that come before the engine's options are known wait for them.
    pub early_settings: bool,
    /// True if an engine that is gone resigns the game in which it owes a move.
    pub resign_when_gone: bool,
    /// True if the policy answers an offer of a draw; else it gets silence.
    pub handle_draws: bool,
    /// True if the moves of thinking lines are in standard algebraic notation.
    pub show_san: bool,
    /// True if the options that limit the engine's strength are shown.
    pub strength_options: bool,
    /// True if a search begins behind a `stop` only once the engine has answered an `isready` after it.
    pub fence_stops: bool,
    /// True if the result of a game that the engine loses by its answer, or by ending, says so.
    pub result_reasons: bool,
    /// What is kept back of the time that `st` gives for a move, in milliseconds, 0 to `MOST_MARGIN`.
    pub time_margin: u32,
    /// True if no option with a control byte in a text is shown, and the engine's name has blanks for them.
    pub plain_texts: bool,
    /// True if string options whose names say so are shown as paths and files.
    pub path_options: bool,
    /// True if the last thinking line is shown once more when the move that the engine pondered on is played.
    pub repeat_thinking: bool,
}

impl Settings {
    /// The usual settings, when no word chooses others.
    pub fn usual() -> Settings
        ensures usual { result ≡ usual }
        ensures proper { IsProper result }
    {
        Settings {
            resign: false,
            resign_moves: USUAL_MOVES,
            resign_score: USUAL_SCORE,
            show_ponder: true,
            early_settings: false,
            resign_when_gone: false,
            handle_draws: true,
            show_san: false,
            strength_options: false,
            fence_stops: false,
            result_reasons: false,
            time_margin: USUAL_MARGIN,
            plain_texts: false,
            path_options: false,
            repeat_thinking: false,
        }
    }
}
