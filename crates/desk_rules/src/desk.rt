// The desk.
ghost use Rattle.std.specs.Prelude.{◌≡◌, IfOk};
ghost use Rattle.desk_rules.specs.Desk.{opening_desk};

use crate::{Early, EngineName, Mode, Pings};
use chess_board::{Move, Side};
use clock_map::Clocks;
use game_record::Game;
use line_io::NoMemory;
use option_map::{FeatureNegotiation, Options};
use std::alloc::Global;
use think_text::{LastThinking, SearchInfo};

/// The commands of the interface and the answers of the engine.
#[derive(Drop)]
pub struct Desk {
    pub game: Game,
    pub mode: Mode,
    /// Thinking lines are shown.
    pub post: bool,
    pub pondering: bool,
    pub clocks: Clocks,
    /// The move that the engine expects, if it is legal.
    pub hint: Option<Move>,
    pub pings: Pings,
    pub options: Options,
    /// `uciok` was heard, so the options count as declared.
    pub booted: bool,
    pub name: EngineName,
    /// True if the feature list is due.
    pub due: FeatureNegotiation,
    /// The settings that came before the options are known.
    pub early: Early,
    /// The reports of the open search.
    pub search_info: SearchInfo,
    /// The last thinking line that was written of it.
    pub last_thinking: LastThinking,
}

impl Desk {
    /// The desk before its first event. It takes all memory that it ever uses.
    pub fn make(alloc: Global) -> Result<Desk, NoMemory>
        ensures { IfOk result (λ desk. desk ≡ opening_desk) }
    {
        let pings = Pings::make(alloc)?;
        let early = Early::make(alloc)?;
        let last_thinking = LastThinking::make(alloc)?;
        let options = Options::make(alloc)?;
        let game = Game::make(alloc)?;
        Ok(Desk {
            game,
            mode: Mode::Plays(Side::Black),
            post: false,
            pondering: false,
            clocks: Clocks::new(),
            hint: None,
            pings,
            options,
            booted: false,
            name: EngineName::new(),
            due: FeatureNegotiation::new(),
            early,
            search_info: SearchInfo::new(),
            last_thinking,
        })
    }
}
