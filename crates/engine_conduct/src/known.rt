// What is known of an engine, by the orders that were written to it and by its answers.
ghost use Rattle.std.specs.Prelude.{◌≡◌, is_some};
ghost use Rattle.engine_conduct.specs.Searches.{search_place};
ghost use Rattle.engine_conduct.specs.Known.{known_after_order, after_word, asked_boot, asked_ready, asked_search, castling_declared, search_begun, game_chosen, fewer, is_any_due, leaves_early, more, nothing_known, placed_in, replaced, told_boot, told_ready, told_search, unplaced_after};

use crate::orders::{
    AskedWord, Castling, GameChoice, HeardOrder, PlayedGame, declared_set, order_heard,
    position_placed, variant_played, variant_set,
};
use crate::search::{OpenSearch, began_search};
use crate::words::EngineWord;
use chess_board::Position;
use session_judge::Listener;

/// The number of answers that are due, to `uci`, `isready` and `go`.
#[derive(Clone, Copy)]
pub struct Due {
    pub boots: u64,
    pub readies: u64,
    pub answers: u64,
}

/// Whether the engine is judged.
#[derive(Clone, Copy)]
pub enum Hearing {
    Judged,
    /// From the line with this number on an order may have made it say anything.
    NotFrom(u64),
    /// The session ended.
    Over,
}

/// Whether a line of the engine came that is too long for a log: it may have been an answer.
#[derive(Clone, Copy)]
pub enum LongLines {
    None,
    Some,
}

/// What is known of an engine. `placed` is the position of the last `position`, if there is one; `unplaced` counts the
/// searches that had none.
#[derive(Clone, Copy)]
pub struct Known {
    pub listener: Listener,
    pub hearing: Hearing,
    pub long: LongLines,
    pub due: Due,
    pub castling: Castling,
    pub game: PlayedGame,
    pub placed: Option<Position>,
    pub search: OpenSearch,
    pub unplaced: u64,
}

// Chess960 is on by the default of an option, unless an order set the option before.
fn castling_declared(castling: Castling) -> Castling
    ensures { result ≡ castling_declared castling }
{
    match castling {
        Castling::Usual | Castling::Declared => Castling::Declared,
        _ => Castling::Unclear,
    }
}

fn more(count: u64) -> u64
    ensures { result ≡ more count }
{
    count.saturating_add(1)
}

fn unplaced_after(has_place: bool, count: u64) -> u64
    ensures { result ≡ unplaced_after has_place count }
{
    if has_place { count } else { more(count) }
}

fn has_place(search: &OpenSearch) -> bool
    ensures { result ≡ is_some (search_place search.now) }
{
    search.place().is_some()
}

fn fewer(count: u64) -> u64
    ensures { result ≡ fewer count }
{
    count.saturating_sub(1)
}

impl Due {
    // After `uci`.
    fn asked_boot(self) -> Due
        ensures { result ≡ asked_boot self }
    {
        Due {
            boots: more(self.boots),
            readies: self.readies,
            answers: self.answers,
        }
    }

    // After `isready`.
    fn asked_ready(self) -> Due
        ensures { result ≡ asked_ready self }
    {
        Due {
            boots: self.boots,
            readies: more(self.readies),
            answers: self.answers,
        }
    }

    // After `go`.
    fn asked_search(self) -> Due
        ensures { result ≡ asked_search self }
    {
        Due {
            boots: self.boots,
            readies: self.readies,
            answers: more(self.answers),
        }
    }

    // After `uciok`.
    fn told_boot(self) -> Due
        ensures { result ≡ told_boot self }
    {
        Due {
            boots: fewer(self.boots),
            readies: self.readies,
            answers: self.answers,
        }
    }

    // After `readyok`.
    fn told_ready(self) -> Due
        ensures { result ≡ told_ready self }
    {
        Due {
            boots: self.boots,
            readies: fewer(self.readies),
            answers: self.answers,
        }
    }

    // After `bestmove`.
    fn told_search(self) -> Due
        ensures { result ≡ told_search self }
    {
        Due {
            boots: self.boots,
            readies: self.readies,
            answers: fewer(self.answers),
        }
    }
}

impl Known {
    pub(crate) fn nothing(listener: Listener) -> Known
        ensures { result ≡ nothing_known listener }
    {
        Known {
            listener,
            hearing: Hearing::Judged,
            long: LongLines::None,
            due: Due {
                boots: 0,
                readies: 0,
                answers: 0,
            },
            castling: Castling::Usual,
            game: PlayedGame::Chess,
            placed: None,
            search: OpenSearch::None,
            unplaced: 0,
        }
    }

    // With another number of answers that are due.
    fn with_due(self, due: Due) -> Known
        ensures { result ≡ record self { due = due } }
    {
        Known { due, ..self }
    }

    fn with_placed(self, placed: Option<Position>) -> Known
        ensures { result ≡ record self { placed = placed } }
    {
        Known { placed, ..self }
    }

    fn with_search(self, search: OpenSearch) -> Known
        ensures { result ≡ record self { search = search } }
    {
        Known { search, ..self }
    }

    // When the engine is judged no more.
    fn with_hearing(self, hearing: Hearing) -> Known
        ensures { result ≡ record self { hearing = hearing } }
    {
        Known { hearing, ..self }
    }

    // A choice of the game.
    fn game_chosen(self, choice: GameChoice) -> Known
        ensures { result ≡ game_chosen self choice }
    {
        match choice {
            GameChoice::Castling(castling) => Known { castling, ..self },
            GameChoice::Declared => Known {
                castling: castling_declared(self.castling),
                ..self
            },
            GameChoice::Game(game) => Known { game, ..self },
        }
    }

    // Another game may be chosen: neither the last `position` nor the search keeps its position.
    fn replaced(self, choice: GameChoice) -> Known
        ensures { result ≡ replaced self choice }
    {
        let search = self.search.lost_place();
        let chosen = self.game_chosen(choice);
        Known {
            placed: None,
            search,
            ..chosen
        }
    }

    fn after_choice(self, choice: Option<GameChoice>) -> Known
        ensures { result ≡ after_choice self choice }
    {
        match choice {
            Some(choice) => self.replaced(choice),
            None => self,
        }
    }

    // The position of a `position` line. An engine that is busy may have passed over it.
    fn placed_in(&self, line: &[u8]) -> Option<Position>
        ensures { result ≡ placed_in self.now line.now }
    {
        if self.due.answers == 0 {
            position_placed(variant_played(self.castling, self.game), line)
        } else {
            None
        }
    }

    // The search that a `go` begins.
    fn search_begun(&self, line: &[u8]) -> OpenSearch
        ensures { result ≡ search_begun self.now line.now }
    {
        if self.due.answers == 0 {
            began_search(self.placed, line)
        } else {
            OpenSearch::Mixed
        }
    }

    fn known_after_go(self, line: &[u8]) -> Known
        ensures { result ≡ known_after_go self line.now }
    {
        let search = self.search_begun(line);
        let unplaced = unplaced_after(has_place(&search), self.unplaced);
        let due = self.due.asked_search();
        Known {
            search,
            unplaced,
            due,
            ..self
        }
    }

    fn after_position(self, line: &[u8]) -> Known
        ensures { result ≡ record self { placed = placed_in self line.now } }
    {
        let placed = self.placed_in(line);
        self.with_placed(placed)
    }

    fn after_word(self, word: AskedWord, line: &[u8]) -> Known
        ensures { result ≡ after_word self word line.now }
    {
        match word {
            AskedWord::Uci => self.with_due(self.due.asked_boot()),
            AskedWord::IsReady => self.with_due(self.due.asked_ready()),
            AskedWord::SetOption => self.after_choice(variant_set(line)),
            AskedWord::NewGame => self.with_placed(None),
            AskedWord::Position => self.after_position(line),
            AskedWord::Go => self.known_after_go(line),
            AskedWord::Stop => self.with_search(self.search.stopped()),
            AskedWord::PonderHit => self.with_search(self.search.hit()),
            AskedWord::Quit => self.with_hearing(Hearing::Over),
            AskedWord::Passing => self,
        }
    }

    /// After an order, in the line with this number.
    pub(crate) fn known_after_order(self, number: u64, line: &[u8]) -> Known
        ensures { result ≡ known_after_order self number line.now }
    {
        match order_heard(line) {
            HeardOrder::Word(word) => self.after_word(word, line),
            HeardOrder::Foreign => self.with_hearing(Hearing::NotFrom(number)),
            HeardOrder::Blank => self,
        }
    }

    // The default of an option may choose the game, while options are declared.
    fn known_after_declared(self, choice: Option<GameChoice>) -> Known
        ensures { result ≡ known_after_declared self choice }
    {
        if self.due.boots > 0 {
            self.after_choice(choice)
        } else {
            self
        }
    }

    fn after_best(self) -> Known
        ensures { result ≡ after_best self }
    {
        let due = self.due.told_search();
        let search = if due.answers == 0 {
            OpenSearch::None
        } else {
            self.search
        };
        Known {
            search,
            due,
            ..self
        }
    }

    fn after_engine_word(self, word: EngineWord, line: &[u8]) -> Known
        ensures { result ≡ after_engine_word self word line.now }
    {
        match word {
            EngineWord::UciOk => self.with_due(self.due.told_boot()),
            EngineWord::ReadyOk => self.with_due(self.due.told_ready()),
            EngineWord::Best => self.after_best(),
            EngineWord::Option => self.known_after_declared(declared_set(line)),
            EngineWord::Id | EngineWord::Info => self,
        }
    }

    /// After a line of the engine that begins with this word, if it is one.
    pub(crate) fn after_line(self, word: Option<EngineWord>, line: &[u8]) -> Known
        ensures { result ≡ after_line self word line.now }
    {
        match word {
            Some(word) => self.after_engine_word(word, line),
            None => self,
        }
    }

    fn is_any_due(&self) -> bool
        ensures { result ≡ is_any_due self.now.due }
    {
        self.due.boots > 0 || self.due.readies > 0 || self.due.answers > 0
    }

    /// True if the engine's end breaks the rule `gone`.
    pub(crate) fn leaves_early(&self) -> bool
        ensures { result ≡ leaves_early self.now }
    {
        match (self.listener, self.long) {
            (Listener::Bridge, LongLines::None) => self.is_any_due(),
            _ => false,
        }
    }
}

ghost use Rattle.engine_conduct.specs.Known.{after_best, after_choice, known_after_declared, after_engine_word, known_after_go, after_line};
