// The judge of an engine's conduct.
ghost use Rattle.std.specs.Prelude.{◌≡◌, ◌∷◌, [], List};
ghost use Rattle.script_lines.specs.Marks.{plain_mark};
ghost use Rattle.session_judge.specs.Clean.{Entry};
ghost use Rattle.session_judge.specs.declared.listener.Listener.{Listener as AnyListener};
ghost use Rattle.engine_conduct.specs.Conduct.{broken_by_mark, conduct, conduct_after, fault_at_line, fault_of_mark, is_hearing, known_after, listed_after, opens_list};

use crate::broken::line_breaks;
use crate::known::{Hearing, Known, LongLines};
use crate::listed::{ListedMoves, listed_in};
use crate::orders::{AskedWord, HeardOrder, order_heard};
use crate::rule::{ConductFault, ConductRule};
use crate::words::engine_word_in;
use arrayvec::ArrayVec;
use chess_board::Move;
use line_io::Event;
use script_lines::Mark;
use session_judge::Listener;
use std::marker::Model;

/// Hears the marks of a log in their order, and blames each line of the engine that breaks a rule. It takes no memory.
#[derive(Drop)]
pub struct EngineJudge {
    known: Known,
    listed: ListedMoves,
}

impl Model for EngineJudge {
    ghost use Rattle.engine_conduct.specs.Conduct.{Conduct};

    ghost Value = { Conduct };

    ghost view = { λ j. record { known = j.known; listed = j.listed.items } };
}

impl Hearing {
    fn is_hearing(self) -> bool
        ensures { result ≡ is_hearing self }
    {
        matches!(self, Hearing::Judged)
    }
}

// The list that an order begins, if it begins one.
fn opens_list(known: &Known, line: &[u8]) -> Option<ListedMoves>
    ensures { option_map (λ v. v.items) result ≡ opens_list known.now line.now }
{
    match (order_heard(line), known.placed) {
        (HeardOrder::Word(AskedWord::Go), Some(at)) => Some(listed_in(&at, line)),
        (HeardOrder::Word(AskedWord::Go), None) => Some(ArrayVec::new()),
        _ => None,
    }
}

ghost use Rattle.std.specs.Option.{option_map};

// The rule that a mark breaks, of an engine that is judged.
fn broken_by_mark(known: &Known, listed: &[Move], mark: &Mark) -> Option<ConductRule>
    ensures { result ≡ broken_by_mark known.now listed.now (plain_mark mark.now) }
{
    match mark {
        Mark::Event(Event::Engine(line)) => match engine_word_in(line) {
            Some(word) => line_breaks(known, listed, word, line),
            None => None,
        },
        Mark::Event(Event::EngineEnd) | Mark::Event(Event::EngineLost) if known.leaves_early() =>
            Some(ConductRule::Gone),
        _ => None,
    }
}

// A line of the interface that is too long for the log of a tap may have been any order.
fn after_long(known: Known, number: u64) -> Known
    ensures { result ≡ after_long known number }
{
    match known.listener {
        Listener::Tap => Known {
            hearing: Hearing::NotFrom(number),
            ..known
        },
        Listener::Bridge => known,
    }
}

ghost use Rattle.engine_conduct.specs.Conduct.{after_long};

// What is known after a mark, of an engine that is judged.
fn known_after(known: Known, number: u64, mark: &Mark) -> Known
    ensures { result ≡ known_after known number (plain_mark mark.now) }
{
    match mark {
        Mark::ToEngine(line) => known.known_after_order(number, line),
        Mark::Event(Event::Engine(line)) => known.after_line(engine_word_in(line), line),
        Mark::Event(Event::EngineLong) => Known {
            long: LongLines::Some,
            ..known
        },
        Mark::Event(Event::IfaceLong) => after_long(known, number),
        Mark::Event(Event::EngineEnd)
        | Mark::Event(Event::EngineLost)
        | Mark::Event(Event::IfaceEnd)
        | Mark::Event(Event::IfaceLost) => Known {
            hearing: Hearing::Over,
            ..known
        },
        _ => known,
    }
}

fn fault_at_line(line: u64, rule: Option<ConductRule>) -> Option<ConductFault>
    ensures { result ≡ fault_at_line line rule }
{
    match rule {
        Some(rule) => Some(ConductFault { line, rule }),
        None => None,
    }
}

impl EngineJudge {
    /// A judge of the log that this one wrote. Nothing was heard yet.
    pub fn new(listener: Listener) -> EngineJudge
        ensures { result ≡ conduct listener [] }
    {
        EngineJudge {
            known: Known::nothing(listener),
            listed: ArrayVec::new(),
        }
    }

    // The list after an order, of an engine that is judged.
    fn open_list(&mut self, mark: &Mark)
        ensures known { self.new.known ≡ self.old.known }
        ensures listed { self.new.listed ≡ listed_after self.old.known self.old.listed (plain_mark
            mark.now) }
    {
        if let Mark::ToEngine(line) = mark {
            if let Some(listed) = opens_list(&self.known, line) {
                self.listed = listed;
            }
        }
    }

    /// Hears a mark, in the line with this number, and blames the line if it breaks a rule.
    pub fn hear(&mut self, line: u64, mark: &Mark) -> Option<ConductFault>
        ensures fault { result ≡ fault_of_mark self.old line (plain_mark mark.now) }
        ensures after { self.new ≡ conduct_after self.old line (plain_mark mark.now) }
        // A line is blamed for a rule exactly if that is the first which it breaks by the marks before it.
        ensures exact { (listener : AnyListener) (log : List Entry)
            → self.old ≡ conduct listener log
            → result ≡ fault_of_mark (conduct listener log) line (plain_mark mark.now) }
        ensures goes_on { (listener : AnyListener) (log : List Entry)
            → self.old ≡ conduct listener log
            → self.new
            ≡ conduct listener (record { line = line; mark = plain_mark mark.now } ∷ log) }
    {
        if !self.known.hearing.is_hearing() {
            return None;
        }
        let rule = broken_by_mark(&self.known, self.listed.as_slice(), mark);
        self.open_list(mark);
        self.known = known_after(self.known, line, mark);
        fault_at_line(line, rule)
    }

    /// The line from which on nothing was judged, since an order may have made the engine say anything.
    pub fn unjudged_from(&self) -> Option<u64>
        ensures { result ≡ unjudged_from self.now.known.hearing }
    {
        match self.known.hearing {
            Hearing::NotFrom(line) => Some(line),
            _ => None,
        }
    }

    /// The count of searches that had no position.
    pub fn unplaced(&self) -> u64
        ensures { result ≡ self.now.known.unplaced }
    {
        self.known.unplaced
    }
}

ghost use Rattle.engine_conduct.specs.Conduct.{unjudged_from};

/// A law: no innocent engine is blamed, wherever in the log its orders stand before it read them.
pub fn no_innocent_is_blamed()
    ensures { NoInnocentIsBlamed }
{}

ghost use Rattle.engine_conduct.specs.Innocent.{NoInnocentIsBlamed};
