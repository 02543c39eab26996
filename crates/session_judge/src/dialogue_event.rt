// The judge's reading of a mark.
ghost use Rattle.std.specs.Prelude.{◌≡◌};
ghost use Rattle.script_lines.specs.Marks.{plain_mark};
ghost use Rattle.uci_lines.specs.Behind.{after};
ghost use Rattle.uci_lines.specs.Orders.{optional_now};
ghost use Rattle.session_judge.specs.DialogueEvents.{dialogue_event_of, order_by, judged_order_in, order_named, said_dialogue_event, move_shown_by_line};

use crate::played::PlayedLine;
use chess_board::{Move, Position, read_move, write_move};
use line_io::Event;
use protocol_tokens::{GoKind, named, split_token};
use script_lines::Mark;
use uci_interface_lines::go_kind;
use uci_lines::{EngineMsg, read_engine};

/// The kind of an order by its first token (UCI, April 2006, "GUI to engine").
#[derive(Clone, Copy)]
pub enum OrderKind {
    Uci,
    /// `setoption` or `ucinewgame`.
    Setup,
    IsReady,
    /// With the position after all its moves, if it can be read.
    Position(Option<Position>),
    Go(GoKind),
    Stop,
    PonderHit,
    Quit,
}

/// The judge's reading of a mark.
#[derive(Clone, Copy)]
pub enum DialogueEvent {
    /// An order was written to the engine.
    Writes(OrderKind),
    /// `uciok` came.
    Boots,
    /// `readyok` came.
    GetsReady,
    /// `bestmove` came, with a move if a move text is in it.
    Answers(Option<Move>),
    /// The engine ended, or was lost.
    Ends,
    /// `move M` was written to the interface.
    Shows(Move),
    /// It says nothing of the dialogue with the engine.
    Nothing,
}

/// The words with which orders begin.
#[derive(Clone, Copy)]
enum OrderWord {
    Uci,
    IsReady,
    Setup,
    Position,
    Go,
    Stop,
    PonderHit,
    Quit,
}

static ORDER_WORDS: [(&[u8], OrderWord); 9] = [
    (b"uci", OrderWord::Uci),
    (b"isready", OrderWord::IsReady),
    (b"setoption", OrderWord::Setup),
    (b"ucinewgame", OrderWord::Setup),
    (b"position", OrderWord::Position),
    (b"go", OrderWord::Go),
    (b"stop", OrderWord::Stop),
    (b"ponderhit", OrderWord::PonderHit),
    (b"quit", OrderWord::Quit),
];

fn order_by(word: Option<OrderWord>, line: &[u8], played: &mut PlayedLine) -> Option<OrderKind>
    ensures { result ≡ order_by word line.now }
{
    match word? {
        OrderWord::Uci => Some(OrderKind::Uci),
        OrderWord::IsReady => Some(OrderKind::IsReady),
        OrderWord::Setup => Some(OrderKind::Setup),
        OrderWord::Position => Some(OrderKind::Position(played.end_of(line))),
        OrderWord::Go => Some(OrderKind::Go(go_kind(line))),
        OrderWord::Stop => Some(OrderKind::Stop),
        OrderWord::PonderHit => Some(OrderKind::PonderHit),
        OrderWord::Quit => Some(OrderKind::Quit),
    }
}

fn order_named(word: &[u8], line: &[u8], played: &mut PlayedLine) -> Option<OrderKind>
    ensures { result ≡ order_named word.now line.now }
{
    order_by(named(&ORDER_WORDS, word), line, played)
}

fn order_in(line: &[u8], played: &mut PlayedLine) -> DialogueEvent
    ensures { result ≡ judged_order_in line.now }
{
    match order_named(split_token(line).0, line, played) {
        Some(order) => DialogueEvent::Writes(order),
        None => DialogueEvent::Nothing,
    }
}

/// The rest behind a word at the start.
fn after<'a>(word: &[u8], line: &'a [u8]) -> Option<&'a [u8]>
    ensures { optional_now result ≡ after word.now line.now }
{
    line.strip_prefix(word)
}

/// The move that a line shows to the interface: `move` and a move as it is written (CECP).
fn move_shown_by_line(line: &[u8]) -> DialogueEvent
    ensures { result ≡ move_shown_by_line line.now }
{
    let Some(text) = after(b"move ", line) else {
        return DialogueEvent::Nothing;
    };
    match read_move(text) {
        Some(m) if write_move(m).as_slice() == text => DialogueEvent::Shows(m),
        _ => DialogueEvent::Nothing,
    }
}

// Of a thinking line no more than its word is read.
fn said_in(line: &[u8]) -> DialogueEvent
    ensures { result ≡ said_dialogue_event line.now }
{
    if split_token(line).0 == b"info".as_slice() {
        return DialogueEvent::Nothing;
    }
    match read_engine(line) {
        EngineMsg::UciOk => DialogueEvent::Boots,
        EngineMsg::ReadyOk => DialogueEvent::GetsReady,
        EngineMsg::Best { best, hint: _ } => DialogueEvent::Answers(best),
        _ => DialogueEvent::Nothing,
    }
}

/// The judge's reading of a mark.
pub(crate) fn dialogue_event_of(mark: &Mark, played: &mut PlayedLine) -> DialogueEvent
    ensures { result ≡ dialogue_event_of (plain_mark mark.now) }
{
    match mark {
        Mark::ToEngine(line) => order_in(line, played),
        Mark::ToIface(line) => move_shown_by_line(line),
        Mark::Event(Event::Engine(line)) => said_in(line),
        Mark::Event(Event::EngineEnd) | Mark::Event(Event::EngineLost) => DialogueEvent::Ends,
        _ => DialogueEvent::Nothing,
    }
}
