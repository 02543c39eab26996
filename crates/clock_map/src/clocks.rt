// The clocks, and the search that they allow.
ghost use Rattle.std.specs.Prelude.{◌≡◌, ◌+◌, ◌<◌, ◌≤◌, ◌^◌, pos, max, length, FitsSigned};
ghost use Rattle.std.specs.Int.{w64};
ghost use Rattle.line_io.specs.Out.{with};
ghost use Rattle.cecp_lines.specs.Messages.{message_of};
ghost use Rattle.cecp_lines.specs.Reading.{CanBeRead};
ghost use Rattle.uci_lines.specs.Orders.{uci_order_of, uci_order_text};
ghost use Rattle.clock_map.specs.Clocks.{ClocksAreShort, first_clocks, after_message, after_new, at_least_one, limit, of_centis};
ghost use Rattle.uci_lines.specs.OrderReading.{SpellsOrder};
ghost use Rattle.clock_map.specs.Search.{moves_to_go, clock_times_of, time_of, search_order};

use crate::SearchRequest;
use cecp_lines::IfaceMsg;
use chess_board::Side;
use line_io::Out;
use protocol_tokens::{GoKind, MINUTE};
use uci_lines::{GoControl, Order, write_order};

/// In milliseconds.
const FIVE_MINUTES: i64 = 5 * MINUTE as i64;

/// The bound on the time of a move.
#[derive(Clone, Copy)]
enum Control {
    /// The clocks run, as `level` set them.
    Session,
    /// Each move has this many milliseconds, as `st` says.
    Fixed(u64),
}

/// The time control of a session, in milliseconds (Chess Engine Communication Protocol, version 2,
/// commands `level`, `st`, `sd`, `time` and `otim`).
#[derive(Clone, Copy)]
pub struct Clocks {
    control: Control,
    // moves from one time control to the next, 0 if the time is for the whole game
    moves: u32,
    // the times of both clocks at the start of a game
    base: i64,
    increment: u64,
    // in plies
    depth: Option<u64>,
    // A clock that ran out is at 0 or below.
    engine: i64,
    opponent: i64,
}

/// A time as it is written: a clock that ran out still has one millisecond.
fn at_least_one(time: i64) -> u64
    ensures { result ≡ at_least_one time }
{
    time.max(1).unsigned_abs()
}

fn moves_to_go(moves: u32, plies: u32) -> Option<u64>
    ensures { result ≡ moves_to_go moves plies }
{
    if moves == 0 {
        return None;
    }
    Some(u64::from(moves - plies / 2 % moves))
}

/// A time as a clock shows it.
fn shown(time: u64) -> i64
    requires { time < 2 ^ 63 }
    ensures { result ≡ pos time }
{
    time as i64
}

/// Hundredths of a second as milliseconds.
fn of_centis(time: i64) -> i64
    requires { FitsSigned w64 (of_centis time) }
    ensures { result ≡ of_centis time }
{
    10 * time
}

/// A depth of 0 is no limit.
fn limit(depth: u32) -> Option<u64>
    ensures { result ≡ limit depth }
{
    if depth == 0 {
        None
    } else {
        Some(u64::from(depth))
    }
}

impl Clocks {
    /// Five minutes for the whole game, without increment.
    pub fn new() -> Clocks
        ensures value { result ≡ first_clocks }
        ensures short { ClocksAreShort result }
    {
        Clocks {
            control: Control::Session,
            moves: 0,
            base: FIVE_MINUTES,
            increment: 0,
            depth: None,
            engine: FIVE_MINUTES,
            opponent: FIVE_MINUTES,
        }
    }

    /// Hears a message of the interface. Messages that set no clock change nothing.
    pub fn set(&mut self, msg: &IfaceMsg)
        requires { CanBeRead (message_of msg.now) }
        ensures { self.new ≡ after_message self.old (message_of msg.now) }
    {
        match msg {
            IfaceMsg::Level {
                mps,
                base_ms,
                inc_ms,
            } => {
                self.control = Control::Session;
                self.moves = *mps;
                self.increment = *inc_ms;
                let base = shown(*base_ms);
                self.base = base;
                self.engine = base;
                self.opponent = base;
            }
            IfaceMsg::St(ms) => self.control = Control::Fixed(*ms),
            IfaceMsg::Sd(n) => self.depth = limit(*n),
            IfaceMsg::Time(n) => self.engine = of_centis(*n),
            IfaceMsg::Otim(n) => self.opponent = of_centis(*n),
            _ => {}
        }
    }

    /// A new game begins: both clocks show the base again, and no depth is the limit.
    pub fn reset(&mut self)
        ensures { self.new ≡ after_new self.old }
    {
        self.depth = None;
        self.engine = self.base;
        self.opponent = self.base;
    }

    /// Times as the side of the engine sees them.
    fn times(&self, side: Side, plies: u32) -> GoControl
        ensures { result ≡ clock_times_of self.now side plies }
    {
        let engine = at_least_one(self.engine);
        let opponent = at_least_one(self.opponent);
        let (wtime, btime) = match side {
            Side::White => (engine, opponent),
            Side::Black => (opponent, engine),
        };
        GoControl::Clock {
            wtime,
            btime,
            winc: self.increment,
            binc: self.increment,
            movestogo: moves_to_go(self.moves, plies),
        }
    }

    // A fixed time for the move is less by the margin.
    fn time(&self, side: Side, plies: u32, margin: u32) -> GoControl
        ensures { result ≡ time_of self.now.control self.now side plies margin }
    {
        match self.control {
            Control::Session => self.times(side, plies),
            Control::Fixed(time) => {
                GoControl::MoveTime(time.saturating_sub(u64::from(margin)).max(1))
            }
        }
    }

    /// The order for a search.
    fn search(&self, request: SearchRequest) -> Order<'static>
        ensures { uci_order_of result ≡ search_order request self.now }
    {
        match request.kind {
            GoKind::Move => Order::Go {
                ponder: false,
                control: self.time(request.side, request.plies, request.settings.time_margin),
                depth: self.depth,
            },
            GoKind::Ponder => Order::Go {
                ponder: true,
                control: self.time(request.side, request.plies, request.settings.time_margin),
                depth: self.depth,
            },
            GoKind::Analyse => Order::Go {
                ponder: false,
                control: GoControl::Infinite,
                depth: None,
            },
        }
    }

    /// Writes the `go` line for a search, with no line feed.
    pub fn write_go(&self, request: SearchRequest, out: &mut Out)
        requires { length out.old.text + length (uci_order_text (search_order request self.now))
            ≤ out.old.room }
        ensures text { out.new ≡ with out.old (uci_order_text (search_order request self.now)) }
        ensures spelled { ClocksAreShort self.now
            → SpellsOrder (uci_order_text (search_order request self.now))
            (search_order request self.now) }
    {
        write_order(&self.search(request), out);
    }
}
