// The orders to an engine.
ghost use Rattle.std.specs.Prelude.{◌≡◌, ◌+◌, ◌≤◌, ◌++◌, codes, decimal, length};
ghost use Rattle.line_io.specs.Out.{with};
ghost use Rattle.uci_lines.specs.Orders.{uci_order_of, uci_order_text, optional_text, optional_number, optional_now, order_start_text, order_moves_text, set_option_text, uci_position_text, control_text, go_text};

use itoa::Buffer;
use line_io::Out;

/// An order to an engine (UCI, "GUI to engine").
#[derive(Clone, Copy, PartialEq, Eq)]
pub enum Order<'a> {
    Uci,
    IsReady,
    NewGame,
    Stop,
    PonderHit,
    Quit,
    SetOption {
        name: &'a [u8],
        value: Option<&'a [u8]>,
    },
    /// The start is None for the standard start position. The moves stand with one blank between.
    Position {
        fen: Option<&'a [u8]>,
        moves: &'a [u8],
    },
    Go {
        ponder: bool,
        control: GoControl,
        depth: Option<u64>,
    },
}

/// The time that a search may last. Times are in milliseconds.
#[derive(Clone, Copy, PartialEq, Eq)]
pub enum GoControl {
    Infinite,
    MoveTime(u64),
    Clock {
        wtime: u64,
        btime: u64,
        winc: u64,
        binc: u64,
        movestogo: Option<u64>,
    },
}

fn put_number(word: &[u8], n: u64, out: &mut Out)
    requires { length out.old.text + length (word.now ++ decimal n) ≤ out.old.room }
    ensures { out.new ≡ with out.old (word.now ++ decimal n) }
{
    let mut digits = Buffer::new();
    out.put(word);
    out.put(digits.format(n).as_bytes());
}

fn put_optional_number(word: &[u8], n: Option<u64>, out: &mut Out)
    requires { length out.old.text + length (optional_number word.now n) ≤ out.old.room }
    ensures { out.new ≡ with out.old (optional_number word.now n) }
{
    if let Some(n) = n {
        put_number(word, n, out);
    }
}

fn put_optional_text(word: &[u8], text: Option<&[u8]>, out: &mut Out)
    requires { length out.old.text + length (optional_text word.now (optional_now text))
        ≤ out.old.room }
    ensures { out.new ≡ with out.old (optional_text word.now (optional_now text.entry)) }
{
    if let Some(text) = text {
        out.put(word);
        out.put(text);
    }
}

fn put_set_option(name: &[u8], value: Option<&[u8]>, out: &mut Out)
    requires { length out.old.text + length (set_option_text name.now (optional_now value))
        ≤ out.old.room }
    ensures { out.new ≡ with out.old (set_option_text name.now (optional_now value.entry)) }
{
    out.put(b"setoption name ");
    out.put(name);
    put_optional_text(b" value ", value, out);
}

fn put_start(fen: Option<&[u8]>, out: &mut Out)
    requires { length out.old.text + length (order_start_text (optional_now fen)) ≤ out.old.room }
    ensures { out.new ≡ with out.old (order_start_text (optional_now fen.entry)) }
{
    match fen {
        Some(fen) => {
            out.put(b"fen ");
            out.put(fen);
        }
        None => out.put(b"startpos"),
    }
}

fn put_moves(moves: &[u8], out: &mut Out)
    requires { length out.old.text + length (order_moves_text moves.now) ≤ out.old.room }
    ensures { out.new ≡ with out.old (order_moves_text moves.now) }
{
    if !moves.is_empty() {
        out.put(b" moves ");
        out.put(moves);
    }
}

fn put_position(fen: Option<&[u8]>, moves: &[u8], out: &mut Out)
    requires { length out.old.text + length (uci_position_text (optional_now fen) moves.now)
        ≤ out.old.room }
    ensures { out.new ≡ with out.old (uci_position_text (optional_now fen.entry) moves.now) }
{
    out.put(b"position ");
    put_start(fen, out);
    put_moves(moves, out);
}

fn put_control(control: GoControl, out: &mut Out)
    requires { length out.old.text + length (control_text control) ≤ out.old.room }
    ensures { out.new ≡ with out.old (control_text control) }
{
    match control {
        GoControl::Infinite => out.put(b" infinite"),
        GoControl::MoveTime(time) => put_number(b" movetime ", time, out),
        GoControl::Clock {
            wtime,
            btime,
            winc,
            binc,
            movestogo,
        } => {
            put_number(b" wtime ", wtime, out);
            put_number(b" btime ", btime, out);
            put_number(b" winc ", winc, out);
            put_number(b" binc ", binc, out);
            put_optional_number(b" movestogo ", movestogo, out);
        }
    }
}

fn put_go(ponder: bool, control: GoControl, depth: Option<u64>, out: &mut Out)
    requires { length out.old.text + length (go_text ponder control depth) ≤ out.old.room }
    ensures { out.new ≡ with out.old (go_text ponder control depth) }
{
    out.put(b"go");
    if ponder {
        out.put(b" ponder");
    }
    put_control(control, out);
    put_optional_number(b" depth ", depth, out);
}

/// Writes an order, with no line feed.
#[tactic(auto, unfolding(crate::specs::Orders::uci_order_text))]
pub fn write_order(order: &Order, out: &mut Out)
    requires { length out.old.text + length (uci_order_text (uci_order_of order.now)) ≤
        out.old.room }
    ensures { out.new ≡ with out.old (uci_order_text (uci_order_of order.now)) }
{
    match order {
        Order::Uci => out.put(b"uci"),
        Order::IsReady => out.put(b"isready"),
        Order::NewGame => out.put(b"ucinewgame"),
        Order::Stop => out.put(b"stop"),
        Order::PonderHit => out.put(b"ponderhit"),
        Order::Quit => out.put(b"quit"),
        Order::SetOption { name, value } => put_set_option(name, *value, out),
        Order::Position { fen, moves } => put_position(*fen, moves, out),
        Order::Go {
            ponder,
            control,
            depth,
        } => put_go(*ponder, *control, *depth, out),
    }
}
