// Orders spelled out by hand, with what each means, and the lists in texts.
use crate::expect::{expect, expect_text};
use crate::rows::{bytes_in, bytes_of, cut, first, number_in, number_of, text_of};
use chess_board::read_move;
use line_io::Out;
use std::alloc::Global;
use std::process::Abort;
use uci_lines::{
    BadOrder, GoControl, Order, next_move, next_value, positions_may_stand, read_order, write_order,
};

// A line, the kind of the order, by its first letter, and the order.
const ORDERS: &str = "uci|uci
isready|isready
ucinewgame|newgame
stop|stop
ponderhit|hit
quit|quit
setoption name Clear Hash|option|name=Clear Hash
setoption name Hash value 32|option|name=Hash|value=32
setoption name value 5|option|name=value 5
setoption name A value b value c|option|name=A|value=b value c
position startpos|position|moves=
position startpos moves e2e4 e7e8q|position|moves=e2e4 e7e8q
position fen 4k3/8/8/8/8/8/8/4K2R w K - 0 1 moves h1h8|position|fen=4k3/8/8/8/8/8/8/4K2R w K - 0 1|moves=h1h8
go infinite|go|ponder=false|control=infinite
go ponder movetime 500 depth 8|go|ponder=true|control=movetime|time=500|depth=8
go wtime 300000 btime 1 winc 0 binc 0|go|ponder=false|control=clock|wtime=300000|btime=1|winc=0|binc=0
go ponder wtime 1 btime 2 winc 3 binc 4 movestogo 5 depth 6|go|ponder=true|control=clock|wtime=1|btime=2|winc=3|binc=4|movestogo=5|depth=6";

// Lines that spell no order.
const NO_ORDERS: [&str; 18] = [
    "",
    "uci ",
    "Uci",
    "setoption name ",
    "setoption name Hash value ",
    "setoption name  Hash",
    "position",
    "position startpos moves",
    "position startpos moves ",
    "position startpos moves e2e4  e7e5",
    "position startpos moves e7e8Q",
    "position fen 4k3/8/8/8/8/8/8/4K2R w K - 0",
    "go",
    "go ponder infinite",
    "go infinite depth 3",
    "go movetime 05",
    "go movetime 0",
    "go wtime 1 btime 1 winc 0 binc 0 movestogo 0",
];

fn control_of(rt: &impl Abort, fields: &str) -> GoControl {
    match first(text_of(rt, fields, "control")) {
        b'i' => GoControl::Infinite,
        b'm' => GoControl::MoveTime(number_of(rt, fields, "time")),
        _ => GoControl::Clock {
            wtime: number_of(rt, fields, "wtime"),
            btime: number_of(rt, fields, "btime"),
            winc: number_of(rt, fields, "winc"),
            binc: number_of(rt, fields, "binc"),
            movestogo: number_in(rt, fields, "movestogo"),
        },
    }
}

/// The order of a row whose order is one word.
fn bare<'a>(rt: &impl Abort, kind: &str) -> Order<'a> {
    match first(kind) {
        b'u' => Order::Uci,
        b'i' => Order::IsReady,
        b'n' => Order::NewGame,
        b's' => Order::Stop,
        b'h' => Order::PonderHit,
        b'q' => Order::Quit,
        _ => panic!(rt; "no order: {kind}"),
    }
}

fn go_of<'a>(rt: &impl Abort, fields: &str) -> Order<'a> {
    Order::Go {
        ponder: text_of(rt, fields, "ponder") == "true",
        control: control_of(rt, fields),
        depth: number_in(rt, fields, "depth"),
    }
}

/// The meaning that a row gives to a line.
fn meant<'a>(rt: &impl Abort, want: &'a str) -> Order<'a> {
    let (kind, fields) = cut(want);
    match first(kind) {
        b'o' => Order::SetOption {
            name: bytes_of(rt, fields, "name"),
            value: bytes_in(fields, "value"),
        },
        b'p' => Order::Position {
            fen: bytes_in(fields, "fen"),
            moves: bytes_of(rt, fields, "moves"),
        },
        b'g' => go_of(rt, fields),
        _ => bare(rt, kind),
    }
}

fn expect_orders(rt: &impl Abort, rows: &str) {
    for row in rows.split('\n') {
        let (line, want) = cut(row);
        expect(rt, read_order(line.as_bytes()) == Ok(meant(rt, want)), row);
    }
}

fn expect_no_orders(rt: &impl Abort, lines: &[&str]) {
    for line in lines {
        expect(rt, read_order(line.as_bytes()) == Err(BadOrder), line);
    }
}

/// Expects the first value of a text, and returns what is after it.
fn expect_value<'a>(rt: &impl Abort, text: &'a [u8], want: &str) -> &'a [u8] {
    let (value, others) = next_value(text).expect(rt, "a value");
    expect_text(rt, value, want);
    others
}

/// Expects the first move of a text, and returns what is after it.
fn expect_move<'a>(rt: &impl Abort, text: &'a [u8], want: &str) -> &'a [u8] {
    let (m, others) = next_move(text).expect(rt, "a move");
    expect(rt, Some(m) == read_move(want.as_bytes()), want);
    others
}

fn expect_lists(rt: &impl Abort) {
    let combo = b"default Always var Always var Fail  High default x var";
    let others = expect_value(rt, combo, "Always");
    let others = expect_value(rt, others, "Fail  High");
    let others = expect_value(rt, others, "");
    expect(rt, next_value(others).is_none(), "no fourth value");
    let others = expect_move(rt, b"e2e4 e7e5 x", "e2e4");
    let others = expect_move(rt, others, "e7e5");
    expect(rt, next_move(others).is_none(), "no third move");
}

#[tactic(auto, unfolding(uci_lines::specs::Orders::uci_order_text))]
fn expect_written(rt: &impl Abort, alloc: Global) {
    let mut out = Out::make(alloc, 100).expect(rt, "memory");
    write_order(&Order::IsReady, &mut out);
    expect_text(rt, out.bytes(), "isready");
}

#[test]
fn orders(rt: HostRuntime) {
    positions_may_stand();
    expect_orders(&rt, ORDERS);
    expect_no_orders(&rt, &NO_ORDERS);
    expect_lists(&rt);
    expect_written(&rt, rt.alloc());
}
