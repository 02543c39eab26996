// The order that a line is.
ghost use Rattle.std.specs.Prelude.{◌≡◌, codes, IfOk, IsOkAnd};
ghost use Rattle.std.specs.Option.{option_map};
ghost use Rattle.uci_lines.specs.Behind.{after, number_behind};
ghost use Rattle.uci_lines.specs.OrderReading.{is_positive_or_none, is_search, setting_order_in, moves_in, setup_order, position_in, clock_four, clock_three, clock_in, control_in, search_with, search_in, long_order, order_in, SpellsOrder, TakesPositions};
ghost use Rattle.uci_lines.specs.Orders.{Order as AnyOrder, uci_order_of, optional_now};
ghost use Rattle.uci_lines.specs.Written.{fields_before};

use crate::behind::{after, number_behind, perhaps_number};
use crate::cut::is_word;
use crate::orders::{GoControl, Order};
use crate::written::{cut_value, is_count, is_fen, is_moves, is_positive, is_text, split_fields};

/// A line is no order.
#[derive(Clone, Copy, Debug, PartialEq, Eq)]
pub struct BadOrder;

fn read_setting(text: &[u8]) -> Option<Order<'_>>
    ensures { option_map uci_order_of result ≡ setting_order_in text.now }
{
    let (name, value) = match cut_value(text) {
        Some((name, value)) => (name, Some(value)),
        None => (text, None),
    };
    if !is_text(name) {
        return None;
    }
    if let Some(value) = value {
        if !is_text(value) {
            return None;
        }
    }
    Some(Order::SetOption { name, value })
}

fn read_moves(text: &[u8]) -> Option<&[u8]>
    ensures { optional_now result ≡ moves_in text.now }
{
    if text.is_empty() {
        return Some(text);
    }
    let moves = after(b" moves ", text)?;
    if is_moves(moves) { Some(moves) } else { None }
}

fn read_set_up(text: &[u8]) -> Option<Order<'_>>
    ensures { option_map uci_order_of result ≡ setup_order (fields_before 5 text.now) }
{
    let (fen, others) = split_fields(text);
    if !is_fen(fen) {
        return None;
    }
    let moves = read_moves(others)?;
    Some(Order::Position {
        fen: Some(fen),
        moves,
    })
}

fn read_position(text: &[u8]) -> Option<Order<'_>>
    ensures { option_map uci_order_of result ≡ position_in text.now }
{
    match after(b"startpos", text) {
        Some(others) => {
            let moves = read_moves(others)?;
            Some(Order::Position { fen: None, moves })
        }
        None => read_set_up(after(b"fen ", text)?),
    }
}

/// A clock after its two times and its first increment.
fn read_last_numbers(wtime: u64, btime: u64, winc: u64, text: &[u8]) -> Option<(GoControl, &[u8])>
    ensures { option_map (λ p. (p.0, p.1.now)) result
        ≡ clock_four wtime btime winc (number_behind (codes " binc ") text.now) }
{
    let (binc, others) = number_behind(b" binc ", text)?;
    let (movestogo, others) = perhaps_number(b" movestogo ", others);
    let clock = GoControl::Clock {
        wtime,
        btime,
        winc,
        binc,
        movestogo,
    };
    Some((clock, others))
}

/// A clock after its two times.
fn read_increments(wtime: u64, btime: u64, text: &[u8]) -> Option<(GoControl, &[u8])>
    ensures { option_map (λ p. (p.0, p.1.now)) result
        ≡ clock_three wtime btime (number_behind (codes " winc ") text.now) }
{
    let (winc, others) = number_behind(b" winc ", text)?;
    read_last_numbers(wtime, btime, winc, others)
}

#[tactic(auto, unfolding(crate::specs::OrderReading::clock_in))]
fn read_clock(text: &[u8]) -> Option<(GoControl, &[u8])>
    ensures { option_map (λ p. (p.0, p.1.now)) result ≡ clock_in text.now }
{
    let (wtime, others) = number_behind(b" wtime ", text)?;
    let (btime, others) = number_behind(b" btime ", others)?;
    read_increments(wtime, btime, others)
}

#[tactic(auto, unfolding(crate::specs::OrderReading::control_in))]
fn read_control(text: &[u8]) -> Option<(GoControl, &[u8])>
    ensures { option_map (λ p. (p.0, p.1.now)) result ≡ control_in text.now }
{
    if let Some(others) = after(b" infinite", text) {
        return Some((GoControl::Infinite, others));
    }
    match number_behind(b" movetime ", text) {
        Some((time, others)) => Some((GoControl::MoveTime(time), others)),
        None => read_clock(text),
    }
}

fn is_positive_or_none(n: Option<u64>) -> bool
    ensures { result ≡ is_positive_or_none n }
{
    match n {
        Some(n) => is_positive(n),
        None => true,
    }
}

fn is_search(ponder: bool, control: GoControl, depth: Option<u64>) -> bool
    ensures { result ≡ is_search ponder control depth }
{
    match control {
        GoControl::Infinite => !ponder && depth.is_none(),
        GoControl::MoveTime(time) => is_positive(time) && is_positive_or_none(depth),
        GoControl::Clock {
            wtime,
            btime,
            winc,
            binc,
            movestogo,
        } => {
            is_positive(wtime)
                && is_positive(btime)
                && is_count(winc)
                && is_count(binc)
                && is_positive_or_none(movestogo)
                && is_positive_or_none(depth)
        }
    }
}

fn read_search_with(ponder: bool, text: &[u8]) -> Option<Order<'_>>
    ensures { option_map uci_order_of result ≡ search_with ponder (control_in text.now) }
{
    let (control, others) = read_control(text)?;
    let (depth, others) = perhaps_number(b" depth ", others);
    if others.is_empty() && is_search(ponder, control, depth) {
        Some(Order::Go {
            ponder,
            control,
            depth,
        })
    } else {
        None
    }
}

fn read_search(text: &[u8]) -> Option<Order<'_>>
    ensures { option_map uci_order_of result ≡ search_in text.now }
{
    match after(b" ponder", text) {
        Some(others) => read_search_with(true, others),
        None => read_search_with(false, text),
    }
}

fn read_long(line: &[u8]) -> Option<Order<'_>>
    ensures { option_map uci_order_of result ≡ long_order line.now }
{
    if let Some(text) = after(b"setoption name ", line) {
        return read_setting(text);
    }
    if let Some(text) = after(b"position ", line) {
        return read_position(text);
    }
    read_search(after(b"go", line)?)
}

#[tactic(auto, unfolding(crate::specs::OrderReading::order_in))]
fn order_in(line: &[u8]) -> Option<Order<'_>>
    ensures { option_map uci_order_of result ≡ order_in line.now }
{
    if is_word(line, "uci") {
        Some(Order::Uci)
    } else if is_word(line, "isready") {
        Some(Order::IsReady)
    } else if is_word(line, "ucinewgame") {
        Some(Order::NewGame)
    } else if is_word(line, "stop") {
        Some(Order::Stop)
    } else if is_word(line, "ponderhit") {
        Some(Order::PonderHit)
    } else if is_word(line, "quit") {
        Some(Order::Quit)
    } else {
        read_long(line)
    }
}

/// The order that a line is (UCI, "GUI to engine"). The line has no line feed.
///
/// # Errors
/// `BadOrder` if and only if the line is the text of no order that may be written.
pub fn read_order(line: &[u8]) -> Result<Order<'_>, BadOrder>
    ensures found { IfOk result (λ o. SpellsOrder line.now (uci_order_of o)) }
    ensures only { (c : AnyOrder) → SpellsOrder line.now c → IsOkAnd result (λ o. uci_order_of o
        ≡ c) }
{
    order_in(line).ok_or(BadOrder)
}

/// The text of every position of normal chess may stand in an order.
pub fn positions_may_stand()
    ensures { TakesPositions }
{}
