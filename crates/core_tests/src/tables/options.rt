// Options and orders up to their limits, which no worked session reaches.
use crate::expect::{expect, expect_text, room};
use cecp_lines::IfaceMsg;
use line_io::Out;
use option_map::{Declared, FeatureStyle, HeldOrders, Options};
use std::alloc::Global;
use std::process::Abort;
use uci_lines::{EngineMsg, OptionKind, OptionMsg, read_engine};

/// The style in which options are shown if no setting says otherwise.
const USUAL: FeatureStyle = FeatureStyle {
    strength: false,
    plain: false,
    paths: false,
};

/// A line of an engine, and what comes of it.
type Row = (&'static str, Declared);

/// Of two reasons the first applies.
const REASONS: [Row; 3] = [
    (
        "option name Hash type spin default 16 min 1 max 1024",
        Declared::Done,
    ),
    ("option name hash type button", Declared::Double),
    (
        "option name Hash type string default \"",
        Declared::Unshowable,
    ),
];

/// Where the texts take all of their room.
const FULL_TEXT: [Row; 3] = [
    ("option name C type button", Declared::Full),
    ("option name a type check", Declared::Double),
    ("option name UCI_Chess960 type check", Declared::Done),
];

/// Where there are as many options as there may be.
const FULL_TABLE: [Row; 2] = [
    ("option name C type button", Declared::Full),
    ("option name Aa type check", Declared::Double),
];

/// The option that a line declares.
fn option_of<'a>(rt: &impl Abort, line: &'a str) -> OptionMsg<'a> {
    match read_engine(line.as_bytes()) {
        EngineMsg::OptionLine(msg) => msg,
        _ => panic!(rt; "no option: {line}"),
    }
}

/// Declares what each line tells, and compares what comes of it.
fn expect_reported(rt: &impl Abort, rows: &[Row], options: &mut Options) {
    for (line, want) in rows {
        let reported = options.declare(&option_of(rt, line), USUAL);
        expect(rt, reported == *want, line);
    }
}

/// True if there are so many options, and their texts are so long.
fn are_so_many(options: &Options, count: usize, text: usize) -> bool {
    options.count() == count && options.text() == text
}

/// True if an option is declared, and there are so many then, and their texts are so long.
fn declares(msg: &OptionMsg, count: usize, text: usize, options: &mut Options) -> bool {
    options.declare(msg, USUAL) == Declared::Done && are_so_many(options, count, text)
}

/// Declares what each line tells where nothing else is declared, and compares what comes of it.
fn expect_alone(rt: &impl Abort, alloc: Global, rows: &[Row]) {
    let mut options = Options::make(alloc).expect(rt, "memory for the options");
    expect_reported(rt, rows, &mut options);
}

/// Declares as much text as there may be, by two options with these letters.
fn fill_text(rt: &impl Abort, letters: &[u8], options: &mut Options) {
    let kind = OptionKind::Text { default: letters };
    let first = OptionMsg { name: b"A", kind };
    expect(rt, declares(&first, 1, 32_768, options), "1 options");
    let second = OptionMsg { name: b"B", kind };
    expect(rt, declares(&second, 2, 65_536, options), "2 options");
    expect_reported(rt, &FULL_TEXT, options);
}

/// Declares so much text where nothing else is declared.
fn fill_text_alone(rt: &impl Abort, alloc: Global, letters: &[u8]) {
    let mut options = Options::make(alloc).expect(rt, "memory for the options");
    fill_text(rt, letters, &mut options);
}

#[test]
fn declares_so_much_text(rt: HostRuntime) {
    expect_alone(&rt, rt.alloc(), &REASONS);
    let letters = vec![in rt.alloc(); b'x'; 32_741].expect(&rt, "memory for the letters");
    fill_text_alone(&rt, rt.alloc(), &letters);
}

/// Declares as many options as there may be.
fn fill_table(options: &mut Options) {
    for first in b"abcdefghijklmnop" {
        for second in b"ABCDEFGHIJKLMNOP" {
            let msg = OptionMsg {
                name: &[*first, *second],
                kind: OptionKind::Button,
            };
            options.declare(&msg, USUAL);
        }
    }
}

#[test]
fn declares_so_many_options(rt: HostRuntime) {
    let mut options = Options::make(rt.alloc()).expect(&rt, "memory for the options");
    fill_table(&mut options);
    expect_reported(&rt, &FULL_TABLE, &mut options);
    // 27 bytes each
    expect(&rt, are_so_many(&options, 256, 6_912), "all");
}

/// Adds the order of a line, if it fits.
fn add(held: &mut HeldOrders, line: &[u8]) -> bool {
    if !held.fits(line) {
        return false;
    }
    held.add(line);
    true
}

/// Lines that spell no order.
const NO_ORDERS: [&str; 5] = ["", "isready", "stop", "setoption", "hello"];

/// Holds as many orders as there may be.
fn fill_count(rt: &impl Abort, held: &mut HeldOrders) {
    expect(rt, add(held, b"setoption name A value 1"), "first");
    for _ in 0..255 {
        expect(rt, add(held, b"setoption name B"), "further");
    }
    expect(rt, !held.fits(b"setoption name B"), "one more button");
    let another = held.fits(b"setoption name C value 1");
    expect(rt, !another, "one more value");
    // One that takes the place of another fits.
    expect(rt, add(held, b"setoption name A value 2"), "in its place");
    expect(rt, held.count() == 256, "all");
    held.clear();
}

/// Holds as many bytes as there may be: 65,535 and a line feed. The longer line has one more.
fn fill_bytes(rt: &impl Abort, longer: &[u8], held: &mut HeldOrders) {
    let (_, line) = longer.split_last().expect(rt, "a long line");
    expect(rt, add(held, line), "a long one");
    expect(rt, !held.fits(b"ucinewgame"), "another");
    expect(rt, add(held, line), "in its own place");
    expect(rt, held.count() == 1, "a long one");
    expect(rt, !held.fits(longer), "a longer one");
}

/// The beginning of a line that sets an option to a long value.
const LONG: &[u8] = b"setoption name S value ";

/// The letters of the longest value of an option named by one letter.
const MOST: usize = 65_512;

/// A text that spells no order does not fit.
fn check_no_orders(rt: &impl Abort, held: &HeldOrders) {
    for line in &NO_ORDERS {
        expect(rt, !held.fits(line.as_bytes()), line);
    }
}

/// Holds as many orders and as many bytes as there may be. The longer line has one byte more.
fn fill(rt: &impl Abort, alloc: Global, longer: &[u8]) {
    let mut held = HeldOrders::make(alloc).expect(rt, "memory");
    check_no_orders(rt, &held);
    fill_count(rt, &mut held);
    fill_bytes(rt, longer, &mut held);
}

#[test]
fn holds_so_many_orders(rt: HostRuntime) {
    let mut longer = vec![in rt.alloc(); b'x'; LONG.len() + MOST + 1].expect(&rt, "memory");
    longer[..LONG.len()].copy_from_slice(LONG);
    fill(&rt, rt.alloc(), &longer);
}

/// Translates a line that sets an option, if there is room for its order.
fn translate(rt: &impl Abort, options: &Options, out: &mut Out) {
    options.facts();
    let asked = IfaceMsg::SetOption {
        name: b"multipv",
        value: None,
    };
    if out.spare() >= 71 {
        expect(rt, options.translate(&asked, out) == Ok(true), "asked");
    }
}

/// Expects the order that a line asks for.
fn expect_translated(rt: &impl Abort, alloc: Global, options: &Options) {
    let mut out = room(rt, alloc, 99);
    translate(rt, options, &mut out);
    expect_text(rt, out.bytes(), "setoption name MultiPV");
}

#[test]
fn translates_a_line(rt: HostRuntime) {
    let mut options = Options::make(rt.alloc()).expect(&rt, "memory for the options");
    let msg = OptionMsg {
        name: b"MultiPV",
        kind: OptionKind::Button,
    };
    options.declare(&msg, USUAL);
    expect_translated(&rt, rt.alloc(), &options);
}
