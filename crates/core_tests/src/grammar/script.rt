// Marks, headers and step lines up to their limits, which no worked session reaches.
use crate::expect::{expect, expect_text};
use line_io::{Event, Out};
use policy_rules::Settings;
use script_lines::{
    HEADER_ROOM, Mark, next_number, read_header, read_mark, read_step, write_header,
    write_mark_line, write_step,
};
use std::alloc::Global;
use std::process::Abort;

// A mark's letter, the length of a line that begins with it, and whether a mark may be so long.
const LENGTHS: [(u8, usize, bool); 4] = [
    (b'x', 65_538, true),
    (b'u', 65_539, false),
    (b'X', 131_072, true),
    (b'U', 131_073, false),
];

/// True if a line of a length that begins with a letter is a mark.
fn is_mark(rt: &impl Abort, alloc: Global, letter: u8, length: usize) -> bool {
    let mut line = vec![in alloc; b' '; length].expect(rt, "memory");
    if let Some(first) = line.first_mut() {
        *first = letter;
    }
    read_mark(&line).is_ok()
}

#[test]
fn reads_marks_of_a_length(rt: HostRuntime) {
    for (letter, length, want) in &LENGTHS {
        let found = is_mark(&rt, rt.alloc(), *letter, *length);
        assert!(rt; found == *want, "{length}");
    }
}

#[test]
fn writes_no_mark_of_the_opening(rt: HostRuntime) {
    // the step that no mark stands for
    let mut script = Out::make(rt.alloc(), 9).expect(&rt, "memory");
    write_mark_line(&Mark::Event(Event::Open), &mut script);
    write_mark_line(&Mark::ToEngine(b"uci"), &mut script);
    expect_text(&rt, script.bytes(), "U uci\n");
}

const LONGEST: Settings = Settings {
    resign: false,
    resign_moves: 1000,
    resign_score: 100_000,
    show_ponder: false,
    early_settings: false,
    resign_when_gone: false,
    handle_draws: false,
    show_san: false,
    strength_options: false,
    fence_stops: true,
    result_reasons: true,
    time_margin: 10_000,
    plain_texts: true,
    path_options: true,
    repeat_thinking: true,
};

#[test]
fn writes_the_longest_header(rt: HostRuntime) {
    let mut out = Out::make(rt.alloc(), HEADER_ROOM).expect(&rt, "memory");
    write_header(&LONGEST, &mut out);
    let ends = out.bytes().ends_with(
        b" TimeMargin=10000 PlainTexts=true PathOptions=true RepeatThinking=true",
    );
    expect(&rt, ends, "later settings last");
    expect(&rt, read_header(out.bytes()) == Some(LONGEST), "longest");
}

const LAST: u64 = 999_999_999_999_999_999;

#[test]
fn numbers_the_last_step(rt: HostRuntime) {
    let mut out = Out::make(rt.alloc(), 20).expect(&rt, "memory");
    write_step(LAST, &mut out);
    let text = "# 999999999999999999";
    expect_text(&rt, out.bytes(), text);
    expect(&rt, read_step(text.as_bytes()) == Some(LAST), "the last");
    expect(&rt, next_number(0) == 1, "after the first");
    expect(&rt, next_number(LAST) == 0, "after the last");
}
