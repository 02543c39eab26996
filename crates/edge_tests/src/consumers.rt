// A consumer of lines, which is given each line of an input.
use crate::expected::expect;
use line_io::{LineConsumer, Lines, LinesEnd, MemSource, Out, take_lines};
use std::alloc::Global;
use std::process::Abort;

// Notes what it is given, and stops at the line of a number.
#[derive(Drop)]
struct Notes {
    text: Out,
    last: u64,
}

impl Notes {
    fn note(&mut self, number: u64, line: &[u8]) -> Option<u64> {
        if line.len() < self.text.spare() {
            self.text.put(line);
            self.text.put(b";");
        }
        if number == self.last {
            Some(number)
        } else {
            None
        }
    }
}

impl LineConsumer<()> for Notes {
    ghost use Rattle.std.specs.Prelude.{⊤};

    type Stop = u64;

    ghost means = { record {
      took = λ _ _ _ _ _. ⊤;
      stopped = λ _ _ _ _ _ _. ⊤;
      may = λ _. ⊤;
      is_written = λ _. ⊤;
    } };

    fn line(&mut self, number: u64, line: &[u8], _output: &mut ()) -> Option<u64> {
        self.note(number, line)
    }

    fn long(&mut self, number: u64, _output: &mut ()) -> Option<u64> {
        self.note(number, b"(long)")
    }

    fn flush(&mut self, _output: &mut ()) -> Option<u64> {
        self.note(0, b"(read)")
    }
}

// The reads that fail, the line at which the consumer stops, how the taking ends, and what was noted.
type Row = (&'static [u64], u64, LinesEnd<u64>, &'static str);

const ROWS: [Row; 4] = [
    (
        &[],
        9,
        LinesEnd::Ended,
        "(read);a;;(read);(read);(long);(read);e;",
    ),
    (&[], 1, LinesEnd::Stopped(1), "(read);a;"),
    (
        &[],
        3,
        LinesEnd::Stopped(3),
        "(read);a;;(read);(read);(long);",
    ),
    (&[2], 9, LinesEnd::ReadFailed, "(read);a;;(read);"),
];

// Takes the lines of an input, and compares how that ends and what is noted.
fn expect_row(rt: &impl Abort, alloc: Global, row: &Row) {
    let (fails, last, end, text) = row;
    let mut lines = Lines::make(alloc, 2).expect(rt, "memory for a line");
    let mut source = MemSource::make(alloc, b"a\n\nbcd\ne", 3, fails).expect(rt, "an input");
    let mut notes = Notes {
        text: Out::make(alloc, 99).expect(rt, "memory for the notes"),
        last: *last,
    };
    let found = take_lines(&mut lines, &mut source, &mut notes, &mut ());
    expect(
        rt,
        found == *end && notes.text.bytes() == text.as_bytes(),
        text,
        0,
    );
}

#[test]
fn takes_lines_of_an_input(rt: HostRuntime) {
    for row in &ROWS {
        expect_row(&rt, rt.alloc(), row);
    }
}
