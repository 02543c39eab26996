// Gives the lines of an input to a consumer.
ghost use Rattle.std.specs.Prelude.{◌≡◌, ◌<◌, ◌≤◌, ◌+◌, ◌^◌, ℕ, [], None, length};
ghost use Rattle.line_io.specs.Lines.{empty_reader, IsLineReady, IsWaiting};
ghost use Rattle.line_io.specs.Taken.{Taken, Place, reading_place};
ghost use Rattle.line_io.specs.Turns.{ConsumerReached, After, HasNoWholeLine, work};

use crate::{Item, LineConsumer, Lines, LinesEnd, Source};

// After so many calls of the reader of lines the input gave at least 2^32 bytes.
const TURNS: u64 = (1 << 33) + 1;

// Takes the next line, if one came, and counts it. Nothing is left to write when it reads.
fn take_next<I: Source, O, T: LineConsumer<O>>(
    lines: &mut Lines,
    input: &mut I,
    consumer: &mut T,
    output: &mut O,
    count: &mut u64,
) -> Option<LinesEnd<T::Stop>>
    requires may { T.means.may consumer.old }
    requires written { IsWaiting lines.old → T.means.is_written consumer.old }
    requires count { count.old + 2 < 2 ^ 64 }
    ensures may { result ≡ None → T.means.may consumer.new }
    ensures after { (first : Place T O) (limit calls : ℕ)
        → ConsumerReached T.means limit first (reading_place consumer.old output.old (I.state
        input.old))
        lines.old calls count.old
        → After T.means limit result first (reading_place consumer.new output.new (I.state
        input.new))
        lines.new calls count.new }
    ensures falls { result ≡ None → IsLineReady lines.old → work lines.new < work lines.old }
    ensures count { count.new ≤ count.old + 1 }
{
    match lines.next(input) {
        Err(_) => Some(LinesEnd::ReadFailed),
        Ok(Item::End) => Some(LinesEnd::Ended),
        Ok(Item::More) => None,
        Ok(Item::Long) => {
            *count += 1;
            match consumer.long(*count, output) {
                Some(stop) => Some(LinesEnd::Stopped(stop)),
                None => None,
            }
        }
        Ok(Item::Line(line)) => {
            *count += 1;
            match consumer.line(*count, line, output) {
                Some(stop) => Some(LinesEnd::Stopped(stop)),
                None => None,
            }
        }
    }
}

// The same, and what is left to write is written before a read.
fn turn<I: Source, O, T: LineConsumer<O>>(
    lines: &mut Lines,
    input: &mut I,
    consumer: &mut T,
    output: &mut O,
    count: &mut u64,
) -> Option<LinesEnd<T::Stop>>
    requires may { T.means.may consumer.old }
    requires count { count.old + 2 < 2 ^ 64 }
    ensures may { result ≡ None → T.means.may consumer.new }
    ensures after { (first : Place T O) (limit calls : ℕ)
        → ConsumerReached T.means limit first (reading_place consumer.old output.old (I.state
        input.old))
        lines.old calls count.old
        → After T.means limit result first (reading_place consumer.new output.new (I.state
        input.new))
        lines.new calls count.new }
    ensures falls { result ≡ None → IsLineReady lines.old → work lines.new < work lines.old }
    ensures count { count.new ≤ count.old + 1 }
{
    if !lines.is_ready() {
        if let Some(stop) = consumer.flush(output) {
            return Some(LinesEnd::Stopped(stop));
        }
    }
    take_next(lines, input, consumer, output, count)
}

// Takes the lines that are whole, or the last ones if the end was seen. It reads nothing.
fn take_held<I: Source, O, T: LineConsumer<O>>(
    lines: &mut Lines,
    input: &mut I,
    consumer: &mut T,
    output: &mut O,
    count: &mut u64,
) -> Option<LinesEnd<T::Stop>>
    requires may { T.means.may consumer.old }
    requires count { count.old ≤ 2 ^ 34 }
    ensures count { count.new ≤ 2 ^ 63 + 2 ^ 35 }
    ensures drained { (first : Place T O) (limit calls : ℕ)
        → ConsumerReached T.means limit first (reading_place consumer.old output.old (I.state
        input.old))
        lines.old calls count.old
        → HasNoWholeLine T.means limit result first (reading_place consumer.new output.new
        (I.state input.new))
        lines.new calls count.new }
{
    let mut is_ready = lines.is_ready();
    while is_ready {
        if let Some(ending) = turn(lines, input, consumer, output, count) {
            return Some(ending);
        }
        is_ready = lines.is_ready();
    }
    None
}

/// Gives the lines of the input to the consumer, each once and in order, up to its stop. Before each
/// read the consumer is asked to write what it has left to write, since the read may wait.
pub fn take_lines<I: Source, O, T: LineConsumer<O>>(
    lines: &mut Lines,
    input: &mut I,
    consumer: &mut T,
    output: &mut O,
) -> LinesEnd<T::Stop>
    requires fresh { lines.old ≡ empty_reader lines.old.limit }
    requires may { T.means.may consumer.old }
    requires begins { T.means.took consumer.old output.old [] consumer.old output.old }
    ensures { Taken T.means lines.old.limit result
        (reading_place consumer.old output.old (I.state input.old))
        (reading_place consumer.new output.new (I.state input.new)) }
{
    let mut count = 0;
    for _ in 0..TURNS {
        if let Some(ending) = turn(lines, input, consumer, output, &mut count) {
            return ending;
        }
    }
    match take_held(lines, input, consumer, output, &mut count) {
        Some(ending) => ending,
        None => LinesEnd::Endless,
    }
}
