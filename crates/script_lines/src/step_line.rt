// Step lines.
ghost use Rattle.std.specs.Prelude.{◌≡◌, ◌↔◌, ◌+◌, ◌<◌, ◌≤◌, ◌^◌, ℕ, suc, length, Some, IfSome};
ghost use Rattle.line_io.specs.Out.{with};
ghost use Rattle.script_lines.specs.StepLine.{SpellsStep, numeral, step_number_line, step_number, step_of};

use itoa::Buffer;
use line_io::Out;
use protocol_tokens::read_digits;

/// The count of the numbers of a script's steps. After the last one they begin again at 0.
const NUMBERS: u64 = 1_000_000_000_000_000_000;

/// The number of so many digits at most that is written so, without leading zeros.
pub(crate) fn read_numeral(text: &[u8], most: usize) -> Option<u64>
    requires { most ≤ 18 }
    ensures value { result ≡ numeral most text.now }
    ensures below { IfSome result (λ n. n < 10 ^ most) }
{
    let number = read_digits(text, most)?;
    if Buffer::new().format(number).as_bytes() == text {
        Some(number)
    } else {
        None
    }
}

/// The number in a step line, which numbers a step of a script with a header.
pub fn read_step(line: &[u8]) -> Option<u64>
    ensures value { result ≡ step_of line.now }
    ensures exact { (n : ℕ) → (result ≡ Some n) ↔ SpellsStep line.now n }
{
    step_in(line)
}

fn step_in(line: &[u8]) -> Option<u64>
    ensures { result ≡ step_of line.now }
{
    match line {
        [b'#', b' ', number @ ..] => read_numeral(number, 18),
        _ => None,
    }
}

/// Writes the line that numbers a step, without a line feed.
pub fn write_step(number: u64, out: &mut Out)
    requires below { number < 10 ^ 18 }
    requires room { length out.old.text + 20 ≤ out.old.room }
    ensures written { out.new ≡ with out.old (step_number_line number) }
    ensures short { length (step_number_line number) ≤ 20 }
    // The text written is read again.
    ensures again { step_of (step_number_line number) ≡ Some number }
{
    out.put(b"# ");
    out.put(Buffer::new().format(number).as_bytes());
}

/// The number of the next step.
pub fn next_number(number: u64) -> u64
    requires { number < 10 ^ 18 }
    ensures below { result < 10 ^ 18 }
    ensures next { (k : ℕ) → number ≡ step_number k → result ≡ step_number (suc k) }
{
    (number + 1) % NUMBERS
}
