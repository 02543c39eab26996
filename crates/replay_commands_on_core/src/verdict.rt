// The text that `check` writes of what it found.
ghost use Rattle.std.specs.Prelude.{◌≡◌, ◌+◌, ◌≤◌, length};
ghost use Rattle.line_io.specs.Out.{with};
ghost use Rattle.replay_command_base.specs.declared.ending.Ending.TheVariants as endings;
ghost use Rattle.replay_commands_on_core.specs.Verdict.{VerdictWrote, check_verdict};

use itoa::Buffer;
use line_io::{Out, Sink, write_all};
use replay_command_base::Ending;

fn put_difference(line: u64, out: &mut Out)
    requires { length out.old.text + 80 ≤ out.old.room }
    ensures { out.new ≡ with out.old (check_verdict (endings.Differs line)) }
{
    let mut digits = Buffer::new();
    out.put(b"differs at line ");
    out.put(digits.format(line).as_bytes());
    out.put(b"\n");
}

// Puts what `check` writes of its input, which is one line or nothing.
fn put_verdict(found: Ending, out: &mut Out)
    requires { length out.old.text + 80 ≤ out.old.room }
    ensures { out.new ≡ with out.old (check_verdict found) }
{
    match found {
        Ending::Done => out.put(b"lawful\n"),
        Ending::Differs(line) => put_difference(line, out),
        _ => out.put(b""),
    }
}

/// Writes what was found, and gives how the check ended.
pub fn write_verdict<O: Sink>(found: Ending, text: &mut Out, output: &mut O) -> Ending
    requires { 80 ≤ text.old.room }
    ensures wrote { VerdictWrote found result (output.new ≡ output.old)
        (O.state output.old) (O.state output.new) }
    ensures room { text.new.room ≡ text.old.room }
{
    text.clear();
    put_verdict(found, text);
    match write_all(output, text.bytes()) {
        Ok(()) => found,
        Err(_) => Ending::WritingFailed,
    }
}
