// The message on a wait for the log that was in vain.
ghost use Rattle.std.specs.Prelude.{◌≤◌, length};

use itoa::Buffer;
use std::sync::atomic::{AtomicU64, Ordering};

// The number of looks at the log before a wait is in vain.
const LOOKS: u64 = 1_000_000_000;

/// True if the log took so many lines before the last look at it.
pub fn has_come(lines: &AtomicU64, wanted: u64) -> bool {
    for _ in 0..LOOKS {
        if lines.load(Ordering::SeqCst) >= wanted {
            return true;
        }
    }
    false
}

// Puts the text after so many bytes, as much of it as fits, and gives how many bytes are there then.
fn put(buf: &mut [u8], at: usize, text: &[u8]) -> usize
    requires { at ≤ length buf.old }
    ensures { result ≤ length buf.new }
{
    let end = at + text.len().min(buf.len() - at);
    buf[at..end].copy_from_slice(&text[..end - at]);
    end
}

/// Writes the line that says which count of lines the log never took, as much of it as fits, and
/// gives its length.
pub fn write_missed(buf: &mut [u8], wanted: u64) -> usize
    ensures { result ≤ length buf.new }
{
    let mut number = Buffer::new();
    let mut at = put(buf, 0, b"the log never took ");
    at = put(buf, at, number.format(wanted).as_bytes());
    put(buf, at, b" lines\n")
}
