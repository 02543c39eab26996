// The values that the tests of this crate compare, and the room that they write into.
ghost use Rattle.std.specs.Prelude.{◌≡◌, true};

use line_io::Out;
use std::alloc::Global;
use std::process::Abort;

/// Expects what is named.
pub(crate) fn expect(rt: &impl Abort, holds: bool, what: &str)
    ensures { holds ≡ true }
{
    assert!(rt; holds, "{what}");
}

/// Expects that a text is the one that is wanted.
pub(crate) fn expect_text(rt: &impl Abort, text: &[u8], want: &str) {
    expect(rt, text == want.as_bytes(), want);
}

/// Room for so many bytes.
pub(crate) fn room(rt: &impl Abort, alloc: Global, bytes: usize) -> Out {
    Out::make(alloc, bytes).expect(rt, "memory for what is written")
}
