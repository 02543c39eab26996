// The expectations of the tests for the row that is named, each kind of value compared in one place.
ghost use Rattle.std.specs.Prelude.{◌≡◌, true};

use std::process::Abort;

pub fn expect_bytes(rt: &impl Abort, row: &str, found: &[u8], wanted: &[u8]) {
    assert_eq!(rt; found, wanted, "{row}");
}

pub fn expect_true(rt: &impl Abort, row: &str, found: bool)
    ensures { found ≡ true }
{
    assert!(rt; found, "{row}");
}
