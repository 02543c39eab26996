// The inputs and the expected values of the tests, each kind of value made or compared in one place.
use line_io::MemSource;
use std::alloc::Global;
use std::process::Abort;

/// Expects that the case of this name and number holds.
pub fn expect(rt: &impl Abort, holds: bool, case: &str, number: usize) {
    assert!(rt; holds, "{case} {number}");
}

pub fn expect_bytes(rt: &impl Abort, found: &[u8], wanted: &[u8]) {
    assert_eq!(rt; found, wanted);
}

/// A source of this byte so many times, and of other bytes after.
pub fn source_of(
    rt: &impl Abort,
    alloc: Global,
    prefix: (u8, usize),
    rest: &[u8],
    piece: usize,
    fails: &[u64],
) -> MemSource {
    assert!(rt; 0 < piece);
    let (byte, count) = prefix;
    let mut bytes = vec![in alloc; byte; count].expect(rt, "memory");
    bytes.extend_from_slice(rest).expect(rt, "memory");
    MemSource::make(alloc, bytes.as_slice(), piece, fails).expect(rt, "memory")
}
