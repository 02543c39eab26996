// The inputs and the expected values of the tests, each kind of value made or compared in one place.
use std::alloc::Global;
use std::process::Abort;

pub fn expect_bytes(rt: &impl Abort, found: &[u8], wanted: &[u8]) {
    assert_eq!(rt; found, wanted);
}

/// Expects that the case of this name holds.
pub fn expect(rt: &impl Abort, holds: bool, case: &str, number: usize) {
    assert!(rt; holds, "{case} {number}");
}

/// The words of a text, bars between, as a program gets them.
pub fn words_of(rt: &impl Abort, alloc: Global, text: &str) -> Vec<Vec<u8>> {
    let mut arguments: Vec<Vec<u8>> = Vec::new(alloc);
    for word in text.split('|') {
        if word.is_empty() {
            continue;
        }
        let word = Vec::from_slice(alloc, word.as_bytes()).expect(rt, "memory");
        arguments.push(word).expect(rt, "memory");
    }
    arguments
}
