//! Assertions.

use std::process::Abort;

/// This holds, at what is told.
pub fn holds(rt: &impl Abort, is: bool, at: &str) {
    assert!(rt; is, "at {at}");
}

/// The bytes that were found are those that are wanted.
pub fn same(rt: &impl Abort, found: &[u8], want: &[u8]) {
    assert!(rt; found == want, "{found:?} is not {want:?}");
}

/// The number that was found is the one that is wanted.
pub fn counts(rt: &impl Abort, found: usize, want: usize) {
    assert!(rt; found == want, "{found} is not {want}");
}
