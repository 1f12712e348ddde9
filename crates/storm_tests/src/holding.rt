//! What tests assert by.

use std::process::Abort;

/// Why a test stops that was refused memory.
pub(crate) const MEMORY: &str = "memory was refused";

/// Stops the test, and says where, unless this holds.
pub(crate) fn holds(rt: &impl Abort, is: bool, at: &str) {
    assert!(rt; is, "{at}");
}

/// Stops the test unless the bytes that were found are those that are wanted.
pub(crate) fn same(rt: &impl Abort, found: &[u8], want: &[u8]) {
    assert!(rt; found == want, "{found:?} is not {want:?}");
}
