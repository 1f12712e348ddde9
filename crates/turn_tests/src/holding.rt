//! What tests assert by.

use std::process::Abort;

/// Why a test stops that was refused memory.
pub(crate) const MEMORY: &str = "memory was refused";

/// Stops the test, and says where, unless this holds.
pub(crate) fn holds(rt: &impl Abort, is: bool, at: &str) {
    assert!(rt; is, "{at}");
}
