//! What tests assert by.

use okws_outer::error::MakeError;
use std::process::Abort;

/// Why a test stops that was refused memory.
pub(crate) const MEMORY: &str = "memory was refused";

/// Stops the test, and says where, unless this holds.
pub(crate) fn holds(rt: &impl Abort, is: bool, at: &str) {
    assert!(rt; is, "{at}");
}

/// Whether a thing was not made, and not for want of memory.
pub(crate) fn has_failed<T: Drop>(made: Result<T, MakeError>) -> bool {
    matches!(made, Err(MakeError::Failed))
}
