//! What is told of doors on standard error.

use std::io::{Eprint, Stderr};

/// Tells on which port connections are accepted.
pub(crate) fn listening(errors: Stderr, port: u16) {
    let _ = eprintln!(errors; "okws: listening on 127.0.0.1:{port}");
}

/// Tells how many calls of doors failed, where some did.
pub(crate) fn door_faults(errors: Stderr, faults: u64) {
    if faults > 0 {
        let _ = eprintln!(errors; "okws: doors: {faults} faults");
    }
}
