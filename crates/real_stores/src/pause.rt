//! Waiting for what comes by itself.

use libc::nanosleep;
use libc::types::timespec;

/// Nanoseconds of a pause.
const PAUSE: i64 = 10_000_000;

/// Waits for ten milliseconds, or until a signal comes.
pub fn pause() {
    let asked = timespec {
        tv_sec: 0,
        tv_nsec: PAUSE,
    };
    let mut left = asked;
    nanosleep(&asked, &mut left);
}
