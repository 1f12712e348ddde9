//! The three descriptors that a program is started with.

use libc::close;
use os::open_read;

/// The greatest of the three.
const LAST: i32 = 2;

/// Sees to it that what is opened from now on is none of the three. One that the program was started without is read as
/// one that has ended, and takes no byte.
pub fn hold_standard_descriptors() {
    for _ in 0..=LAST {
        let lowest = open_read(b"/dev/null");
        if lowest > LAST {
            close(lowest);
        }
        if lowest < 0 || lowest > LAST {
            return;
        }
    }
}
