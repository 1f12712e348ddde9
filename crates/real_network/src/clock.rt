//! Instants by which something is to have come.

use libc::types::timespec;
use libc::{CLOCK_MONOTONIC, clock_gettime};
use std::time::Duration;

const NANOS: u64 = 1_000_000_000;

/// Nanoseconds since some time of the system's.
fn now() -> u64 {
    let mut time = timespec {
        tv_sec: 0,
        tv_nsec: 0,
    };
    clock_gettime(CLOCK_MONOTONIC, &mut time);
    let seconds = u64::try_from(time.tv_sec).unwrap_or(0);
    let rest = u64::try_from(time.tv_nsec).unwrap_or(0);
    seconds.saturating_mul(NANOS).saturating_add(rest)
}

/// An instant, in nanoseconds since that time.
#[derive(Clone, Copy)]
pub(crate) struct Instant(u64);

impl Instant {
    /// The one behind so many milliseconds from now.
    pub(crate) fn after(milliseconds: u32) -> Instant {
        Instant(now().saturating_add(u64::from(milliseconds) * 1_000_000))
    }

    /// How long it is until then; None where it is now, or was.
    pub(crate) fn left(self) -> Option<Duration> {
        let left = self.0.saturating_sub(now());
        if left == 0 {
            return None;
        }
        Some(Duration::from_nanos(left))
    }

    /// The later of two.
    pub(crate) fn or_later(self, other: Instant) -> Instant {
        Instant(self.0.max(other.0))
    }
}

/// The time that a client has.
#[derive(Clone, Copy)]
pub(crate) struct Time {
    /// By when its request is to have come.
    pub(crate) until: Instant,
    /// How long a write of its answer waits at most.
    pub(crate) each: Duration,
}

impl Time {
    /// So many seconds from now.
    pub(crate) fn of(seconds: u16) -> Time {
        Time {
            until: Instant::after(u32::from(seconds) * 1_000),
            each: Duration::from_secs(u64::from(seconds)),
        }
    }
}
