//! How long a thread looks for what it awaits before it sleeps.

ghost use Rattle.std.specs.Prelude.{◌≡◌, ◌≤◌, ◌+◌, true, false};

use libc::types::timespec;
use libc::{CLOCK_MONOTONIC, clock_gettime};
use std::sync::atomic::{AtomicU64, Ordering};
use std::thread::yield_now;

/// So many nanoseconds others keep the processor only where they have much to do.
const LONG: u64 = 500_000;

/// For so many waits nobody looks behind that.
const WAITS: u64 = 512;

/// So many waits are without looks, at most, behind one that looked in vain.
const PAUSE: u64 = 63;

/// Nanoseconds since some time of the system's.
fn nanos() -> u64 {
    let mut time = timespec {
        tv_sec: 0,
        tv_nsec: 0,
    };
    clock_gettime(CLOCK_MONOTONIC, &mut time);
    let seconds = u64::try_from(time.tv_sec).unwrap_or(0);
    let rest = u64::try_from(time.tv_nsec).unwrap_or(0);
    seconds.saturating_mul(1_000_000_000).saturating_add(rest)
}

/// Whether those that wait for something look for it before they sleep. Between two looks others run, since
/// what is awaited may come from a thread that waits for the same processor. Where others keep it long, a look
/// costs more than a sleep: then nobody looks for a while. Nor does who looked in vain: behind each such wait
/// twice as many waits are without looks as behind the one before, and half as many where looks find something.
#[derive(Drop)]
pub struct Patience {
    // How often to look again in a wait.
    most: u64,
    // So many waits more are without looks.
    without: AtomicU64,
    // How many waits were without looks behind the last one that looked in vain, halved by each that found something.
    pause: AtomicU64,
}

impl Patience {
    /// Looks from the first wait on, and so often at most again in each.
    pub fn new(most: u64) -> Patience
        ensures most { result.most ≡ most }
    {
        Patience {
            most,
            without: AtomicU64::new(0),
            pause: AtomicU64::new(0),
        }
    }

    /// Begins a wait.
    pub fn begin(&self) -> Looks<'_>
        ensures left { result.left ≡ self.now.most }
    {
        let without = self.without.load(Ordering::Relaxed);
        if without != 0 {
            self.without
                .store(without.saturating_sub(1), Ordering::Relaxed);
        }
        Looks {
            patience: self,
            ended: without != 0,
            left: self.most,
            since: None,
        }
    }

    /// Behind a wait whose looks found what was awaited, fewer waits are to be without looks.
    pub(crate) fn found(&self) {
        let pause = self.pause.load(Ordering::Relaxed);
        if pause != 0 {
            self.pause.store(pause / 2, Ordering::Relaxed);
        }
    }

    /// Behind a wait whose looks were in vain, some waits are without looks.
    pub(crate) fn missed(&self) {
        let pause = self
            .pause
            .load(Ordering::Relaxed)
            .saturating_mul(2)
            .saturating_add(1)
            .min(PAUSE);
        self.pause.store(pause, Ordering::Relaxed);
        self.without.store(pause, Ordering::Relaxed);
    }
}

/// The looks of a wait, of which there may be none but the first.
#[derive(Drop)]
pub struct Looks<'a> {
    patience: &'a Patience,
    // Whether who waits is to sleep.
    pub(crate) ended: bool,
    // How often to look again yet.
    left: u64,
    // When others were last let run, in nanoseconds.
    since: Option<u64>,
}

impl<'a> Looks<'a> {
    /// Behind a look that found nothing: whether to look again, before which others were let run, or to sleep.
    pub fn again(&mut self) -> bool
        ensures fewer { result ≡ true → self.new.left + 1 ≡ self.old.left }
        ensures no_more { result ≡ false → self.new.left ≤ self.old.left }
    {
        if self.ended {
            return false;
        }
        if self.left == 0 {
            self.ended = true;
            self.patience.missed();
            return false;
        }
        self.left -= 1;
        self.ended = !self.others_run();
        if self.ended {
            self.patience.without.store(WAITS, Ordering::Relaxed);
        }
        !self.ended
    }

    /// Lets other threads run, and tells whether they kept the processor for a short time alone.
    fn others_run(&mut self) -> bool
        ensures stays { self.new.left ≡ self.old.left }
    {
        let before = self.since.unwrap_or_else(nanos);
        yield_now();
        let now = nanos();
        self.since = Some(now);
        now.saturating_sub(before) < LONG
    }

    /// Ends a wait in which what was awaited came, by a look or behind a sleep.
    pub fn end(self) {
        if !self.ended {
            self.patience.found();
        }
    }
}
