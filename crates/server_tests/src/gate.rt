//! A gate at which a thread is held until another has come so far.

use okws_outer::gate::{Gate, Point};
use std::process::Abort;
use std::sync::atomic::{AtomicU64, Ordering};
use std::sync::{Mutex, Wait};
use std::thread::yield_now;

/// Which coming to a point of the gate: that of a service's or a proxy's number, counted from 1. Those of
/// connections are counted together, under the number 0.
#[derive(Clone, Copy, PartialEq, Eq)]
pub struct Coming {
    /// The point.
    pub point: Point,
    /// The service or the proxy.
    pub number: u64,
    /// Which time.
    pub time: u64,
}

/// Who is held, and until what has come.
#[derive(Clone, Copy)]
pub struct Hold {
    /// What is said where that never comes.
    pub name: &'static str,
    /// The coming that is held.
    pub at: Coming,
    /// The coming that ends it.
    pub until: Coming,
}

/// The last coming of each point and number; those past the eighth are not counted.
type Last = [Option<Coming>; 8];

/// The next coming to a point.
fn come(last: &mut Last, point: Point, number: u64) -> Coming {
    let mut next = Coming {
        point,
        number,
        time: 1,
    };
    for slot in last {
        match slot {
            None => {
                *slot = Some(next);
                return next;
            }
            Some(was) if was.point == point && was.number == number => {
                next.time = was.time.saturating_add(1);
                *slot = Some(next);
                return next;
            }
            Some(_) => {}
        }
    }
    next
}

/// Whether it came to this.
fn has_come(last: &Last, wanted: Coming) -> bool {
    for slot in last {
        match slot {
            Some(was) if was.point == wanted.point && was.number == wanted.number => {
                return was.time >= wanted.time;
            }
            Some(_) | None => {}
        }
    }
    false
}

/// How often a held thread looks whether it may go on; then the test fails.
const TURNS: u32 = 10_000_000;

/// A gate with holds.
#[derive(Drop)]
pub struct Held<'a, R> {
    rt: &'a R,
    holds: &'a [Hold],
    last: Mutex<Last>,
    answered: &'a AtomicU64,
}

/// The bit of a connection's number; those past the second share one.
fn bit_of(number: u64) -> u64 {
    match number {
        0 => 1,
        1 => 2,
        _ => 4,
    }
}

impl<'a, R: Abort + Wait> Held<'a, R> {
    /// A gate to which nobody came, at which threads wait by `rt`; the bits of the connections that are answered are set in
    /// `answered`.
    pub fn new(rt: &'a R, holds: &'a [Hold], answered: &'a AtomicU64) -> Self {
        Held {
            rt,
            holds,
            last: Mutex::new([None; 8]),
            answered,
        }
    }

    /// Waits until it came to what ends a hold.
    fn wait_for(&self, hold: &Hold) {
        for _ in 0..TURNS {
            if has_come(&self.last.lock(self.rt), hold.until) {
                return;
            }
            yield_now();
        }
        panic!(self.rt; "{} in vain", hold.name)
    }

    /// The number under which those who come to a point are counted.
    fn counted(&self, point: Point, number: u64) -> u64 {
        if point != Point::Answered {
            return number;
        }
        self.answered.fetch_or(bit_of(number), Ordering::SeqCst);
        0
    }
}

impl<'a, R: Abort + Wait> Gate for Held<'a, R> {
    fn pass(&self, point: Point, number: u64) {
        let number = self.counted(point, number);
        let coming = come(&mut self.last.lock(self.rt), point, number);
        for hold in self.holds {
            if hold.at == coming {
                self.wait_for(hold);
            }
        }
    }
}
