//! Bytes through a pipe of the system, and which waits are without looks. How long a wait takes isn't tested here.

use crate::{Awaited, Patience, look_for};
use std::io::{Read, Write, pipe};
use std::os::fd::AsRawFd;
use std::process::Abort;
use std::rt::Clock;
use std::thread;
use std::thread::Threads;
use std::time::Duration;

const PIPE: &str = "a pipe failed";

// Stops the test, and says where, unless this holds.
fn holds(rt: &impl Abort, is: bool, at: &str) {
    assert!(rt; is, "{at}");
}

// Whether a wait that is begun looks more than once.
fn looks(patience: &Patience) -> bool {
    !patience.begin().ended
}

// Behind each wait that looked in vain there are twice as many without looks as behind the one before, and one more, 63 at most.
#[test]
fn more_waits_are_without_looks_the_more_were_in_vain(rt: HostRuntime) {
    let patience = Patience::new(5);
    holds(&rt, looks(&patience), "a first wait");
    for pause in [1u32, 3, 7, 15, 31, 63, 63] {
        patience.missed();
        for _ in 0..pause {
            holds(&rt, !looks(&patience), "within a pause");
        }
        holds(&rt, looks(&patience), "behind a pause");
    }
}

#[test]
fn looks_that_find_something_halve_them(rt: HostRuntime) {
    let patience = Patience::new(5);
    for _ in 0..3 {
        patience.missed();
    }
    for _ in 0..7 {
        holds(&rt, !looks(&patience), "without looks");
    }
    for _ in 0..2 {
        patience.begin().end();
    }
    patience.missed();
    for _ in 0..3 {
        holds(&rt, !looks(&patience), "halved");
    }
    holds(&rt, looks(&patience), "looks again");
}

// Where something comes in a wait that was without looks, or had ended them, as many stay without.
#[test]
fn who_slept_has_found_nothing_by_looks(rt: HostRuntime) {
    let patience = Patience::new(0);
    let mut wait = patience.begin();
    holds(&rt, !wait.again(), "no look");
    holds(&rt, !wait.again(), "no look again");
    wait.end();
    patience.begin().end();
    let mut next = patience.begin();
    holds(&rt, !next.again(), "without looks still");
    for _ in 0..3 {
        holds(&rt, !looks(&patience), "three are without");
    }
    holds(&rt, looks(&patience), "looks behind them");
}

#[test]
fn a_read_gives_what_came(rt: HostRuntime) {
    let (end, mut other) = pipe(&rt).expect(&rt, PIPE);
    let mut awaited = Awaited::new(end);
    other.write_all(b"abcde").expect(&rt, PIPE);
    let mut piece = [0u8; 3];
    holds(
        &rt,
        awaited.read(&mut piece).expect(&rt, PIPE) == 3,
        "three bytes",
    );
    holds(&rt, piece == *b"abc", "abc");
    holds(
        &rt,
        awaited.read(&mut piece).expect(&rt, PIPE) == 2,
        "two bytes",
    );
    holds(&rt, piece == *b"dec", "de behind abc");
    drop(other);
    holds(
        &rt,
        awaited.read(&mut piece).expect(&rt, PIPE) == 0,
        "the end",
    );
}

// The reader has looked in vain, and sleeps, when the bytes come.
#[test]
fn a_read_waits_for_what_comes_late(rt: HostRuntime) {
    let (end, mut other) = pipe(&rt).expect(&rt, PIPE);
    let mut awaited = Awaited::new(end);
    let late = thread::spawn(&rt, move || {
        rt.sleep(Duration::from_millis(20));
        other.write_all(b"late").is_ok()
    })
    .expect(&rt, "no thread was given");
    let mut piece = [0u8; 8];
    holds(
        &rt,
        awaited.read(&mut piece).expect(&rt, PIPE) == 4,
        "four bytes",
    );
    holds(&rt, piece.first() == Some(&b'l'), "the first of late");
    holds(&rt, late.join(&rt), "written");
}

// A look takes nothing, whether something came or not.
#[test]
fn a_look_takes_nothing(rt: HostRuntime) {
    let (mut end, mut other) = pipe(&rt).expect(&rt, PIPE);
    let patience = Patience::new(2);
    look_for(end.as_raw_fd(), &patience);
    holds(&rt, !looks(&patience), "looks behind a look in vain");
    other.write_all(b"x").expect(&rt, PIPE);
    look_for(end.as_raw_fd(), &patience);
    let mut piece = [0u8; 2];
    holds(
        &rt,
        end.read(&mut piece).expect(&rt, PIPE) == 1,
        "the byte is there",
    );
}
