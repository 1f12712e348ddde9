//! Turns at locks, and draws at a board, in threads.
ghost use Rattle.std.specs.Prelude.{◌≡◌, ◌<◌, vec_len, false, IfOk};
ghost use Rattle.turn_lock.specs.Seats.{AreFresh};

use crate::drawing::draw_numbers;
use crate::holding::{MEMORY, holds};
use crate::ledger::Ledger;
use crate::row::take_rounds;
use std::alloc::{AllocError, Global};
use std::process::Abort;
use std::rt::Clock;
use std::sync::Wait;
use std::thread;
use std::thread::Threads;
use std::time::{Duration, Instant};
use turn_lock::{Seat, Turn};

// The entries of each of so many workers are the numbers from 0 to this one, in order, and there are no others.
fn is_whole(rt: &impl Abort, alloc: Global, column: &Ledger, workers: u16, rounds: u32) -> bool {
    let mut due = Vec::from_elem(alloc, 0u64, workers as usize).expect(rt, MEMORY);
    for entry in column.as_slice() {
        match due.get_mut(entry.worker as usize) {
            Some(number) if *number == entry.event => *number = number.saturating_add(1),
            _ => return false,
        }
    }
    due.iter().all(|number| *number == u64::from(rounds))
}

// So many workers make so many rounds at a row of so many columns: every turn is made.
fn every_round_is_made<R: Abort + Threads + Wait + Sync>(
    rt: &R,
    alloc: Global,
    locks: u16,
    workers: u16,
    rounds: u32,
) -> bool
    requires { 0 < workers }
{
    let done = take_rounds(rt, alloc, locks, workers, rounds).expect(rt, MEMORY);
    let mut all = done.len() == locks as usize;
    for column in &done {
        all = all && is_whole(rt, alloc, column, workers, rounds);
    }
    all
}

// So many workers take this many turns at each of two columns: every one is made.
fn every_turn_is_made<R: Abort + Threads + Wait + Sync>(
    rt: &R,
    alloc: Global,
    workers: u16,
    turns: u32,
) -> bool
    requires { 0 < workers }
{
    every_round_is_made(rt, alloc, 2, workers, turns)
}

#[test]
fn two_workers_take_a_hundred_thousand_turns(rt: HostRuntime) {
    let alloc = rt.alloc();
    holds(&rt, every_turn_is_made(&rt, alloc, 2, 25_000), "every turn");
}

#[test]
fn four_workers_take_a_hundred_thousand_turns(rt: HostRuntime) {
    let alloc = rt.alloc();
    holds(&rt, every_turn_is_made(&rt, alloc, 4, 12_500), "every turn");
}

#[test]
fn sixty_four_workers_take_a_hundred_thousand_turns(rt: HostRuntime) {
    let alloc = rt.alloc();
    holds(&rt, every_turn_is_made(&rt, alloc, 64, 782), "every turn");
}

#[test]
fn workers_take_a_hundred_thousand_turns_at_sixty_four_locks(rt: HostRuntime) {
    let alloc = rt.alloc();
    holds(
        &rt,
        every_round_is_made(&rt, alloc, 64, 2, 782),
        "every turn",
    );
    holds(
        &rt,
        every_round_is_made(&rt, alloc, 64, 4, 391),
        "every turn",
    );
    holds(
        &rt,
        every_round_is_made(&rt, alloc, 64, 64, 25),
        "every turn",
    );
}

#[test]
fn sixty_four_threads_draw_each_number_once(rt: HostRuntime) {
    let alloc = rt.alloc();
    let drawers = draw_numbers(&rt, alloc, 64, 1_000).expect(&rt, MEMORY);
    let mut seen = Vec::from_elem(alloc, false, 64_000).expect(&rt, MEMORY);
    for drawer in &drawers {
        holds(&rt, drawer.numbers().len() == 1_000, "numbers");
        for &number in drawer.numbers() {
            let again = seen
                .get_mut(number as usize)
                .map(|was| std::mem::replace(was, true));
            holds(&rt, again == Some(false), "a number once");
        }
    }
}

// The column behind a lock, and a seat of it for each worker.
fn column(
    alloc: Global,
    label: u16,
    count: u16,
) -> Result<(Turn<Ledger>, Vec<Seat<Ledger>>), AllocError>
    requires { 0 < count }
    ensures { IfOk result (λ r. (r.0.count ≡ count) × (vec_len r.1 ≡ count) × AreFresh r.0.id r.0.label 0 r.1.items) }
{
    match Turn::new(alloc, Ledger::new(alloc, label), count) {
        Ok(made) => Ok(made),
        Err(_) => Err(AllocError),
    }
}

// Takes the turn, and sleeps with it.
fn sleep_in_turn<R: Wait + Clock>(rt: &R, turn: &Turn<Ledger>, mut seat: Seat<Ledger>) -> bool
    requires { (seat.lock ≡ turn.now.id) × (seat.held ≡ false) }
{
    let ledger = turn.take(rt, &mut seat);
    thread::sleep(rt, Duration::from_millis(50));
    turn.give(&mut seat, ledger);
    true
}

#[test]
fn a_turn_is_taken_while_the_holder_sleeps(rt: HostRuntime) {
    let alloc = rt.alloc();
    let Ok((turn, seats)) = column(alloc, 0, 4) else {
        panic!(rt; "memory was refused");
    };
    let lock = &turn;
    let start = Instant::now(&rt).expect(&rt, "no clock");
    let done = thread::map_vec(
        &rt,
        seats,
        &|seat: Seat<Ledger>| -> bool
            requires { (seat.lock ≡ lock.now.id) × (seat.held ≡ false) }
        { sleep_in_turn(&rt, lock, seat) },
    );
    let done = done.expect(&rt, MEMORY);
    holds(&rt, done.len() == 4, "each");
    let elapsed = start.elapsed(&rt).expect(&rt, "no clock");
    holds(&rt, elapsed >= Duration::from_millis(200), "one by one");
}
