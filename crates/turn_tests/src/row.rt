//! Workers over a row of locks, whose number is known at run time, from the making of the locks to their
//! closing.
ghost use Rattle.std.specs.Prelude.{◌≡◌, ℕ, ◌<◌, ◌≤◌, [], length, map, vec_len, vec_capacity, false, IfOk};
ghost use Rattle.turn_tests.specs.Rounds.{SeenRow, SeenRows};
ghost use Rattle.turn_lock.specs.Rows.{RestRow, RestRows, AllNone, AllCount, SomeRowHas};

use crate::ledger::Ledger;
use std::alloc::{AllocError, Global};
use std::sync::Wait;
use std::thread;
use std::thread::Threads;
use turn_lock::{Journaled, Seat, Turn, end_row, join_row, make_row};

// Columns with nothing entered, whose labels rise from 0.
fn columns(alloc: Global, locks: u16) -> Result<Vec<Ledger>, AllocError>
    ensures { IfOk result (λ r. AllNone (map (λ l. l.past) r.items) × (vec_len r ≡ locks)) }
{
    let mut ledgers = Vec::new(alloc);
    for label in 0..locks {
        ledgers.push(Ledger::new(alloc, label))?;
    }
    Ok(ledgers)
}

// Takes the turn, enters a number, and gives the turn up.
fn enter<R: Wait>(
    rt: &R,
    turn: &Turn<Ledger>,
    seat: &mut Seat<Ledger>,
    number: u64,
) -> Result<(), AllocError>
    requires lock { seat.old.lock ≡ turn.now.id }
    requires free { seat.old.held ≡ false }
    ensures { seat.new ≡ record seat.old { seen = seat.new.seen } }
{
    let mut ledger = turn.take(rt, seat);
    match ledger.enter(number) {
        Ok(()) => {
            turn.give(seat, ledger);
            Ok(())
        }
        Err(refused) => {
            turn.give(seat, ledger);
            Err(refused)
        }
    }
}

// Enters the number at each lock of the row, as long as memory lasts.
fn round<R: Wait>(
    rt: &R,
    turns: &Vec<Turn<Ledger>>,
    seats: &mut Vec<Seat<Ledger>>,
    number: u64,
) -> Result<(), AllocError>
    requires { RestRow turns.now.items seats.old.items }
    ensures { SeenRow seats.old.items seats.new.items }
{
    for i in 0..seats.len() {
        enter(rt, &turns[i], &mut seats[i], number)?;
    }
    Ok(())
}

// So many rounds, or as many as memory lasts.
fn rounds<R: Wait>(rt: &R, turns: &Vec<Turn<Ledger>>, seats: &mut Vec<Seat<Ledger>>, count: u32)
    requires { RestRow turns.now.items seats.old.items }
    ensures { SeenRow seats.old.items seats.new.items }
{
    for number in 0..count {
        if round(rt, turns, seats, number as u64).is_err() {
            return;
        }
    }
}

// Each row of seats makes its rounds, in a thread of its own where there is one.
fn all_rounds<R: Threads + Wait + Sync>(
    rt: &R,
    turns: &Vec<Turn<Ledger>>,
    rows: &mut [Vec<Seat<Ledger>>],
    count: u32,
)
    requires { RestRows turns.now.items (map (λ s. s.items) rows.old) }
    ensures seen { SeenRows (map (λ s. s.items) rows.old) (map (λ s. s.items) rows.new) }
    ensures count { length rows.new ≡ length rows.old }
{
    let threads = rows.len().max(1);
    thread::for_each_mut(
        rt,
        rows,
        threads,
        &|_, row: &mut Vec<Seat<Ledger>>|
            requires { RestRow turns.now.items row.old.items }
            ensures { SeenRow row.old.items row.new.items }
        { rounds(rt, turns, row, count) },
    );
}

// Joins all rows of seats into the last, ends the locks, and puts their values into `done`, the last first.
fn close_row<V: Journaled>(
    turns: Vec<Turn<V>>,
    mut rows: Vec<Vec<Seat<V>>>,
    done: &mut Vec<V>,
    count: u16,
)
    requires some { 0 < vec_len rows }
    requires rest { RestRows turns.items (map (λ s. s.items) rows.items) }
    requires counts { AllCount count turns.items }
    requires all { (k : ℕ) → k < count → SomeRowHas k (map (λ s. s.items) rows.items) }
    requires room { (done.old.items ≡ []) × (vec_len turns ≤ vec_capacity done.old) }
{
    let Some(mut all) = rows.pop() else {
        unreachable!()
    };
    while let Some(row) = rows.pop() {
        join_row(&turns, &mut all, row);
    }
    rows.destroy_empty();
    end_row(turns, all, done, count);
}

/// So many workers make so many rounds at a row of so many columns, in threads of their own. Gives the closed
/// columns, the last one first.
pub fn take_rounds<R: Threads + Wait + Sync>(
    rt: &R,
    alloc: Global,
    locks: u16,
    count: u16,
    each: u32,
) -> Result<Vec<Ledger>, AllocError>
    requires { 0 < count }
{
    let mut done = Vec::with_capacity(alloc, locks as usize)?;
    let (turns, mut rows) = make_row(alloc, columns(alloc, locks)?, count)?;
    all_rounds(rt, &turns, rows.as_mut_slice(), each);
    close_row(turns, rows, &mut done, count);
    Ok(done)
}
