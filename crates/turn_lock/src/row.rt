//! Locks in a row, whose number is known at run time, and seats of one number at each of them.
ghost use Rattle.std.specs.Prelude.{◌≡◌, ℕ, ◌+◌, ◌<◌, ◌≤◌, [], length, map, reverse, vec_len, vec_capacity, IfOk};
ghost use Rattle.turn_lock.specs.Rows.{RestRow, RestRows, FreshRows, Beside, AllCount, AllNone, JoinedRow, RowHas, SomeRowHas, GrownRow, GrownRows, NoneFrom};

use crate::journaled::Journaled;
use crate::turn::{Seat, Turn};
use std::alloc::{AllocError, Global};

// The same, the last first.
fn turned<T>(mut items: Vec<T>) -> Vec<T>
    ensures { result.items ≡ reverse items.items }
{
    items.as_mut_slice().reverse();
    items
}

// Rows with no seats yet.
fn empty_rows<V: Journaled + Drop>(
    alloc: Global,
    count: u16,
) -> Result<Vec<Vec<Seat<V>>>, AllocError>
    ensures { IfOk result (λ r. (vec_len r ≡ count) × FreshRows [] 0 (map (λ s. s.items) r.items)) }
{
    let mut rows = Vec::with_capacity(alloc, count as usize)?;
    for _ in 0..count {
        rows.push_reserved(Vec::new(alloc));
    }
    Ok(rows)
}

// Puts one more seat at the end of each row.
fn extend<V: Journaled + Drop>(
    alloc: Global,
    mut rows: Vec<Vec<Seat<V>>>,
    mut seats: Vec<Seat<V>>,
) -> Result<Vec<Vec<Seat<V>>>, AllocError>
    requires { vec_len rows ≡ vec_len seats }
    ensures { IfOk result (λ r. Beside (map (λ s. s.items) rows.items) seats.items (map (λ s. s.items) r.items)) }
{
    let mut longer = Vec::with_capacity(alloc, rows.len())?;
    while let Some(mut row) = rows.pop() {
        let Some(seat) = seats.pop() else {
            unreachable!()
        };
        row.push(seat)?;
        longer.push(row)?;
    }
    Ok(turned(longer))
}

/// A lock round each of the values, whose journals are empty, in their order, and rows of seats that have
/// seen nothing: a row has one seat at each lock, all of one number, and the rows' numbers fall to 0 at the
/// last.
pub fn make_row<V: Journaled + Drop>(
    alloc: Global,
    values: Vec<V>,
    count: u16,
) -> Result<(Vec<Turn<V>>, Vec<Vec<Seat<V>>>), AllocError>
    requires count { 0 < count }
    requires journals { AllNone (map V.journal values.items) }
    ensures labels { IfOk result (λ r. map (λ t. t.label) r.0.items ≡ map V.label values.items) }
    ensures counts { IfOk result (λ r. AllCount count r.0.items × (vec_len r.1 ≡ count)) }
    ensures fresh { IfOk result (λ r. FreshRows r.0.items 0 (map (λ s. s.items) r.1.items)) }
{
    let mut turns = Vec::with_capacity(alloc, values.len())?;
    let mut rows = empty_rows(alloc, count)?;
    let mut left = turned(values);
    while let Some(value) = left.pop() {
        let Ok((turn, seats)) = Turn::new(alloc, value, count) else {
            return Err(AllocError);
        };
        rows = extend(alloc, rows, seats)?;
        turns.push(turn)?;
    }
    Ok((turns, rows))
}

/// Joins a row of seats into another, lock by lock. It takes no memory, and the joined seats take no turn any
/// more.
pub fn join_row<V: Journaled>(
    turns: &Vec<Turn<V>>,
    into: &mut Vec<Seat<V>>,
    mut others: Vec<Seat<V>>,
)
    requires into { RestRow turns.now.items into.old.items }
    requires others { RestRow turns.now.items others.items }
    ensures joined { JoinedRow V.by others.items into.old.items into.new.items }
    ensures rest { RestRow turns.now.items into.new.items }
{
    while let Some(other) = others.pop() {
        let i = others.len();
        let seat = &mut into[i];
        turns[i].join(seat, other);
    }
    others.destroy_empty();
}

/// Ends a row of locks by seats that took in all others, and puts their values into `done`, the last first.
/// It takes no memory. The journal of each goes on from what each of its seats had seen by entries of others
/// alone.
pub fn end_row<V: Journaled>(
    mut turns: Vec<Turn<V>>,
    mut seats: Vec<Seat<V>>,
    done: &mut Vec<V>,
    count: u16,
)
    requires rest { RestRow turns.items seats.items }
    requires counts { AllCount count turns.items }
    requires all { (k : ℕ) → k < count → RowHas k seats.items }
    requires room { (done.old.items ≡ []) × (vec_len turns ≤ vec_capacity done.old) }
    ensures told { GrownRow V.by seats.items (reverse (map V.journal done.new.items)) }
    ensures none { NoneFrom V.by count (reverse (map V.journal done.new.items)) }
    ensures labels { reverse (map V.label done.new.items) ≡ map (λ t. t.label) turns.items }
{
    while let Some(turn) = turns.pop() {
        let Some(seat) = seats.pop() else {
            unreachable!()
        };
        done.push_reserved(turn.end(seat));
    }
    turns.destroy_empty();
    seats.destroy_empty();
}
