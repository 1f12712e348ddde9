//! Rows at their places, in the order of these.

ghost use Rattle.std.specs.Prelude.{◌≡◌, ◌+◌, ◌≤◌, ◌<◌, ℕ, [], ◌∷◌, ◌++◌, cond, if◌then◌else◌, ◌==◌, length, map, true, Some, None, option_map, slice_set, OnOk, OnErr, IfErr, IfSome, IfNone, IsSome};
ghost use Rattle.std.specs.Option.{option_copied};
ghost use Rattle.std.specs.List.{HoldsAt};
ghost use Rattle.std.specs.List.Sorted.{IsStrictlySortedBy};
ghost use Rattle.std.specs.Map.{keys_of};
ghost use Rattle.std.specs.Ordering.{nat_cmp, is_eq};
ghost use Rattle.row_index.specs.Places.{row_at, merged};
ghost use Rattle.row_index.specs.Stands.{standing};

use okws_base::items::Items;
use okws_base::value::{Row, Value};
use std::alloc::Global;
use std::marker::Model;
use std::mem;

/// A place, and the row that stands there, if it wasn't taken away.
#[derive(Drop)]
pub struct Stand {
    pub place: u64,
    pub row: Option<Row>,
}

/// Rows at rising places. A row that is taken away leaves its stand empty, and the empty ones are
/// cleared away once they are more than the others: so the others move but now and then.
#[derive(Drop)]
pub struct PlacedRows {
    stands: Vec<Stand>,
    next: u64,
    // How many stands are empty, as far as it was counted.
    empty: usize,
}

impl Model for PlacedRows {
    ghost use Rattle.row_index.specs.Stands.{Placed, standing, IsRising};

    ghost Value = { Placed };

    ghost view = { λ a. record { entries = standing a.stands.items; next = a.next } };

    ghost invariant = { λ a. IsRising a.stands.items a.next };
}

impl PlacedRows {
    /// No rows.
    pub fn new(alloc: Global) -> PlacedRows
        ensures { result ≡ record { entries = []; next = 0 } }
    {
        PlacedRows {
            stands: Vec::new(alloc),
            next: 0,
            empty: 0,
        }
    }

    /// The place that the next row comes to.
    pub fn next(&self) -> u64
        ensures { result ≡ self.now.next }
    {
        self.next
    }

    /// The stands, by rising places.
    pub fn stands(&self) -> &[Stand]
        ensures { standing result.now ≡ self.now.entries }
    {
        &self.stands
    }

    /// The row at a place, if there is one.
    pub fn get(&self, place: u64) -> Option<&Row>
        ensures { option_copied result ≡ row_at self.now.entries place }
    {
        match stand_of(&self.stands, place) {
            None => None,
            Some(i) => self.stands[i].row.as_ref(),
        }
    }

    /// Puts a row behind the others; where memory is refused, it gives the row back, and the others
    /// are as they were.
    pub fn push(&mut self, row: Row) -> Result<(), Row>
        ensures entries { OnOk result (self.new.entries ≡ self.old.entries ++ (self.old.next, row) ∷ []) }
        ensures rows { OnOk result ((p : ℕ) → row_at self.new.entries p ≡ cond (is_eq (nat_cmp self.old.next p)) (Some row) (row_at self.old.entries p)) }
        ensures rising { IsStrictlySortedBy nat_cmp (keys_of self.new.entries) }
        ensures free { (p : ℕ) → self.new.next ≤ p → row_at self.new.entries p ≡ None }
        ensures back { IfErr result (λ given. given ≡ row) }
        ensures err { OnErr result (self.new ≡ self.old) }
    {
        let place = self.next;
        let Some(next) = place.checked_add(1) else {
            return Err(row);
        };
        let row = Some(row);
        if let Err(refused) = self.stands.push(Stand { place, row }) {
            return Err(row_in(refused.value));
        }
        self.next = next;
        Ok(())
    }

    /// Puts another row, or none, where one stands, and gives that one.
    pub fn put(&mut self, place: u64, row: Option<Row>) -> Option<Row>
        ensures before { result ≡ row_at self.old.entries place }
        ensures rows { (p : ℕ) → row_at self.new.entries p ≡ (if place == p then merged (row_at self.old.entries p) row else row_at self.old.entries p) }
        ensures rising { IsStrictlySortedBy nat_cmp (keys_of self.new.entries) }
        ensures next { self.new.next ≡ self.old.next }
    {
        match stand_of(&self.stands, place) {
            None => None,
            Some(i) => {
                self.empty = self.empty.saturating_add(emptied(&row));
                put_on(&mut self.stands[i], row)
            }
        }
    }

    /// Sets a value in the row that stands at a place, where there is one that has the column.
    pub fn set(&mut self, place: u64, column: usize, value: Value)
        ensures rows { (p : ℕ) → row_at self.new.entries p ≡ (if place == p then option_map (λ row. slice_set row column value) (row_at self.old.entries p) else row_at self.old.entries p) }
        ensures rising { IsStrictlySortedBy nat_cmp (keys_of self.new.entries) }
        ensures next { self.new.next ≡ self.old.next }
    {
        match stand_of(&self.stands, place) {
            None => {}
            Some(i) => set_on(&mut self.stands[i], column, value),
        }
    }

    /// Clears the empty stands away, where they are more than the others.
    pub fn tidy(&mut self)
        ensures { self.new ≡ self.old }
    {
        if self.empty > self.stands.len() / 2 {
            self.stands.retain(|stand| stand.row.is_some());
            self.empty = 0;
        }
    }
}

// How many stands a row empties that is put in another's place.
fn emptied(row: &Option<Row>) -> usize {
    match row {
        None => 1,
        Some(_) => 0,
    }
}

// The row of a stand that has one.
fn row_in(stand: Stand) -> Row
    requires { IsSome stand.row }
    ensures { Some result ≡ stand.row }
{
    match stand.row {
        None => unreachable!(),
        Some(row) => row,
    }
}

// Puts another row, or none, on a stand that has one, and gives that one.
fn put_on(stand: &mut Stand, row: Option<Row>) -> Option<Row>
    ensures before { result ≡ stand.old.row }
    ensures place { stand.new.place ≡ stand.old.place }
    ensures row { stand.new.row ≡ merged stand.old.row row }
{
    if stand.row.is_some() {
        mem::replace(&mut stand.row, row)
    } else {
        None
    }
}

// Sets a value in the row of a stand, if it has one.
fn set_on(stand: &mut Stand, column: usize, value: Value)
    ensures place { stand.new.place ≡ stand.old.place }
    ensures row { stand.new.row ≡ option_map (λ row. slice_set row column value) stand.old.row }
{
    if let Some(row) = mem::replace(&mut stand.row, None) {
        stand.row = Some(with_value(row, column, value));
    }
}

fn with_value(row: Row, column: usize, value: Value) -> Row
    ensures { result ≡ slice_set row column value }
{
    let mut values = row.into_vec();
    if column < values.len() {
        values[column] = value;
    }
    Items::of(values)
}

fn place_at(stands: &[Stand], i: usize, place: u64) -> bool
    ensures { result ≡ true → (i < length stands.now) × HoldsAt (λ s. s.place ≡ place) stands.now i }
{
    i < stands.len() && stands[i].place == place
}

// How far a stand is from the first one at most.
fn most(stands: &[Stand], place: u64) -> usize {
    match stands.first() {
        None => 0,
        Some(first) => place.saturating_sub(first.place) as usize,
    }
}

// The stand of a place. It is as far from the first one as the places are, unless one between them was
// cleared away.
fn stand_of(stands: &[Stand], place: u64) -> Option<usize>
    requires { IsStrictlySortedBy nat_cmp (map (λ s. s.place) stands.now) }
    ensures here { IfSome result (λ i. (i < length stands.now) × HoldsAt (λ s. s.place ≡ place) stands.now i) }
    ensures none { IfNone result (row_at (standing stands.now) place ≡ None) }
{
    let most = most(stands, place);
    if place_at(stands, most, place) {
        return Some(most);
    }
    stands
        .binary_search_by_key(&place, |stand| stand.place)
        .ok()
}
