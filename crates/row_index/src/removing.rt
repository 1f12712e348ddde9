//! Rows that are taken away, with their slots.

ghost use Rattle.std.specs.Prelude.{◌≡◌, ℕ, true, length, IfSome, None, Some};
ghost use Rattle.std.specs.List.Sorted.{IsStrictlySortedBy};
ghost use Rattle.std.specs.Ordering.{nat_cmp};
ghost use Rattle.std.specs.Map.{keys_of};
ghost use Rattle.row_index.specs.Places.{row_at};
ghost use Rattle.row_index.specs.GroupPlaces.{is_among};
ghost use Rattle.row_index.specs.Slots.{group_places};
ghost use Rattle.row_index.specs.Index.{IsIndex, IsIndexBut, cell, is_value};
ghost use Rattle.row_index.specs.Changes.{after_change, changed, removals_at};

use crate::cells::take_row;
use crate::placed::PlacedRows;
use crate::places::Places;
use crate::slot::Group;
use crate::slots::Slots;
use std::collections::BTreeSet;

/// Takes the row of a place away, and its slots.
#[inline(always)]
pub fn remove(columns: &[u8], rows: &mut PlacedRows, slots: &mut Slots, place: u64)
    requires index { IsIndex columns.now rows.old.entries slots.old }
    ensures index { IsIndex columns.now rows.new.entries slots.new }
    ensures rows { (p : ℕ) → row_at rows.new.entries p ≡ after_change p (row_at rows.old.entries p) (record { place = place; row = None }) }
    ensures none { (p : ℕ) → row_at rows.old.entries p ≡ None → row_at rows.new.entries p ≡ None }
    ensures rising { IsStrictlySortedBy nat_cmp (keys_of rows.old.entries) → IsStrictlySortedBy nat_cmp (keys_of rows.new.entries) }
    ensures next { rows.new.next ≡ rows.old.next }
{
    match rows.put(place, None) {
        None => {}
        Some(row) => take_row(slots, columns, None, place, row),
    }
    rows.tidy();
}

/// Takes the rows away that have the group's value in its column, which has an index, with their slots, and tells how many there
/// were.
#[inline(always)]
pub fn remove_group(columns: &[u8], rows: &mut PlacedRows, slots: &mut Slots, group: &Group) -> u64
    requires index { IsIndex columns.now rows.old.entries slots.old }
    ensures index { IsIndex columns.now rows.new.entries slots.new }
    ensures count { result ≡ length (group_places slots.old group.now) }
    ensures rows { (p : ℕ) → row_at rows.new.entries p ≡ changed (removals_at (group_places slots.old group.now)) (row_at rows.old.entries p) p }
    ensures ordered { IsStrictlySortedBy nat_cmp (group_places slots.old group.now) }
    ensures none { (p : ℕ) → row_at rows.old.entries p ≡ None → row_at rows.new.entries p ≡ None }
    ensures rising { IsStrictlySortedBy nat_cmp (keys_of rows.old.entries) → IsStrictlySortedBy nat_cmp (keys_of rows.new.entries) }
    ensures next { rows.new.next ≡ rows.old.next }
{
    match slots.take_group(group) {
        None => 0,
        Some(Places::Sole(place)) => {
            remove_other(columns, rows, slots, group, place);
            rows.tidy();
            1
        }
        Some(Places::Several(places)) => {
            let count = places.len() as u64;
            remove_others(columns, rows, slots, group, Box::into_inner(places));
            rows.tidy();
            count
        }
    }
}

// Takes the rows of a group's places away, and their slots but those of the group, which aren't there.
#[inline(never)]
fn remove_others(
    columns: &[u8],
    rows: &mut PlacedRows,
    slots: &mut Slots,
    group: &Group,
    places: BTreeSet<u64>,
)
    requires index { IsIndexBut group.now columns.now rows.old.entries slots.old }
    requires own { (p : ℕ) → is_among p places.keys ≡ true → IfSome (row_at rows.old.entries p) (λ row. is_value group.now.value (cell group.now.column (Some row)) ≡ true) }
    ensures index { IsIndexBut group.now columns.now rows.new.entries slots.new }
    ensures rows { (p : ℕ) → row_at rows.new.entries p ≡ changed (removals_at places.keys) (row_at rows.old.entries p) p }
    ensures rising { IsStrictlySortedBy nat_cmp (keys_of rows.old.entries) → IsStrictlySortedBy nat_cmp (keys_of rows.new.entries) }
    ensures next { rows.new.next ≡ rows.old.next }
{
    for place in places {
        remove_other(columns, rows, slots, group, place);
    }
}

// Takes the row of a place away, and its slots but that of the group, which isn't there.
#[inline(always)]
fn remove_other(columns: &[u8], rows: &mut PlacedRows, slots: &mut Slots, group: &Group, place: u64)
    requires index { IsIndexBut group.now columns.now rows.old.entries slots.old }
    requires own { IfSome (row_at rows.old.entries place) (λ row. is_value group.now.value (cell group.now.column (Some row)) ≡ true) }
    ensures index { IsIndexBut group.now columns.now rows.new.entries slots.new }
    ensures rows { (p : ℕ) → row_at rows.new.entries p ≡ after_change p (row_at rows.old.entries p) (record { place = place; row = None }) }
    ensures rising { IsStrictlySortedBy nat_cmp (keys_of rows.old.entries) → IsStrictlySortedBy nat_cmp (keys_of rows.new.entries) }
    ensures next { rows.new.next ≡ rows.old.next }
{
    match rows.put(place, None) {
        None => {}
        Some(row) => take_row(slots, columns, Some(group.column), place, row),
    }
}
