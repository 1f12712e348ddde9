//! Rows that come behind the others, with their slots.

ghost use Rattle.std.specs.Prelude.{◌≡◌, ◌≤◌, ◌||◌, ◌==◌, ℕ, [], ◌∷◌, ◌++◌, true, false, length, IfOk, OnOk, OnErr, IfSome, None};
ghost use Rattle.std.specs.List.Sorted.{IsStrictlySortedBy};
ghost use Rattle.std.specs.Ordering.{nat_cmp};
ghost use Rattle.std.specs.Map.{keys_of};
ghost use Rattle.okws_plan.specs.Meaning.{at_column};
ghost use Rattle.row_index.specs.Places.{row_at};
ghost use Rattle.row_index.specs.Slots.{holds, places_in};
ghost use Rattle.row_index.specs.Index.{is_indexed, due, IsIndex};
ghost use Rattle.row_index.specs.Changes.{comes_at};
ghost use Rattle.row_index.specs.declared.slot.Slot.{Slot};

use crate::cells::{put_key, put_row, take_row};
use crate::placed::PlacedRows;
use crate::slots::Slots;
use okws_base::items::Items;
use okws_base::value::Row;
use std::alloc::{AllocError, Global};

/// Puts a row behind the others, with its slots, or neither where memory is refused.
pub fn append(
    alloc: Global,
    columns: &[u8],
    rows: &mut PlacedRows,
    slots: &mut Slots,
    row: Row,
) -> Result<(), AllocError>
    requires index { IsIndex columns.now rows.old.entries slots.old }
    requires free { row_at rows.old.entries rows.old.next ≡ None }
    requires rising { IsStrictlySortedBy nat_cmp (keys_of rows.old.entries) }
    ensures index { IsIndex columns.now rows.new.entries slots.new }
    ensures entries { OnOk result (rows.new.entries ≡ rows.old.entries ++ (rows.old.next, row) ∷ []) }
    ensures err { OnErr result (rows.new ≡ rows.old) }
    ensures rising { IsStrictlySortedBy nat_cmp (keys_of rows.new.entries) }
    ensures free { OnOk result ((p : ℕ) → rows.new.next ≤ p → row_at rows.new.entries p ≡ None) }
{
    put_behind(alloc, columns, None, rows, slots, row)
}

// Puts a row behind the others, with its slots, or neither where memory is refused. The slot of the column `key` is there
// already, if one is named.
#[inline(always)]
fn put_behind(
    alloc: Global,
    columns: &[u8],
    key: Option<u8>,
    rows: &mut PlacedRows,
    slots: &mut Slots,
    row: Row,
) -> Result<(), AllocError>
    requires index { (q : Slot) → holds slots.old q ≡ (comes_at key rows.old.next row q || due columns.now (row_at rows.old.entries q.place) q) }
    requires key { IfSome key (λ k. is_indexed columns.now k ≡ true) }
    requires free { row_at rows.old.entries rows.old.next ≡ None }
    requires rising { IsStrictlySortedBy nat_cmp (keys_of rows.old.entries) }
    ensures index { IsIndex columns.now rows.new.entries slots.new }
    ensures entries { OnOk result (rows.new.entries ≡ rows.old.entries ++ (rows.old.next, row) ∷ []) }
    ensures err { OnErr result (rows.new ≡ rows.old) }
    ensures rising { IsStrictlySortedBy nat_cmp (keys_of rows.new.entries) }
    ensures free { OnOk result ((p : ℕ) → rows.new.next ≤ p → row_at rows.new.entries p ≡ None) }
{
    let place = rows.next();
    let row = put_row(alloc, slots, columns, key, place, row)?;
    if let Err(row) = rows.push(row) {
        take_row(slots, columns, None, place, row);
        return Err(AllocError);
    }
    Ok(())
}

/// Puts a row behind the others, with its slots, unless another row has its value in the column `key`, which has an index; and
/// tells whether it came. Where memory is refused, the rows and their slots are as they were.
#[inline(always)]
pub fn append_new(
    alloc: Global,
    columns: &[u8],
    key: u8,
    rows: &mut PlacedRows,
    slots: &mut Slots,
    row: Row,
) -> Result<bool, AllocError>
    requires index { IsIndex columns.now rows.old.entries slots.old }
    requires free { row_at rows.old.entries rows.old.next ≡ None }
    requires rising { IsStrictlySortedBy nat_cmp (keys_of rows.old.entries) }
    requires key { is_indexed columns.now key ≡ true }
    ensures index { IsIndex columns.now rows.new.entries slots.new }
    ensures came { IfOk result (λ came. came ≡ (length (places_in key (at_column row key) slots.old) == 0)) }
    ensures ordered { OnOk result (IsStrictlySortedBy nat_cmp (places_in key (at_column row key) slots.old)) }
    ensures entries { IfOk result (λ came. came ≡ true → rows.new.entries ≡ rows.old.entries ++ (rows.old.next, row) ∷ []) }
    ensures stay { IfOk result (λ came. came ≡ false → rows.new ≡ rows.old) }
    ensures err { OnErr result (rows.new ≡ rows.old) }
    ensures rising { IsStrictlySortedBy nat_cmp (keys_of rows.new.entries) }
    ensures free { IfOk result (λ came. came ≡ true → (p : ℕ) → rows.new.next ≤ p → row_at rows.new.entries p ≡ None) }
{
    let place = rows.next();
    let mut values = row.into_vec();
    if !put_key(alloc, slots, key, place, &mut values)? {
        return Ok(false);
    }
    put_behind(alloc, columns, Some(key), rows, slots, Items::of(values))?;
    Ok(true)
}
