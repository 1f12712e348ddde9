//! The slots of one row: one for its value in each column that has an index.

ghost use Rattle.std.specs.Prelude.{◌≡◌, ◌||◌, ◌&&◌, ◌==◌, not, true, false, length, IfOk, OnOk, OnErr, IsSome, None, Some, slice_set, slice_index_or, if◌then◌else◌};
ghost use Rattle.std.specs.List.Sorted.{IsStrictlySortedBy};
ghost use Rattle.std.specs.Ordering.{is_eq, nat_cmp};
ghost use Rattle.std.specs.BTreeMap.{get};
ghost use Rattle.okws_plan.specs.Meaning.{at_column, nothing};
ghost use Rattle.row_index.specs.Groups.{group_cmp};
ghost use Rattle.row_index.specs.GroupPlaces.{is_among, places_listed};
ghost use Rattle.row_index.specs.Slots.{holds, places_in};
ghost use Rattle.row_index.specs.Index.{is_value};
ghost use Rattle.row_index.specs.Changes.{comes, comes_at, stands, is_key};
ghost use Rattle.row_index.specs.declared.slot.Slot.{Slot};

use crate::places::Places;
use crate::slot::{Group, Slot};
use crate::slots::{Slots, group_of};
use okws_base::items::Items;
use okws_base::value::{Row, Value};
use std::alloc::{AllocError, Global};
use std::mem;

/// The value at a place, or `other` where there is none.
#[inline(always)]
pub fn at<'a>(values: &'a [Value], place: usize, other: &'a Value) -> &'a Value
    ensures { result.now ≡ slice_index_or values.now place other.now }
{
    if place < values.len() {
        &values[place]
    } else {
        other
    }
}

// Whether it is the column that is named, if one is.
#[inline(always)]
fn is_key(key: Option<u8>, column: u8) -> bool
    ensures { result ≡ is_key key column }
{
    match key {
        None => false,
        Some(key) => key == column,
    }
}

/// Puts the slots of a row in, and gives the row; where memory is refused, none of them is left in the set.
/// That of the `key` is there already, if one is named.
#[inline(always)]
pub fn put_row(
    alloc: Global,
    slots: &mut Slots,
    columns: &[u8],
    key: Option<u8>,
    place: u64,
    row: Row,
) -> Result<Row, AllocError>
    requires there { (q : Slot) → comes_at key place row q ≡ true → holds slots.old q ≡ true }
    ensures row { IfOk result (λ given. given ≡ row) }
    ensures ok { OnOk result ((q : Slot) → holds slots.new q ≡ (comes columns.now place None (Some row) q || holds slots.old q)) }
    ensures err { OnErr result ((q : Slot) → holds slots.new q ≡ (not (comes columns.now place None (Some row) q) && holds slots.old q)) }
{
    let mut values = row.into_vec();
    put_cells(alloc, slots, columns, key, place, &mut values)?;
    Ok(Items::of(values))
}

#[inline(always)]
fn put_cells(
    alloc: Global,
    slots: &mut Slots,
    columns: &[u8],
    key: Option<u8>,
    place: u64,
    values: &mut [Value],
) -> Result<(), AllocError>
    requires there { (q : Slot) → comes_at key place values.old q ≡ true → holds slots.old q ≡ true }
    ensures values { values.new ≡ values.old }
    ensures ok { OnOk result ((q : Slot) → holds slots.new q ≡ (comes columns.now place None (Some values.old) q || holds slots.old q)) }
    ensures err { OnErr result ((q : Slot) → holds slots.new q ≡ (not (comes columns.now place None (Some values.old) q) && holds slots.old q)) }
{
    for i in 0..columns.len() {
        if let Err(e) = put_other(alloc, slots, key, columns[i], place, values) {
            take_cells(slots, columns, None, place, values);
            return Err(e);
        }
    }
    Ok(())
}

// Puts the slot for a value in a column in, unless it is the column that is named.
#[inline(always)]
fn put_other(
    alloc: Global,
    slots: &mut Slots,
    key: Option<u8>,
    column: u8,
    place: u64,
    values: &mut [Value],
) -> Result<(), AllocError>
    requires there { (q : Slot) → comes_at key place values.old q ≡ true → holds slots.old q ≡ true }
    ensures values { values.new ≡ values.old }
    ensures ok { OnOk result ((q : Slot) → holds slots.new q ≡ ((stands column place q && is_value q.group.value (Some (at_column values.old column))) || holds slots.old q)) }
    ensures err { OnErr result ((q : Slot) → holds slots.new q ≡ holds slots.old q) }
{
    if is_key(key, column) {
        return Ok(());
    }
    put_cell(alloc, slots, column, place, values)
}

#[inline(always)]
fn put_cell(
    alloc: Global,
    slots: &mut Slots,
    column: u8,
    place: u64,
    values: &mut [Value],
) -> Result<(), AllocError>
    ensures values { values.new ≡ values.old }
    ensures ok { OnOk result ((q : Slot) → holds slots.new q ≡ ((stands column place q && is_value q.group.value (Some (at_column values.old column))) || holds slots.old q)) }
    ensures err { OnErr result ((q : Slot) → holds slots.new q ≡ holds slots.old q) }
{
    let group = cell_group(alloc, column, values)?;
    match slots.drive_out(group, place)? {
        None => Ok(()),
        Some(places) => put_beside(alloc, slots, column, place, values, places),
    }
}

// Puts the slot of a value in a column back beside these places, which it has driven out. The value is moved into the slot, and back.
#[inline(never)]
fn put_beside(
    alloc: Global,
    slots: &mut Slots,
    column: u8,
    place: u64,
    values: &mut [Value],
    places: Places,
) -> Result<(), AllocError>
    requires { IsSome (get group_cmp slots.old.groups (record { column = column; value = at_column values.old column })) }
    ensures values { values.new ≡ values.old }
    ensures ok { OnOk result ((q : Slot) → holds slots.new q ≡ (if is_eq (group_cmp (record { column = column; value = at_column values.old column }) q.group) then (place == q.place) || is_among q.place (places_listed places) else holds slots.old q)) }
    ensures err { OnErr result ((q : Slot) → holds slots.new q ≡ (if is_eq (group_cmp (record { column = column; value = at_column values.old column }) q.group) then is_among q.place (places_listed places) else holds slots.old q)) }
{
    let slot = slot_out(values, column, place);
    let put = slots.put_beside(alloc, &slot, places);
    slot_back(values, slot);
    put
}

/// Puts the slot of a row for its value in the column in, unless another row has the value there, and tells whether it came; where
/// memory is refused, the slots are as they were.
#[inline(always)]
pub fn put_key(
    alloc: Global,
    slots: &mut Slots,
    column: u8,
    place: u64,
    values: &mut [Value],
) -> Result<bool, AllocError>
    ensures values { values.new ≡ values.old }
    ensures came { IfOk result (λ came. came ≡ (length (places_in column (at_column values.old column) slots.old) == 0)) }
    ensures ordered { OnOk result (IsStrictlySortedBy nat_cmp (places_in column (at_column values.old column) slots.old)) }
    ensures ok { IfOk result (λ came. (q : Slot) → holds slots.new q ≡ ((came && comes_at (Some column) place values.old q) || holds slots.old q)) }
    ensures err { OnErr result ((q : Slot) → holds slots.new q ≡ holds slots.old q) }
{
    let group = cell_group(alloc, column, values)?;
    match slots.drive_out(group, place)? {
        None => Ok(true),
        Some(places) => Ok(give_way(slots, column, place, values, places)),
    }
}

// Puts these places back, which the slot of a value in a column has driven out, if there are any, and tells whether there were none.
#[inline(never)]
fn give_way(slots: &mut Slots, column: u8, place: u64, values: &mut [Value], places: Places) -> bool
    requires { IsSome (get group_cmp slots.old.groups (record { column = column; value = at_column values.old column })) }
    ensures values { values.new ≡ values.old }
    ensures none { result ≡ (length (places_listed places) == 0) }
    ensures ordered { IsStrictlySortedBy nat_cmp (places_listed places) }
    ensures back { result ≡ false → (q : Slot) → holds slots.new q ≡ (if is_eq (group_cmp (record { column = column; value = at_column values.old column }) q.group) then is_among q.place (places_listed places) else holds slots.old q) }
    ensures stays { result ≡ true → slots.new ≡ slots.old }
{
    let slot = slot_out(values, column, place);
    let gave = slots.give_way(&slot, places);
    slot_back(values, slot);
    gave
}

// The group of the slot for the value in a column.
#[inline(always)]
fn cell_group(alloc: Global, column: u8, values: &[Value]) -> Result<Group, AllocError>
    ensures { IfOk result (λ g. g ≡ record { column = column; value = at_column values.now column }) }
{
    let other = Value::Int(0);
    group_of(alloc, column, at(values, column as usize, &other))
}

/// Takes the slots of a row out. That of the `key` isn't there, if one is named.
#[inline(always)]
pub fn take_row(slots: &mut Slots, columns: &[u8], key: Option<u8>, place: u64, row: Row)
    requires gone { (q : Slot) → comes_at key place row q ≡ true → holds slots.old q ≡ false }
    ensures { (q : Slot) → holds slots.new q ≡ (not (comes columns.now place None (Some row) q) && holds slots.old q) }
{
    let mut values = row.into_vec();
    take_cells(slots, columns, key, place, &mut values);
}

#[inline(always)]
fn take_cells(slots: &mut Slots, columns: &[u8], key: Option<u8>, place: u64, values: &mut [Value])
    requires gone { (q : Slot) → comes_at key place values.old q ≡ true → holds slots.old q ≡ false }
    ensures values { values.new ≡ values.old }
    ensures slots { (q : Slot) → holds slots.new q ≡ (not (comes columns.now place None (Some values.old) q) && holds slots.old q) }
{
    for column in columns {
        take_other(slots, key, *column, place, values);
    }
}

// Takes the slot for a value in a column out, unless it is the column that is named.
#[inline(always)]
fn take_other(slots: &mut Slots, key: Option<u8>, column: u8, place: u64, values: &mut [Value])
    requires gone { (q : Slot) → comes_at key place values.old q ≡ true → holds slots.old q ≡ false }
    ensures values { values.new ≡ values.old }
    ensures slots { (q : Slot) → holds slots.new q ≡ (not (stands column place q && is_value q.group.value (Some (at_column values.old column))) && holds slots.old q) }
{
    if is_key(key, column) {
        return;
    }
    take_cell(slots, column, place, values);
}

// The value is moved into a slot to look it up, and back.
#[inline(always)]
fn take_cell(slots: &mut Slots, column: u8, place: u64, values: &mut [Value])
    ensures values { values.new ≡ values.old }
    ensures slots { (q : Slot) → holds slots.new q ≡ (not (stands column place q && is_value q.group.value (Some (at_column values.old column))) && holds slots.old q) }
{
    let slot = slot_out(values, column, place);
    slots.take(&slot);
    slot_back(values, slot);
}

// The slot for the value in a column, which is moved out.
#[inline(always)]
fn slot_out(values: &mut [Value], column: u8, place: u64) -> Slot
    ensures slot { result ≡ record { group = record { column = column; value = at_column values.old column }; place = place } }
    ensures rest { values.new ≡ slice_set values.old column nothing }
{
    let value = moved_out(values, column as usize);
    Slot {
        group: Group { column, value },
        place,
    }
}

// The value of the slot is moved back to its column.
#[inline(always)]
fn slot_back(values: &mut [Value], slot: Slot)
    ensures { values.new ≡ slice_set values.old slot.group.column slot.group.value }
{
    let Slot {
        group: Group { column, value },
        place: _,
    } = slot;
    move_back(values, column as usize, value);
}

#[inline(always)]
fn moved_out(values: &mut [Value], i: usize) -> Value
    ensures value { result ≡ at_column values.old i }
    ensures rest { values.new ≡ slice_set values.old i nothing }
{
    if i < values.len() {
        mem::replace(&mut values[i], Value::Int(0))
    } else {
        Value::Int(0)
    }
}

#[inline(always)]
fn move_back(values: &mut [Value], i: usize, value: Value)
    ensures { values.new ≡ slice_set values.old i value }
{
    if i < values.len() {
        values[i] = value;
    }
}
