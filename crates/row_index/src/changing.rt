//! Changes of rows at their places, and the slots that come and go with them.

ghost use Rattle.std.specs.Prelude.{◌≡◌, ◌||◌, ◌&&◌, ℕ, [], IfOk, OnOk, OnErr, map, None};
ghost use Rattle.std.specs.Option.{option_copied};
ghost use Rattle.std.specs.List.{list_any};
ghost use Rattle.std.specs.List.Sorted.{IsStrictlySortedBy};
ghost use Rattle.std.specs.Ordering.{nat_cmp};
ghost use Rattle.std.specs.Map.{keys_of};
ghost use Rattle.okws_plan.specs.Meaning.{nothing};
ghost use Rattle.row_index.specs.Places.{row_at};
ghost use Rattle.row_index.specs.Slots.{has_slot};
ghost use Rattle.row_index.specs.Index.{cell, is_value, IsIndex};
ghost use Rattle.row_index.specs.Changes.{same_cell, stands, arrives, departs, comes, goes, comes_with, goes_with, changed, after_change};
ghost use Rattle.row_index.specs.Few.{listed};
ghost use Rattle.row_index.specs.declared.slot.Slot.{Slot};

use crate::cells::at;
use crate::few::Few;
use crate::placed::PlacedRows;
use crate::removing::remove;
use crate::slot::Slot;
use crate::slots::{Slots, group_of};
use okws_base::items::Exact;
use okws_base::value::{Row, Value};
use std::alloc::{AllocError, Global};
use std::cmp::Ordering;

/// What is to stand at a place that has a row: another row, or none.
#[derive(Drop)]
pub struct Change {
    pub place: u64,
    pub row: Option<Row>,
}

/// The slots that come and those that go.
#[derive(Drop)]
pub struct Moves {
    pub coming: Vec<Slot>,
    pub going: Vec<Slot>,
}

#[inline(always)]
fn same_cells(a: Option<&Value>, b: Option<&Value>) -> bool
    ensures { result ≡ same_cell (option_copied a.entry) (option_copied b.entry) }
{
    match a {
        None => b.is_none(),
        Some(x) => match b {
            None => false,
            Some(y) => x.compare(y) == Ordering::Equal,
        },
    }
}

#[inline(always)]
fn cell_of<'a>(row: Option<&'a Row>, column: u8, other: &'a Value) -> Option<&'a Value>
    requires { other.now ≡ nothing }
    ensures { option_copied result ≡ cell column (option_copied row.entry) }
{
    match row {
        None => None,
        Some(row) => Some(at(row.as_slice(), column as usize, other)),
    }
}

fn push_slot(
    alloc: Global,
    slots: &mut Vec<Slot>,
    column: u8,
    place: u64,
    value: Option<&Value>,
) -> Result<(), AllocError>
    ensures { OnOk result ((q : Slot) → has_slot slots.new.items q ≡ (has_slot slots.old.items q || (stands column place q && is_value q.group.value (option_copied value.entry)))) }
{
    if let Some(value) = value {
        let group = group_of(alloc, column, value)?;
        slots.push(Slot { group, place })?;
    }
    Ok(())
}

impl Moves {
    /// No moves yet.
    pub fn none(alloc: Global) -> Moves
        ensures coming { result.coming.items ≡ [] }
        ensures going { result.going.items ≡ [] }
    {
        Moves {
            coming: Vec::new(alloc),
            going: Vec::new(alloc),
        }
    }

    #[inline(always)]
    fn note_cell(
        &mut self,
        alloc: Global,
        column: u8,
        place: u64,
        old: Option<&Value>,
        new: Option<&Value>,
    ) -> Result<(), AllocError>
        ensures coming { OnOk result ((q : Slot) → has_slot self.new.coming.items q ≡ (has_slot self.old.coming.items q || arrives column place (option_copied old.entry) (option_copied new.entry) q)) }
        ensures going { OnOk result ((q : Slot) → has_slot self.new.going.items q ≡ (has_slot self.old.going.items q || departs column place (option_copied old.entry) (option_copied new.entry) q)) }
    {
        if same_cells(old, new) {
            return Ok(());
        }
        push_slot(alloc, &mut self.going, column, place, old)?;
        push_slot(alloc, &mut self.coming, column, place, new)
    }

    /// Notes the slots that come and go where the row at a place changes; `other` stands for a
    /// column that isn't there.
    #[inline(always)]
    pub fn note(
        &mut self,
        alloc: Global,
        columns: &[u8],
        place: u64,
        rows: (Option<&Row>, Option<&Row>),
        other: &Value,
    ) -> Result<(), AllocError>
        requires { other.now ≡ nothing }
        ensures coming { OnOk result ((q : Slot) → has_slot self.new.coming.items q ≡ (has_slot self.old.coming.items q || comes columns.now place (option_copied rows.entry.0) (option_copied rows.entry.1) q)) }
        ensures going { OnOk result ((q : Slot) → has_slot self.new.going.items q ≡ (has_slot self.old.going.items q || goes columns.now place (option_copied rows.entry.0) (option_copied rows.entry.1) q)) }
    {
        let (old, new) = rows;
        for column in columns {
            let before = cell_of(old, *column, other);
            let after = cell_of(new, *column, other);
            self.note_cell(alloc, *column, place, before, after)?;
        }
        Ok(())
    }

    // Notes what a change brings, where there is a row to change.
    #[inline(always)]
    fn note_change(
        &mut self,
        alloc: Global,
        columns: &[u8],
        old: Option<&Row>,
        change: &Change,
        other: &Value,
    ) -> Result<(), AllocError>
        requires { other.now ≡ nothing }
        ensures coming { OnOk result ((q : Slot) → has_slot self.new.coming.items q ≡ (has_slot self.old.coming.items q || comes_with columns.now (option_copied old.entry) change.now q)) }
        ensures going { OnOk result ((q : Slot) → has_slot self.new.going.items q ≡ (has_slot self.old.going.items q || goes_with columns.now (option_copied old.entry) change.now q)) }
    {
        match old {
            None => Ok(()),
            Some(row) => {
                let rows = (Some(row), change.row.as_ref());
                self.note(alloc, columns, change.place, rows, other)
            }
        }
    }
}

fn moves_of(
    alloc: Global,
    columns: &[u8],
    rows: &PlacedRows,
    changes: &[Change],
    other: &Value,
) -> Result<Moves, AllocError>
    requires { other.now ≡ nothing }
    ensures coming { IfOk result (λ m. (q : Slot) → has_slot m.coming.items q ≡ list_any (λ ch. comes_with columns.now (row_at rows.now.entries ch.place) ch q) changes.now) }
    ensures going { IfOk result (λ m. (q : Slot) → has_slot m.going.items q ≡ list_any (λ ch. goes_with columns.now (row_at rows.now.entries ch.place) ch q) changes.now) }
{
    let mut moves = Moves::none(alloc);
    for change in changes {
        let old = rows.get(change.place);
        moves.note_change(alloc, columns, old, change, other)?;
    }
    Ok(moves)
}

/// Makes the changes, in the rows and in their slots, or none of them where memory is refused. No
/// two are at one place.
#[inline(always)]
pub fn apply(
    alloc: Global,
    columns: &[u8],
    rows: &mut PlacedRows,
    slots: &mut Slots,
    changes: Few<Change>,
) -> Result<(), AllocError>
    requires index { IsIndex columns.now rows.old.entries slots.old }
    requires apart { IsStrictlySortedBy nat_cmp (map (λ ch. ch.place) (listed changes)) }
    ensures index { IsIndex columns.now rows.new.entries slots.new }
    ensures ok { OnOk result ((p : ℕ) → row_at rows.new.entries p ≡ changed (listed changes) (row_at rows.old.entries p) p) }
    ensures err { OnErr result (rows.new ≡ rows.old) }
    ensures none { (p : ℕ) → row_at rows.old.entries p ≡ None → row_at rows.new.entries p ≡ None }
    ensures rising { IsStrictlySortedBy nat_cmp (keys_of rows.old.entries) → IsStrictlySortedBy nat_cmp (keys_of rows.new.entries) }
    ensures next { rows.new.next ≡ rows.old.next }
{
    match changes {
        Few::Sole(None) => Ok(()),
        Few::Sole(Some(change)) => apply_sole(alloc, columns, rows, slots, change),
        Few::Many(changes) => apply_all(alloc, columns, rows, slots, changes),
    }
}

// Makes one change, or none where memory is refused.
#[inline(always)]
fn apply_sole(
    alloc: Global,
    columns: &[u8],
    rows: &mut PlacedRows,
    slots: &mut Slots,
    change: Change,
) -> Result<(), AllocError>
    requires index { IsIndex columns.now rows.old.entries slots.old }
    ensures index { IsIndex columns.now rows.new.entries slots.new }
    ensures ok { OnOk result ((p : ℕ) → row_at rows.new.entries p ≡ after_change p (row_at rows.old.entries p) change) }
    ensures err { OnErr result (rows.new ≡ rows.old) }
    ensures none { (p : ℕ) → row_at rows.old.entries p ≡ None → row_at rows.new.entries p ≡ None }
    ensures rising { IsStrictlySortedBy nat_cmp (keys_of rows.old.entries) → IsStrictlySortedBy nat_cmp (keys_of rows.new.entries) }
    ensures next { rows.new.next ≡ rows.old.next }
{
    let Change { place, row } = change;
    match row {
        None => {
            remove(columns, rows, slots, place);
            Ok(())
        }
        Some(row) => {
            let row = Some(row);
            replace(alloc, columns, rows, slots, Change { place, row })
        }
    }
}

// Makes one change.
#[inline(never)]
fn replace(
    alloc: Global,
    columns: &[u8],
    rows: &mut PlacedRows,
    slots: &mut Slots,
    change: Change,
) -> Result<(), AllocError>
    requires index { IsIndex columns.now rows.old.entries slots.old }
    ensures index { IsIndex columns.now rows.new.entries slots.new }
    ensures ok { OnOk result ((p : ℕ) → row_at rows.new.entries p ≡ after_change p (row_at rows.old.entries p) change) }
    ensures err { OnErr result (rows.new ≡ rows.old) }
    ensures none { (p : ℕ) → row_at rows.old.entries p ≡ None → row_at rows.new.entries p ≡ None }
    ensures rising { IsStrictlySortedBy nat_cmp (keys_of rows.old.entries) → IsStrictlySortedBy nat_cmp (keys_of rows.new.entries) }
    ensures next { rows.new.next ≡ rows.old.next }
{
    let other = Value::Int(0);
    let mut moves = Moves::none(alloc);
    let old = rows.get(change.place);
    moves.note_change(alloc, columns, old, &change, &other)?;
    slots.put_all(alloc, &moves.coming)?;
    slots.take_all(&moves.going);
    let Change { place, row } = change;
    rows.put(place, row);
    Ok(())
}

fn apply_all(
    alloc: Global,
    columns: &[u8],
    rows: &mut PlacedRows,
    slots: &mut Slots,
    changes: Vec<Change>,
) -> Result<(), AllocError>
    requires index { IsIndex columns.now rows.old.entries slots.old }
    requires apart { IsStrictlySortedBy nat_cmp (map (λ ch. ch.place) changes.items) }
    ensures index { IsIndex columns.now rows.new.entries slots.new }
    ensures ok { OnOk result ((p : ℕ) → row_at rows.new.entries p ≡ changed changes.items (row_at rows.old.entries p) p) }
    ensures err { OnErr result (rows.new ≡ rows.old) }
    ensures none { (p : ℕ) → row_at rows.old.entries p ≡ None → row_at rows.new.entries p ≡ None }
    ensures rising { IsStrictlySortedBy nat_cmp (keys_of rows.old.entries) → IsStrictlySortedBy nat_cmp (keys_of rows.new.entries) }
    ensures next { rows.new.next ≡ rows.old.next }
{
    let other = Value::Int(0);
    let moves = moves_of(alloc, columns, rows, &changes, &other)?;
    slots.put_all(alloc, &moves.coming)?;
    slots.take_all(&moves.going);
    carry_out(rows, changes);
    Ok(())
}

#[inline(always)]
fn carry_out(rows: &mut PlacedRows, changes: Vec<Change>)
    ensures rows { (p : ℕ) → row_at rows.new.entries p ≡ changed changes.items (row_at rows.old.entries p) p }
    ensures rising { IsStrictlySortedBy nat_cmp (keys_of rows.old.entries) → IsStrictlySortedBy nat_cmp (keys_of rows.new.entries) }
    ensures next { rows.new.next ≡ rows.old.next }
{
    for change in changes {
        let Change { place, row } = change;
        rows.put(place, row);
    }
    rows.tidy();
}
