//! Which rows meet conditions, with a count of the rows that are tested.

ghost use Rattle.std.specs.Prelude.{◌≡◌, ◌+◌, ◌≤◌, ◌∷◌, [], ℕ, List, true, Some, IfOk, IfSome, OnOk, length, map, filter, ◌&&◌};
ghost use Rattle.std.specs.Option.{option_copied};
ghost use Rattle.std.specs.List.Sorted.{IsStrictlySortedBy};
ghost use Rattle.std.specs.Ordering.{nat_cmp};
ghost use Rattle.okws_base.specs.declared.value.Value.{Value as Field};
ghost use Rattle.okws_plan.specs.Meaning.{meets_all, operand, nothing, at_column};
ghost use Rattle.row_index.specs.Places.{row_at};
ghost use Rattle.row_index.specs.Stands.{standing};
ghost use Rattle.row_index.specs.Slots.{places_in};
ghost use Rattle.row_index.specs.Index.{is_indexed, is_value};
ghost use Rattle.row_search.specs.Places.{leading, left_of, passes_at, is_equality};
ghost use Rattle.row_index.specs.Few.{if_any, listed};
ghost use Rattle.row_search.specs.Hits.{entries_of, entry_at, entries_at, passing};

use crate::steps::Steps;
use okws_base::value::{Row, Value};
use okws_plan::meaning::meets_every;
use okws_plan::statement::{Comparison, Condition, Operand};
use row_index::{Few, Group, PlacedRows, Slots, Stand, at, group_of};
use std::alloc::{AllocError, Global};
use std::sync::ledger::Ledger;

/// A place, and the row that stands there.
#[derive(Clone, Copy)]
pub struct Hit<'a> {
    pub place: u64,
    pub row: &'a Row,
}

/// Whether a column is one of those that have an index.
#[inline(always)]
pub fn is_own(columns: &[u8], column: u8) -> bool
    ensures { result ≡ is_indexed columns.now column }
{
    columns.iter().any(|own| *own == column)
}

#[inline(always)]
fn leads(columns: &[u8], condition: &Condition) -> bool
    ensures { result ≡ (is_equality condition.now.comparison && is_indexed columns.now condition.now.column) }
{
    condition.comparison == Comparison::Equal && is_own(columns, condition.column)
}

/// The condition by which rows are looked up, if there is one.
pub fn leading_of<'a>(columns: &[u8], conditions: &'a [Condition]) -> Option<&'a Condition>
    ensures { option_copied result ≡ leading columns.now conditions.now }
{
    conditions
        .iter()
        .find(|condition| leads(columns, condition))
}

/// The conditions that are left to test on rows that were looked up: none where there is but one.
#[inline(always)]
pub fn left_of(conditions: &[Condition]) -> &[Condition]
    ensures { result.now ≡ left_of conditions.now }
{
    if conditions.len() == 1 {
        &[]
    } else {
        conditions
    }
}

/// The value of an operand; `other` stands for an argument that isn't there.
#[inline(always)]
pub fn value_of<'a>(args: &'a [Value], given: &'a Operand, other: &'a Value) -> &'a Value
    requires { other.now ≡ nothing }
    ensures { result.now ≡ operand args.now given.now }
{
    match given {
        Operand::Parameter(n) => at(args, n.saturating_sub(1) as usize, other),
        Operand::Literal(value) => value,
    }
}

/// The places in the slots that have what the condition compares with in its column, ascending.
#[inline(always)]
pub fn candidates(
    alloc: Global,
    args: &[Value],
    condition: &Condition,
    slots: &Slots,
) -> Result<Few<u64>, AllocError>
    ensures places { IfOk result (λ v. listed v ≡ places_in condition.now.column (operand args.now condition.now.operand) slots.now) }
    ensures ordered { OnOk result (IsStrictlySortedBy nat_cmp (places_in condition.now.column (operand args.now condition.now.operand) slots.now)) }
{
    let other = Value::Int(0);
    let value = value_of(args, &condition.operand, &other);
    slots.places_at(alloc, condition.column, value)
}

// The only condition, where it compares a column that has an index by `=`.
#[inline(always)]
fn sole_condition<'a>(columns: &[u8], conditions: &'a [Condition]) -> Option<&'a Condition>
    ensures alone { IfSome result (λ c. conditions.now ≡ c.now ∷ []) }
    ensures leads { IfSome result (λ c. (is_equality c.now.comparison && is_indexed columns.now c.now.column) ≡ true) }
{
    if conditions.len() != 1 {
        return None;
    }
    let condition = &conditions[0];
    if !leads(columns, condition) {
        return None;
    }
    Some(condition)
}

/// The group of the rows that meet the conditions, where there is but one condition, which compares a column that has an
/// index by `=`.
#[inline(always)]
pub fn sole_group(
    alloc: Global,
    columns: &[u8],
    args: &[Value],
    conditions: &[Condition],
) -> Result<Option<Group>, AllocError>
    ensures own { IfOk result (λ group. IfSome group (λ g. is_indexed columns.now g.column ≡ true)) }
    ensures rows { IfOk result (λ group. IfSome group (λ g. (row : List Field) → meets_all args.now conditions.now row ≡ is_value g.value (Some (at_column row g.column)))) }
{
    match sole_condition(columns, conditions) {
        None => Ok(None),
        Some(condition) => {
            let other = Value::Int(0);
            let value = value_of(args, &condition.operand, &other);
            let group = group_of(alloc, condition.column, value)?;
            Ok(Some(group))
        }
    }
}

/// The rows that stand and meet the conditions, at their places; all that stand are tested.
pub fn scanned<'a, L: Ledger>(
    alloc: Global,
    args: &[Value],
    conditions: &[Condition],
    stands: &'a [Stand],
    steps: &mut Steps<L>,
) -> Result<Vec<Hit<'a>>, AllocError>
    ensures entries { IfOk result (λ v. entries_of v.items ≡ filter (λ e. meets_all args.now conditions.now e.1) (standing stands.now)) }
    ensures tested { OnOk result (steps.new ≡ steps.old + length (standing stands.now)) }
    ensures most { steps.new ≤ steps.old + length (standing stands.now) }
{
    let mut hits = Vec::new(alloc);
    for stand in stands {
        match stand.row.as_ref() {
            None => {}
            Some(row) => {
                steps.tick();
                let place = stand.place;
                if meets_every(args, conditions, row.as_slice()) {
                    hits.push(Hit { place, row })?;
                }
            }
        }
    }
    Ok(hits)
}

/// The rows at those of the places where they meet the conditions; only the rows at the places are tested.
#[inline(always)]
pub fn met_at<'a, L: Ledger>(
    alloc: Global,
    args: &[Value],
    conditions: &[Condition],
    rows: &'a PlacedRows,
    places: Few<u64>,
    steps: &mut Steps<L>,
) -> Result<Few<Hit<'a>>, AllocError>
    ensures entries { IfOk result (λ v. entries_of (listed v) ≡ entries_at (meets_all args.now conditions.now) (λ (p : ℕ). row_at rows.now.entries p) (listed places)) }
    ensures tested { OnOk result (steps.new ≡ steps.old + length (listed places)) }
    ensures most { steps.new ≤ steps.old + length (listed places) }
{
    match places {
        Few::Sole(None) => Ok(Few::Sole(None)),
        Few::Sole(Some(place)) => {
            steps.tick();
            Ok(Few::Sole(hit_at(args, conditions, rows, place)))
        }
        Few::Many(places) => {
            let hits = met_among(alloc, args, conditions, rows, &places, steps)?;
            Ok(Few::Many(hits))
        }
    }
}

// The row at a place, if there is one and it meets the conditions.
#[inline(always)]
fn hit_at<'a>(
    args: &[Value],
    conditions: &[Condition],
    rows: &'a PlacedRows,
    place: u64,
) -> Option<Hit<'a>>
    ensures { entries_of (if_any result) ≡ if_any (entry_at (meets_all args.now conditions.now) place (row_at rows.now.entries place)) }
{
    match row_met(args, conditions, rows.get(place)) {
        None => None,
        Some(row) => Some(Hit { place, row }),
    }
}

fn met_among<'a, L: Ledger>(
    alloc: Global,
    args: &[Value],
    conditions: &[Condition],
    rows: &'a PlacedRows,
    places: &[u64],
    steps: &mut Steps<L>,
) -> Result<Vec<Hit<'a>>, AllocError>
    ensures entries { IfOk result (λ v. entries_of v.items ≡ entries_at (meets_all args.now conditions.now) (λ (p : ℕ). row_at rows.now.entries p) places.now) }
    ensures tested { OnOk result (steps.new ≡ steps.old + length places.now) }
    ensures most { steps.new ≤ steps.old + length places.now }
{
    let mut hits = Vec::with_capacity(alloc, places.len())?;
    for place in places {
        steps.tick();
        match row_met(args, conditions, rows.get(*place)) {
            None => {}
            Some(row) => hits.push(Hit { place: *place, row })?,
        }
    }
    Ok(hits)
}

// The row, if there is one and it meets the conditions.
#[inline(always)]
fn row_met<'a>(args: &[Value], conditions: &[Condition], row: Option<&'a Row>) -> Option<&'a Row>
    ensures { option_copied result ≡ passing (meets_all args.now conditions.now) (option_copied row.entry) }
{
    match row {
        None => None,
        Some(row) => {
            if meets_every(args, conditions, row.as_slice()) {
                Some(row)
            } else {
                None
            }
        }
    }
}

/// Whether there is a row at the place, and it meets the conditions.
pub fn meets_at(args: &[Value], conditions: &[Condition], rows: &PlacedRows, place: u64) -> bool
    ensures { result ≡ passes_at (meets_all args.now conditions.now) (row_at rows.now.entries place) }
{
    match rows.get(place) {
        None => false,
        Some(row) => meets_every(args, conditions, row.as_slice()),
    }
}

/// The places of hits.
pub fn places_of(alloc: Global, hits: &[Hit]) -> Result<Vec<u64>, AllocError>
    ensures { IfOk result (λ v. v.items ≡ map (λ h. h.place) hits.now) }
{
    hits.iter().map(|hit| hit.place).collect(alloc)
}
