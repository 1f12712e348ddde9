//! The changes that an UPDATE or a DELETE makes at the places of its hits.

ghost use Rattle.std.specs.Prelude.{◌≡◌, ◌∷◌, [], false, IfOk, IfSome, map, Some, None};
ghost use Rattle.okws_plan.specs.Meaning.{assigned, nothing, operand, row_of};
ghost use Rattle.row_index.specs.Index.{is_indexed};
ghost use Rattle.row_index.specs.Changes.{changes_to};
ghost use Rattle.row_index.specs.Few.{listed};
ghost use Rattle.row_search.specs.Hits.{entries_of};

use crate::finding::{Hit, is_own, value_of};
use okws_base::items::{Exact, Items};
use okws_base::value::{Row, Value};
use okws_plan::meaning::assigned_row;
use okws_plan::statement::{Assignment, Operand};
use row_index::{Change, Few};
use std::alloc::{AllocError, Global};

/// No row at each of the places.
#[inline(always)]
pub fn removals(alloc: Global, hits: Few<Hit>) -> Result<Few<Change>, AllocError>
    ensures { IfOk result (λ v. listed v ≡ map (λ h. record { place = h.place; row = None }) (listed hits.entry)) }
{
    match hits {
        Few::Sole(None) => Ok(Few::Sole(None)),
        Few::Sole(Some(hit)) => Ok(Few::Sole(Some(removal(hit)))),
        Few::Many(hits) => Ok(Few::Many(all_removals(alloc, &hits)?)),
    }
}

#[inline(always)]
fn removal(hit: Hit) -> Change
    ensures { result ≡ record { place = hit.entry.place; row = None } }
{
    Change {
        place: hit.place,
        row: None,
    }
}

fn all_removals(alloc: Global, hits: &[Hit]) -> Result<Vec<Change>, AllocError>
    ensures { IfOk result (λ v. v.items ≡ map (λ h. record { place = h.place; row = None }) hits.now) }
{
    hits.iter()
        .map(|hit| Change {
            place: hit.place,
            row: None,
        })
        .collect(alloc)
}

/// At each of the places a copy of the row with each assignment made.
#[inline(always)]
pub fn replacements(
    alloc: Global,
    args: &[Value],
    assignments: &[Assignment],
    hits: Few<Hit>,
) -> Result<Few<Change>, AllocError>
    ensures { IfOk result (λ v. listed v ≡ changes_to (λ row. Some (assigned args.now assignments.now row)) (entries_of (listed hits.entry))) }
{
    match hits {
        Few::Sole(None) => Ok(Few::Sole(None)),
        Few::Sole(Some(hit)) => {
            let change = replacement(alloc, args, assignments, hit)?;
            Ok(Few::Sole(Some(change)))
        }
        Few::Many(hits) => Ok(Few::Many(all_replacements(alloc, args, assignments, &hits)?)),
    }
}

#[inline(always)]
fn replacement(
    alloc: Global,
    args: &[Value],
    assignments: &[Assignment],
    hit: Hit,
) -> Result<Change, AllocError>
    ensures { IfOk result (λ ch. ch ≡ record { place = hit.entry.place; row = Some (assigned args.now assignments.now hit.entry.row.now) }) }
{
    let row = assigned_row(alloc, args, assignments, hit.row)?;
    Ok(Change {
        place: hit.place,
        row: Some(row),
    })
}

fn all_replacements(
    alloc: Global,
    args: &[Value],
    assignments: &[Assignment],
    hits: &[Hit],
) -> Result<Vec<Change>, AllocError>
    ensures { IfOk result (λ v. v.items ≡ changes_to (λ row. Some (assigned args.now assignments.now row)) (entries_of hits.now)) }
{
    let mut changes = Vec::with_capacity(alloc, hits.len())?;
    for hit in hits {
        changes.push(replacement(alloc, args, assignments, *hit)?)?;
    }
    Ok(changes)
}

/// The place of the only hit, and the only assignment, where there is one of each and the column that
/// is assigned has no index.
#[inline(always)]
pub fn sole_setting<'a>(
    columns: &[u8],
    assignments: &'a [Assignment],
    found: &Few<Hit>,
) -> Option<(u64, &'a Assignment)>
    ensures hit { IfSome result (λ x. map (λ h. h.place) (listed found.now) ≡ x.0 ∷ []) }
    ensures assignment { IfSome result (λ x. assignments.now ≡ x.1.now ∷ []) }
    ensures plain { IfSome result (λ x. is_indexed columns.now x.1.now.column ≡ false) }
{
    let place = sole_place(found)?;
    let assignment = sole_assignment(columns, assignments)?;
    Some((place, assignment))
}

#[inline(always)]
fn sole_place(found: &Few<Hit>) -> Option<u64>
    ensures { IfSome result (λ place. map (λ h. h.place) (listed found.now) ≡ place ∷ []) }
{
    match found {
        Few::Sole(Some(hit)) => Some(hit.place),
        _ => None,
    }
}

#[inline(always)]
fn sole_assignment<'a>(columns: &[u8], assignments: &'a [Assignment]) -> Option<&'a Assignment>
    ensures alone { IfSome result (λ a. assignments.now ≡ a.now ∷ []) }
    ensures plain { IfSome result (λ a. is_indexed columns.now a.now.column ≡ false) }
{
    if assignments.len() != 1 {
        return None;
    }
    let assignment = &assignments[0];
    if is_own(columns, assignment.column) {
        return None;
    }
    Some(assignment)
}

/// A copy of what an operand stands for.
#[inline(always)]
pub fn operand_of(alloc: Global, args: &[Value], given: &Operand) -> Result<Value, AllocError>
    ensures { IfOk result (λ v. v ≡ operand args.now given.now) }
{
    let other = Value::Int(0);
    value_of(args, given, &other).copy(alloc)
}

/// The row of what the operands stand for.
#[inline(always)]
pub fn row_made(alloc: Global, args: &[Value], values: &[Operand]) -> Result<Row, AllocError>
    ensures { IfOk result (λ v. v ≡ row_of args.now values.now) }
{
    let other = Value::Int(0);
    row_with(alloc, args, values, &other)
}

#[inline(always)]
fn row_with(
    alloc: Global,
    args: &[Value],
    values: &[Operand],
    other: &Value,
) -> Result<Row, AllocError>
    requires { other.now ≡ nothing }
    ensures { IfOk result (λ v. v ≡ row_of args.now values.now) }
{
    let mut row = Vec::with_capacity(alloc, values.len())?;
    for value in values {
        row.push(value_of(args, value, other).copy(alloc)?)?;
    }
    Ok(Items::of(row))
}
