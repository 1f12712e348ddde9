//! SELECTs from two tables.

ghost use Rattle.std.specs.Prelude.{◌≡◌, ◌++◌, nat_lt, true, IfOk, OnOk, map, flat_map};
ghost use Rattle.okws_plan.specs.Meaning.{laid, hits, joined_to, ordered, limited, cut_all};
ghost use Rattle.okws_plan.specs.Rules.{are_apart};
ghost use Rattle.index_keeper.specs.Joining.{own_column as column_of_first, other_column as column_of_second, own_conditions, equal_to, joined_hits};
ghost use Rattle.row_search.specs.Places.{rows_of};

use crate::held::copy_condition;
use crate::rows::TableRows;
use okws_base::items::Exact;
use okws_base::value::{Row, Value};
use okws_plan::meaning::{laid_row, listed, meets_every};
use okws_plan::statement::{Comparison, Condition, Join, Operand, Selection};
use row_index::at;
use row_search::finding::Hit;
use row_search::steps::Steps;
use std::alloc::{AllocError, Global};
use std::sync::ledger::Ledger;

fn own_column(width: usize, join: &Join) -> u8
    ensures { result ≡ column_of_first width join.now }
{
    if (join.left as usize) < width {
        join.left
    } else {
        join.right
    }
}

fn other_column(width: usize, join: &Join) -> u8
    ensures { result ≡ column_of_second width join.now }
{
    let column = if (join.left as usize) < width {
        join.right
    } else {
        join.left
    };
    (column as usize).saturating_sub(width) as u8
}

fn is_on_first(width: usize, condition: &Condition) -> bool
    ensures { result ≡ nat_lt condition.now.column width }
{
    (condition.column as usize) < width
}

fn first_conditions(
    alloc: Global,
    width: usize,
    conditions: &[Condition],
) -> Result<Vec<Condition>, AllocError>
    ensures { IfOk result (λ v. v.items ≡ own_conditions width conditions.now) }
{
    let mut out = Vec::new(alloc);
    for condition in conditions {
        if is_on_first(width, condition) {
            out.push(copy_condition(alloc, condition)?)?;
        }
    }
    Ok(out)
}

// Puts those of a row's pairs that meet the conditions behind the rows.
fn push_pairs(
    alloc: Global,
    out: &mut Vec<Row>,
    args: &[Value],
    conditions: &[Condition],
    width: usize,
    row: &[Value],
    others: &[Hit],
) -> Result<(), AllocError>
    ensures { OnOk result (out.new.items ≡ out.old.items ++ hits args.now conditions.now (map (λ h. laid width row.now h.row.now) others.now)) }
{
    for other in others {
        let pair = laid_row(alloc, width, row, other.row.as_slice())?;
        if meets_every(args, conditions, pair.as_slice()) {
            out.push(pair)?;
        }
    }
    Ok(())
}

// The condition that a row of the second table is equal to one of the first.
fn equality(
    alloc: Global,
    width: usize,
    join: &Join,
    row: &[Value],
) -> Result<Condition, AllocError>
    ensures { IfOk result (λ c. c ≡ equal_to width join.now row.now) }
{
    let other = Value::Int(0);
    let value = at(row, own_column(width, join) as usize, &other).copy(alloc)?;
    Ok(Condition {
        column: other_column(width, join),
        comparison: Comparison::Equal,
        operand: Operand::Literal(value),
    })
}

// Puts what a row of the first table is joined to, where it meets the conditions, behind the rows.
fn push_joined<L: Ledger>(
    alloc: Global,
    out: &mut Vec<Row>,
    args: &[Value],
    conditions: &[Condition],
    width: usize,
    join: &Join,
    row: &[Value],
    second: &TableRows,
    steps: &mut Steps<L>,
) -> Result<(), AllocError>
    requires { are_apart width join.now.left join.now.right ≡ true }
    ensures { OnOk result (out.new.items ≡ out.old.items ++ hits args.now conditions.now (joined_to width join.now (rows_of second.now.entries) row.now)) }
{
    let condition = equality(alloc, width, join, row)?;
    let found = second.found(alloc, args, &[condition], steps)?;
    let others = found.into_vec(alloc)?;
    push_pairs(alloc, out, args, conditions, width, row, &others)
}

// What each row of the first table is joined to, where it meets the conditions.
fn all_joined<L: Ledger>(
    alloc: Global,
    args: &[Value],
    conditions: &[Condition],
    width: usize,
    join: &Join,
    rows: &[Hit],
    second: &TableRows,
    steps: &mut Steps<L>,
) -> Result<Vec<Row>, AllocError>
    requires { are_apart width join.now.left join.now.right ≡ true }
    ensures { IfOk result (λ v. v.items ≡ flat_map (λ h. hits args.now conditions.now (joined_to width join.now (rows_of second.now.entries) h.row.now)) rows.now) }
{
    let mut out = Vec::new(alloc);
    for hit in rows {
        let row = hit.row.as_slice();
        push_joined(
            alloc, &mut out, args, conditions, width, join, row, second, steps,
        )?;
    }
    Ok(out)
}

/// The rows that a SELECT from two tables answers, of which the first has so many columns: for each
/// row of the first that meets its conditions, the rows of the second with its value.
pub fn select_joined<L: Ledger>(
    alloc: Global,
    args: &[Value],
    selection: &Selection,
    width: usize,
    join: &Join,
    first: &TableRows,
    second: &TableRows,
    steps: &mut Steps<L>,
) -> Result<Vec<Row>, AllocError>
    requires { are_apart width join.now.left join.now.right ≡ true }
    ensures { IfOk result (λ v. v.items ≡ cut_all selection.now.columns (limited selection.now.limit (ordered selection.now.order (joined_hits args.now width join.now selection.now (rows_of first.now.entries) (rows_of second.now.entries))))) }
{
    let conditions = selection.conditions.as_slice();
    let own = first_conditions(alloc, width, conditions)?;
    let found = first.found(alloc, args, &own, steps)?;
    let rows = found.into_vec(alloc)?;
    let all = all_joined(alloc, args, conditions, width, join, &rows, second, steps)?;
    listed(alloc, selection, all)
}
