//! The SQL of SELECTs from two tables.

ghost use Rattle.std.specs.Prelude.{◌≡◌, IfOk, string_bytes, codes};
ghost use Rattle.std.specs.List.{join_by};
ghost use Rattle.sqlite_keeper.specs.Texts.{side_name, side_condition_sql, side_where_sql, pair_order_sql, side_order_sql, pair_sql, join_sql};

use crate::texts::{comparison_sql, limit_sql};
use okws_plan::statement::{Condition, Join, Selection};
use std::alloc::{AllocError, Global};

/// Two tables by their numbers, and how many columns the first has.
#[derive(Clone, Copy)]
struct Sides {
    width: usize,
    table: u8,
    second: u8,
}

fn side_name(alloc: Global, sides: Sides, column: u8) -> Result<String, AllocError>
    ensures { IfOk result (λ t. string_bytes t ≡ side_name sides.width sides.table sides.second column) }
{
    let (table, second) = (sides.table, sides.second);
    if (column as usize) < sides.width {
        format!(in alloc; "t{table}.c{column}")
    } else {
        let place = column as usize - sides.width;
        format!(in alloc; "t{second}.c{place}")
    }
}

fn side_names(alloc: Global, sides: Sides, columns: &[u8]) -> Result<String, AllocError>
    ensures { IfOk result (λ t. string_bytes t ≡ join_by (side_name sides.width sides.table sides.second) (codes ", ") columns.now) }
{
    let mut parts = Vec::new(alloc);
    for column in columns {
        parts.push(side_name(alloc, sides, *column)?)?;
    }
    parts.join(alloc, ", ")
}

fn side_condition(alloc: Global, sides: Sides, condition: &Condition) -> Result<String, AllocError>
    ensures { IfOk result (λ t. string_bytes t ≡ side_condition_sql sides.width sides.table sides.second condition.now) }
{
    let column = side_name(alloc, sides, condition.column)?;
    let compared = comparison_sql(condition.comparison);
    format!(in alloc; "{column}{compared}")
}

fn side_conditions(
    alloc: Global,
    sides: Sides,
    conditions: &[Condition],
) -> Result<String, AllocError>
    ensures { IfOk result (λ t. string_bytes t ≡ join_by (side_condition_sql sides.width sides.table sides.second) (codes " AND ") conditions.now) }
{
    let mut parts = Vec::new(alloc);
    for condition in conditions {
        parts.push(side_condition(alloc, sides, condition)?)?;
    }
    parts.join(alloc, " AND ")
}

#[tactic(auto, using(crate::proofs::Joined::side_where_met))]
fn side_where(alloc: Global, sides: Sides, conditions: &[Condition]) -> Result<String, AllocError>
    ensures { IfOk result (λ t. string_bytes t ≡ side_where_sql sides.width sides.table sides.second conditions.now) }
{
    if conditions.is_empty() {
        return Ok(String::new(alloc));
    }
    let all = side_conditions(alloc, sides, conditions)?;
    format!(in alloc; " WHERE {all}")
}

fn pair_order(alloc: Global, sides: Sides) -> Result<String, AllocError>
    ensures { IfOk result (λ t. string_bytes t ≡ pair_order_sql sides.table sides.second) }
{
    let (table, second) = (sides.table, sides.second);
    format!(in alloc; "t{table}.id, t{second}.id")
}

fn side_order(alloc: Global, sides: Sides, order: Option<u8>) -> Result<String, AllocError>
    ensures { IfOk result (λ t. string_bytes t ≡ side_order_sql sides.width sides.table sides.second order) }
{
    let pairs = pair_order(alloc, sides)?;
    match order {
        None => format!(in alloc; " ORDER BY {pairs}"),
        Some(column) => {
            let first = side_name(alloc, sides, column)?;
            format!(in alloc; " ORDER BY {first}, {pairs}")
        }
    }
}

fn pair(alloc: Global, sides: Sides, left: u8, right: u8) -> Result<String, AllocError>
    ensures { IfOk result (λ t. string_bytes t ≡ pair_sql sides.width sides.table sides.second left right) }
{
    let (table, second) = (sides.table, sides.second);
    let left = side_name(alloc, sides, left)?;
    let right = side_name(alloc, sides, right)?;
    format!(in alloc; " FROM t{table} JOIN t{second} ON {left} = {right}")
}

/// The SELECT from a table of so many columns and a second one.
pub(crate) fn join_sql(
    alloc: Global,
    width: usize,
    table: u8,
    selection: &Selection,
    join: &Join,
) -> Result<String, AllocError>
    ensures { IfOk result (λ t. string_bytes t ≡ join_sql width table selection.now join.now) }
{
    let second = join.table;
    let sides = Sides {
        width,
        table,
        second,
    };
    let listed = side_names(alloc, sides, selection.columns.as_slice())?;
    let pair = pair(alloc, sides, join.left, join.right)?;
    let met = side_where(alloc, sides, selection.conditions.as_slice())?;
    let order = side_order(alloc, sides, selection.order)?;
    let limit = limit_sql(alloc, selection.limit)?;
    format!(in alloc; "SELECT {listed}{pair}{met}{order}{limit}")
}
