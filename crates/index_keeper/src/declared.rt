//! Which columns have an index.

ghost use Rattle.std.specs.Prelude.{◌≡◌, ◌+◌, ◌||◌, ◌&&◌, ◌==◌, IfOk, option_map, slice_get};
ghost use Rattle.std.specs.List.{list_any, find};
ghost use Rattle.okws_plan.specs.Meaning.{key_place};
ghost use Rattle.index_keeper.specs.Indexed.{conditions_of, compares, joins_by, joins_at, is_key, is_wanted, wanted};
ghost use Rattle.okws_plan.specs.Rules.{join_of};
ghost use Rattle.row_search.specs.Places.{is_equality};

use okws_plan::configuration::{Column, Query, Table};
use okws_plan::meaning::columns_at;
use okws_plan::statement::{Action, Comparison, Condition, Join};
use std::alloc::{AllocError, Global};

/// The conditions of an action; an INSERT has none.
pub fn conditions(action: &Action) -> &[Condition]
    ensures { result.now ≡ conditions_of action.now }
{
    match action {
        Action::Select(selection) => selection.conditions.as_slice(),
        Action::Insert { values: _ } => &[],
        Action::Update {
            assignments: _,
            conditions,
        } => conditions.as_slice(),
        Action::Delete { conditions } => conditions.as_slice(),
    }
}

fn asks(condition: &Condition, column: usize) -> bool
    ensures { result ≡ (is_equality condition.now.comparison && (condition.now.column == column)) }
{
    condition.comparison == Comparison::Equal && condition.column as usize == column
}

fn asks_any(conditions: &[Condition], column: usize) -> bool
    ensures { result ≡ list_any (λ k. is_equality k.comparison && (k.column == column)) conditions.now }
{
    conditions.iter().any(|condition| asks(condition, column))
}

fn asked_by(query: &Query, table: usize, column: usize) -> bool
    ensures { result ≡ compares table column query.now }
{
    let statement = &query.statement;
    statement.table as usize == table && asks_any(conditions(&statement.action), column)
}

fn asked(queries: &[Query], table: usize, column: usize) -> bool
    ensures { result ≡ list_any (compares table column) queries.now }
{
    queries.iter().any(|query| asked_by(query, table, column))
}

/// The join of a SELECT from two tables.
pub fn join_in(action: &Action) -> Option<&Join>
    ensures { option_map (λ join. join.now) result ≡ join_of action.now }
{
    match action {
        Action::Select(selection) => selection.join.as_ref(),
        Action::Insert { values: _ } => None,
        Action::Update {
            assignments: _,
            conditions: _,
        } => None,
        Action::Delete { conditions: _ } => None,
    }
}

// Whether a column of joined rows is this one of the second table.
fn is_side(width: usize, side: u8, column: usize) -> bool
    ensures { result ≡ (side == width + column) }
{
    side as usize >= width && side as usize - width == column
}

fn joins(join: Option<&Join>, width: usize, table: usize, column: usize) -> bool
    ensures { result ≡ joins_by width table column (option_map (λ join. join.now) join.entry) }
{
    match join {
        None => false,
        Some(join) => {
            join.table as usize == table
                && (is_side(width, join.left, column) || is_side(width, join.right, column))
        }
    }
}

fn joined_by(tables: &[Table], query: &Query, table: usize, column: usize) -> bool
    ensures { result ≡ joins_at tables.now table column query.now }
{
    let width = columns_at(tables, query.statement.table as usize).len();
    joins(join_in(&query.statement.action), width, table, column)
}

fn is_joined(tables: &[Table], queries: &[Query], table: usize, column: usize) -> bool
    ensures { result ≡ list_any (joins_at tables.now table column) queries.now }
{
    queries
        .iter()
        .any(|query| joined_by(tables, query, table, column))
}

/// The place of the KEY column, if there is one.
pub fn key_column(columns: &[Column]) -> Option<usize>
    ensures { result ≡ key_place columns.now }
{
    columns.iter().position(|column| column.key)
}

fn key_at(columns: &[Column], column: usize) -> bool
    ensures { result ≡ is_key (slice_get columns.now column) }
{
    match columns.get(column) {
        None => false,
        Some(column) => column.key,
    }
}

fn wants(
    tables: &[Table],
    queries: &[Query],
    table: usize,
    columns: &[Column],
    column: usize,
) -> bool
    ensures { result ≡ is_wanted tables.now queries.now table columns.now column }
{
    let key = key_at(columns, column);
    key || is_named(tables, queries, table, column)
}

fn is_named(tables: &[Table], queries: &[Query], table: usize, column: usize) -> bool
    ensures { result ≡ (list_any (compares table column) queries.now || list_any (joins_at tables.now table column) queries.now) }
{
    let asked = asked(queries, table, column);
    asked || is_joined(tables, queries, table, column)
}

/// The columns of a table that have an index: the KEY, and each that some query compares by `=` or
/// joins the table by.
pub fn wanted_columns(
    alloc: Global,
    tables: &[Table],
    queries: &[Query],
    table: usize,
    columns: &[Column],
) -> Result<Vec<u8>, AllocError>
    ensures { IfOk result (λ v. v.items ≡ wanted tables.now queries.now table columns.now) }
{
    let mut out = Vec::new(alloc);
    for column in 0..columns.len().min(256) {
        if wants(tables, queries, table, columns, column) {
            out.push(column as u8)?;
        }
    }
    Ok(out)
}

/// The number of a column, where it has an index.
pub fn own_column(columns: &[u8], column: usize) -> Option<u8>
    ensures { result ≡ find (λ d. d == column) columns.now }
{
    columns.iter().copied().find(|own| *own as usize == column)
}
