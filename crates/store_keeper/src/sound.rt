//! Whether the rows of tables are sound.

ghost use Rattle.std.specs.Prelude.{◌≡◌, IfOk, Some};
ghost use Rattle.std.specs.List.{list_all};
ghost use Rattle.okws_plan.specs.Fits.{fits};
ghost use Rattle.okws_plan.specs.Meaning.{at_column, key_place};
ghost use Rattle.okws_plan.specs.Sound.{are_distinct, column_kinds, has_sound_rows, same_key, same_key_at};
ghost use Rattle.store_keeper.specs.Keys.{group_at};

use okws_base::value::{Row, Value};
use okws_plan::configuration::{Column, Table};
use row_index::{Group, at, group_of};
use std::alloc::{AllocError, Global};
use std::collections::BTreeSet;

// Whether the values have the count and the kinds of the columns.
#[tactic(auto, using(crate::proofs::Fits::fits_lengths))]
fn fit(columns: &[Column], values: &[Value]) -> bool
    ensures { result ≡ fits (column_kinds columns.now) values.now }
{
    if columns.len() != values.len() {
        return false;
    }
    for i in 0..columns.len() {
        if columns[i].kind != values[i].kind() {
            return false;
        }
    }
    true
}

// Whether each row fits the columns.
fn all_fit(columns: &[Column], rows: &[Row]) -> bool
    ensures { result ≡ list_all (λ row. fits (column_kinds columns.now) row) rows.now }
{
    rows.iter().all(|row| fit(columns, row.as_slice()))
}

// What a row's value in a column is told apart by.
fn group_in(alloc: Global, row: &[Value], column: usize) -> Result<Group, AllocError>
    ensures { IfOk result (λ g. g ≡ group_at (at_column row.now column)) }
{
    let nothing = Value::Int(0);
    group_of(alloc, 0, at(row, column, &nothing))
}

// Whether no two rows have one value in a column. Each value is sought among those above it by a set of these.
fn are_apart(alloc: Global, column: usize, rows: &[Row]) -> Result<bool, AllocError>
    ensures { IfOk result (λ apart. apart ≡ are_distinct (same_key_at (Some column)) rows.now) }
{
    let mut seen = BTreeSet::new(alloc);
    for place in 0..rows.len() {
        let group = group_in(alloc, rows[place].as_slice(), column)?;
        if !seen.insert(group)? {
            return Ok(false);
        }
    }
    Ok(true)
}

// The KEY column, if there is one.
fn key_column(columns: &[Column]) -> Option<usize>
    ensures { result ≡ key_place columns.now }
{
    columns.iter().position(|column| column.key)
}

// Whether no two rows have one KEY value.
fn have_own_keys(alloc: Global, columns: &[Column], rows: &[Row]) -> Result<bool, AllocError>
    ensures { IfOk result (λ own. own ≡ are_distinct (same_key columns.now) rows.now) }
{
    match key_column(columns) {
        None => Ok(true),
        Some(column) => are_apart(alloc, column, rows),
    }
}

// Whether the rows of a table fit its columns, and no two have one KEY value.
fn is_sound(alloc: Global, table: &Table) -> Result<bool, AllocError>
    ensures { IfOk result (λ sound. sound ≡ has_sound_rows table.now) }
{
    let columns = table.columns.as_slice();
    let rows = table.first.as_slice();
    if !all_fit(columns, rows) {
        return Ok(false);
    }
    have_own_keys(alloc, columns, rows)
}

/// Whether the rows of each table fit its columns, and no two of a table have one KEY value. It takes time in line with the rows, and the
/// logarithm of their number.
pub fn are_sound(alloc: Global, tables: &[Table]) -> Result<bool, AllocError>
    ensures { IfOk result (λ sound. sound ≡ list_all has_sound_rows tables.now) }
{
    for place in 0..tables.len() {
        if !is_sound(alloc, &tables[place])? {
            return Ok(false);
        }
    }
    Ok(true)
}
