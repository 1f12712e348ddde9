//! The SQL of statements and of tables. It names tables and columns by their numbers, so a statement's text
//! depends on its form alone; each value is handed apart. The text that makes a table has their names beside the
//! numbers, so that it tells them apart.

ghost use Rattle.std.specs.Prelude.{◌≡◌, IfOk, string_bytes, length, codes};
ghost use Rattle.std.specs.List.{join_by};
ghost use Rattle.sqlite_keeper.specs.Texts.{table_name, column_name, comparison_sql, condition_sql, where_sql, assignment_sql, order_sql, limit_sql, select_sql, selection_sql, insert_sql, update_sql, delete_sql, sql_of, kind_sql, key_sql, label_sql, columns_sql, create_sql};

use crate::joins::join_sql;
use okws_base::value::Kind;
use okws_plan::configuration::{Column, Table};
use okws_plan::statement::{Action, Assignment, Comparison, Condition, Selection};
use std::alloc::{AllocError, Global};
use std::str;

/// The name of a table.
pub(crate) fn table_name(alloc: Global, table: usize) -> Result<String, AllocError>
    ensures { IfOk result (λ t. string_bytes t ≡ table_name table) }
{
    format!(in alloc; "t{table}")
}

pub(crate) fn comparison_sql(comparison: Comparison) -> &'static str
    ensures { result.now ≡ comparison_sql comparison }
{
    match comparison {
        Comparison::Equal => " = ?",
        Comparison::Differs => " <> ?",
        Comparison::Below => " < ?",
        Comparison::AtMost => " <= ?",
        Comparison::Above => " > ?",
        Comparison::AtLeast => " >= ?",
    }
}

fn condition_sql(alloc: Global, condition: &Condition) -> Result<String, AllocError>
    ensures { IfOk result (λ t. string_bytes t ≡ condition_sql condition.now) }
{
    let column = condition.column;
    let compared = comparison_sql(condition.comparison);
    format!(in alloc; "c{column}{compared}")
}

fn conditions_sql(alloc: Global, conditions: &[Condition]) -> Result<String, AllocError>
    ensures { IfOk result (λ t. string_bytes t ≡ join_by condition_sql (codes " AND ") conditions.now) }
{
    let mut parts = Vec::new(alloc);
    for condition in conditions {
        parts.push(condition_sql(alloc, condition)?)?;
    }
    parts.join(alloc, " AND ")
}

#[tactic(auto, using(crate::proofs::Joined::where_met))]
fn where_sql(alloc: Global, conditions: &[Condition]) -> Result<String, AllocError>
    ensures { IfOk result (λ t. string_bytes t ≡ where_sql conditions.now) }
{
    if conditions.is_empty() {
        return Ok(String::new(alloc));
    }
    let all = conditions_sql(alloc, conditions)?;
    format!(in alloc; " WHERE {all}")
}

fn column_name(alloc: Global, column: u8) -> Result<String, AllocError>
    ensures { IfOk result (λ t. string_bytes t ≡ column_name column) }
{
    format!(in alloc; "c{column}")
}

fn listed_sql(alloc: Global, columns: &[u8]) -> Result<String, AllocError>
    ensures { IfOk result (λ t. string_bytes t ≡ join_by column_name (codes ", ") columns.now) }
{
    let mut parts = Vec::new(alloc);
    for column in columns {
        parts.push(column_name(alloc, *column)?)?;
    }
    parts.join(alloc, ", ")
}

fn assignment_sql(alloc: Global, assignment: &Assignment) -> Result<String, AllocError>
    ensures { IfOk result (λ t. string_bytes t ≡ assignment_sql assignment.now) }
{
    let column = assignment.column;
    format!(in alloc; "c{column} = ?")
}

fn assigned_sql(alloc: Global, assignments: &[Assignment]) -> Result<String, AllocError>
    ensures { IfOk result (λ t. string_bytes t ≡ join_by assignment_sql (codes ", ") assignments.now) }
{
    let mut parts = Vec::new(alloc);
    for assignment in assignments {
        parts.push(assignment_sql(alloc, assignment)?)?;
    }
    parts.join(alloc, ", ")
}

fn order_sql(alloc: Global, order: Option<u8>) -> Result<String, AllocError>
    ensures { IfOk result (λ t. string_bytes t ≡ order_sql order) }
{
    match order {
        None => String::from_str(alloc, " ORDER BY id"),
        Some(column) => format!(in alloc; " ORDER BY c{column}, id"),
    }
}

pub(crate) fn limit_sql(alloc: Global, limit: Option<u32>) -> Result<String, AllocError>
    ensures { IfOk result (λ t. string_bytes t ≡ limit_sql limit) }
{
    match limit {
        None => Ok(String::new(alloc)),
        Some(most) => format!(in alloc; " LIMIT {most}"),
    }
}

fn select_sql(alloc: Global, table: u8, selection: &Selection) -> Result<String, AllocError>
    ensures { IfOk result (λ t. string_bytes t ≡ select_sql table selection.now) }
{
    let listed = listed_sql(alloc, selection.columns.as_slice())?;
    let met = where_sql(alloc, selection.conditions.as_slice())?;
    let order = order_sql(alloc, selection.order)?;
    let limit = limit_sql(alloc, selection.limit)?;
    format!(in alloc; "SELECT {listed} FROM t{table}{met}{order}{limit}")
}

/// The INSERT of a row of so many values.
pub(crate) fn insert_sql(alloc: Global, table: usize, values: usize) -> Result<String, AllocError>
    ensures { IfOk result (λ t. string_bytes t ≡ insert_sql table values) }
{
    let places = ", ?".repeat(alloc, values)?;
    format!(in alloc; "INSERT INTO t{table} VALUES (NULL{places})")
}

fn update_sql(
    alloc: Global,
    table: u8,
    assignments: &[Assignment],
    conditions: &[Condition],
) -> Result<String, AllocError>
    ensures { IfOk result (λ t. string_bytes t ≡ update_sql table assignments.now conditions.now) }
{
    let assigned = assigned_sql(alloc, assignments)?;
    let met = where_sql(alloc, conditions)?;
    format!(in alloc; "UPDATE t{table} SET {assigned}{met}")
}

fn delete_sql(alloc: Global, table: u8, conditions: &[Condition]) -> Result<String, AllocError>
    ensures { IfOk result (λ t. string_bytes t ≡ delete_sql table conditions.now) }
{
    let met = where_sql(alloc, conditions)?;
    format!(in alloc; "DELETE FROM t{table}{met}")
}

fn selection_sql(
    alloc: Global,
    width: usize,
    table: u8,
    selection: &Selection,
) -> Result<String, AllocError>
    ensures { IfOk result (λ t. string_bytes t ≡ selection_sql width table selection.now selection.now.join) }
{
    match &selection.join {
        None => select_sql(alloc, table, selection),
        Some(join) => join_sql(alloc, width, table, selection, join),
    }
}

/// The SQL of an action at a table of so many columns.
pub(crate) fn sql_of(
    alloc: Global,
    width: usize,
    table: u8,
    action: &Action,
) -> Result<String, AllocError>
    ensures { IfOk result (λ t. string_bytes t ≡ sql_of width table action.now) }
{
    match action {
        Action::Select(selection) => selection_sql(alloc, width, table, selection),
        Action::Insert { values } => insert_sql(alloc, table as usize, values.as_slice().len()),
        Action::Update {
            assignments,
            conditions,
        } => update_sql(alloc, table, assignments.as_slice(), conditions.as_slice()),
        Action::Delete { conditions } => delete_sql(alloc, table, conditions.as_slice()),
    }
}

fn kind_sql(kind: Kind) -> &'static str
    ensures { result.now ≡ kind_sql kind }
{
    match kind {
        Kind::Int => " INTEGER NOT NULL",
        Kind::Text => " TEXT NOT NULL",
        Kind::Bytes => " BLOB NOT NULL",
    }
}

fn key_sql(key: bool) -> &'static str
    ensures { result.now ≡ key_sql key }
{
    if key { " UNIQUE" } else { "" }
}

/// A name, as a comment.
#[tactic(auto, using(crate::proofs::Labels::utf8_tests))]
fn label_sql(alloc: Global, name: &[u8]) -> Result<String, AllocError>
    ensures { IfOk result (λ t. string_bytes t ≡ label_sql name.now) }
{
    match str::from_utf8(name) {
        Ok(text) => format!(in alloc; " /* {text} */"),
        Err(_) => Ok(String::new(alloc)),
    }
}

fn columns_sql(alloc: Global, columns: &[Column]) -> Result<String, AllocError>
    ensures { IfOk result (λ t. string_bytes t ≡ columns_sql 0 columns.now) }
{
    let mut all = String::new(alloc);
    for at in 0..columns.len() {
        let kind = kind_sql(columns[at].kind);
        let key = key_sql(columns[at].key);
        let label = label_sql(alloc, columns[at].name.as_slice())?;
        let one = format!(in alloc; ", c{at}{label}{kind}{key}")?;
        all.push_str(&one)?;
    }
    Ok(all)
}

/// The CREATE of a table.
pub(crate) fn create_sql(alloc: Global, at: usize, table: &Table) -> Result<String, AllocError>
    ensures { IfOk result (λ t. string_bytes t ≡ create_sql at table.now) }
{
    let label = label_sql(alloc, table.name.as_slice())?;
    let all = columns_sql(alloc, table.columns.as_slice())?;
    format!(in alloc;
        "CREATE TABLE t{at}{label} (id INTEGER PRIMARY KEY AUTOINCREMENT{all}) STRICT"
    )
}
