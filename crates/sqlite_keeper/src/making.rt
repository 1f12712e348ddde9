//! Tables, made and filled, or kept.

ghost use Rattle.std.specs.Prelude.{◌≡◌, ◌∷◌, true, false, [], OnErr, OnOk, IfOk, IfErr, IsTrue, length, map, Ok, Err};
ghost use Rattle.sqlite.specs.State.{HasCleanDisk};
ghost use Rattle.sqlite.specs.Values.{bound};
ghost use Rattle.sqlite.specs.Held.{state};
ghost use Rattle.sqlite_keeper.specs.Asking.{KeepsRows};
ghost use Rattle.sqlite.specs.declared.types.Value.TheVariants as sql;
ghost use Rattle.sqlite_keeper.specs.Texts.{create_sql, table_name};
ghost use Rattle.sqlite_keeper.specs.Making.{Steps, Hands, Inserts, InTurn, Creates, IsSettled, Asks, Prepares, IsMade, IsUnmade, made_by};

use crate::refusal::make_reason;
use crate::texts::{create_sql, insert_sql, table_name};
use crate::values::row_values;
use okws_base::value::Row;
use okws_outer::error::MakeError;
use okws_plan::configuration::Table;
use sqlite::types::ValueRef;
use sqlite::{Alter, Connection, Row as Shown, Transaction, params};
use std::alloc::Global;

const SCHEMA: &str = "SELECT sql FROM sqlite_schema WHERE type = 'table' AND name = ?";

/// Hands a statement to the database, inside a transaction.
fn hand<S: Alter>(
    tx: &mut Transaction<'_, S>,
    sql: &str,
    values: &[ValueRef<'_>],
) -> Result<(), MakeError>
    requires inside { HasCleanDisk (state S.Store tx.old.conn.now) → tx.old.conn.now.in_transaction ≡ true }
    ensures same_reference { tx.new.conn.ghost_name ≡ tx.old.conn.ghost_name }
    ensures steps { Steps S.Store tx.old.conn.now tx.new.conn.now result (Hands S.Store sql.now (bound values.now) tx.old.conn.now tx.new.conn.now result) }
{
    match tx.execute(sql, values) {
        Ok(_) => Ok(()),
        Err(error) => Err(make_reason(error)),
    }
}

/// Inserts a row by the INSERT of its table.
fn insert<S: Alter>(
    alloc: Global,
    tx: &mut Transaction<'_, S>,
    sql: &str,
    row: &Row,
) -> Result<(), MakeError>
    requires inside { HasCleanDisk (state S.Store tx.old.conn.now) → tx.old.conn.now.in_transaction ≡ true }
    ensures same_reference { tx.new.conn.ghost_name ≡ tx.old.conn.ghost_name }
    ensures steps { (n : _) → Steps S.Store tx.old.conn.now tx.new.conn.now result (Inserts S.Store sql.now n row.now tx.old.conn.now tx.new.conn.now result) }
{
    let values = row_values(alloc, row.as_slice())?;
    hand(tx, sql, &values)
}

/// Inserts the rows in turn, up to the first that is refused.
fn fill<S: Alter>(
    alloc: Global,
    tx: &mut Transaction<'_, S>,
    sql: &str,
    rows: &[Row],
) -> Result<(), MakeError>
    requires inside { HasCleanDisk (state S.Store tx.old.conn.now) → tx.old.conn.now.in_transaction ≡ true }
    ensures same_reference { tx.new.conn.ghost_name ≡ tx.old.conn.ghost_name }
    ensures steps { Steps S.Store tx.old.conn.now tx.new.conn.now result (InTurn (Inserts S.Store sql.now) 0 rows.now tx.old.conn.now tx.new.conn.now result) }
{
    for at in 0..rows.len() {
        insert(alloc, tx, sql, &rows[at])?;
    }
    Ok(())
}

/// Makes a table and inserts its first rows.
fn create<S: Alter>(
    alloc: Global,
    tx: &mut Transaction<'_, S>,
    at: usize,
    table: &Table,
) -> Result<(), MakeError>
    requires inside { HasCleanDisk (state S.Store tx.old.conn.now) → tx.old.conn.now.in_transaction ≡ true }
    ensures same_reference { tx.new.conn.ghost_name ≡ tx.old.conn.ghost_name }
    ensures steps { Steps S.Store tx.old.conn.now tx.new.conn.now result (Creates S.Store at table.now tx.old.conn.now tx.new.conn.now result) }
{
    let sql = create_sql(alloc, at, table)?;
    let row_sql = insert_sql(alloc, at, table.columns.as_slice().len())?;
    hand(tx, &sql, &[])?;
    fill(alloc, tx, &row_sql, table.first.as_slice())
}

/// Whether a row is one text.
fn is_text(row: &Shown, text: &str) -> bool
    ensures yes { IsTrue result → row.now ≡ sql.Text text.now ∷ [] }
    ensures no { row.now ≡ sql.Text text.now ∷ [] → IsTrue result }
{
    match row.get_ref(0) {
        Ok(ValueRef::Text(found)) => row.column_count() == 1 && found == text.as_bytes(),
        _ => false,
    }
}

/// Whether the database shows just one table, made by this text.
fn is_made_by(shown: &[Shown], text: &str) -> bool
    ensures yes { IsTrue result → shown.now ≡ made_by text.now }
    ensures no { shown.now ≡ made_by text.now → IsTrue result }
{
    shown.len() == 1 && is_text(&shown[0], text)
}

/// Makes a table that the database doesn't show, keeps one that was made by its text, and refuses others.
fn settle<S: Alter>(
    alloc: Global,
    tx: &mut Transaction<'_, S>,
    at: usize,
    table: &Table,
    sql: &str,
    shown: &[Shown],
) -> Result<(), MakeError>
    requires inside { HasCleanDisk (state S.Store tx.old.conn.now) → tx.old.conn.now.in_transaction ≡ true }
    requires text { sql.now ≡ create_sql at table.now }
    ensures same_reference { tx.new.conn.ghost_name ≡ tx.old.conn.ghost_name }
    ensures steps { Steps S.Store tx.old.conn.now tx.new.conn.now result (IsSettled S.Store at table.now shown.now tx.old.conn.now tx.new.conn.now result) }
{
    if shown.is_empty() {
        return create(alloc, tx, at, table);
    }
    if is_made_by(shown, sql) {
        return Ok(());
    }
    Err(MakeError::Failed)
}

/// Asks the database how a table was made.
fn ask<S: Alter>(
    tx: &mut Transaction<'_, S>,
    at: usize,
    name: &str,
) -> Result<Vec<Shown>, MakeError>
    requires inside { HasCleanDisk (state S.Store tx.old.conn.now) → tx.old.conn.now.in_transaction ≡ true }
    requires name { name.now ≡ table_name at }
    ensures same_reference { tx.new.conn.ghost_name ≡ tx.old.conn.ghost_name }
    ensures shown { IfOk result (λ v. Steps S.Store tx.old.conn.now tx.new.conn.now result (Asks S.Store at tx.old.conn.now tx.new.conn.now (Ok v.items))) }
    ensures refused { IfErr result (λ why. Steps S.Store tx.old.conn.now tx.new.conn.now result (Asks S.Store at tx.old.conn.now tx.new.conn.now (Err why))) }
{
    match tx.query_all(SCHEMA, params![name]) {
        Ok(shown) => Ok(shown),
        Err(error) => Err(make_reason(error)),
    }
}

fn prepare_table<S: Alter>(
    alloc: Global,
    tx: &mut Transaction<'_, S>,
    at: usize,
    table: &Table,
) -> Result<(), MakeError>
    requires inside { HasCleanDisk (state S.Store tx.old.conn.now) → tx.old.conn.now.in_transaction ≡ true }
    ensures same_reference { tx.new.conn.ghost_name ≡ tx.old.conn.ghost_name }
    ensures steps { Steps S.Store tx.old.conn.now tx.new.conn.now result (Prepares S.Store at table.now tx.old.conn.now tx.new.conn.now result) }
{
    let name = table_name(alloc, at)?;
    let sql = create_sql(alloc, at, table)?;
    let shown = ask(tx, at, &name)?;
    settle(alloc, tx, at, table, &sql, shown.as_slice())
}

/// Prepares the tables in turn, up to the first that is refused.
fn prepare_all<S: Alter>(
    alloc: Global,
    tx: &mut Transaction<'_, S>,
    tables: &[Table],
) -> Result<(), MakeError>
    requires inside { HasCleanDisk (state S.Store tx.old.conn.now) → tx.old.conn.now.in_transaction ≡ true }
    ensures same_reference { tx.new.conn.ghost_name ≡ tx.old.conn.ghost_name }
    ensures steps { Steps S.Store tx.old.conn.now tx.new.conn.now result (InTurn (Prepares S.Store) 0 tables.now tx.old.conn.now tx.new.conn.now result) }
{
    for at in 0..tables.len() {
        prepare_table(alloc, tx, at, &tables[at])?;
    }
    Ok(())
}

/// Makes and fills the tables that are not there, keeps those that were made by their very text, with the
/// names of the table and of its columns, and refuses others; all in one transaction.
pub(crate) fn prepare<S: Alter>(
    alloc: Global,
    conn: &mut Connection<S>,
    tables: &[Table],
) -> Result<(), MakeError>
    ensures made { HasCleanDisk (state S.Store conn.new) → OnOk result (IsMade S.Store tables.now conn.old conn.new) }
    ensures unmade { HasCleanDisk (state S.Store conn.new) → IfErr result (IsUnmade S.Store tables.now conn.old conn.new) }
    ensures limit { conn.new.step_limit ≡ conn.old.step_limit }
    ensures kept { HasCleanDisk (state S.Store conn.new) → OnErr result (KeepsRows (state S.Store conn.old) (state S.Store conn.new)) }
{
    if !conn.is_autocommit() {
        return Err(MakeError::Failed);
    }
    let mut tx = conn.transaction();
    prepare_all(alloc, &mut tx, tables)?;
    match tx.commit() {
        Ok(()) => Ok(()),
        Err(error) => Err(make_reason(error)),
    }
}
