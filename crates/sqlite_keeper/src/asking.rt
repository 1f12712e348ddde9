//! Statements, handed to the database.

ghost use Rattle.std.specs.Prelude.{◌≡◌, ◌++◌, false, true, All, IfOk, IfErr, IsTrue, Ok, Err, List, map, length, string_bytes, ◌⊎◌};
ghost use Rattle.sqlite.specs.State.{HasCleanDisk};
ghost use Rattle.sqlite.specs.Held.{state};
ghost use Rattle.sqlite.specs.Values.{bound};
ghost use Rattle.okws_base.specs.declared.value.Value.{Value as Field};
ghost use Rattle.okws_outer.specs.Keeping.{is_select, MayAnswer};
ghost use Rattle.sqlite_keeper.specs.Values.{kinds_of, values_of};
ghost use Rattle.sqlite_keeper.specs.Texts.{sql_of};
ghost use Rattle.sqlite_keeper.specs.Asking.{Lists, IsUnlisted, IsUnasked, WritesAs, ActsAs, IsWide};
ghost use Rattle.sqlite_keeper.specs.Pinning.{pinned_answer};

use crate::refusal::{answer_to, reason};
use crate::rows::{kinds_of, read_rows};
use crate::texts::sql_of;
use crate::values::values_of;
use okws_base::items::Items;
use okws_base::value::{Kind, Row, Value};
use okws_outer::keeper::RunError;
use okws_outer::pinned::Listed;
use okws_plan::configuration::Column;
use okws_plan::statement::{Action, Answer};
use sqlite::types::ValueRef;
use sqlite::{Alter, Connection};
use std::alloc::Global;

/// Hands a query to the database, and reads the rows that it shows.
fn list<S: Alter>(
    alloc: Global,
    conn: &mut Connection<S>,
    sql: &str,
    values: &[ValueRef<'_>],
    kinds: &[Kind],
) -> Result<Items<Row>, RunError>
    requires idle { conn.old.in_transaction ≡ false }
    requires settled { IsTrue (state S.Store conn.old).is_open → (state S.Store conn.old).now ≡ (state S.Store conn.old).committed }
    ensures ok { HasCleanDisk (state S.Store conn.new) → IfOk result (Lists S.Store sql.now (bound values.now) conn.old conn.new) }
    ensures wide { IfOk result (λ rows. All (λ row. length row ≡ length kinds.now) rows) }
    ensures err { HasCleanDisk (state S.Store conn.new) → IfErr result (IsUnlisted S.Store sql.now (bound values.now) kinds.now conn.old conn.new) }
    ensures limit { conn.new.step_limit ≡ conn.old.step_limit }
{
    match conn.query_all(sql, values) {
        Ok(shown) => read_rows(alloc, kinds, shown.as_slice()),
        Err(error) => Err(reason(error)),
    }
}

/// Hands a write to the database, and answers by what it tells.
fn write<S: Alter>(
    conn: &mut Connection<S>,
    sql: &str,
    values: &[ValueRef<'_>],
    columns: &[Column],
    action: &Action,
) -> Result<Answer, RunError>
    requires idle { conn.old.in_transaction ≡ false }
    requires settled { IsTrue (state S.Store conn.old).is_open → (state S.Store conn.old).now ≡ (state S.Store conn.old).committed }
    requires writes { is_select action.now ≡ false }
    ensures told { HasCleanDisk (state S.Store conn.new) → WritesAs S.Store sql.now (bound values.now) columns.now action.now conn.old conn.new result }
    ensures may { IfOk result (MayAnswer columns.now action.now) }
    ensures limit { conn.new.step_limit ≡ conn.old.step_limit }
{
    let told = conn.execute(sql, values);
    answer_to(columns, action, told)
}

/// The rows of a SELECT at a table of these columns, and a second one of those others, if it joins one.
pub(crate) fn listed<S: Alter>(
    alloc: Global,
    conn: &mut Connection<S>,
    columns: &[Column],
    others: &[Column],
    table: u8,
    action: &Action,
    listed: &[u8],
    args: &[Value],
) -> Result<Items<Row>, RunError>
    requires idle { conn.old.in_transaction ≡ false }
    requires settled { IsTrue (state S.Store conn.old).is_open → (state S.Store conn.old).now ≡ (state S.Store conn.old).committed }
    ensures ok { HasCleanDisk (state S.Store conn.new) → IfOk result (Lists S.Store (sql_of (length columns.now) table action.now) (values_of args.now action.now) conn.old conn.new) }
    ensures wide { IfOk result (λ rows. All (λ row. length row ≡ length listed.now) rows) }
    ensures err { HasCleanDisk (state S.Store conn.new) → IfErr result (λ why. IsUnasked S.Store conn.old conn.new why ⊎ IsUnlisted S.Store (sql_of (length columns.now) table action.now) (values_of args.now action.now) (kinds_of (columns.now ++ others.now) listed.now) conn.old conn.new why) }
    ensures limit { conn.new.step_limit ≡ conn.old.step_limit }
{
    let sql = sql_of(alloc, columns.len(), table, action)?;
    let values = values_of(alloc, args, action)?;
    let kinds = kinds_of(alloc, columns, others, listed)?;
    list(alloc, conn, &sql, &values, &kinds)
}

/// The answer of a write at a table of these columns.
fn written<S: Alter>(
    alloc: Global,
    conn: &mut Connection<S>,
    columns: &[Column],
    table: u8,
    action: &Action,
    args: &[Value],
) -> Result<Answer, RunError>
    requires idle { conn.old.in_transaction ≡ false }
    requires settled { IsTrue (state S.Store conn.old).is_open → (state S.Store conn.old).now ≡ (state S.Store conn.old).committed }
    requires writes { is_select action.now ≡ false }
    ensures told { HasCleanDisk (state S.Store conn.new) → WritesAs S.Store (sql_of (length columns.now) table action.now) (values_of args.now action.now) columns.now action.now conn.old conn.new result }
    ensures may { IfOk result (MayAnswer columns.now action.now) }
    ensures limit { conn.new.step_limit ≡ conn.old.step_limit }
{
    let sql = sql_of(alloc, columns.len(), table, action)?;
    let values = values_of(alloc, args, action)?;
    write(conn, &sql, &values, columns, action)
}

fn acted<S: Alter>(
    alloc: Global,
    conn: &mut Connection<S>,
    columns: &[Column],
    others: &[Column],
    table: u8,
    action: &Action,
    args: &[Value],
) -> Result<Answer, RunError>
    requires idle { conn.old.in_transaction ≡ false }
    requires settled { IsTrue (state S.Store conn.old).is_open → (state S.Store conn.old).now ≡ (state S.Store conn.old).committed }
    ensures acts { HasCleanDisk (state S.Store conn.new) → ActsAs S.Store columns.now others.now table action.now args.now conn.old conn.new result }
    ensures may { IfOk result (MayAnswer columns.now action.now) }
    ensures wide { IfOk result IsWide }
    ensures limit { conn.new.step_limit ≡ conn.old.step_limit }
{
    match action {
        Action::Select(selection) => {
            let names = selection.columns.as_slice();
            match listed(alloc, conn, columns, others, table, action, names, args) {
                Ok(rows) => Ok(Answer::Rows {
                    columns: names.len(),
                    rows,
                }),
                Err(why) => Err(why),
            }
        }
        Action::Insert { values: _ }
        | Action::Update {
            assignments: _,
            conditions: _,
        }
        | Action::Delete { conditions: _ } => written(alloc, conn, columns, table, action, args),
    }
}

/// Hands an action at a table of these columns, and a second one of those others, if it joins one, to the database, and answers by what it tells.
pub(crate) fn act<S: Alter>(
    alloc: Global,
    conn: &mut Connection<S>,
    columns: &[Column],
    others: &[Column],
    table: u8,
    action: &Action,
    args: &[Value],
) -> Result<Answer, RunError>
    ensures acts { HasCleanDisk (state S.Store conn.new) → ActsAs S.Store columns.now others.now table action.now args.now conn.old conn.new result }
    ensures may { IfOk result (MayAnswer columns.now action.now) }
    ensures wide { IfOk result IsWide }
    ensures limit { conn.new.step_limit ≡ conn.old.step_limit }
{
    if !conn.is_autocommit() {
        return Err(RunError::Failed);
    }
    acted(alloc, conn, columns, others, table, action, args)
}

/// The same of a SELECT, whose answer is pinned.
pub(crate) fn pinned<S: Alter>(
    alloc: Global,
    conn: &mut Connection<S>,
    columns: &[Column],
    others: &[Column],
    table: u8,
    action: &Action,
    args: &[Value],
) -> Result<Listed, RunError>
    requires select { is_select action.now ≡ true }
    ensures pinned { HasCleanDisk (state S.Store conn.new) → IfOk result (λ p. ActsAs S.Store columns.now others.now table action.now args.now conn.old conn.new (Ok (pinned_answer p))) }
    ensures unpinned { HasCleanDisk (state S.Store conn.new) → IfErr result (λ why. ActsAs S.Store columns.now others.now table action.now args.now conn.old conn.new (Err why)) }
    ensures may { IfOk result (λ p. MayAnswer columns.now action.now (pinned_answer p)) }
    ensures limit { conn.new.step_limit ≡ conn.old.step_limit }
{
    match act(alloc, conn, columns, others, table, action, args) {
        Ok(Answer::Rows { columns, rows }) => Ok(Listed::new(columns, rows)),
        Ok(Answer::Changed(_)) => Err(RunError::Failed),
        Ok(Answer::Duplicate) => Err(RunError::Failed),
        Err(why) => Err(why),
    }
}
