//! Tables with the rows that a keeper has.

ghost use Rattle.std.specs.Prelude.{◌≡◌, ◌<◌, ◌≤◌, [], Ok, Some, true, IfOk, IsErrOf, length, slice_get};
ghost use Rattle.std.specs.List.{list_all};
ghost use Rattle.okws_base.specs.declared.limit.TheConstants.{MOST_COLUMNS, MOST_TABLES};
ghost use Rattle.okws_plan.specs.Configuration.{numbered_from};
ghost use Rattle.okws_plan.specs.Meaning.{columns_of};
ghost use Rattle.okws_plan.specs.Sound.{is_sound_table};
ghost use Rattle.okws_plan.specs.declared.statement.Answer.TheVariants.{Rows};
ghost use Rattle.okws_outer.specs.Keeping.{Runs};
ghost use Rattle.okws_outer.specs.Streams.{Counts};
ghost use Rattle.store_keeper.specs.Alike.{AreAlike, bare};
ghost use Rattle.store_keeper.specs.Loading.{IsReadAt, AreRead, whole_of};

use okws_base::items::{Exact, Items};
use okws_base::value::Row;
use okws_outer::keeper::{Keeper, RunError};
use okws_plan::configuration::Table;
use okws_plan::statement::{Action, Answer, Selection, Statement};
use std::alloc::{AllocError, Global};

/// The numbers of so many columns.
fn numbers(alloc: Global, count: usize) -> Result<Vec<u8>, AllocError>
    requires { count ≤ MOST_COLUMNS }
    ensures { IfOk result (λ v. v.items ≡ numbered_from 0 count) }
{
    let mut numbers = Vec::with_capacity(alloc, count)?;
    for at in 0..count as u8 {
        numbers.push(at)?;
    }
    Ok(numbers)
}

/// The SELECT of all columns and rows of a table of so many columns.
pub fn whole(alloc: Global, table: u8, count: usize) -> Result<Statement, AllocError>
    requires { count ≤ MOST_COLUMNS }
    ensures { IfOk result (λ s. s ≡ whole_of table count) }
{
    let selection = Selection {
        join: None,
        columns: Items::of(numbers(alloc, count)?),
        conditions: Items::of(Vec::new(alloc)),
        order: None,
        limit: None,
    };
    Ok(Statement {
        table,
        parameters: Items::of(Vec::new(alloc)),
        action: Action::Select(selection),
    })
}

/// The rows that a keeper has in a table, which it was made for.
fn rows_at<K: Keeper>(
    alloc: Global,
    keeper: &mut K,
    table: u8,
    count: usize,
) -> Result<Items<Row>, RunError>
    requires count { count ≡ length (columns_of (K.tables keeper.old) table) }
    requires some { 0 < count }
    requires few { count ≤ MOST_COLUMNS }
    requires there { table < length (K.tables keeper.old) }
    ensures read { IfOk result (λ rows. Runs (K.tables keeper.old) (whole_of table count) [] (K.told keeper.old) (K.told keeper.old) (Ok (Rows count rows))) }
    ensures told { K.told keeper.new ≡ K.told keeper.old }
    ensures tables { K.tables keeper.new ≡ K.tables keeper.old }
    ensures faults { Counts (K.faults keeper.old) (K.faults keeper.new) (IsErrOf result RunError.Failed) }
{
    let statement = whole(alloc, table, count)?;
    match keeper.run(alloc, &statement, &[])? {
        Answer::Rows { columns: _, rows } => Ok(rows),
        Answer::Changed(_) | Answer::Duplicate => unreachable!(),
    }
}

/// A table with the rows that a keeper has there in place of its first ones.
#[tactic(auto, using(crate::proofs::Reading::read_asked, crate::proofs::Reading::read_unasked, crate::proofs::Reading::few_columns))]
fn read_table<K: Keeper>(
    alloc: Global,
    keeper: &mut K,
    at: usize,
    table: &Table,
) -> Result<Table, RunError>
    requires table { slice_get (K.tables keeper.old) at ≡ Some table.now }
    requires few { at < MOST_TABLES }
    requires sound { is_sound_table table.now ≡ true }
    ensures alike { IfOk result (λ t. bare t ≡ bare table.now) }
    ensures read { IfOk result (λ t. IsReadAt (K.tables keeper.old) (K.told keeper.old) at t) }
    ensures told { K.told keeper.new ≡ K.told keeper.old }
    ensures tables { K.tables keeper.new ≡ K.tables keeper.old }
    ensures faults { Counts (K.faults keeper.old) (K.faults keeper.new) (IsErrOf result RunError.Failed) }
{
    let count = table.columns.as_slice().len();
    let mut read = table.copy(alloc)?;
    if count == 0 {
        return Ok(read);
    }
    read.first = rows_at(alloc, keeper, at as u8, count)?;
    Ok(read)
}

/// The tables that a keeper was made for, with the rows that it has now as their first ones. It fails
/// where a call of the keeper does, which it counts.
pub fn read_tables<K: Keeper>(
    alloc: Global,
    keeper: &mut K,
    tables: &[Table],
) -> Result<Vec<Table>, RunError>
    requires tables { K.tables keeper.old ≡ tables.now }
    requires few { length tables.now ≤ MOST_TABLES }
    requires sound { list_all is_sound_table tables.now ≡ true }
    ensures alike { IfOk result (λ v. AreAlike v.items tables.now) }
    ensures read { IfOk result (λ v. AreRead tables.now (K.told keeper.old) 0 v.items) }
    ensures told { K.told keeper.new ≡ K.told keeper.old }
    ensures tables { K.tables keeper.new ≡ K.tables keeper.old }
    ensures faults { Counts (K.faults keeper.old) (K.faults keeper.new) (IsErrOf result RunError.Failed) }
{
    let mut read = Vec::with_capacity(alloc, tables.len())?;
    for at in 0..tables.len() {
        let table = read_table(alloc, keeper, at, &tables[at])?;
        read.push_reserved(table);
    }
    Ok(read)
}
