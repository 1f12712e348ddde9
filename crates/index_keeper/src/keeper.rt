//! The keeper.

ghost use Rattle.std.specs.Prelude.{◌≡◌, ◌+◌, ◌≤◌, ◌<◌, [], true, false, List, Some, None, map, length, slice_set, option_map, IfOk, IfSome, OnOk, OnErr};
ghost use Rattle.okws_plan.specs.Fits.{fits};
ghost use Rattle.okws_plan.specs.Rules.{keeps_rules, join_of, are_apart};
ghost use Rattle.okws_plan.specs.Meaning.{mean_on, columns_of};
ghost use Rattle.okws_plan.specs.declared.configuration.Column.{Column as TableColumn};
ghost use Rattle.okws_plan.specs.declared.statement.Action.TheVariants.{Select};
ghost use Rattle.okws_plan.specs.declared.statement.Answer.TheVariants.{Rows};
ghost use Rattle.okws_outer.specs.Keeping.{is_select};
ghost use Rattle.row_search.specs.Places.{rows_of};
ghost use Rattle.index_keeper.specs.Joining.{join_rows};
ghost use Rattle.index_keeper.specs.Indexed.{hit_places, hit_tests, wanted_by};

use crate::declared::{conditions, wanted_columns};
use crate::held::HeldPin;
use crate::joining::select_joined;
use crate::pinning::IndexPin;
use crate::rows::TableRows;
use crate::shared::SharedRows;
use okws_base::items::{Exact, Items, copies};
use okws_base::value::{Row, Value};
use okws_outer::keeper::{Keeper, RunError};
use okws_outer::pinned::Listed;
use okws_plan::configuration::{Column, Query, Table};
use okws_plan::meaning::columns_at;
use okws_plan::statement::{Action, Answer, Join, Selection, Statement};
use row_search::steps::Steps;
use std::alloc::{AllocError, Global};
use std::marker::Brand;
use std::sync::ledger::{Blank, Ledger};

/// The rows of some tables, which are found by the KEY and by each column that some query compares
/// by `=`. It tells them, and no call fails. A call by such a column takes time in line with the
/// rows that have the value there, and the logarithm of the table's rows; another one in line with
/// the table's rows. A SELECT from two tables takes so much for its first table, and for each of its rows that meets the conditions so much for
/// the second. An ordered SELECT sorts its hits besides. A SELECT of one table that is pinned copies no values; the first write to its table while it is
/// pinned copies the table's rows.
pub struct IndexKeeper {
    tables: Vec<Table>,
    rows: Vec<SharedRows>,
    ghost whole: { length rows.items ≡ length tables.items },
}

impl Drop for IndexKeeper {
    fn drop(self) {
        let IndexKeeper { tables, rows } = self;
        drop(tables);
        drop(rows);
    }
}

impl IndexKeeper {
    /// A keeper for these tables, with their first rows and with indexes for these queries.
    pub fn new(alloc: Global, tables: &[Table], queries: &[Query]) -> Result<Self, AllocError>
        ensures tables { IfOk result (λ k. ⟦<IndexKeeper as Keeper>⟧.tables k ≡ tables.now) }
        ensures told { IfOk result (λ k. ⟦<IndexKeeper as Keeper>⟧.told k ≡ Some (map (λ t. t.first) tables.now)) }
        ensures faults { IfOk result (λ k. ⟦<IndexKeeper as Keeper>⟧.faults k ≡ 0) }
        ensures steady { IfOk result (λ k. ⟦<IndexKeeper as Keeper>⟧.steady k ≡ true) }
        ensures indexed { IfOk result (λ k. map (λ r. r.columns) k.rows.items ≡ wanted_by tables.now queries.now) }
    {
        Ok(IndexKeeper {
            rows: first_rows(alloc, tables, queries)?,
            tables: copies(alloc, tables)?,
        })
    }

    /// The places of a statement's hits among the rows of its table, ascending; an INSERT has none. A
    /// step is counted for each row that is tested. Nothing is told of a SELECT from two tables.
    pub fn hits<L: Ledger>(
        &self,
        alloc: Global,
        statement: &Statement,
        args: &[Value],
        steps: &mut Steps<L>,
    ) -> Result<Vec<u64>, AllocError>
        requires fits { fits statement.now.parameters args.now ≡ true }
        requires rules { keeps_rules (⟦<IndexKeeper as Keeper>⟧.tables self.now) statement.now ≡ true }
        ensures places { IfOk result (λ v. v.items ≡ hit_places self.now.rows.items statement.now.table statement.now.action args.now) }
        ensures tested { OnOk result (steps.new ≡ steps.old + hit_tests self.now.rows.items statement.now.table statement.now.action args.now) }
        ensures most { steps.new ≤ steps.old + hit_tests self.now.rows.items statement.now.table statement.now.action args.now }
    {
        let action = &statement.action;
        if let Action::Insert { values: _ } = action {
            return Ok(Vec::new(alloc));
        }
        let Some(rows) = self.rows.get(statement.table as usize) else {
            return Ok(Vec::new(alloc));
        };
        rows.read().hits(alloc, args, conditions(action), steps)
    }
}

fn first_rows(
    alloc: Global,
    tables: &[Table],
    queries: &[Query],
) -> Result<Vec<SharedRows>, AllocError>
    ensures rows { IfOk result (λ v. map (λ r. rows_of r.entries) v.items ≡ map (λ t. t.first) tables.now) }
    ensures columns { IfOk result (λ v. map (λ r. r.columns) v.items ≡ wanted_by tables.now queries.now) }
{
    let mut rows = Vec::new(alloc);
    for table in 0..tables.len() {
        let columns = columns_at(tables, table);
        let columns = wanted_columns(alloc, tables, queries, table, columns)?;
        let first = filled(alloc, columns, tables[table].first.as_slice())?;
        rows.push(SharedRows::new(alloc, first)?)?;
    }
    Ok(rows)
}

fn filled(alloc: Global, columns: Vec<u8>, first: &[Row]) -> Result<TableRows, AllocError>
    ensures columns { IfOk result (λ r. r.columns ≡ columns.items) }
    ensures rows { IfOk result (λ r. rows_of r.entries ≡ first.now) }
{
    let mut rows = TableRows::new(alloc, columns);
    for row in first {
        rows.push(alloc, row.copy(alloc)?)?;
    }
    Ok(rows)
}

// A SELECT from two tables, with its join.
fn join_of_select(action: &Action) -> Option<(&Selection, &Join)>
    ensures is { option_map (λ x. x.1.now) result ≡ join_of action.now }
    ensures select { IfSome result (λ x. action.now ≡ Select x.0.now) }
{
    match action {
        Action::Select(selection) => match &selection.join {
            None => None,
            Some(join) => Some((selection, join)),
        },
        Action::Insert { values: _ } => None,
        Action::Update {
            assignments: _,
            conditions: _,
        } => None,
        Action::Delete { conditions: _ } => None,
    }
}

// The rows that a SELECT from two tables answers, where nobody asks how many rows are tested.
fn join_on<L: Ledger>(
    tables: &[Table],
    rows: &[SharedRows],
    alloc: Global,
    statement: &Statement,
    selection: &Selection,
    join: &Join,
    args: &[Value],
    blank: Blank,
) -> Result<Vec<Row>, AllocError>
    requires name { blank.name ≡ L.name }
    requires parts { blank.parts ≡ L.parts }
    requires one { blank.parts ≡ 1 }
    requires apart { are_apart (length (columns_of tables.now statement.now.table)) join.now.left join.now.right ≡ true }
    requires first { statement.now.table < length rows.now }
    requires second { join.now.table < length rows.now }
    ensures { IfOk result (λ v. v.items ≡ join_rows tables.now (map (λ r. rows_of r.entries) rows.now) statement.now.table selection.now join.now args.now) }
{
    let mut steps = Steps::<L>::new(blank);
    let width = columns_at(tables, statement.table as usize).len();
    let first = rows[statement.table as usize].read();
    let second = rows[join.table as usize].read();
    select_joined(
        alloc, args, selection, width, join, first, second, &mut steps,
    )
}

// Runs an action at one table where nobody asks how many rows are tested.
fn run_on<L: Ledger>(
    rows: &mut SharedRows,
    alloc: Global,
    columns: &[Column],
    action: &Action,
    args: &[Value],
    blank: Blank,
) -> Result<Answer, AllocError>
    requires name { blank.name ≡ L.name }
    requires parts { blank.parts ≡ L.parts }
    requires one { blank.parts ≡ 1 }
    requires single { join_of action.now ≡ None }
    ensures ok { IfOk result (λ answer. (answer, rows_of rows.new.entries) ≡ mean_on columns.now [] action.now args.now (rows_of rows.old.entries)) }
    ensures err { OnErr result (rows.new ≡ rows.old) }
{
    let mut steps = Steps::<L>::new(blank);
    rows.run(alloc, columns, action, args, &mut steps)
}

impl Keeper for IndexKeeper {
    type Pin = IndexPin;

    ghost tables = { λ k. k.tables.items };

    ghost told = { λ k. Some (map (λ r. rows_of r.entries) k.rows.items) };

    ghost faults = { λ _. 0 };

    ghost steady = { λ _. true };

    ghost parted = { λ _. false };

    fn has_parted(&self) -> bool {
        false
    }

    fn run(
        &mut self,
        alloc: Global,
        statement: &Statement,
        args: &[Value],
    ) -> Result<Answer, RunError> {
        let action = &statement.action;
        if let Some((selection, join)) = join_of_select(action) {
            let blank = Blank::new(1);
            let (tables, rows) = (&self.tables, &self.rows);
            let found = join_on::<Brand>(
                tables, rows, alloc, statement, selection, join, args, blank,
            )?;
            return Ok(Answer::Rows {
                columns: selection.columns.as_slice().len(),
                rows: Items::of(found),
            });
        }
        let table = statement.table as usize;
        let columns = columns_at(&self.tables, table);
        let rows = &mut self.rows[table];
        let answer = run_on::<Brand>(rows, alloc, columns, action, args, Blank::new(1))?;
        Ok(answer)
    }

    fn pin(
        &mut self,
        alloc: Global,
        statement: &Statement,
        args: &[Value],
    ) -> Result<IndexPin, RunError> {
        let Action::Select(selection) = &statement.action else {
            unreachable!()
        };
        if let Some(join) = &selection.join {
            let blank = Blank::new(1);
            let (tables, rows) = (&self.tables, &self.rows);
            let found = join_on::<Brand>(
                tables, rows, alloc, statement, selection, join, args, blank,
            )?;
            let columns = selection.columns.as_slice().len();
            return Ok(IndexPin::Listed(Listed::new(columns, Items::of(found))));
        }
        let rows = &self.rows[statement.table as usize];
        let pin = HeldPin::new(alloc, rows, selection, args)?;
        Ok(IndexPin::Held(pin))
    }
}
