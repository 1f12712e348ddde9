//! Rows of a table that pins may hold.

ghost use Rattle.std.specs.Prelude.{◌≡◌, [], None, IfOk, OnErr};
ghost use Rattle.okws_plan.specs.Meaning.{mean_on};
ghost use Rattle.okws_plan.specs.Rules.{join_of};
ghost use Rattle.row_search.specs.Places.{rows_of};

use crate::rows::TableRows;
use okws_base::value::Value;
use okws_plan::configuration::Column;
use okws_plan::statement::{Action, Answer};
use row_search::steps::Steps;
use std::alloc::{AllocError, Global};
use std::marker::Model;
use std::sync::Arc;
use std::sync::ledger::Ledger;

/// A version of the rows of a table. While a pin holds it, it stays as it is: a write makes a new one,
/// and takes its memory before it changes anything. One that no pin holds is written in place.
#[derive(Drop)]
pub struct SharedRows {
    rows: Arc<TableRows, Global>,
}

impl Model for SharedRows {
    ghost use Rattle.std.specs.Arc.{arc_value};
    ghost use Rattle.row_search.specs.Places.{Indexed};

    ghost Value = { Indexed };

    ghost view = { λ a. arc_value a.rows };
}

impl SharedRows {
    /// A first version.
    pub fn new(alloc: Global, rows: TableRows) -> Result<Self, AllocError>
        ensures { IfOk result (λ r. r ≡ rows) }
    {
        Ok(SharedRows {
            rows: Arc::new(alloc, rows)?,
        })
    }

    /// The rows.
    pub fn read(&self) -> &TableRows
        ensures { result.now ≡ self.now }
    {
        &self.rows
    }

    /// Another holder of this version.
    pub fn hold(&self) -> Result<Self, AllocError>
        ensures { IfOk result (λ r. r ≡ self.now) }
    {
        Ok(SharedRows {
            rows: self.rows.clone()?,
        })
    }

    /// Does what an action that joins no table means, and counts a step for each row that is tested to find its hits;
    /// where memory is refused, the rows are as they were.
    pub fn run<L: Ledger>(
        &mut self,
        alloc: Global,
        columns: &[Column],
        action: &Action,
        args: &[Value],
        steps: &mut Steps<L>,
    ) -> Result<Answer, AllocError>
        requires { join_of action.now ≡ None }
        ensures ok { IfOk result (λ answer. (answer, rows_of self.new.entries) ≡ mean_on columns.now [] action.now args.now (rows_of self.old.entries)) }
        ensures err { OnErr result (self.new ≡ self.old) }
    {
        if let Action::Select(selection) = action {
            return self.read().select(alloc, args, selection, steps);
        }
        self.write(alloc, columns, action, args, steps)
    }

    fn write<L: Ledger>(
        &mut self,
        alloc: Global,
        columns: &[Column],
        action: &Action,
        args: &[Value],
        steps: &mut Steps<L>,
    ) -> Result<Answer, AllocError>
        requires { join_of action.now ≡ None }
        ensures ok { IfOk result (λ answer. (answer, rows_of self.new.entries) ≡ mean_on columns.now [] action.now args.now (rows_of self.old.entries)) }
        ensures err { OnErr result (self.new ≡ self.old) }
    {
        if let Some(rows) = Arc::get_mut(&mut self.rows) {
            return rows.run(alloc, columns, action, args, steps);
        }
        self.write_copy(alloc, columns, action, args, steps)
    }

    // Makes a new version.
    #[inline(never)]
    fn write_copy<L: Ledger>(
        &mut self,
        alloc: Global,
        columns: &[Column],
        action: &Action,
        args: &[Value],
        steps: &mut Steps<L>,
    ) -> Result<Answer, AllocError>
        requires { join_of action.now ≡ None }
        ensures ok { IfOk result (λ answer. (answer, rows_of self.new.entries) ≡ mean_on columns.now [] action.now args.now (rows_of self.old.entries)) }
        ensures err { OnErr result (self.new ≡ self.old) }
    {
        let mut rows = self.rows.copy(alloc)?;
        let answer = rows.run(alloc, columns, action, args, steps)?;
        self.rows = Arc::new(alloc, rows)?;
        Ok(answer)
    }
}
