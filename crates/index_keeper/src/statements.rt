//! Statements on the rows of one table.

ghost use Rattle.std.specs.Prelude.{◌≡◌, ◌++◌, ◌∷◌, [], None, not, IfOk, OnOk, OnErr, length, map, if◌then◌else◌};
ghost use Rattle.okws_plan.specs.declared.statement.Answer.TheVariants.{Changed, Duplicate};
ghost use Rattle.okws_plan.specs.Meaning.{mean_on, selection_answer, is_taken, hits, misses, updated, inserted, row_of};
ghost use Rattle.okws_plan.specs.Rules.{join_of};
ghost use Rattle.row_search.specs.Places.{rows_of};

use crate::declared::key_column;
use crate::rows::TableRows;
use okws_base::value::{Row, Value};
use okws_plan::configuration::Column;
use okws_plan::statement::{Action, Answer, Assignment, Condition, Operand, Selection};
use row_search::answering::answer;
use row_search::editing::{operand_of, replacements, row_made};
use row_search::steps::Steps;
use std::alloc::{AllocError, Global};
use std::sync::ledger::Ledger;

impl TableRows {
    /// Does what an action that joins no table means, and counts a step for each row that is tested to find its hits;
    /// where memory is refused, the rows are as they were.
    pub fn run<L: Ledger>(
        &mut self,
        alloc: Global,
        columns: &[Column],
        action: &Action,
        args: &[Value],
        steps: &mut Steps<L>,
    ) -> Result<Answer, AllocError>
        requires { join_of action.now ≡ None }
        ensures columns { self.new.columns ≡ self.old.columns }
        ensures ok { IfOk result (λ answer. (answer, rows_of self.new.entries) ≡ mean_on columns.now [] action.now args.now (rows_of self.old.entries)) }
        ensures err { OnErr result (self.new ≡ self.old) }
    {
        match action {
            Action::Select(selection) => self.select(alloc, args, selection, steps),
            Action::Insert { values } => self.insert(alloc, columns, values.as_slice(), args),
            Action::Update {
                assignments,
                conditions,
            } => {
                let assignments = assignments.as_slice();
                self.update(alloc, args, assignments, conditions.as_slice(), steps)
            }
            Action::Delete { conditions } => {
                self.delete(alloc, args, conditions.as_slice(), steps)
            }
        }
    }

    /// What a SELECT answers. A step is counted for each row that is tested.
    pub fn select<L: Ledger>(
        &self,
        alloc: Global,
        args: &[Value],
        selection: &Selection,
        steps: &mut Steps<L>,
    ) -> Result<Answer, AllocError>
        ensures { IfOk result (λ answer. answer ≡ selection_answer args.now selection.now (rows_of self.now.entries)) }
    {
        let found = self.found(alloc, args, selection.conditions.as_slice(), steps)?;
        answer(alloc, selection, found)
    }

    #[inline(always)]
    fn insert(
        &mut self,
        alloc: Global,
        columns: &[Column],
        values: &[Operand],
        args: &[Value],
    ) -> Result<Answer, AllocError>
        ensures columns { self.new.columns ≡ self.old.columns }
        ensures ok { IfOk result (λ answer. (answer, rows_of self.new.entries) ≡ inserted (is_taken columns.now (rows_of self.old.entries) (row_of args.now values.now)) (rows_of self.old.entries) (row_of args.now values.now)) }
        ensures err { OnErr result (self.new ≡ self.old) }
    {
        let new = row_made(alloc, args, values)?;
        let came = self.push_new(alloc, columns, new)?;
        Ok(told(came))
    }

    // Puts a row behind the others, unless one of them has its value in the KEY column, and tells whether it came.
    #[inline(always)]
    fn push_new(&mut self, alloc: Global, columns: &[Column], new: Row) -> Result<bool, AllocError>
        ensures columns { self.new.columns ≡ self.old.columns }
        ensures came { IfOk result (λ came. came ≡ not (is_taken columns.now (rows_of self.old.entries) new)) }
        ensures rows { IfOk result (λ came. rows_of self.new.entries ≡ (if came then rows_of self.old.entries ++ new ∷ [] else rows_of self.old.entries)) }
        ensures err { OnErr result (self.new ≡ self.old) }
    {
        match key_column(columns) {
            None => {
                self.push(alloc, new)?;
                Ok(true)
            }
            Some(key) => self.push_keyed(alloc, key, new),
        }
    }

    #[inline(always)]
    fn update<L: Ledger>(
        &mut self,
        alloc: Global,
        args: &[Value],
        assignments: &[Assignment],
        conditions: &[Condition],
        steps: &mut Steps<L>,
    ) -> Result<Answer, AllocError>
        ensures columns { self.new.columns ≡ self.old.columns }
        ensures answer { IfOk result (λ answer. answer ≡ Changed (length (hits args.now conditions.now (rows_of self.old.entries)))) }
        ensures rows { OnOk result (rows_of self.new.entries ≡ updated args.now assignments.now conditions.now (rows_of self.old.entries)) }
        ensures err { OnErr result (self.new ≡ self.old) }
    {
        let found = self.found(alloc, args, conditions, steps)?;
        if let Some((place, assignment)) = self.sole_setting(assignments, &found) {
            let value = operand_of(alloc, args, &assignment.operand)?;
            drop(found);
            self.set(place, assignment.column, value);
            return Ok(Answer::Changed(1));
        }
        let changes = replacements(alloc, args, assignments, found)?;
        let count = changes.len() as u64;
        self.change(alloc, changes)?;
        Ok(Answer::Changed(count))
    }

    #[inline(always)]
    fn delete<L: Ledger>(
        &mut self,
        alloc: Global,
        args: &[Value],
        conditions: &[Condition],
        steps: &mut Steps<L>,
    ) -> Result<Answer, AllocError>
        ensures columns { self.new.columns ≡ self.old.columns }
        ensures answer { IfOk result (λ answer. answer ≡ Changed (length (hits args.now conditions.now (rows_of self.old.entries)))) }
        ensures rows { OnOk result (rows_of self.new.entries ≡ misses args.now conditions.now (rows_of self.old.entries)) }
        ensures err { OnErr result (self.new ≡ self.old) }
    {
        if let Some(group) = self.sole_group(alloc, args, conditions)? {
            let count = self.remove_group(&group, steps);
            return Ok(Answer::Changed(count));
        }
        let changes = self.removals(alloc, args, conditions, steps)?;
        let count = changes.len() as u64;
        self.change(alloc, changes)?;
        Ok(Answer::Changed(count))
    }
}

// What an INSERT answers.
#[inline(always)]
fn told(came: bool) -> Answer
    ensures { result ≡ (if came then Changed 1 else Duplicate) }
{
    if came {
        Answer::Changed(1)
    } else {
        Answer::Duplicate
    }
}
