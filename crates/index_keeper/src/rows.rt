//! The rows of one table, with an index.

ghost use Rattle.std.specs.Prelude.{◌≡◌, ◌+◌, ◌≤◌, ◌++◌, ◌∷◌, [], ◌==◌, true, ℕ, List, not, IfOk, IfSome, OnOk, OnErr, length, map, filter, false, if◌then◌else◌, option_map, slice_set, Some, None};
ghost use Rattle.std.specs.List.Sorted.{IsStrictlySortedBy};
ghost use Rattle.std.specs.Ordering.{nat_cmp};
ghost use Rattle.std.specs.Map.{keys_of};
ghost use Rattle.okws_base.specs.declared.value.Value.{Value as Field};
ghost use Rattle.okws_plan.specs.Meaning.{nothing, meets_all, at_column, is_taken_at};
ghost use Rattle.row_index.specs.Places.{row_at};
ghost use Rattle.row_index.specs.Stands.{standing};
ghost use Rattle.row_index.specs.Few.{listed};
ghost use Rattle.row_index.specs.Index.{is_indexed, is_value};
ghost use Rattle.row_search.specs.Places.{places_where, passes_at, rows_of, tests};
ghost use Rattle.index_keeper.specs.Pinning.{AreTested};
ghost use Rattle.row_index.specs.Changes.{row_or, changed, changes_to};
ghost use Rattle.row_search.specs.Hits.{entries_of};

use crate::declared::own_column;
use okws_base::items::{Exact, copies};
use okws_base::value::{Row, Value};
use okws_plan::statement::{Assignment, Condition};
use row_index::{
    Change, Few, Group, PlacedRows, Slots, Stand, append, append_new, apply, at, remove_group,
};
use row_search::editing::{removals, sole_setting};
use row_search::finding::{
    Hit, candidates, leading_of, left_of, meets_at, met_at, places_of, scanned, sole_group,
};
use row_search::scanning::{all_places, any_has};
use row_search::steps::Steps;
use std::alloc::{AllocError, Global};
use std::marker::Model;
use std::sync::ledger::Ledger;

/// The rows of one table at their places, and the slots of the columns that have an index. Contracts see the columns, and the rows with their places.
#[derive(Drop)]
pub struct TableRows {
    columns: Vec<u8>,
    rows: PlacedRows,
    slots: Slots,
}

impl Model for TableRows {
    ghost use Rattle.row_search.specs.Places.{Indexed, IsSound};

    ghost Value = { Indexed };

    ghost view = { λ a. record { columns = a.columns.items; entries = a.rows.entries } };

    ghost invariant = { λ a. IsSound a.columns.items a.rows.entries a.rows.next a.slots };
}

impl TableRows {
    /// The places of the rows that meet the conditions, ascending. A step is counted for each row
    /// that is tested.
    pub fn hits<L: Ledger>(
        &self,
        alloc: Global,
        args: &[Value],
        conditions: &[Condition],
        steps: &mut Steps<L>,
    ) -> Result<Vec<u64>, AllocError>
        ensures places { IfOk result (λ v. v.items ≡ places_where (meets_all args.now conditions.now) self.now.entries) }
        ensures tested { OnOk result (steps.new ≡ steps.old + tests self.now.columns args.now conditions.now (rows_of self.now.entries)) }
        ensures most { steps.new ≤ steps.old + tests self.now.columns args.now conditions.now (rows_of self.now.entries) }
    {
        let found = self.found(alloc, args, conditions, steps)?;
        let hits = found.into_vec(alloc)?;
        places_of(alloc, &hits)
    }

    /// The rows that meet the conditions, at their places, ascending. A step is counted for each row
    /// that is tested.
    #[inline(always)]
    pub fn found<'a, L: Ledger>(
        &'a self,
        alloc: Global,
        args: &[Value],
        conditions: &[Condition],
        steps: &mut Steps<L>,
    ) -> Result<Few<Hit<'a>>, AllocError>
        ensures entries { IfOk result (λ v. entries_of (listed v) ≡ filter (λ e. meets_all args.now conditions.now e.1) self.now.entries) }
        ensures tested { OnOk result (steps.new ≡ steps.old + tests self.now.columns args.now conditions.now (rows_of self.now.entries)) }
        ensures most { steps.new ≤ steps.old + tests self.now.columns args.now conditions.now (rows_of self.now.entries) }
        ensures rise { IsStrictlySortedBy nat_cmp (keys_of self.now.entries) }
    {
        let Some(condition) = leading_of(&self.columns, conditions) else {
            let all = scanned(alloc, args, conditions, self.rows.stands(), steps)?;
            return Ok(Few::Many(all));
        };
        let places = candidates(alloc, args, condition, &self.slots)?;
        met_at(alloc, args, left_of(conditions), &self.rows, places, steps)
    }

    /// The places of the rows that are tested for these conditions: those that the leading one leads to,
    /// or all.
    pub fn tested(
        &self,
        alloc: Global,
        args: &[Value],
        conditions: &[Condition],
    ) -> Result<Vec<u64>, AllocError>
        ensures { IfOk result (λ v. AreTested args.now conditions.now self.now.entries v.items) }
    {
        let Some(condition) = leading_of(&self.columns, conditions) else {
            let all = all_places(alloc, self.rows.stands())?;
            return Ok(all);
        };
        let some = candidates(alloc, args, condition, &self.slots)?;
        let places = some.into_vec(alloc)?;
        Ok(places)
    }

    /// Whether there is a row at the place, and it meets the conditions.
    pub fn meets(&self, args: &[Value], conditions: &[Condition], place: u64) -> bool
        ensures { result ≡ passes_at (meets_all args.now conditions.now) (row_at self.now.entries place) }
    {
        meets_at(args, conditions, &self.rows, place)
    }

    /// No rows, with an index by each of these columns.
    pub fn new(alloc: Global, columns: Vec<u8>) -> TableRows
        ensures { result ≡ record { columns = columns.items; entries = [] } }
    {
        TableRows {
            columns,
            rows: PlacedRows::new(alloc),
            slots: Slots::new(alloc),
        }
    }

    /// Puts a row behind the others; where memory is refused, the rows are as they were.
    pub fn push(&mut self, alloc: Global, row: Row) -> Result<(), AllocError>
        ensures columns { self.new.columns ≡ self.old.columns }
        ensures rows { OnOk result (rows_of self.new.entries ≡ rows_of self.old.entries ++ row ∷ []) }
        ensures err { OnErr result (self.new ≡ self.old) }
    {
        append(alloc, &self.columns, &mut self.rows, &mut self.slots, row)
    }

    /// The value of the row at a place in a column, or `other` where there is none.
    pub fn cell<'a>(&'a self, place: u64, column: u8, other: &'a Value) -> &'a Value
        requires { other.now ≡ nothing }
        ensures { result.now ≡ at_column (row_or self.now.entries place) column }
    {
        match self.rows.get(place) {
            None => other,
            Some(row) => at(row.as_slice(), column as usize, other),
        }
    }

    /// The same rows, at places from 0 on, with the same indexes.
    pub fn copy(&self, alloc: Global) -> Result<TableRows, AllocError>
        ensures columns { IfOk result (λ r. r.columns ≡ self.now.columns) }
        ensures rows { IfOk result (λ r. rows_of r.entries ≡ rows_of self.now.entries) }
    {
        let mut copy = TableRows::new(alloc, copies(alloc, &self.columns)?);
        copy.push_all(alloc, self.rows.stands())?;
        Ok(copy)
    }

    // Puts copies of the rows that stand behind the others.
    fn push_all(&mut self, alloc: Global, stands: &[Stand]) -> Result<(), AllocError>
        ensures columns { OnOk result (self.new.columns ≡ self.old.columns) }
        ensures rows { OnOk result (rows_of self.new.entries ≡ rows_of self.old.entries ++ rows_of (standing stands.now)) }
    {
        for stand in stands {
            match stand.row.as_ref() {
                None => {}
                Some(row) => self.push(alloc, row.copy(alloc)?)?,
            }
        }
        Ok(())
    }

    /// Puts a row behind the others, unless one of them has its value in the KEY column, and tells whether it came; where
    /// memory is refused, the rows are as they were.
    #[inline(always)]
    pub fn push_keyed(&mut self, alloc: Global, key: usize, new: Row) -> Result<bool, AllocError>
        ensures columns { self.new.columns ≡ self.old.columns }
        ensures came { IfOk result (λ came. came ≡ not (is_taken_at (Some key) (rows_of self.old.entries) new)) }
        ensures rows { IfOk result (λ came. rows_of self.new.entries ≡ (if came then rows_of self.old.entries ++ new ∷ [] else rows_of self.old.entries)) }
        ensures err { OnErr result (self.new ≡ self.old) }
    {
        match own_column(&self.columns, key) {
            None => self.push_scanned(alloc, key, new),
            Some(own) => self.push_indexed(alloc, own, new),
        }
    }

    // The same, where the KEY column has no index.
    fn push_scanned(&mut self, alloc: Global, key: usize, new: Row) -> Result<bool, AllocError>
        ensures columns { self.new.columns ≡ self.old.columns }
        ensures came { IfOk result (λ came. came ≡ not (is_taken_at (Some key) (rows_of self.old.entries) new)) }
        ensures rows { IfOk result (λ came. rows_of self.new.entries ≡ (if came then rows_of self.old.entries ++ new ∷ [] else rows_of self.old.entries)) }
        ensures err { OnErr result (self.new ≡ self.old) }
    {
        let other = Value::Int(0);
        let value = at(new.as_slice(), key, &other);
        if any_has(self.rows.stands(), key, value, &other) {
            return Ok(false);
        }
        self.push(alloc, new)?;
        Ok(true)
    }

    // The same, where it has one.
    #[inline(always)]
    fn push_indexed(&mut self, alloc: Global, own: u8, new: Row) -> Result<bool, AllocError>
        requires { is_indexed self.old.columns own ≡ true }
        ensures columns { self.new.columns ≡ self.old.columns }
        ensures came { IfOk result (λ came. came ≡ not (is_taken_at (Some own) (rows_of self.old.entries) new)) }
        ensures rows { IfOk result (λ came. rows_of self.new.entries ≡ (if came then rows_of self.old.entries ++ new ∷ [] else rows_of self.old.entries)) }
        ensures err { OnErr result (self.new ≡ self.old) }
    {
        append_new(
            alloc,
            &self.columns,
            own,
            &mut self.rows,
            &mut self.slots,
            new,
        )
    }

    /// The group of the rows that meet the conditions, where there is but one condition, by a column with an index.
    #[inline(always)]
    pub fn sole_group(
        &self,
        alloc: Global,
        args: &[Value],
        conditions: &[Condition],
    ) -> Result<Option<Group>, AllocError>
        ensures own { IfOk result (λ group. IfSome group (λ g. is_indexed self.now.columns g.column ≡ true)) }
        ensures rows { IfOk result (λ group. IfSome group (λ g. (row : List Field) → meets_all args.now conditions.now row ≡ is_value g.value (Some (at_column row g.column)))) }
    {
        sole_group(alloc, &self.columns, args, conditions)
    }

    /// Takes the rows of a group away, and tells how many there were; a step is counted for each.
    #[inline(always)]
    pub fn remove_group<L: Ledger>(&mut self, group: &Group, steps: &mut Steps<L>) -> u64
        requires { is_indexed self.old.columns group.now.column ≡ true }
        ensures columns { self.new.columns ≡ self.old.columns }
        ensures count { result ≡ length (filter (λ row. is_value group.now.value (Some (at_column row group.now.column))) (rows_of self.old.entries)) }
        ensures rows { rows_of self.new.entries ≡ filter (λ row. not (is_value group.now.value (Some (at_column row group.now.column)))) (rows_of self.old.entries) }
    {
        let count = remove_group(&self.columns, &mut self.rows, &mut self.slots, group);
        steps.tick_all(count);
        count
    }

    /// No row at the places of the hits.
    #[inline(always)]
    pub fn removals<L: Ledger>(
        &self,
        alloc: Global,
        args: &[Value],
        conditions: &[Condition],
        steps: &mut Steps<L>,
    ) -> Result<Few<Change>, AllocError>
        ensures changes { IfOk result (λ v. listed v ≡ changes_to (λ _. None) (filter (λ e. meets_all args.now conditions.now e.1) self.now.entries)) }
        ensures rise { IsStrictlySortedBy nat_cmp (keys_of self.now.entries) }
    {
        let found = self.found(alloc, args, conditions, steps)?;
        removals(alloc, found)
    }

    /// The place of the only hit, and the only assignment, where it is to a column without an index.
    #[inline(always)]
    pub fn sole_setting<'a>(
        &self,
        assignments: &'a [Assignment],
        found: &Few<Hit>,
    ) -> Option<(u64, &'a Assignment)>
        ensures hit { IfSome result (λ x. map (λ h. h.place) (listed found.now) ≡ x.0 ∷ []) }
        ensures assignment { IfSome result (λ x. assignments.now ≡ x.1.now ∷ []) }
        ensures plain { IfSome result (λ x. is_indexed self.now.columns x.1.now.column ≡ false) }
    {
        sole_setting(&self.columns, assignments, found)
    }

    /// Sets a value in the row at a place; the column has no index.
    #[inline(always)]
    pub fn set(&mut self, place: u64, column: u8, value: Value)
        requires { is_indexed self.old.columns column ≡ false }
        ensures columns { self.new.columns ≡ self.old.columns }
        ensures rows { (p : ℕ) → row_at self.new.entries p ≡ (if place == p then option_map (λ row. slice_set row column value) (row_at self.old.entries p) else row_at self.old.entries p) }
        ensures rose { IsStrictlySortedBy nat_cmp (keys_of self.old.entries) }
        ensures rises { IsStrictlySortedBy nat_cmp (keys_of self.new.entries) }
    {
        self.rows.set(place, column as usize, value);
    }

    /// Makes the changes, or none of them where memory is refused.
    #[inline(always)]
    pub fn change(&mut self, alloc: Global, changes: Few<Change>) -> Result<(), AllocError>
        requires { IsStrictlySortedBy nat_cmp (map (λ ch. ch.place) (listed changes)) }
        ensures columns { self.new.columns ≡ self.old.columns }
        ensures rows { OnOk result ((p : ℕ) → row_at self.new.entries p ≡ changed (listed changes) (row_at self.old.entries p) p) }
        ensures rose { IsStrictlySortedBy nat_cmp (keys_of self.old.entries) }
        ensures rises { IsStrictlySortedBy nat_cmp (keys_of self.new.entries) }
        ensures err { OnErr result (self.new ≡ self.old) }
    {
        apply(
            alloc,
            &self.columns,
            &mut self.rows,
            &mut self.slots,
            changes,
        )
    }
}
