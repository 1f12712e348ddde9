//! Keepers in memory of which some calls fail.

ghost use Rattle.std.specs.Prelude.{◌≡◌, Some, map, IfOk};

use index_keeper::{IndexKeeper, IndexPin};
use okws_base::value::Value;
use okws_outer::keeper::{Keeper, RunError};
use okws_outer::memory::failing::Failing;
use okws_plan::configuration::{Query, Table};
use okws_plan::statement::{Answer, Statement};
use std::alloc::{AllocError, Global};

/// A keeper of which the calls of some numbers fail.
#[derive(Drop)]
pub(crate) struct Shaky<'a> {
    rows: IndexKeeper,
    failing: Failing<'a>,
}

impl<'a> Shaky<'a> {
    /// A keeper for these tables and queries; the calls of these numbers, counted from 0, fail.
    pub(crate) fn new(
        alloc: Global,
        tables: &[Table],
        queries: &[Query],
        failing: &'a [u64],
    ) -> Result<Self, AllocError>
        ensures tables { IfOk result (λ k. ⟦<Shaky<'a> as Keeper>⟧.tables k ≡ tables.now) }
        ensures told { IfOk result (λ k. ⟦<Shaky<'a> as Keeper>⟧.told k ≡ Some (map (λ t. t.first) tables.now)) }
    {
        Ok(Shaky {
            rows: IndexKeeper::new(alloc, tables, queries)?,
            failing: Failing::at(failing),
        })
    }

    /// How many calls have failed.
    pub(crate) fn faults(&self) -> u64 {
        self.failing.faults
    }
}

impl<'a> Keeper for Shaky<'a> {
    type Pin = IndexPin;

    ghost use Rattle.std.specs.Prelude.{false};

    ghost tables = { λ k. ⟦<IndexKeeper as Keeper>⟧.tables k.rows };

    ghost told = { λ k. ⟦<IndexKeeper as Keeper>⟧.told k.rows };

    ghost faults = { λ k. k.failing.faults };

    ghost steady = { λ _. false };

    ghost parted = { λ _. false };

    fn has_parted(&self) -> bool {
        false
    }

    fn run(
        &mut self,
        alloc: Global,
        statement: &Statement,
        args: &[Value],
    ) -> Result<Answer, RunError> {
        if self.failing.fails() {
            return Err(RunError::Failed);
        }
        self.rows.run(alloc, statement, args)
    }

    fn pin(
        &mut self,
        alloc: Global,
        statement: &Statement,
        args: &[Value],
    ) -> Result<IndexPin, RunError> {
        if self.failing.fails() {
            return Err(RunError::Failed);
        }
        self.rows.pin(alloc, statement, args)
    }
}
