//! Keepers in memory of which some calls fail.

use index_keeper::{IndexKeeper, IndexPin};
use okws_base::value::Value;
use okws_outer::keeper::{Keeper, RunError};
use okws_outer::memory::failing::Failing;
use okws_plan::configuration::Table;
use okws_plan::statement::{Answer, Statement};
use outer_memory::stores::KeeperMaker;
use std::alloc::{AllocError, Global};

/// A keeper of which the calls of some numbers fail.
#[derive(Drop)]
pub struct Shaky<'a> {
    rows: IndexKeeper,
    failing: Failing<'a>,
}

impl<'a> Keeper for Shaky<'a> {
    type Pin = IndexPin;

    ghost use Rattle.std.specs.Prelude.{false};

    ghost tables = { λ k. ⟦<IndexKeeper as Keeper>⟧.tables k.rows };

    ghost told = { λ k. ⟦<IndexKeeper as Keeper>⟧.told k.rows };

    ghost faults = { λ k. k.failing.faults };

    ghost steady = { λ _. false };

    ghost parted = { λ _. false };

    fn has_parted(&self) -> bool {
        false
    }

    fn run(
        &mut self,
        alloc: Global,
        statement: &Statement,
        args: &[Value],
    ) -> Result<Answer, RunError> {
        if self.failing.fails() {
            return Err(RunError::Failed);
        }
        self.rows.run(alloc, statement, args)
    }

    fn pin(
        &mut self,
        alloc: Global,
        statement: &Statement,
        args: &[Value],
    ) -> Result<IndexPin, RunError> {
        if self.failing.fails() {
            return Err(RunError::Failed);
        }
        self.rows.pin(alloc, statement, args)
    }
}

/// Makes keepers of which the calls of these numbers fail.
#[derive(Clone, Copy)]
pub struct Shaking<'a> {
    pub calls: &'a [u64],
}

impl<'a> KeeperMaker for Shaking<'a> {
    type Keeper = Shaky<'a>;

    fn make(&self, alloc: Global, _: u16, tables: &[Table]) -> Result<Shaky<'a>, AllocError> {
        Ok(Shaky {
            rows: IndexKeeper::new(alloc, tables, &[])?,
            failing: Failing::at(self.calls),
        })
    }
}
