//! Keepers of which some calls fail.

ghost use Rattle.std.specs.Prelude.{◌≡◌, true};

use okws_base::value::Value;
use okws_outer::keeper::{Keeper, RunError};
use okws_outer::memory::failing::Failing;
use okws_plan::statement::{Answer, Statement};
use std::alloc::Global;

/// A keeper of which some calls fail and then do nothing, over one of which none does.
#[derive(Drop)]
pub struct FailingKeeper<'a, K: Keeper> {
    rows: K,
    failing: Failing<'a>,
    ghost kept: { K.steady rows ≡ true },
}

impl<'a, K: Keeper> FailingKeeper<'a, K> {
    /// A keeper of these rows; the calls, runs and pins together, of the numbers in `failing` fail.
    pub fn new(rows: K, failing: &'a [u64]) -> Self
        requires { K.steady rows ≡ true }
        ensures tables { ⟦<FailingKeeper<'a, K> as Keeper>⟧.tables result ≡ K.tables rows }
        ensures told { ⟦<FailingKeeper<'a, K> as Keeper>⟧.told result ≡ K.told rows }
        ensures faults { ⟦<FailingKeeper<'a, K> as Keeper>⟧.faults result ≡ 0 }
    {
        FailingKeeper {
            rows,
            failing: Failing::at(failing),
        }
    }

    /// How many calls have failed.
    pub fn faults(&self) -> u64
        ensures { result ≡ ⟦<FailingKeeper<'a, K> as Keeper>⟧.faults self.now }
    {
        self.failing.faults
    }
}

impl<'a, K: Keeper> Keeper for FailingKeeper<'a, K> {
    type Pin = K::Pin;

    ghost use Rattle.std.specs.Prelude.{false};

    ghost tables = { λ k. K.tables k.rows };

    ghost told = { λ k. K.told k.rows };

    ghost faults = { λ k. k.failing.faults };

    ghost steady = { λ _. false };

    ghost parted = { λ k. K.parted k.rows };

    fn has_parted(&self) -> bool {
        self.rows.has_parted()
    }

    fn run(
        &mut self,
        alloc: Global,
        statement: &Statement,
        args: &[Value],
    ) -> Result<Answer, RunError> {
        if self.failing.fails() {
            return Err(RunError::Failed);
        }
        self.rows.run(alloc, statement, args)
    }

    fn pin(
        &mut self,
        alloc: Global,
        statement: &Statement,
        args: &[Value],
    ) -> Result<K::Pin, RunError> {
        if self.failing.fails() {
            return Err(RunError::Failed);
        }
        self.rows.pin(alloc, statement, args)
    }
}
