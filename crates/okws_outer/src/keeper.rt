//! Keepers of a proxy's rows.

ghost use Rattle.std.specs.Prelude.{◌≡◌, ℕ, List, Bool, true, IfOk, IsErrOf};
ghost use Rattle.std.specs.declared.option.Option.{Option};
ghost use Rattle.okws_base.specs.declared.value.Value.{Value};
ghost use Rattle.okws_plan.specs.declared.configuration.Table.{Table};
ghost use Rattle.okws_plan.specs.Fits.{fits};
ghost use Rattle.okws_plan.specs.Rules.{keeps_rules};
ghost use Rattle.okws_outer.specs.Streams.{Counts};
ghost use Rattle.okws_outer.specs.Keeping.{Runs, Pins, is_select};
ghost use Rattle.okws_plan.specs.declared.statement.Answer.TheVariants.{Rows};
ghost use Rattle.okws_outer.specs.declared.keeper.RunError.TheVariants.{NoMemory};

use crate::pinned::Pinned;
use okws_base::value::Value;
use okws_plan::statement::{Answer, Statement};
use std::alloc::{AllocError, Global};

/// Why a statement was not run.
#[derive(Clone, Copy, Debug)]
pub enum RunError {
    /// The keeper failed and counted it.
    Failed,
    /// Memory was refused.
    NoMemory,
}

impl From<AllocError> for RunError {
    ghost from_gives = { λ _ e. e ≡ NoMemory };

    fn from(_: AllocError) -> Self {
        RunError::NoMemory
    }
}

/// A keeper of the rows of a proxy's tables.
pub trait Keeper {
    /// The answer of a SELECT, which is found later.
    type Pin: Pinned + Drop;

    /// The tables that the keeper was made for.
    ghost tables: { Self → List Table };

    /// The rows of each table, where the keeper tells.
    ghost told: { Self → Option (List (List (List Value))) };

    /// How many calls have failed; it never falls, and stays at 2^64 - 1 once it is there.
    ghost faults: { Self → ℕ };

    /// That no call fails.
    ghost steady: { Self → Bool };

    /// That a store which the keeper has its rows beside has parted from them, for want of memory.
    ghost parted: { Self → Bool };

    /// Whether a store which the keeper has its rows beside has parted from them: memory was refused
    /// behind a write of the store, or it answered another thing.
    fn has_parted(&self) -> bool
        ensures { result ≡ parted self.now };

    /// Runs a statement with these arguments; where it has no answer the rows are as they were. The count
    /// of faults is as it was unless the keeper failed.
    fn run(
        &mut self,
        alloc: Global,
        statement: &Statement,
        args: &[Value],
    ) -> Result<Answer, RunError>
        requires fits { fits statement.now.parameters args.now ≡ true }
        requires rules { keeps_rules (tables self.old) statement.now ≡ true }
        ensures rows { Runs (tables self.old) statement.now args.now (told self.old) (told self.new) result }
        ensures tables { tables self.new ≡ tables self.old }
        ensures faults { Counts (faults self.old) (faults self.new) (IsErrOf result RunError.Failed) }
        ensures spared { IsErrOf result RunError.NoMemory → faults self.new ≡ faults self.old }
        ensures still { IfOk result (λ _. faults self.new ≡ faults self.old) }
        ensures sure { steady self.old ≡ true → IsErrOf result RunError.Failed → ⊥ }
        ensures steady { steady self.new ≡ steady self.old };

    /// Takes what the answer of a SELECT on the rows as they are is found from later; the rows stay. The
    /// count of faults stays too, unless the keeper failed.
    fn pin(
        &mut self,
        alloc: Global,
        statement: &Statement,
        args: &[Value],
    ) -> Result<Self::Pin, RunError>
        requires select { is_select statement.now.action ≡ true }
        requires fits { fits statement.now.parameters args.now ≡ true }
        requires rules { keeps_rules (tables self.old) statement.now ≡ true }
        ensures answer { IfOk result (λ p. Pins (tables self.old) statement.now args.now (told self.old) (Rows (Self.Pin.width p) (Self.Pin.rows p))) }
        ensures told { told self.new ≡ told self.old }
        ensures tables { tables self.new ≡ tables self.old }
        ensures faults { Counts (faults self.old) (faults self.new) (IsErrOf result RunError.Failed) }
        ensures spared { IsErrOf result RunError.NoMemory → faults self.new ≡ faults self.old }
        ensures still { IfOk result (λ _. faults self.new ≡ faults self.old) }
        ensures sure { steady self.old ≡ true → IsErrOf result RunError.Failed → ⊥ }
        ensures steady { steady self.new ≡ steady self.old };
}
