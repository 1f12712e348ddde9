//! The keeper.

ghost use Rattle.std.specs.Prelude.{◌≡◌, ◌≢◌, ◌≤◌, Ok, Some, true, false, map, IfOk, IfErr};
ghost use Rattle.okws_outer.specs.Streams.{Rose, counted};
ghost use Rattle.store_keeper.specs.Alike.{AreAlike, HasRows};

use index_keeper::{IndexKeeper, IndexPin};
use okws_base::value::Value;
use okws_outer::keeper::{Keeper, RunError};
use okws_outer::pinned::Pinned;
use okws_plan::configuration::{Query, Table};
use okws_plan::statement::{Action, Answer, Statement};
use std::alloc::{AllocError, Global};

/// The rows of some tables in memory, which it tells, beside a store that has the same rows. A write is run
/// by the store first, and where that fails the rows are as they were. Where the two have parted, since
/// memory was refused behind a write or they answered differently, memory counts as refused to each
/// further write: no call of the store has failed.
#[derive(Drop)]
pub struct StoredKeeper<K: Keeper> {
    rows: IndexKeeper,
    store: K,
    faults: u64,
    parted: bool,
    ghost alike: { AreAlike (K.tables store) (⟦<IndexKeeper as Keeper>⟧.tables rows) },
    ghost same: { parted ≡ false → HasRows (K.told store) (⟦<IndexKeeper as Keeper>⟧.told rows) },
    ghost counted: { faults ≤ K.faults store },
}

impl<K: Keeper> StoredKeeper<K> {
    /// A keeper of these tables beside their store, with indexes for these queries. The tables' first rows
    /// are those that the store has.
    pub fn new(
        alloc: Global,
        store: K,
        tables: &[Table],
        queries: &[Query],
    ) -> Result<Self, (AllocError, K)>
        requires alike { AreAlike (K.tables store) tables.now }
        requires same { HasRows (K.told store) (Some (map (λ t. t.first) tables.now)) }
        ensures tables { IfOk result (λ k. ⟦<StoredKeeper<K> as Keeper>⟧.tables k ≡ tables.now) }
        ensures told { IfOk result (λ k. ⟦<StoredKeeper<K> as Keeper>⟧.told k ≡ Some (map (λ t. t.first) tables.now)) }
        ensures faults { IfOk result (λ k. ⟦<StoredKeeper<K> as Keeper>⟧.faults k ≡ 0) }
        ensures store { IfOk result (λ k. k.store ≡ store) }
        ensures together { IfOk result (λ k. k.parted ≡ false) }
        ensures back { IfErr result (λ e. e.1 ≡ store) }
    {
        match IndexKeeper::new(alloc, tables, queries) {
            Err(error) => Err((error, store)),
            Ok(rows) => Ok(StoredKeeper {
                rows,
                store,
                faults: 0,
                parted: false,
            }),
        }
    }

    /// The store, as the keeper left it. It has counted each failed call, and where it tells its rows these
    /// are the keeper's, unless the two have parted.
    pub fn into_store(self) -> K
        ensures store { result ≡ self.store }
        ensures alike { AreAlike (K.tables result) (⟦<StoredKeeper<K> as Keeper>⟧.tables self) }
        ensures same { self.parted ≡ false → HasRows (K.told result) (⟦<StoredKeeper<K> as Keeper>⟧.told self) }
        ensures counted { ⟦<StoredKeeper<K> as Keeper>⟧.faults self ≤ K.faults result }
    {
        self.store
    }
}

/// Whether two answers are the same.
fn agree(told: &Answer, answer: &Result<Answer, RunError>) -> bool
    ensures answered { result ≡ true → IfErr answer.now (λ _. ⊥) }
    ensures other { result ≡ false → answer.now ≢ Ok told.now }
{
    match answer {
        Ok(answer) => answer == told,
        Err(_) => false,
    }
}

/// Counts a fault.
fn failed(faults: &mut u64) -> RunError
    ensures failed { result ≡ RunError.Failed }
    ensures later { faults.old ≤ faults.new }
    ensures rose { Rose faults.old faults.new }
    ensures one { faults.new ≡ counted faults.old 1 }
{
    *faults = faults.saturating_add(1);
    RunError::Failed
}

impl<K: Keeper> Keeper for StoredKeeper<K> {
    type Pin = IndexPin;

    ghost use Rattle.std.specs.Prelude.{◌≡◌, true, false, IfOk, IsErrOf};
    ghost use Rattle.okws_plan.specs.Fits.{fits};
    ghost use Rattle.okws_plan.specs.Rules.{keeps_rules};
    ghost use Rattle.okws_plan.specs.declared.statement.Answer.TheVariants.{Rows};
    ghost use Rattle.okws_outer.specs.Keeping.{Runs, Pins, is_select};
    ghost use Rattle.okws_outer.specs.Streams.{Counts, Rose};
    ghost use Rattle.store_keeper.specs.Parting.{PartsBy};

    ghost tables = { λ k. ⟦<IndexKeeper as Keeper>⟧.tables k.rows };

    ghost told = { λ k. ⟦<IndexKeeper as Keeper>⟧.told k.rows };

    ghost faults = { λ k. k.faults };

    ghost steady = { λ _. false };

    ghost parted = { λ k. k.parted };

    fn has_parted(&self) -> bool {
        self.parted
    }

    fn run(
        &mut self,
        alloc: Global,
        statement: &Statement,
        args: &[Value],
    ) -> Result<Answer, RunError>
        requires fits { fits statement.now.parameters args.now ≡ true }
        requires rules { keeps_rules (⟦<IndexKeeper as Keeper>⟧.tables self.old.rows) statement.now ≡ true }
        ensures rows { Runs (⟦<IndexKeeper as Keeper>⟧.tables self.old.rows) statement.now args.now (⟦<IndexKeeper as Keeper>⟧.told self.old.rows) (⟦<IndexKeeper as Keeper>⟧.told self.new.rows) result }
        ensures tables { ⟦<IndexKeeper as Keeper>⟧.tables self.new.rows ≡ ⟦<IndexKeeper as Keeper>⟧.tables self.old.rows }
        ensures faults { Counts self.old.faults self.new.faults (IsErrOf result RunError.Failed) }
        ensures spared { IsErrOf result RunError.NoMemory → self.new.faults ≡ self.old.faults }
        ensures still { IfOk result (λ _. self.new.faults ≡ self.old.faults) }
        ensures sure { false ≡ true → IsErrOf result RunError.Failed → ⊥ }
        ensures steady { false ≡ false }
        ensures read { is_select statement.now.action ≡ true → (self.new.store ≡ self.old.store) × (self.new.parted ≡ self.old.parted) }
        ensures refused { is_select statement.now.action ≡ false → self.old.parted ≡ true → IsErrOf result RunError.NoMemory × (self.new ≡ self.old) }
        ensures failed { IsErrOf result RunError.Failed → Rose (K.faults self.old.store) (K.faults self.new.store) }
        ensures parts { self.old.parted ≡ false → self.new.parted ≡ true → PartsBy (K.tables self.old.store) statement.now args.now (K.told self.old.store) (K.told self.new.store) result }
    {
        if let Action::Select(_) = statement.action {
            return self.rows.run(alloc, statement, args);
        }
        if self.parted {
            return Err(RunError::NoMemory);
        }
        match self.store.run(alloc, statement, args) {
            Ok(told) => {
                let answer = self.rows.run(alloc, statement, args);
                self.parted = !agree(&told, &answer);
                answer
            }
            Err(RunError::NoMemory) => Err(RunError::NoMemory),
            Err(RunError::Failed) => Err(failed(&mut self.faults)),
        }
    }

    fn pin(
        &mut self,
        alloc: Global,
        statement: &Statement,
        args: &[Value],
    ) -> Result<IndexPin, RunError>
        requires select { is_select statement.now.action ≡ true }
        requires fits { fits statement.now.parameters args.now ≡ true }
        requires rules { keeps_rules (⟦<IndexKeeper as Keeper>⟧.tables self.old.rows) statement.now ≡ true }
        ensures answer { IfOk result (λ p. Pins (⟦<IndexKeeper as Keeper>⟧.tables self.old.rows) statement.now args.now (⟦<IndexKeeper as Keeper>⟧.told self.old.rows) (Rows (⟦<IndexPin as Pinned>⟧.width p) (⟦<IndexPin as Pinned>⟧.rows p))) }
        ensures told { ⟦<IndexKeeper as Keeper>⟧.told self.new.rows ≡ ⟦<IndexKeeper as Keeper>⟧.told self.old.rows }
        ensures tables { ⟦<IndexKeeper as Keeper>⟧.tables self.new.rows ≡ ⟦<IndexKeeper as Keeper>⟧.tables self.old.rows }
        ensures faults { Counts self.old.faults self.new.faults (IsErrOf result RunError.Failed) }
        ensures spared { IsErrOf result RunError.NoMemory → self.new.faults ≡ self.old.faults }
        ensures still { IfOk result (λ _. self.new.faults ≡ self.old.faults) }
        ensures sure { false ≡ true → IsErrOf result RunError.Failed → ⊥ }
        ensures steady { false ≡ false }
        ensures read { (self.new.store ≡ self.old.store) × (self.new.parted ≡ self.old.parted) }
        ensures failed { IsErrOf result RunError.Failed → ⊥ }
    {
        self.rows.pin(alloc, statement, args)
    }
}
