//! Stores in memory.

ghost use Rattle.std.specs.Prelude.{◌≡◌, [], IfOk};
ghost use Rattle.okws_outer.specs.Depots.{IsNewKeeper};

use okws_base::items::copies;
use okws_base::told::{Says, Told};
use okws_base::value::Value;
use okws_outer::error::MakeError;
use okws_outer::keeper::{Keeper, RunError};
use okws_outer::memory::failing::Failing;
use okws_outer::pinned::Listed;
use okws_outer::stores::{KeeperEnd, KeeperStart, Stores};
use okws_plan::configuration::Table;
use okws_plan::statement::{Answer, Statement};
use std::alloc::{AllocError, Global};

/// Makes keepers in memory.
pub trait KeeperMaker {
    /// What it makes.
    type Keeper: Keeper + Send + Drop;

    /// A keeper for the tables of a proxy, with their first rows.
    fn make(&self, alloc: Global, proxy: u16, tables: &[Table]) -> Result<Self::Keeper, AllocError>
        ensures tables { IfOk result (λ k. Self.Keeper.tables k ≡ tables.now) }
        ensures keeper { IfOk result (λ k. IsNewKeeper tables.now (Self.Keeper.told k) (Self.Keeper.faults k)) };
}

/// Stores in memory, which have no files.
pub struct MemoryStores<'a, M> {
    maker: M,
    made: Told<KeeperStart>,
    finished: Told<KeeperEnd>,
    back: u64,
    refuses: bool,
    failing: Failing<'a>,
}

impl<'a, M: Drop> Drop for MemoryStores<'a, M> {
    fn drop(self) {
        let MemoryStores {
            maker,
            made,
            finished,
            back: _,
            refuses: _,
            failing: _,
        } = self;
        drop(maker);
        drop(made);
        drop(finished);
    }
}

impl<'a, M: KeeperMaker> MemoryStores<'a, M> {
    /// Stores whose keepers are made so; the makings of the numbers in `failing` fail.
    pub fn new(maker: M, failing: &'a [u64]) -> Self
        ensures { ⟦<MemoryStores<'a, M> as Stores>⟧.depot result ≡ record { made = []; finished = []; faults = 0 } }
    {
        MemoryStores {
            maker,
            made: Told::new(),
            finished: Told::new(),
            back: 0,
            refuses: false,
            failing: Failing::at(failing),
        }
    }

    /// Stores that are not there: each making fails.
    pub fn absent(maker: M) -> Self
        ensures { ⟦<MemoryStores<'a, M> as Stores>⟧.depot result ≡ record { made = []; finished = []; faults = 0 } }
    {
        MemoryStores {
            maker,
            made: Told::new(),
            finished: Told::new(),
            back: 0,
            refuses: true,
            failing: Failing::at(&[]),
        }
    }

    /// How many makings have failed.
    pub fn faults(&self) -> u64
        ensures { result ≡ (⟦<MemoryStores<'a, M> as Stores>⟧.depot self.now).faults }
    {
        self.failing.faults
    }

    /// How many keepers were given back.
    pub fn given_back(&self) -> u64 {
        self.back
    }
}

/// A keeper of which each call fails, and which doesn't tell its rows.
#[derive(Drop)]
pub struct BrokenKeeper {
    tables: Vec<Table>,
    faults: u64,
}

impl Keeper for BrokenKeeper {
    type Pin = Listed;

    ghost use Rattle.std.specs.Prelude.{None, false};

    ghost tables = { λ k. k.tables.items };

    ghost told = { λ k. None };

    ghost faults = { λ k. k.faults };

    ghost steady = { λ k. false };

    ghost parted = { λ _. false };

    fn has_parted(&self) -> bool {
        false
    }

    fn run(&mut self, _: Global, _: &Statement, _: &[Value]) -> Result<Answer, RunError> {
        self.faults = self.faults.saturating_add(1);
        Err(RunError::Failed)
    }

    fn pin(&mut self, _: Global, _: &Statement, _: &[Value]) -> Result<Listed, RunError> {
        self.faults = self.faults.saturating_add(1);
        Err(RunError::Failed)
    }
}

/// Makes broken keepers.
#[derive(Clone, Copy)]
pub struct Breaking;

impl KeeperMaker for Breaking {
    type Keeper = BrokenKeeper;

    fn make(&self, alloc: Global, _: u16, tables: &[Table]) -> Result<BrokenKeeper, AllocError> {
        Ok(BrokenKeeper {
            tables: copies(alloc, tables)?,
            faults: 0,
        })
    }
}

/// A keeper that was made.
#[derive(Clone, Copy)]
struct Made<'c> {
    file: &'c str,
    proxy: u16,
    tables: &'c [Table],
}

impl<'c> Says for Made<'c> {
    type Item = KeeperStart;

    ghost item = { λ m. record { file = m.file.now; proxy = m.proxy; tables = m.tables.now } };
}

/// A keeper that is given back.
#[derive(Drop)]
struct Finished<'c, K> {
    proxy: u16,
    keeper: &'c K,
}

impl<'c, K: Keeper> Says for Finished<'c, K> {
    type Item = KeeperEnd;

    ghost item = { λ f. record { proxy = f.proxy; rows = K.told f.keeper.now; faults = K.faults f.keeper.now } };
}

impl<'a, M: KeeperMaker> Stores for MemoryStores<'a, M> {
    type Keeper = M::Keeper;

    ghost depot = { λ s. record { made = s.made.past; finished = s.finished.past; faults = s.failing.faults } };

    fn make(
        &mut self,
        alloc: Global,
        file: &str,
        proxy: u16,
        tables: &[Table],
    ) -> Result<M::Keeper, MakeError> {
        if self.failing.fails_or(self.refuses) {
            return Err(MakeError::Failed);
        }
        let keeper = self.maker.make(alloc, proxy, tables)?;
        let made = Made {
            file,
            proxy,
            tables,
        };
        self.made = self.made.and(&made);
        Ok(keeper)
    }

    fn finish(&mut self, proxy: u16, keeper: M::Keeper) {
        let finished = Finished {
            proxy,
            keeper: &keeper,
        };
        self.finished = self.finished.and(&finished);
        self.back = self.back.saturating_add(1);
    }
}
