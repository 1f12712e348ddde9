//! Stores, which make the keepers of proxies and take them back.

ghost use Rattle.std.specs.Prelude.{◌≡◌, IfOk, OnErr};
ghost use Rattle.okws_outer.specs.Depots.{Depot, IsNewKeeper, with_made, with_finished};
ghost use Rattle.okws_outer.specs.Making.{CountsMade};

use crate::error::MakeError;
use crate::keeper::Keeper;
use okws_base::items::Items;
use okws_base::value::Row;
use okws_plan::configuration::Table;
use std::alloc::Global;

/// What is told of a keeper at its making.
#[derive(Drop)]
pub struct KeeperStart {
    /// The file that it was made for.
    pub file: Items<u8>,
    /// The proxy, by its number.
    pub proxy: u16,
    /// The tables, with their first rows.
    pub tables: Items<Table>,
}

/// What is told of a keeper that was given back.
#[derive(Drop)]
pub struct KeeperEnd {
    /// The proxy, by its number.
    pub proxy: u16,
    /// The rows of each table, where the keeper told them.
    pub rows: Option<Items<Items<Row>>>,
    /// How many of its calls failed.
    pub faults: u64,
}

/// The stores of a run.
pub trait Stores {
    /// A keeper of a proxy's rows.
    type Keeper: Keeper + Send + Drop;

    /// What is told of the stores. The count of failed makings, which keepers have no part in, never
    /// falls, and stays at 2^64 - 1 once it is there.
    ghost depot: { Self → Depot };

    /// Makes the keeper of a proxy, whose rows stand in a file that is named after this one. A keeper
    /// that tells its rows has the tables' first ones.
    fn make(
        &mut self,
        alloc: Global,
        file: &str,
        proxy: u16,
        tables: &[Table],
    ) -> Result<Self::Keeper, MakeError>
        ensures tables { IfOk result (λ k. Self.Keeper.tables k ≡ tables.now) }
        ensures keeper { IfOk result (λ k. IsNewKeeper tables.now (Self.Keeper.told k) (Self.Keeper.faults k)) }
        ensures made { IfOk result (λ k. depot self.new ≡ with_made file.now proxy tables.now (depot self.old)) }
        ensures refused { OnErr result (depot self.new ≡ record (depot self.old) { faults = (depot self.new).faults }) }
        ensures faults { CountsMade (depot self.old).faults (depot self.new).faults result };

    /// Takes the keeper of a proxy back at the end of a run.
    fn finish(&mut self, proxy: u16, keeper: Self::Keeper)
        ensures { depot self.new ≡ with_finished proxy (Self.Keeper.told keeper) (Self.Keeper.faults keeper) (depot self.old) };
}
