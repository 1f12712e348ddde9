//! What a server's run is over: its site, the keepers of its rows, its tokens' seed and its doors.

ghost use Rattle.std.specs.Prelude.{◌≡◌, ◌≤◌, true, IfOk, IsErrOf, OnErr, length, map, vec_len};
ghost use Rattle.std.specs.Arc.{arc_value};
ghost use Rattle.okws_base.specs.declared.limit.TheConstants.{MOST_PROXIES};
ghost use Rattle.okws_plan.specs.Sound.{IsSound};
ghost use Rattle.config_reader.specs.Ruled.{AreRuled};
ghost use Rattle.site_making.specs.Keepers.{AreKeepers, IsKeeper, are_steady, keeper_of};
ghost use Rattle.store_keeper.specs.Depots.{HasAsked, LacksStore, with_starts};
ghost use Rattle.store_keeper.specs.Sites.{AllTell, HaveFirstRows, SitesAreAlike};
ghost use Rattle.okws_server.specs.Served.{AreFresh, IsStock};

use index_keeper::IndexKeeper;
use okws_outer::error::MakeError;
use okws_outer::keeper::Keeper;
use okws_outer::stores::Stores;
use okws_plan::configuration::Config;
use site_columns::opening::{queries_at, read_names, tables_at};
use std::alloc::{AllocError, Global};
use std::sync::Arc;
use store_keeper::{StoredKeeper, give_back, open_site};
use token_core::Seed;

/// A site, and the keepers of its rows, where these are `K`.
#[derive(Drop)]
pub struct Stock<K> {
    /// The site.
    pub site: Arc<Config, Global>,
    /// The keeper of each proxy's rows, by the proxies' numbers.
    pub keepers: Vec<K>,
}

/// What a server's run is over, where its doors are `D` and its keepers `K`.
#[derive(Drop)]
pub struct Ground<D, K> {
    /// The site, and the keepers of its rows.
    pub stock: Stock<K>,
    /// The seed of its tokens.
    pub seed: Seed,
    /// Its doors.
    pub doors: Vec<D>,
}

// The keeper of the rows of a proxy, in memory.
fn memory_keeper(alloc: Global, config: &Config, proxy: u16) -> Result<IndexKeeper, AllocError>
    ensures is { IfOk result (λ k. IsKeeper config.now proxy (keeper_of ⟦<IndexKeeper as Keeper>⟧.tables ⟦<IndexKeeper as Keeper>⟧.told ⟦<IndexKeeper as Keeper>⟧.faults ⟦<IndexKeeper as Keeper>⟧.steady k)) }
    ensures steady { IfOk result (λ k. (keeper_of ⟦<IndexKeeper as Keeper>⟧.tables ⟦<IndexKeeper as Keeper>⟧.told ⟦<IndexKeeper as Keeper>⟧.faults ⟦<IndexKeeper as Keeper>⟧.steady k).steady ≡ true) }
    ensures fresh { IfOk result (λ k. (keeper_of ⟦<IndexKeeper as Keeper>⟧.tables ⟦<IndexKeeper as Keeper>⟧.told ⟦<IndexKeeper as Keeper>⟧.faults ⟦<IndexKeeper as Keeper>⟧.steady k).faults ≡ 0) }
{
    IndexKeeper::new(alloc, tables_at(config, proxy), queries_at(config, proxy))
}

// The keeper of the rows of each proxy, in memory, by the numbers of the proxies.
fn memory_keepers(alloc: Global, config: &Config) -> Result<Vec<IndexKeeper>, AllocError>
    requires { length config.now.proxies ≤ MOST_PROXIES }
    ensures many { IfOk result (λ v. vec_len v ≡ length config.now.proxies) }
    ensures keepers { IfOk result (λ v. AreKeepers config.now 0 (map (keeper_of ⟦<IndexKeeper as Keeper>⟧.tables ⟦<IndexKeeper as Keeper>⟧.told ⟦<IndexKeeper as Keeper>⟧.faults ⟦<IndexKeeper as Keeper>⟧.steady) v.items)) }
    ensures steady { IfOk result (λ v. are_steady (map (keeper_of ⟦<IndexKeeper as Keeper>⟧.tables ⟦<IndexKeeper as Keeper>⟧.told ⟦<IndexKeeper as Keeper>⟧.faults ⟦<IndexKeeper as Keeper>⟧.steady) v.items) ≡ true) }
    ensures fresh { IfOk result (λ v. AreFresh (map (keeper_of ⟦<IndexKeeper as Keeper>⟧.tables ⟦<IndexKeeper as Keeper>⟧.told ⟦<IndexKeeper as Keeper>⟧.faults ⟦<IndexKeeper as Keeper>⟧.steady) v.items)) }
{
    let count = config.proxies.as_slice().len();
    let mut keepers = Vec::with_capacity(alloc, count)?;
    for proxy in 0..count as u16 {
        let keeper = memory_keeper(alloc, config, proxy)?;
        keepers.push_reserved(keeper);
    }
    Ok(keepers)
}

/// A site that was read, and the keepers of its rows, in memory.
pub fn stock_of(alloc: Global, config: Config) -> Result<Stock<IndexKeeper>, AllocError>
    requires sound { IsSound config }
    requires rules { AreRuled config }
    ensures site { IfOk result (λ s. arc_value s.site ≡ config) }
    ensures steady { IfOk result (λ s. are_steady (map (keeper_of ⟦<IndexKeeper as Keeper>⟧.tables ⟦<IndexKeeper as Keeper>⟧.told ⟦<IndexKeeper as Keeper>⟧.faults ⟦<IndexKeeper as Keeper>⟧.steady) s.keepers.items) ≡ true) }
    ensures stock { IfOk result (λ s. IsStock config (map (keeper_of ⟦<IndexKeeper as Keeper>⟧.tables ⟦<IndexKeeper as Keeper>⟧.told ⟦<IndexKeeper as Keeper>⟧.faults ⟦<IndexKeeper as Keeper>⟧.steady) s.keepers.items)) }
{
    read_names(&config);
    let keepers = memory_keepers(alloc, &config)?;
    let site = Arc::new(alloc, config)?;
    Ok(Stock { site, keepers })
}

/// A site that was read, with the rows that its stores have, and the keepers of these rows, made by the numbers
/// of the proxies. The stores keep the rows that they have, and where one can't be made, or its rows are not
/// sound, those that were are given back so.
pub fn stored_stock<S: Stores>(
    alloc: Global,
    stores: &mut S,
    file: &str,
    config: Config,
) -> Result<Stock<StoredKeeper<S::Keeper>>, MakeError>
    requires sound { IsSound config }
    requires rules { AreRuled config }
    ensures stock { IfOk result (λ s. IsStock (arc_value s.site) (map (keeper_of ⟦<StoredKeeper<S::Keeper> as Keeper>⟧.tables ⟦<StoredKeeper<S::Keeper> as Keeper>⟧.told ⟦<StoredKeeper<S::Keeper> as Keeper>⟧.faults ⟦<StoredKeeper<S::Keeper> as Keeper>⟧.steady) s.keepers.items)) }
    ensures alike { IfOk result (λ s. SitesAreAlike (arc_value s.site) config) }
    ensures same { IfOk result (λ s. AllTell S.Keeper.told → arc_value s.site ≡ config) }
    ensures held { IfOk result (λ s. HaveFirstRows config.proxies (map (λ k. S.Keeper.told k.store) s.keepers.items)) }
    ensures made { IfOk result (λ _. S.depot stores.new ≡ with_starts file.now config.proxies (S.depot stores.old)) }
    ensures asked { OnErr result (HasAsked file.now config.proxies (S.depot stores.old) (S.depot stores.new)) }
    ensures sound { IfOk result (λ s. IsSound (arc_value s.site)) }
    ensures failed { IsErrOf result MakeError.Failed → LacksStore config.proxies (S.depot stores.old) (S.depot stores.new) }
    ensures spared { IsErrOf result MakeError.NoMemory → (S.depot stores.new).faults ≡ (S.depot stores.old).faults }
{
    read_names(&config);
    let stored = open_site(alloc, stores, file, config)?;
    match Arc::new(alloc, stored.config) {
        Ok(site) => Ok(Stock {
            site,
            keepers: stored.keepers,
        }),
        Err(_) => {
            give_back(stores, stored.keepers);
            Err(MakeError::NoMemory)
        }
    }
}
