//! The rows of a site's stores.

ghost use Rattle.std.specs.Prelude.{◌≡◌, ◌⊎◌, [], Some, true, map, IfOk, IfErr, IsErrOf, IsSome, OnErr};
ghost use Rattle.okws_plan.specs.Sound.{IsSound, is_sound_plan};
ghost use Rattle.okws_outer.specs.Depots.{IsNewKeeper, with_made};
ghost use Rattle.okws_outer.specs.Streams.{Rose};
ghost use Rattle.store_keeper.specs.Alike.{AreAlike};
ghost use Rattle.store_keeper.specs.Depots.{HasAsked, HasFailed, HasTried, HasUnsoundAt, LacksStore, with_starts};
ghost use Rattle.store_keeper.specs.Loading.{AreRead, ReadsUnsound};
ghost use Rattle.store_keeper.specs.Sites.{AllTell, AreOf, AreZero, HasFirstRows, HaveFirstRows, SitesAreAlike};

use crate::giving::give_back;
use crate::loading::read_tables;
use crate::sound::are_sound;
use crate::stored::StoredKeeper;
use okws_base::items::Items;
use okws_outer::error::MakeError;
use okws_outer::keeper::{Keeper, RunError};
use okws_outer::stores::Stores;
use okws_plan::configuration::{Config, ProxyPlan, Table};
use std::alloc::Global;
use std::mem;

/// A site with the rows that its stores have, and the keepers of these rows.
#[derive(Drop)]
pub struct StoredSite<K: Keeper> {
    /// The site; its tables begin with the rows that were read.
    pub config: Config,
    /// The keeper of each proxy's rows, by the proxies' numbers.
    pub keepers: Vec<StoredKeeper<K>>,
}

/// The tables of a proxy with the rows that its store has, and the keeper of these rows.
#[derive(Drop)]
struct Opened<K: Keeper> {
    tables: Vec<Table>,
    keeper: StoredKeeper<K>,
}

// Why the rows of a store are not had.
fn refusal(error: RunError) -> MakeError
    ensures { result ≡ MakeError.Failed → error ≡ RunError.Failed }
{
    match error {
        RunError::Failed => MakeError::Failed,
        RunError::NoMemory => MakeError::NoMemory,
    }
}

// The tables of a proxy with the rows that its new keeper has, which are sound.
fn read_sound<K: Keeper>(
    alloc: Global,
    keeper: &mut K,
    plan: &ProxyPlan,
) -> Result<Vec<Table>, MakeError>
    requires sound { is_sound_plan plan.now ≡ true }
    requires tables { K.tables keeper.old ≡ plan.now.tables }
    requires new { IsNewKeeper plan.now.tables (K.told keeper.old) (K.faults keeper.old) }
    ensures alike { IfOk result (λ v. AreAlike v.items plan.now.tables) }
    ensures read { IfOk result (λ v. AreRead plan.now.tables (K.told keeper.old) 0 v.items) }
    ensures sound { IfOk result (λ v. is_sound_plan (record plan.now { tables = v.items }) ≡ true) }
    ensures told { K.told keeper.new ≡ K.told keeper.old }
    ensures tables { K.tables keeper.new ≡ K.tables keeper.old }
    ensures failed { IsErrOf result MakeError.Failed → Rose 0 (K.faults keeper.new) ⊎ ReadsUnsound plan.now.tables (K.told keeper.new) }
{
    let tables = match read_tables(alloc, keeper, plan.tables.as_slice()) {
        Ok(tables) => tables,
        Err(error) => return Err(refusal(error)),
    };
    if !are_sound(alloc, &tables)? {
        return Err(MakeError::Failed);
    }
    Ok(tables)
}

// The rows of a new store, in memory beside it. The store keeps them. Where they are not sound there is no keeper.
fn beside<K: Keeper>(
    alloc: Global,
    mut store: K,
    plan: &ProxyPlan,
) -> Result<Opened<K>, (MakeError, K)>
    requires sound { is_sound_plan plan.now ≡ true }
    requires tables { K.tables store ≡ plan.now.tables }
    requires new { IsNewKeeper plan.now.tables (K.told store) (K.faults store) }
    ensures alike { IfOk result (λ o. AreAlike o.tables.items plan.now.tables) }
    ensures same { IfOk result (λ o. IsSome (K.told store) → o.tables.items ≡ plan.now.tables) }
    ensures tables { IfOk result (λ o. ⟦<StoredKeeper<K> as Keeper>⟧.tables o.keeper ≡ o.tables.items) }
    ensures told { IfOk result (λ o. ⟦<StoredKeeper<K> as Keeper>⟧.told o.keeper ≡ Some (map (λ t. t.first) o.tables.items)) }
    ensures fresh { IfOk result (λ o. ⟦<StoredKeeper<K> as Keeper>⟧.faults o.keeper ≡ 0) }
    ensures held { IfOk result (λ o. K.told o.keeper.store ≡ K.told store) }
    ensures back { IfErr result (λ e. K.told e.1 ≡ K.told store) }
    ensures sound { IfOk result (λ o. is_sound_plan (record plan.now { tables = o.tables.items }) ≡ true) }
    ensures failed { IfErr result (λ e. e.0 ≡ MakeError.Failed → Rose 0 (K.faults e.1) ⊎ ReadsUnsound plan.now.tables (K.told e.1)) }
{
    let tables = match read_sound(alloc, &mut store, plan) {
        Ok(tables) => tables,
        Err(error) => return Err((error, store)),
    };
    match StoredKeeper::new(alloc, store, &tables, plan.queries.as_slice()) {
        Ok(keeper) => Ok(Opened { tables, keeper }),
        Err((_, store)) => Err((MakeError::NoMemory, store)),
    }
}

// The rows of a proxy's store, in memory beside it. Where they could not be read, or are not sound, the store is
// given back with them.
fn open_proxy<S: Stores>(
    alloc: Global,
    stores: &mut S,
    file: &str,
    proxy: u16,
    plan: &ProxyPlan,
) -> Result<Opened<S::Keeper>, MakeError>
    requires sound { is_sound_plan plan.now ≡ true }
    ensures alike { IfOk result (λ o. AreAlike o.tables.items plan.now.tables) }
    ensures same { IfOk result (λ o. AllTell S.Keeper.told → o.tables.items ≡ plan.now.tables) }
    ensures tables { IfOk result (λ o. ⟦<StoredKeeper<S::Keeper> as Keeper>⟧.tables o.keeper ≡ o.tables.items) }
    ensures told { IfOk result (λ o. ⟦<StoredKeeper<S::Keeper> as Keeper>⟧.told o.keeper ≡ Some (map (λ t. t.first) o.tables.items)) }
    ensures fresh { IfOk result (λ o. ⟦<StoredKeeper<S::Keeper> as Keeper>⟧.faults o.keeper ≡ 0) }
    ensures held { IfOk result (λ o. HasFirstRows plan.now (S.Keeper.told o.keeper.store)) }
    ensures made { IfOk result (λ _. S.depot stores.new ≡ with_made file.now proxy plan.now.tables (S.depot stores.old)) }
    ensures tried { OnErr result (HasTried file.now proxy plan.now (S.depot stores.old) (S.depot stores.new)) }
    ensures sound { IfOk result (λ o. is_sound_plan (record plan.now { tables = o.tables.items }) ≡ true) }
    ensures failed { IsErrOf result MakeError.Failed → HasFailed (S.depot stores.old) (S.depot stores.new) ⊎ HasUnsoundAt proxy plan.now (S.depot stores.old) (S.depot stores.new) }
    ensures spared { IsErrOf result MakeError.NoMemory → (S.depot stores.new).faults ≡ (S.depot stores.old).faults }
{
    let store = stores.make(alloc, file, proxy, plan.tables.as_slice())?;
    match beside(alloc, store, plan) {
        Ok(opened) => Ok(opened),
        Err((why, store)) => {
            stores.finish(proxy, store);
            Err(why)
        }
    }
}

// The plans of a site's proxies, which it has no longer.
fn take_plans(alloc: Global, config: &mut Config) -> Vec<ProxyPlan>
    ensures plans { result.items ≡ config.old.proxies }
    ensures rest { config.new ≡ record config.old { proxies = [] } }
{
    mem::replace(&mut config.proxies, Items::of(Vec::new(alloc))).into_vec()
}

/// Makes the keepers of a site's rows over stores in a file, by the proxies' numbers, of which no call has failed.
/// Where one can't be made, or its rows are not sound, those that were are given back. The stores keep the rows that
/// they have.
pub fn open_site<S: Stores>(
    alloc: Global,
    stores: &mut S,
    file: &str,
    mut config: Config,
) -> Result<StoredSite<S::Keeper>, MakeError>
    requires { IsSound config }
    ensures alike { IfOk result (λ s. SitesAreAlike s.config config) }
    ensures same { IfOk result (λ s. AllTell S.Keeper.told → s.config ≡ config) }
    ensures keepers { IfOk result (λ s. AreOf s.config.proxies (map ⟦<StoredKeeper<S::Keeper> as Keeper>⟧.tables s.keepers.items) (map ⟦<StoredKeeper<S::Keeper> as Keeper>⟧.told s.keepers.items)) }
    ensures fresh { IfOk result (λ s. AreZero (map ⟦<StoredKeeper<S::Keeper> as Keeper>⟧.faults s.keepers.items)) }
    ensures held { IfOk result (λ s. HaveFirstRows config.proxies (map (λ k. S.Keeper.told k.store) s.keepers.items)) }
    ensures made { IfOk result (λ _. S.depot stores.new ≡ with_starts file.now config.proxies (S.depot stores.old)) }
    ensures asked { OnErr result (HasAsked file.now config.proxies (S.depot stores.old) (S.depot stores.new)) }
    ensures sound { IfOk result (λ s. IsSound s.config) }
    ensures failed { IsErrOf result MakeError.Failed → LacksStore config.proxies (S.depot stores.old) (S.depot stores.new) }
    ensures spared { IsErrOf result MakeError.NoMemory → (S.depot stores.new).faults ≡ (S.depot stores.old).faults }
{
    let mut plans = take_plans(alloc, &mut config);
    let count = plans.len();
    let mut keepers = Vec::with_capacity(alloc, count)?;
    for proxy in 0..count {
        match open_proxy(alloc, stores, file, proxy as u16, &plans[proxy]) {
            Ok(opened) => {
                plans[proxy].tables = Items::of(opened.tables);
                keepers.push_reserved(opened.keeper);
            }
            Err(why) => {
                give_back(stores, keepers);
                return Err(why);
            }
        }
    }
    config.proxies = Items::of(plans);
    Ok(StoredSite { config, keepers })
}
