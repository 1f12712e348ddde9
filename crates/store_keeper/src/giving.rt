//! The stores of a run, given back.

ghost use Rattle.std.specs.Prelude.{◌≤◌, map, vec_len};
ghost use Rattle.okws_base.specs.declared.limit.TheConstants.{MOST_PROXIES};
ghost use Rattle.store_keeper.specs.Depots.{GivesBack, beside_of};

use crate::stored::StoredKeeper;
use okws_outer::keeper::Keeper;
use okws_outer::stores::Stores;

/// Gives back the stores of the first proxies' keepers, one of each, that of the greatest number first, as they
/// stand beside the keepers. Where a store tells its rows these are its keeper's, unless the two have parted.
pub fn give_back<S: Stores>(stores: &mut S, mut keepers: Vec<StoredKeeper<S::Keeper>>)
    requires { vec_len keepers ≤ MOST_PROXIES }
    ensures { GivesBack (map (beside_of ⟦<StoredKeeper<S::Keeper> as Keeper>⟧.faults ⟦<StoredKeeper<S::Keeper> as Keeper>⟧.told (λ k. k.parted) (λ k. S.Keeper.told k.store)) keepers.items) (S.depot stores.old) (S.depot stores.new) }
{
    while let Some(keeper) = keepers.pop() {
        stores.finish(keepers.len() as u16, keeper.into_store());
    }
    keepers.destroy_empty();
}
