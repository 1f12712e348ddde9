//! Making the locks of a run's columns and cells.

ghost use Rattle.std.specs.Prelude.{◌≡◌, ◌≤◌, ◌<◌, ◌+◌, [], length, map, IfOk, vec_len, IfSome};
ghost use Rattle.std.specs.Arc.{arc_value};
ghost use Rattle.okws_base.specs.declared.limit.TheConstants.{MOST_DOORS};
ghost use Rattle.turn_lock.specs.Rows.{AllCount};
ghost use Rattle.site_making.specs.Keepers.{keeper_of, AreBacked};
ghost use Rattle.site_making.specs.Making.{IsServable};

use crate::cells::cells;
use crate::columns::columns;
use named_columns::named::Backed;
use okws_outer::keeper::Keeper;
use okws_outer::stream::{Link, Sink};
use okws_plan::configuration::Config;
use site_cells::making::{NewCells, make_cells};
use site_locks::making::Made;
use std::alloc::{AllocError, Global};
use std::sync::Arc;
use token_core::Seed;

/// The locks of a run's columns for so many workers, at which nothing happened. Where memory is refused, the
/// keepers and the sink are let go.
pub fn make_columns<N: Backed, K: Keeper + Drop, S: Sink + Drop>(
    alloc: Global,
    site: &Arc<Config, Global>,
    seed: &Seed,
    workers: u16,
    keeps: bool,
    keepers: Vec<K>,
    sink: S,
) -> Result<Made<N, K, S>, AllocError>
    requires site { arc_value site.now ≡ N.site }
    requires seed { seed.now ≡ N.run_seed }
    requires servable { IsServable N.site }
    requires workers { (workers ≤ MOST_DOORS + 1) × (workers ≡ N.launcher) }
    requires declared { vec_len keepers ≡ length N.site.proxies }
    requires keepers { AreBacked N.site N.steady N.keeper_faults 0 (map (keeper_of K.tables K.told K.faults K.steady) keepers.items) }
    requires log { IfSome (S.given sink) (λ given. given ≡ []) }
    requires faults { N.sink_faults ≡ S.faults sink }
{
    let fresh = columns(alloc, site, seed, keepers, sink, keeps)?;
    Made::new(alloc, fresh, workers)
}

/// The locks of a run's cells for so many numbers, at which nothing happened.
pub fn make_cell_locks<N: Backed, L: Link + Drop>(
    alloc: Global,
    site: &Arc<Config, Global>,
    seed: &Seed,
    numbers: u16,
    keeps: bool,
) -> Result<NewCells<N, L>, AllocError>
    requires site { arc_value site.now ≡ N.site }
    requires seed { seed.now ≡ N.run_seed }
    requires servable { IsServable N.site }
    requires some { 0 < numbers }
    ensures { IfOk result (λ c. (c.numbers ≡ numbers) × AllCount numbers c.turns × (length c.turns ≡ length N.site.services)) }
{
    let fresh = cells(alloc, site, seed, keeps)?;
    make_cells(alloc, fresh, numbers)
}
