//! Making the cells of a run.

ghost use Rattle.std.specs.Prelude.{◌≡◌, ◌≤◌, [], length, map, IfOk, vec_len};
ghost use Rattle.std.specs.Arc.{arc_value};
ghost use Rattle.okws_base.specs.declared.limit.TheConstants.{MOST_SERVICES};
ghost use Rattle.site_cells.specs.Row.{Rise};
ghost use Rattle.turn_lock.specs.Rows.{AllNone};

use named_columns::named::Backed;
use okws_outer::stream::Link;
use okws_plan::configuration::Config;
use service_cell::cell::Cell;
use site_cells::cell::SiteCell;
use site_columns::opening::shared;
use std::alloc::{AllocError, Global};
use std::sync::Arc;
use token_core::Seed;

// The cell of a service, at which nothing happened.
fn cell<N: Backed, L: Link>(
    alloc: Global,
    site: &Arc<Config, Global>,
    seed: &Seed,
    service: u16,
    keeps: bool,
) -> Result<SiteCell<N, L>, AllocError>
    requires site { arc_value site.now ≡ N.site }
    requires seed { seed.now ≡ N.run_seed }
    ensures { IfOk result (λ c. (c.entered ≡ []) × (c.standing.service ≡ service)) }
{
    let site = shared(site)?;
    let cell = Cell::new(alloc, site, *seed, service, keeps);
    Ok(SiteCell::new(cell))
}

/// The cells of all services, at which nothing happened, by the services' numbers.
pub(crate) fn cells<N: Backed, L: Link + Drop>(
    alloc: Global,
    site: &Arc<Config, Global>,
    seed: &Seed,
    keeps: bool,
) -> Result<Vec<SiteCell<N, L>>, AllocError>
    requires site { arc_value site.now ≡ N.site }
    requires seed { seed.now ≡ N.run_seed }
    requires services { length N.site.services ≤ MOST_SERVICES }
    ensures new { IfOk result (λ v. AllNone (map (λ c. c.entered) v.items)) }
    ensures services { IfOk result (λ v. Rise 0 (map (λ c. c.standing.service) v.items)) }
    ensures many { IfOk result (λ v. vec_len v ≡ length N.site.services) }
{
    let services = site.services.as_slice().len();
    let mut cells = Vec::with_capacity(alloc, services)?;
    for service in 0..services {
        let cell = cell(alloc, site, seed, service as u16, keeps)?;
        cells.push_reserved(cell);
    }
    Ok(cells)
}
