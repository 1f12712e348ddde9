//! Making the columns of a run.

ghost use Rattle.std.specs.Prelude.{◌≡◌, ◌≤◌, ◌<◌, [], true, false, length, map, reverse, IfOk, IfSome, vec_len};
ghost use Rattle.std.specs.Arc.{arc_value};
ghost use Rattle.okws_base.specs.declared.limit.TheConstants.{MOST_SERVICES, MOST_TEMPLATES, MOST_PROXIES};
ghost use Rattle.site_columns.specs.Site.{KeepsRules};
ghost use Rattle.named_columns.specs.Held.{HeldProxy};
ghost use Rattle.site_locks.specs.Sat.{RiseFrom};
ghost use Rattle.turn_lock.specs.Rows.{AllNone};
ghost use Rattle.site_making.specs.Making.{AreNewColumns};
ghost use Rattle.site_making.specs.Keepers.{IsKeeper, AreBacked, keeper_of};

use crate::order::turned;
use db_proxy::Proxy;
use log_daemon::LogDaemon;
use named_columns::log::SiteLog;
use named_columns::named::Backed;
use named_columns::okd::SiteOkd;
use named_columns::proxy::SiteProxy;
use named_columns::pubd::SitePubd;
use okws_outer::keeper::Keeper;
use okws_outer::stream::Sink;
use okws_plan::configuration::Config;
use site_columns::opening::{okd_column, pubd_column, shared};
use site_locks::making::Columned;
use site_locks::pairing::pair;
use std::alloc::{AllocError, Global};
use std::sync::Arc;
use token_core::Seed;

// A proxy, at which nothing happened, over its keeper.
fn proxy<N: Backed, K: Keeper + Drop>(
    alloc: Global,
    site: &Arc<Config, Global>,
    number: u16,
    seed: &Seed,
    keeper: K,
    keeps: bool,
) -> Result<SiteProxy<N, K>, AllocError>
    requires site { arc_value site.now ≡ N.site }
    requires seed { seed.now ≡ N.run_seed }
    requires services { length N.site.services ≤ MOST_SERVICES }
    requires rules { KeepsRules N.site }
    requires declared { number < length N.site.proxies }
    requires keeper { IsKeeper N.site number (keeper_of K.tables K.told K.faults K.steady keeper) }
    requires steady { N.steady ≡ true → K.steady keeper ≡ true }
    requires faults { N.keeper_faults number ≡ K.faults keeper }
    ensures { IfOk result (λ x. (x.past ≡ []) × (x.number ≡ number)) }
{
    let site = shared(site)?;
    match Proxy::new(alloc, site, number, seed, keeper, keeps) {
        Ok(column) => Ok(SiteProxy::new(column)),
        Err(_) => Err(AllocError),
    }
}

// The proxies, at which nothing happened, over their keepers, the last of which comes first.
fn proxies<N: Backed, K: Keeper + Drop>(
    alloc: Global,
    site: &Arc<Config, Global>,
    seed: &Seed,
    mut keepers: Vec<K>,
    keeps: bool,
) -> Result<Vec<SiteProxy<N, K>>, AllocError>
    requires site { arc_value site.now ≡ N.site }
    requires seed { seed.now ≡ N.run_seed }
    requires services { length N.site.services ≤ MOST_SERVICES }
    requires rules { KeepsRules N.site }
    requires declared { vec_len keepers ≡ length N.site.proxies }
    requires few { length N.site.proxies ≤ 65535 }
    requires keepers { AreBacked N.site N.steady N.keeper_faults 0 (reverse (map (keeper_of K.tables K.told K.faults K.steady) keepers.items)) }
    ensures fresh { IfOk result (λ v. AllNone (map (λ (x : HeldProxy). x.past) v.items)) }
    ensures numbered { IfOk result (λ v. RiseFrom 0 (map (λ (x : HeldProxy). x.number) v.items)) }
    ensures many { IfOk result (λ v. vec_len v ≡ length N.site.proxies) }
{
    let mut columns = Vec::with_capacity(alloc, keepers.len())?;
    let mut number = 0;
    while let Some(keeper) = keepers.pop() {
        let column = proxy(alloc, site, number, seed, keeper, keeps)?;
        columns.push_reserved(column);
        number += 1;
    }
    Ok(columns)
}

// The column of oklogd, at which nothing happened, over its sink.
fn log_column<S: Sink + Drop>(
    alloc: Global,
    site: &Arc<Config, Global>,
    sink: S,
    keeps: bool,
) -> Result<LogDaemon<S>, AllocError>
    requires services { length (arc_value site.now).services ≤ MOST_SERVICES }
    requires fresh { IfSome (S.given sink) (λ given. given ≡ []) }
    ensures { IfOk result (λ d. d ≡ record { config = arc_value site.now; past = []; keeps = keeps; given = S.given sink; faults = S.faults sink; stopped = false; holder = 0 }) }
{
    let site = shared(site)?;
    match LogDaemon::new(alloc, site, sink, keeps) {
        Ok(daemon) => Ok(daemon),
        Err(_) => Err(AllocError),
    }
}

/// The columns of a run, at which nothing happened, over keepers that tell the first rows of their proxies'
/// tables, and over a sink that was given nothing. Keepers and sink are let go where memory is refused.
pub(crate) fn columns<N: Backed, K: Keeper + Drop, S: Sink + Drop>(
    alloc: Global,
    site: &Arc<Config, Global>,
    seed: &Seed,
    keepers: Vec<K>,
    sink: S,
    keeps: bool,
) -> Result<Columned<N, K, S>, AllocError>
    requires site { arc_value site.now ≡ N.site }
    requires seed { seed.now ≡ N.run_seed }
    requires services { length N.site.services ≤ MOST_SERVICES }
    requires templates { length N.site.templates ≤ MOST_TEMPLATES }
    requires proxies { length N.site.proxies ≤ MOST_PROXIES }
    requires rules { KeepsRules N.site }
    requires declared { vec_len keepers ≡ length N.site.proxies }
    requires keepers { AreBacked N.site N.steady N.keeper_faults 0 (map (keeper_of K.tables K.told K.faults K.steady) keepers.items) }
    requires fresh { IfSome (S.given sink) (λ given. given ≡ []) }
    requires faults { N.sink_faults ≡ S.faults sink }
    ensures { IfOk result (λ c. AreNewColumns N.site (c.okd.past) (map (λ (x : HeldProxy). x.past) c.proxies.items) (map (λ (x : HeldProxy). x.number) c.proxies.items) (c.pubd.past) (c.oklogd.past)) }
{
    let proxies = proxies(alloc, site, seed, turned(keepers), keeps);
    let okd = okd_column(alloc, site, keeps);
    let pubd = pubd_column(alloc, site, keeps);
    let oklogd = log_column(alloc, site, sink, keeps);
    let made = pair(pair(pair(proxies, okd), pubd), oklogd)?;
    let (((proxies, okd), pubd), oklogd) = made;
    Ok(Columned {
        okd: SiteOkd::new(okd),
        proxies,
        pubd: SitePubd::new(pubd),
        oklogd: SiteLog::new(oklogd),
    })
}
