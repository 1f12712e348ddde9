//! How the columns of a site are made.

ghost use Rattle.std.specs.Prelude.{◌≡◌, ℕ, ◌<◌, ◌≤◌, [], IfOk, length, slice_get};
ghost use Rattle.std.specs.Arc.{arc_value};
ghost use Rattle.okws_base.specs.declared.limit.TheConstants.{MOST_SERVICES, MOST_TEMPLATES};
ghost use Rattle.okws_plan.specs.Configuration.{tables, queries_of, template_name};
ghost use Rattle.okws_plan.specs.Rules.{QueriesKeepRules};
ghost use Rattle.site_columns.specs.Proxies.{IsColumn};

use crate::discard::Discard;
use crate::launches::Launches;
use db_proxy::Proxy;
use index_keeper::IndexKeeper;
use log_daemon::LogDaemon;
use okd_dispatch::Okd;
use okws_plan::configuration::{Config, Query, Table};
use pubd_core::Pubd;
use std::alloc::{AllocError, Global};
use std::sync::Arc;
use token_core::Seed;

/// Reads the name of each template; a name has at most 64 bytes.
pub fn read_names(config: &Config)
    ensures { (t : ℕ) → length (template_name config.now t) < 256 }
{
    for name in config.templates.as_slice() {
        let _bytes = name.as_slice();
    }
}

/// The tables of a proxy; none where it isn't declared.
pub fn tables_at(config: &Config, proxy: u16) -> &[Table]
    ensures { result.now ≡ tables config.now proxy }
{
    match config.proxies.as_slice().get(proxy as usize) {
        None => &[],
        Some(plan) => plan.tables.as_slice(),
    }
}

/// The queries of a proxy; none where it isn't declared.
pub fn queries_at(config: &Config, proxy: u16) -> &[Query]
    ensures { result.now ≡ queries_of (slice_get config.now.proxies proxy) }
{
    match config.proxies.as_slice().get(proxy as usize) {
        None => &[],
        Some(plan) => plan.queries.as_slice(),
    }
}

/// The column of a proxy, over a keeper of its tables that tells its rows and never fails.
pub fn proxy_column(
    alloc: Global,
    config: &Arc<Config, Global>,
    seed: &Seed,
    proxy: u16,
    keeps: bool,
) -> Result<Proxy<IndexKeeper>, AllocError>
    requires declared { proxy < length (arc_value config.now).proxies }
    requires services { length (arc_value config.now).services ≤ MOST_SERVICES }
    requires rules { QueriesKeepRules (arc_value config.now) proxy }
    ensures is { IfOk result (λ x. IsColumn (arc_value config.now) seed.now proxy x) }
    ensures past { IfOk result (λ x. x.past ≡ []) }
{
    let keeper = IndexKeeper::new(alloc, tables_at(config, proxy), queries_at(config, proxy))?;
    match Proxy::new(alloc, config.clone()?, proxy, seed, keeper, keeps) {
        Ok(column) => Ok(column),
        Err(_) => Err(AllocError),
    }
}

/// The column of the log daemon, whose text goes nowhere.
pub fn log_column(
    alloc: Global,
    config: &Arc<Config, Global>,
    keeps: bool,
) -> Result<LogDaemon<Discard>, AllocError>
    requires { length (arc_value config.now).services ≤ MOST_SERVICES }
    ensures config { IfOk result (λ d. d.config ≡ arc_value config.now) }
    ensures past { IfOk result (λ d. d.past ≡ []) }
{
    match LogDaemon::new(alloc, config.clone()?, Discard {}, keeps) {
        Ok(daemon) => Ok(daemon),
        Err(_) => Err(AllocError),
    }
}

/// The configuration, shared once more.
pub fn shared(config: &Arc<Config, Global>) -> Result<Arc<Config, Global>, AllocError>
    ensures { IfOk result (λ a. arc_value a ≡ arc_value config.now) }
{
    let again = config.clone()?;
    Ok(again)
}

/// The column of okd.
pub fn okd_column(
    alloc: Global,
    config: &Arc<Config, Global>,
    keeps: bool,
) -> Result<Okd, AllocError>
    requires { length (arc_value config.now).services ≤ MOST_SERVICES }
    ensures { IfOk result (λ o. o ≡ record { config = arc_value config.now; past = []; keeps = keeps; holder = 0 }) }
{
    let again = shared(config)?;
    let column = Okd::new(alloc, again, keeps)?;
    Ok(column)
}

/// The column of the template publisher.
pub fn pubd_column(
    alloc: Global,
    config: &Arc<Config, Global>,
    keeps: bool,
) -> Result<Pubd, AllocError>
    requires services { length (arc_value config.now).services ≤ MOST_SERVICES }
    requires templates { length (arc_value config.now).templates ≤ MOST_TEMPLATES }
    ensures { IfOk result (λ p. p ≡ record { config = arc_value config.now; past = []; keeps = keeps; holder = 0 }) }
{
    let again = shared(config)?;
    let column = Pubd::new(alloc, again, keeps)?;
    Ok(column)
}

/// The launcher's journal.
pub fn launcher(alloc: Global, config: &Config, keeps: bool) -> Result<Launches, AllocError>
    ensures { IfOk result (λ l. l ≡ record { services = length config.now.services; past = []; holder = 0 }) }
{
    Launches::new(alloc, config.services.as_slice().len(), keeps)
}
