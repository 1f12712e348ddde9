//! What a new configuration gives where an old one is in force.

ghost use Rattle.std.specs.Prelude.{◌≡◌, IfOk};
ghost use Rattle.config_diff.specs.Access.{access_of};
ghost use Rattle.config_diff.specs.Changes.{first_difference, regranted};

use crate::access::Access;
use crate::same::all_same;
use crate::site::{ProxyPart, same_in, same_paths};
use okws_base::items::Items;
use okws_plan::configuration::Config;
use std::alloc::{AllocError, Global};

/// What of a site may differ, in the order in which it is looked at.
#[derive(Clone, Copy, Debug, PartialEq, Eq)]
pub enum Difference {
    /// The services, or the words that start their programs.
    Services,
    /// The names of the proxies.
    Proxies,
    /// The names of a proxy's tables, or their columns.
    Tables,
    /// The rows that a table has at first.
    FirstRows,
    /// The queries of a proxy: their numbers and statements.
    Queries,
    /// The names of the templates.
    Templates,
    /// After how many tries a service is given up.
    Retry,
    /// The paths, or which service owns them.
    Paths,
}

/// What a new configuration gives: what services may do from now on, or the first that differs.
#[derive(Drop)]
pub enum Regranted {
    Grants(Access),
    Differs(Difference),
}

/// The first of the eight parts in which the new configuration differs from the old one, if any does.
fn first_difference(old: &Config, new: &Config) -> Option<Difference>
    ensures { result ≡ first_difference old.now new.now }
{
    let proxies = old.proxies.as_slice();
    let others = new.proxies.as_slice();
    if !all_same(old.services.as_slice(), new.services.as_slice()) {
        Some(Difference::Services)
    } else if !same_in(ProxyPart::Name, proxies, others) {
        Some(Difference::Proxies)
    } else if !same_in(ProxyPart::Tables, proxies, others) {
        Some(Difference::Tables)
    } else if !same_in(ProxyPart::FirstRows, proxies, others) {
        Some(Difference::FirstRows)
    } else if !same_in(ProxyPart::Queries, proxies, others) {
        Some(Difference::Queries)
    } else if !all_same(old.templates.as_slice(), new.templates.as_slice()) {
        Some(Difference::Templates)
    } else if old.retry != new.retry {
        Some(Difference::Retry)
    } else if !same_paths(old.paths.as_slice(), new.paths.as_slice()) {
        Some(Difference::Paths)
    } else {
        None
    }
}

/// What services may do by a configuration. Fails only where memory is refused.
fn access_of(alloc: Global, config: &Config) -> Result<Access, AllocError>
    ensures { IfOk result (λ a. a ≡ access_of config.now) }
{
    let grants = Items::of(Vec::from_slice(alloc, config.grants.as_slice())?);
    let readables = Items::of(Vec::from_slice(alloc, config.readables.as_slice())?);
    let loggers = Items::of(Vec::from_slice(alloc, config.loggers.as_slice())?);
    Ok(Access {
        grants,
        readables,
        loggers,
    })
}

/// What the new configuration gives where the old one is in force: what services may do by it, where
/// it declares the same site, or the first part in which the sites differ. The order of queries and of
/// paths is no difference, nor is what services may do. Fails only where memory is refused.
pub fn regrant(alloc: Global, old: &Config, new: &Config) -> Result<Regranted, AllocError>
    ensures { IfOk result (λ r. r ≡ regranted old.now new.now) }
{
    match first_difference(old, new) {
        Some(what) => Ok(Regranted::Differs(what)),
        None => Ok(Regranted::Grants(access_of(alloc, new)?)),
    }
}
