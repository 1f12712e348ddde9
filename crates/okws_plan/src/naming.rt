//! The numbers of what a configuration declares, by name. There are few of each, so that a name is
//! looked for in a scan.

ghost use Rattle.std.specs.Prelude.{◌≡◌, ◌<◌, ◌≤◌, ℕ, List, IfSome, length, map};
ghost use Rattle.okws_base.specs.declared.limit.TheConstants.{MOST_PROXIES, MOST_SERVICES, MOST_TEMPLATES};
ghost use Rattle.okws_plan.specs.Configuration.{named_from, template_named};
ghost use Rattle.okws_plan.specs.Lines.{PlaceFits, place_named, proxy_named, service_named};

use crate::configuration::{Config, ProxyPlan, ServicePlan};
use crate::script::Place;
use okws_base::name::Name;

/// What is declared under a name.
pub trait Named {
    /// The name.
    ghost name: { Self → List ℕ };

    /// The name.
    fn name(&self) -> &[u8]
        ensures { result.now ≡ name self.now };
}

impl Named for Name {
    ghost name = { λ a. a };

    fn name(&self) -> &[u8] {
        self.as_slice()
    }
}

impl Named for ServicePlan {
    ghost name = { λ a. a.name };

    fn name(&self) -> &[u8] {
        self.name.as_slice()
    }
}

impl Named for ProxyPlan {
    ghost name = { λ a. a.name };

    fn name(&self) -> &[u8] {
        self.name.as_slice()
    }
}

/// The place of the first that is declared under this name.
pub fn number_among<T: Named>(declared: &[T], name: &[u8]) -> Option<usize>
    ensures is { result ≡ named_from 0 (map T.name declared.now) name.now }
    ensures within { IfSome result (λ i. i < length declared.now) }
{
    for i in 0..declared.len() {
        if declared[i].name() == name {
            return Some(i);
        }
    }
    None
}

/// The place of the first of these names that is this one.
pub fn place_among(names: &[Name], name: &[u8]) -> Option<usize>
    ensures is { result ≡ named_from 0 names.now name.now }
    ensures within { IfSome result (λ i. i < length names.now) }
{
    number_among(names, name)
}

/// The number of the service with this name.
pub fn service_of(config: &Config, name: &[u8]) -> Option<u16>
    requires { length config.now.services ≤ MOST_SERVICES }
    ensures is { result ≡ service_named config.now name.now }
    ensures within { IfSome result (λ s. s < length config.now.services) }
{
    match number_among(config.services.as_slice(), name) {
        None => None,
        Some(number) => Some(number as u16),
    }
}

/// The number of the proxy with this name.
pub fn proxy_of(config: &Config, name: &[u8]) -> Option<u16>
    requires { length config.now.proxies ≤ MOST_PROXIES }
    ensures is { result ≡ proxy_named config.now name.now }
    ensures within { IfSome result (λ p. p < length config.now.proxies) }
{
    match number_among(config.proxies.as_slice(), name) {
        None => None,
        Some(number) => Some(number as u16),
    }
}

/// The number of the template with this name.
pub fn template_of(config: &Config, name: &[u8]) -> Option<u16>
    requires { length config.now.templates ≤ MOST_TEMPLATES }
    ensures is { result ≡ template_named config.now name.now }
    ensures within { IfSome result (λ t. t < length config.now.templates) }
{
    match place_among(config.templates.as_slice(), name) {
        None => None,
        Some(number) => Some(number as u16),
    }
}

/// The column with this name: `pubd`, `oklogd`, or a proxy's.
pub fn place_of(config: &Config, name: &[u8]) -> Option<Place>
    requires { length config.now.proxies ≤ MOST_PROXIES }
    ensures is { result ≡ place_named config.now name.now }
    ensures within { IfSome result (PlaceFits config.now) }
{
    if name == b"pubd".as_slice() {
        Some(Place::Pubd)
    } else if name == b"oklogd".as_slice() {
        Some(Place::Oklogd)
    } else {
        Some(Place::Proxy(proxy_of(config, name)?))
    }
}
