//! The tokens of an incarnation.

ghost use Rattle.std.specs.Prelude.{◌≡◌, ◌≤◌, ◌<◌, ◌++◌, ◌∷◌, [], IfOk, if◌then◌else◌, length};
ghost use Rattle.okws_base.specs.declared.limit.TheConstants.{MOST_INCARNATIONS, MOST_PROXIES};
ghost use Rattle.okws_plan.specs.Configuration.{grants_at};
ghost use Rattle.monitor_model.specs.Cell.{boot_frame};
ghost use Rattle.service_cell.specs.Issuing.{issued};

use frame_codec::frame::{Issued, ServerFrame};
use okws_plan::configuration::Config;
use std::alloc::{AllocError, Global};
use token_core::{Seed, token};

/// Whether the service may call a query at the proxy.
pub fn may_call_at(config: &Config, service: u16, proxy: u16) -> bool
    ensures { result ≡ grants_at config.now service proxy }
{
    config.grants.as_slice().iter().any(|granted| granted.service == service
        && granted.proxy == proxy)
}

fn with_token(
    config: &Config,
    seed: &Seed,
    service: u16,
    incarnation: u32,
    proxy: u16,
    mut tokens: Vec<Issued>,
) -> Result<Vec<Issued>, AllocError>
    requires first { 0 < incarnation }
    requires most { incarnation ≤ MOST_INCARNATIONS }
    ensures { IfOk result (λ v. v.items ≡ (if grants_at config.now service proxy then tokens.items ++ issued seed.now service incarnation proxy ∷ [] else tokens.items)) }
{
    if may_call_at(config, service, proxy) {
        tokens.push(Issued {
            proxy,
            token: token(seed, service, incarnation, proxy),
        })?;
    }
    Ok(tokens)
}

/// The tokens that Boot of an incarnation carries under the run's seed: one for each proxy where the
/// service has a grant, ascending.
pub fn tokens_of(
    alloc: Global,
    config: &Config,
    seed: &Seed,
    service: u16,
    incarnation: u32,
) -> Result<Vec<Issued>, AllocError>
    requires few { length config.now.proxies ≤ MOST_PROXIES }
    requires first { 0 < incarnation }
    requires most { incarnation ≤ MOST_INCARNATIONS }
    ensures tokens { IfOk result (λ v. ServerFrame.Boot service incarnation v.items ≡ boot_frame config.now seed.now service incarnation) }
    ensures few { IfOk result (λ v. length v.items ≤ MOST_PROXIES) }
{
    let mut tokens = Vec::new(alloc);
    for i in 0..config.proxies.as_slice().len() {
        tokens = with_token(config, seed, service, incarnation, i as u16, tokens)?;
    }
    Ok(tokens)
}
