//! What a service may do at a proxy.

ghost use Rattle.std.specs.Prelude.{◌≡◌, ◌<◌, ◌==◌, ◌&&◌, true, None, Some, IfOk, IfErr, option_copied, find};
ghost use Rattle.std.specs.List.{list_any};
ghost use Rattle.okws_base.specs.declared.limit.TheConstants.{MOST_SESSIONS};
ghost use Rattle.okws_plan.specs.Configuration.{grants, query, queries_of};
ghost use Rattle.okws_plan.specs.Fits.{fits};
ghost use Rattle.monitor_model.specs.Proxy.{granted, open_denial};
ghost use Rattle.db_proxy.specs.Permit.{denial_at};

use okws_base::denial::Rule;
use okws_base::limit::MOST_SESSIONS;
use okws_plan::configuration::{Config, Granted, Query};
use okws_plan::event::Call;
use okws_plan::meaning::fit;

// The rule that an Open breaks first. `issued` is the incarnation to which the token was issued.
pub fn denial(issued: Option<u32>, incarnation: u32, is_live: bool, opened: u32) -> Option<Rule>
    ensures is { result ≡ open_denial issued incarnation is_live opened }
    ensures none { result ≡ None → (is_live ≡ true) × (opened < MOST_SESSIONS) }
{
    let Some(issued) = issued else {
        return Some(Rule::UnknownToken);
    };
    if issued != incarnation || !is_live {
        Some(Rule::StaleToken)
    } else if opened >= MOST_SESSIONS {
        Some(Rule::TooManySessions)
    } else {
        None
    }
}

fn is_granted(all: &[Granted], service: u16, proxy: u16, number: u16) -> bool
    ensures { result ≡ list_any (λ g. (g.service == service) && ((g.proxy == proxy) && (g.query == number))) all.now }
{
    all.iter().any(|g| g.service == service && g.proxy == proxy && g.query == number)
}

fn find_query(queries: &[Query], number: u16) -> Option<&Query>
    ensures { option_copied result ≡ find (λ x. x.number == number) queries.now }
{
    for query in queries {
        if query.number == number {
            return Some(query);
        }
    }
    None
}

fn query_of(config: &Config, proxy: u16, number: u16) -> Option<&Query>
    ensures { option_copied result ≡ query config.now proxy number }
{
    match config.proxies.as_slice().get(proxy as usize) {
        None => None,
        Some(plan) => find_query(plan.queries.as_slice(), number),
    }
}

// The query of this number, where the configuration grants it to the service.
fn granted_query(config: &Config, proxy: u16, service: u16, number: u16) -> Option<&Query>
    ensures { option_copied result ≡ granted config.now proxy service number }
{
    if is_granted(config.grants.as_slice(), service, proxy, number) {
        query_of(config, proxy, number)
    } else {
        None
    }
}

// The query that a Call may run, or the rule that it breaks first.
pub fn allowed<'a>(
    config: &'a Config,
    proxy: u16,
    call: &Call,
    is_live: bool,
    opened: u32,
) -> Result<&'a Query, Rule>
    ensures err { IfErr result (λ rule. denial_at config.now proxy call.now is_live opened ≡ Some rule) }
    ensures ok { IfOk result (λ q. (denial_at config.now proxy call.now is_live opened ≡ None) × (granted config.now proxy call.now.service call.now.query ≡ Some q.now) × (query config.now proxy call.now.query ≡ Some q.now) × (fits q.now.statement.parameters call.now.args ≡ true)) }
{
    if call.session >= opened {
        return Err(Rule::NoSession);
    }
    if !is_live {
        return Err(Rule::StaleToken);
    }
    let Some(query) = granted_query(config, proxy, call.service, call.query) else {
        return Err(Rule::QueryNotGranted);
    };
    if fit(query.statement.parameters.as_slice(), call.args.as_slice()) {
        Ok(query)
    } else {
        Err(Rule::BadArguments)
    }
}
