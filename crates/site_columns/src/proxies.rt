//! The columns of a site's database proxies.

ghost use Rattle.std.specs.Prelude.{◌≡◌, ℕ, ◌<◌, ◌≤◌, [], OnOk, OnErr, IfOk, Some, length, replicate};
ghost use Rattle.std.specs.Arc.{arc_value};
ghost use Rattle.okws_base.specs.Past.{standing_by, last_by};
ghost use Rattle.okws_base.specs.declared.limit.TheConstants.{MOST_SERVICES, MOST_PROXIES};
ghost use Rattle.okws_plan.specs.Rules.{QueriesKeepRules};
ghost use Rattle.monitor_model.specs.Columns.{faults};
ghost use Rattle.okws_plan.specs.declared.event.Mark.{Mark};
ghost use Rattle.okws_plan.specs.declared.event.ProxyEvent.TheVariants as event;
ghost use Rattle.okws_plan.specs.declared.statement.Answer.TheVariants.{Rows};
ghost use Rattle.monitor_model.specs.Seen.{proxy_past};
ghost use Rattle.monitor_model.specs.Standing.{proxy_grant};
ghost use Rattle.monitor_model.specs.Proxy.{open_verdict, call_verdict};
ghost use Rattle.started_call.specs.Starting.{verdict_of};
ghost use Rattle.token_core.specs.Token.{token_of};
ghost use Rattle.site_columns.specs.Proxies.{entered_at};

use crate::opening::proxy_column;
use db_proxy::Proxy;
use index_keeper::{IndexKeeper, IndexPin};
use monitor_model::verdict::Verdict;
use okws_base::journal::{Entry, Past};
use okws_base::value::Token;
use okws_outer::pinned::Pinned;
use okws_plan::configuration::Config;
use okws_plan::event::{Call, Mark, ProxyEvent};
use started_call::Started;
use std::alloc::{AllocError, Global};
use std::marker::Model;
use std::sync::Arc;
use token_core::Seed;
use turn_lock::Journaled;

/// The columns of all proxies of a site, by number. A column is called under the holder's number.
pub struct Proxies {
    config: Arc<Config, Global>,
    // The seed of the tokens that are issued.
    seed: Seed,
    holder: u16,
    columns: Vec<Proxy<IndexKeeper>>,
}

impl Drop for Proxies {
    fn drop(self) {
        let Proxies {
            config,
            seed: _,
            holder: _,
            columns,
        } = self;
        drop(config);
        drop(columns);
    }
}

impl Model for Proxies {
    ghost use Rattle.std.specs.Arc.{arc_value};
    ghost use Rattle.site_columns.specs.Proxies.{Pasts, pasts_of, AreFrom};

    ghost Value = { Pasts };

    ghost view = { λ a. record { config = arc_value a.config; seed = a.seed; holder = a.holder; pasts = pasts_of a.columns.items } };

    ghost invariant = { λ a. AreFrom (arc_value a.config) a.seed 0 a.columns.items };
}

impl Proxies {
    /// The columns of all proxies, at which nothing happened, which keep their entries in memory or not.
    /// The tokens that are issued are those of the seed. New entries name number 0 until `hold`.
    pub fn new(
        alloc: Global,
        config: &Arc<Config, Global>,
        seed: Seed,
        keeps: bool,
    ) -> Result<Self, AllocError>
        requires proxies { length (arc_value config.now).proxies ≤ MOST_PROXIES }
        requires services { length (arc_value config.now).services ≤ MOST_SERVICES }
        requires rules { (p : ℕ) → QueriesKeepRules (arc_value config.now) p }
        ensures { IfOk result (λ c. c ≡ record { config = arc_value config.now; seed = seed; holder = 0; pasts = replicate (length (arc_value config.now).proxies) [] }) }
    {
        let mut columns = Vec::new(alloc);
        for i in 0..config.proxies.as_slice().len() {
            columns.push(proxy_column(alloc, config, &seed, i as u16, keeps)?)?;
        }
        Ok(Proxies {
            config: config.clone()?,
            seed,
            holder: 0,
            columns,
        })
    }

    /// Has new entries name this number.
    pub fn hold(&mut self, number: u16)
        ensures { self.new ≡ record self.old { holder = number } }
    {
        self.holder = number;
    }

    /// What was entered at each proxy, of which no Call is marked Fault.
    pub fn close(self, alloc: Global) -> Result<Vec<Past<Entry<ProxyEvent>>>, AllocError>
        ensures pasts { IfOk result (λ v. v.items ≡ self.pasts) }
        ensures faultless { (p : ℕ) → faults (proxy_past self.pasts p) ≡ 0 }
    {
        let Proxies {
            config: _,
            seed: _,
            holder: _,
            columns,
        } = self;
        let mut pasts = Vec::new(alloc);
        for column in columns {
            let (past, _keeper) = column.close();
            pasts.push(past)?;
        }
        Ok(pasts)
    }

    /// The incarnation of the service that stands at a proxy.
    pub fn standing(&self, proxy: u16, service: u16) -> Option<u32>
        requires proxy { proxy < length self.now.pasts }
        requires service { service < length self.now.config.services }
        ensures { result ≡ standing_by proxy_grant (proxy_past self.now.pasts proxy) service }
    {
        let column = &self.columns[proxy as usize];
        column.standing(service)
    }

    /// The greatest incarnation of the service that was installed at a proxy, 0 for none.
    pub fn last(&self, proxy: u16, service: u16) -> u32
        requires proxy { proxy < length self.now.pasts }
        requires service { service < length self.now.config.services }
        ensures { result ≡ last_by proxy_grant (proxy_past self.now.pasts proxy) service }
    {
        let column = &self.columns[proxy as usize];
        column.last(service)
    }

    /// Has the incarnation stand at a proxy, with its token there. Where memory is refused, all is as
    /// before.
    pub fn install(
        &mut self,
        proxy: u16,
        service: u16,
        incarnation: u32,
        token: Token,
    ) -> Result<(), AllocError>
        requires proxy { proxy < length self.old.pasts }
        requires service { service < length self.old.config.services }
        requires later { last_by proxy_grant (proxy_past self.old.pasts proxy) service < incarnation }
        requires token { token ≡ token_of self.old.seed service incarnation proxy }
        ensures ok { OnOk result (self.new ≡ entered_at self.old proxy (event.Install service incarnation token)) }
        ensures err { OnErr result (self.new ≡ self.old) }
    {
        let column = &mut self.columns[proxy as usize];
        column.hold(self.holder);
        column.install(service, incarnation, token)
    }

    /// Has the incarnation that stands at a proxy stand no longer.
    pub fn revoke(&mut self, proxy: u16, service: u16, incarnation: u32)
        requires proxy { proxy < length self.old.pasts }
        requires service { service < length self.old.config.services }
        requires stands { standing_by proxy_grant (proxy_past self.old.pasts proxy) service ≡ Some incarnation }
        ensures { self.new ≡ entered_at self.old proxy (event.Revoke service incarnation) }
    {
        let column = &mut self.columns[proxy as usize];
        column.hold(self.holder);
        column.revoke(service, incarnation);
    }

    /// Opens a session at a proxy, or says which rule that breaks. Where memory is refused, all is as
    /// before.
    pub fn open_session(
        &mut self,
        proxy: u16,
        service: u16,
        incarnation: u32,
        shown: Token,
    ) -> Result<Verdict, AllocError>
        requires proxy { proxy < length self.old.pasts }
        requires service { service < length self.old.config.services }
        ensures verdict { IfOk result (λ v. v ≡ open_verdict (proxy_past self.old.pasts proxy) service incarnation shown) }
        ensures ok { OnOk result (self.new ≡ entered_at self.old proxy (event.Open service incarnation shown)) }
        ensures err { OnErr result (self.new ≡ self.old) }
    {
        let column = &mut self.columns[proxy as usize];
        column.hold(self.holder);
        column.open_session(service, incarnation, shown)
    }

    /// Decides a call at a proxy, and enters it; what lists rows is found later. Where memory is refused,
    /// all is as before.
    pub fn start(&mut self, proxy: u16, call: Call) -> Result<Started<IndexPin>, AllocError>
        requires proxy { proxy < length self.old.pasts }
        requires service { call.service < length self.old.config.services }
        ensures verdict { IfOk result (λ s. verdict_of (λ p. Rows (⟦<IndexPin as Pinned>⟧.width p) (⟦<IndexPin as Pinned>⟧.rows p)) s ≡ call_verdict self.old.config proxy (proxy_past self.old.pasts proxy) call Mark.Done) }
        ensures ok { OnOk result (self.new ≡ entered_at self.old proxy (event.Call call Mark.Done)) }
        ensures err { OnErr result (self.new ≡ self.old) }
    {
        let column = &mut self.columns[proxy as usize];
        column.hold(self.holder);
        column.start(call)
    }
}
