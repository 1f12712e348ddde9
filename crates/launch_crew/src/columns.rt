//! What the launcher does at the proxies, at pubd and at oklogd.

ghost use Rattle.std.specs.Prelude.{◌≡◌, ◌<◌, ◌≤◌, ◌+◌, ℕ, List, ◌∷◌, None, OnOk, OnErr, length, if◌then◌else◌};
ghost use Rattle.okws_base.specs.Past.{last_by, standing_by};
ghost use Rattle.okws_base.specs.declared.limit.TheConstants.{MOST_INCARNATIONS, MOST_PROXIES};
ghost use Rattle.okws_plan.specs.declared.script.Place.{Place};
ghost use Rattle.okws_plan.specs.declared.script.Place.TheVariants.{Proxy, Pubd, Oklogd};
ghost use Rattle.okws_plan.specs.Configuration.{cols};
ghost use Rattle.monitor_model.specs.Launches.{install_at, with_installs, with_revoke_log, with_revoke_pubd, with_revokes, with_revokes_from};
ghost use Rattle.monitor_model.specs.Seen.{proxy_past};
ghost use Rattle.monitor_model.specs.Standing.{proxy_grant, pubd_grant, log_grant};
ghost use Rattle.launch_crew.specs.Crews.{NoneStands, StandsAt, lasts_at};
ghost use Rattle.launch_crew.specs.Acts.{InstallsAlong, InstallsAt, InstallsBoth, InstallsWhere, RevokesAt, past_at};
ghost use Rattle.launch_crew.specs.Listed.{InstallsFirst, with_revoke_at};
ghost use Rattle.launch_crew.specs.Steps.{OnlyProxies, OnlyPubd, OnlyLog, TurnsAt, RevokesRow, Revokes, Installs};

use crate::recorder::Recorder;
use monitor_model::record::Own;
use named_columns::named::Backed;
use okws_base::journal::Journal;
use okws_outer::keeper::Keeper;
use okws_outer::stream::{Link, Sink};
use okws_plan::configuration::Config;
use okws_plan::event::{LogEvent, ProxyEvent, PubdEvent};
use service_cell::tokens::may_call_at;
use site_cells::lock_names::CellNames;
use site_locks::locks::Locks;
use site_locks::named::Site;
use std::alloc::AllocError;
use std::sync::Wait;
use token_core::{Seed, token};

// Lists an item, where it was entered.
pub(crate) fn list_if(list: &mut Journal<Own>, entered: bool, item: Own)
    requires { 0 < list.old.room }
    ensures past { list.new.past ≡ (if entered then item ∷ list.old.past else list.old.past) }
    ensures room { list.old.room ≤ list.new.room + 1 }
{
    if entered {
        list.enter(item);
    }
}

impl<N: Backed, J: Site, C: CellNames, K: Keeper, S: Sink, L: Link> Recorder<N, J, C, K, S, L> {
    // Revokes what stands of the service at a proxy.
    fn revoke_at_proxy<R: Wait>(
        &mut self,
        rt: &R,
        locks: &Locks<N, J, K, S>,
        proxy: u16,
        service: u16,
    )
        requires proxy { proxy < length N.site.proxies }
        requires service { service < length N.site.services }
        requires room { 0 < self.old.room }
        ensures { RevokesAt proxy_grant (past_at proxy) (TurnsAt proxy) (with_revoke_at service proxy) service self.old self.new }
    {
        if let Some(incarnation) = self.seats.revoke_at_proxy(rt, locks, proxy, service) {
            self.own.enter(Own::Proxy(
                proxy,
                ProxyEvent::Revoke {
                    service,
                    incarnation,
                },
            ));
        }
    }

    // Revokes what stands of the service at each proxy, in order.
    fn revoke_at_proxies<R: Wait>(&mut self, rt: &R, locks: &Locks<N, J, K, S>, service: u16)
        requires service { service < length N.site.services }
        requires room { MOST_PROXIES ≤ self.old.room }
        ensures cells { self.new.watch ≡ self.old.watch }
        ensures only { OnlyProxies self.old.sat self.new.sat }
        ensures row { RevokesRow service (length N.site.proxies) self.old.sat.proxies self.new.sat.proxies }
        ensures own { self.new.own ≡ with_revokes_from service 0 (length N.site.proxies) self.old.own }
        ensures room { self.old.room ≤ self.new.room + MOST_PROXIES }
    {
        let _own = &self.own;
        for p in 0..locks.count() {
            self.revoke_at_proxy(rt, locks, p as u16, service);
        }
    }

    // Revokes what stands of the service at pubd.
    fn revoke_at_pubd<R: Wait>(&mut self, rt: &R, locks: &Locks<N, J, K, S>, service: u16)
        requires service { service < length N.site.services }
        requires room { 0 < self.old.room }
        ensures { RevokesAt pubd_grant (λ a. a.pubd) OnlyPubd (with_revoke_pubd service) service self.old self.new }
    {
        if let Some(incarnation) = self.seats.revoke_at_pubd(rt, locks, service) {
            self.own.enter(Own::Pubd(PubdEvent::Revoke {
                service,
                incarnation,
            }));
        }
    }

    // Revokes what stands of the service at oklogd.
    fn revoke_at_log<R: Wait>(&mut self, rt: &R, locks: &Locks<N, J, K, S>, service: u16)
        requires service { service < length N.site.services }
        requires room { 0 < self.old.room }
        ensures { RevokesAt log_grant (λ a. a.oklogd) OnlyLog (with_revoke_log service) service self.old self.new }
    {
        if let Some(incarnation) = self.seats.revoke_at_log(rt, locks, service) {
            self.own.enter(Own::Oklogd(LogEvent::Revoke {
                service,
                incarnation,
            }));
        }
    }

    /// Revokes what stands of the service at each proxy, at pubd and at oklogd.
    pub fn revoke<R: Wait>(&mut self, rt: &R, locks: &Locks<N, J, K, S>, service: u16)
        requires service { service < length N.site.services }
        requires room { MOST_PROXIES + 2 ≤ self.old.room }
        ensures cells { self.new.watch ≡ self.old.watch }
        ensures revokes { Revokes N.site service self.old.sat self.new.sat }
        ensures own { self.new.own ≡ with_revokes N.site service self.old.own }
        ensures room { self.old.room ≤ self.new.room + (MOST_PROXIES + 2) }
    {
        self.revoke_at_proxies(rt, locks, service);
        self.revoke_at_pubd(rt, locks, service);
        self.revoke_at_log(rt, locks, service);
    }

    // Installs the incarnation at a proxy, where nothing of the service stands. Where memory is refused,
    // nothing changes there.
    fn install_at_proxy<R: Wait>(
        &mut self,
        rt: &R,
        locks: &Locks<N, J, K, S>,
        seed: &Seed,
        proxy: u16,
        service: u16,
        incarnation: u32,
    ) -> Result<(), AllocError>
        requires proxy { proxy < length N.site.proxies }
        requires service { service < length N.site.services }
        requires most { incarnation ≤ MOST_INCARNATIONS }
        requires later { last_by proxy_grant (proxy_past self.old.sat.proxies proxy) service < incarnation }
        requires vacant { standing_by proxy_grant (proxy_past self.old.sat.proxies proxy) service ≡ None }
        requires seed { seed.now ≡ N.run_seed }
        requires room { 0 < self.old.room }
        ensures { InstallsAt proxy_grant (past_at proxy) (TurnsAt proxy) (install_at N.run_seed service incarnation (Proxy proxy)) service incarnation result self.old self.new }
    {
        let token = token(seed, service, incarnation, proxy);
        let answer = self
            .seats
            .install_at_proxy(rt, locks, proxy, service, incarnation, token);
        let event = ProxyEvent::Install {
            service,
            incarnation,
            token,
        };
        list_if(&mut self.own, answer.is_ok(), Own::Proxy(proxy, event));
        answer
    }

    // Installs the incarnation at a proxy, if the service has a grant there.
    fn install_if_granted<R: Wait>(
        &mut self,
        rt: &R,
        locks: &Locks<N, J, K, S>,
        site: &Config,
        seed: &Seed,
        proxy: u16,
        service: u16,
        incarnation: u32,
    ) -> Result<(), AllocError>
        requires proxy { proxy < length N.site.proxies }
        requires service { service < length N.site.services }
        requires most { incarnation ≤ MOST_INCARNATIONS }
        requires later { last_by proxy_grant (proxy_past self.old.sat.proxies proxy) service < incarnation }
        requires vacant { standing_by proxy_grant (proxy_past self.old.sat.proxies proxy) service ≡ None }
        requires site { site.now ≡ N.site }
        requires seed { seed.now ≡ N.run_seed }
        requires room { 0 < self.old.room }
        ensures { InstallsWhere N.site N.run_seed proxy service incarnation result self.old self.new }
    {
        if may_call_at(site, service, proxy) {
            self.install_at_proxy(rt, locks, seed, proxy, service, incarnation)
        } else {
            Ok(())
        }
    }

    // Installs the incarnation at each proxy where the service has a grant, in order.
    fn install_at_proxies<R: Wait>(
        &mut self,
        rt: &R,
        locks: &Locks<N, J, K, S>,
        site: &Config,
        seed: &Seed,
        service: u16,
        incarnation: u32,
    ) -> Result<(), AllocError>
        requires service { service < length N.site.services }
        requires most { incarnation ≤ MOST_INCARNATIONS }
        requires later { (p : ℕ) → last_by proxy_grant (proxy_past self.old.sat.proxies p) service < incarnation }
        requires vacant { (p : ℕ) → p < length N.site.proxies → standing_by proxy_grant (proxy_past self.old.sat.proxies p) service ≡ None }
        requires site { site.now ≡ N.site }
        requires seed { seed.now ≡ N.run_seed }
        requires room { MOST_PROXIES ≤ self.old.room }
        ensures { InstallsAlong N.site N.run_seed service incarnation result self.old self.new }
    {
        let _own = &self.own;
        for p in 0..locks.count() {
            self.install_if_granted(rt, locks, site, seed, p as u16, service, incarnation)?;
        }
        Ok(())
    }

    // Installs the incarnation at pubd. Where memory is refused, nothing changes there.
    fn install_at_pubd<R: Wait>(
        &mut self,
        rt: &R,
        locks: &Locks<N, J, K, S>,
        service: u16,
        incarnation: u32,
    ) -> Result<(), AllocError>
        requires service { service < length N.site.services }
        requires later { lasts_at self.old.sat Pubd service < incarnation }
        requires room { 0 < self.old.room }
        ensures { InstallsAt pubd_grant (λ a. a.pubd) OnlyPubd (install_at N.run_seed service incarnation Pubd) service incarnation result self.old self.new }
    {
        let answer = self.seats.install_at_pubd(rt, locks, service, incarnation);
        let event = PubdEvent::Install {
            service,
            incarnation,
        };
        list_if(&mut self.own, answer.is_ok(), Own::Pubd(event));
        answer
    }

    // Installs the incarnation at oklogd. Where memory is refused, nothing changes there.
    fn install_at_log<R: Wait>(
        &mut self,
        rt: &R,
        locks: &Locks<N, J, K, S>,
        service: u16,
        incarnation: u32,
    ) -> Result<(), AllocError>
        requires service { service < length N.site.services }
        requires later { lasts_at self.old.sat Oklogd service < incarnation }
        requires room { 0 < self.old.room }
        ensures { InstallsAt log_grant (λ a. a.oklogd) OnlyLog (install_at N.run_seed service incarnation Oklogd) service incarnation result self.old self.new }
    {
        let answer = self.seats.install_at_log(rt, locks, service, incarnation);
        let event = LogEvent::Install {
            service,
            incarnation,
        };
        list_if(&mut self.own, answer.is_ok(), Own::Oklogd(event));
        answer
    }

    // Installs the incarnation at pubd and at oklogd.
    fn install_at_rest<R: Wait>(
        &mut self,
        rt: &R,
        locks: &Locks<N, J, K, S>,
        service: u16,
        incarnation: u32,
    ) -> Result<(), AllocError>
        requires service { service < length N.site.services }
        requires pubd { lasts_at self.old.sat Pubd service < incarnation }
        requires oklogd { lasts_at self.old.sat Oklogd service < incarnation }
        requires room { 2 ≤ self.old.room }
        ensures { InstallsBoth N.run_seed service incarnation result self.old self.new }
    {
        self.install_at_pubd(rt, locks, service, incarnation)?;
        self.install_at_log(rt, locks, service, incarnation)
    }

    /// Installs the incarnation at each proxy where the service has a grant, at pubd and at oklogd, where
    /// nothing of the service stands.
    pub fn install<R: Wait>(
        &mut self,
        rt: &R,
        locks: &Locks<N, J, K, S>,
        site: &Config,
        seed: &Seed,
        service: u16,
        incarnation: u32,
    ) -> Result<(), AllocError>
        requires service { service < length N.site.services }
        requires most { incarnation ≤ MOST_INCARNATIONS }
        requires later { (at : Place) → lasts_at self.old.sat at service < incarnation }
        requires vacant { NoneStands N.site service self.old.sat }
        requires site { site.now ≡ N.site }
        requires seed { seed.now ≡ N.run_seed }
        requires room { MOST_PROXIES + 2 ≤ self.old.room }
        ensures cells { self.new.watch ≡ self.old.watch }
        ensures installs { Installs service incarnation self.old.sat self.new.sat }
        ensures ok { OnOk result (StandsAt N.site service incarnation self.new.sat) }
        ensures added { OnOk result (self.new.own ≡ with_installs N.run_seed service incarnation (cols N.site service) self.old.own) }
        ensures front { OnErr result ((rest : List Place) × InstallsFirst N.run_seed service incarnation (cols N.site service) rest self.old.own self.new.own) }
        ensures room { self.old.room ≤ self.new.room + (MOST_PROXIES + 2) }
    {
        self.install_at_proxies(rt, locks, site, seed, service, incarnation)?;
        self.install_at_rest(rt, locks, service, incarnation)
    }
}
