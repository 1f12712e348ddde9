//! The columns of a site, as one worker at a time has them.

ghost use Rattle.std.specs.Prelude.{◌≡◌, ℕ, ◌<◌, ◌≤◌, ◌+◌, ◌∷◌, [], IfOk, IfSome, OnOk, OnErr, length};
ghost use Rattle.std.specs.Arc.{arc_value};
ghost use Rattle.okws_base.specs.declared.limit.TheConstants.{MOST_INCARNATIONS, MOST_EDITIONS, LONGEST_TEMPLATE};
ghost use Rattle.okws_plan.specs.Rules.{QueriesKeepRules};
ghost use Rattle.okws_plan.specs.Sound.{IsSound};
ghost use Rattle.okws_plan.specs.declared.event.OkdEvent.TheVariants as okd_event;
ghost use Rattle.okws_plan.specs.declared.event.PubdEvent.TheVariants as pubd_event;
ghost use Rattle.okws_plan.specs.declared.event.LauncherEvent.TheVariants as launcher_event;
ghost use Rattle.monitor_model.specs.Columns.{faults};
ghost use Rattle.monitor_model.specs.Launcher.{begun};
ghost use Rattle.monitor_model.specs.Okd.{accept_verdict};
ghost use Rattle.monitor_model.specs.Pubd.{edition};
ghost use Rattle.monitor_model.specs.Script.{goes_of};
ghost use Rattle.monitor_model.specs.Seen.{proxy_past};
ghost use Rattle.monitor_model.specs.Standing.{up_at_okd};
ghost use Rattle.site_columns.specs.Site.{unmade, made_okd, made_pubd, made_launcher, downed_at, AreBegun, SameLasts};

use crate::discard::Discard;
use crate::launches::Launches;
use crate::opening::{launcher, log_column, okd_column, pubd_column, read_names, shared};
use crate::proxies::Proxies;
use log_daemon::LogDaemon;
use monitor_model::record::{Own, Record};
use monitor_model::verdict::Way;
use okd_dispatch::Okd;
use okws_base::items::{Exact, Items};
use okws_base::journal::{Journal, Past};
use okws_base::pairing::both;
use okws_plan::configuration::Config;
use okws_plan::event::{LauncherEvent, OkdEvent, PubdEvent};
use pubd_core::Pubd;
use std::alloc::{AllocError, Global};
use std::marker::Model;
use std::sync::Arc;
use token_core::Seed;
use turn_lock::Journaled;

/// The columns of a site and the launcher's journal, with the number and the own list of the worker
/// that has them. Each call of a column is made under that number.
pub struct SiteColumns {
    pub(crate) alloc: Global,
    pub(crate) config: Arc<Config, Global>,
    pub(crate) seed: Seed,
    pub(crate) worker: u16,
    pub(crate) okd: Okd,
    pub(crate) proxies: Proxies,
    pub(crate) pubd: Pubd,
    pub(crate) oklogd: LogDaemon<Discard>,
    launches: Launches,
    pub(crate) own: Journal<Own>,
}

impl Drop for SiteColumns {
    fn drop(self) {
        let SiteColumns {
            alloc: _,
            config,
            seed: _,
            worker: _,
            okd,
            proxies,
            pubd,
            oklogd,
            launches,
            own,
        } = self;
        drop(config);
        drop(okd);
        drop(proxies);
        drop(pubd);
        drop(oklogd);
        drop(launches);
        drop(own);
    }
}

impl Model for SiteColumns {
    ghost use Rattle.std.specs.Arc.{arc_value};
    ghost use Rattle.site_columns.specs.Site.{Site, IsSite};

    ghost Value = { Site };

    ghost view = { λ a. record { config = arc_value a.config; seed = a.seed; worker = a.worker; seen = record { okd = a.okd.past; proxies = a.proxies.pasts; pubd = a.pubd.past; oklogd = a.oklogd.past; launcher = a.launches.past; own = a.own.past } } };

    ghost invariant = { λ a. IsSite (arc_value a.config) a.seed a.okd a.proxies a.pubd a.oklogd a.launches };
}

// A row of one.
fn alone<T: Drop>(alloc: Global, item: T) -> Result<Vec<T>, AllocError>
    ensures { IfOk result (λ v. v.items ≡ item ∷ []) }
{
    let mut row = Vec::new(alloc);
    row.push(item)?;
    Ok(row)
}

impl SiteColumns {
    /// The columns of a site, at which nothing happened, as number 0 has them; what happens stays in
    /// memory only where `keeps` says so. The tokens that are issued are those of the seed.
    pub fn new(
        alloc: Global,
        config: &Arc<Config, Global>,
        seed: Seed,
        keeps: bool,
    ) -> Result<Self, AllocError>
        requires sound { IsSound (arc_value config.now) }
        requires rules { (p : ℕ) → QueriesKeepRules (arc_value config.now) p }
        ensures { IfOk result (λ c. c ≡ unmade (arc_value config.now) seed) }
    {
        read_names(config);
        let kept = shared(config)?;
        let made = both(kept, okd_column(alloc, config, keeps))?;
        let made = both(made, Proxies::new(alloc, config, seed, keeps))?;
        let made = both(made, pubd_column(alloc, config, keeps))?;
        let made = both(made, log_column(alloc, config, keeps))?;
        let made = both(made, launcher(alloc, config, keeps))?;
        let (((((kept, okd), proxies), pubd), oklogd), launches) = made;
        Ok(SiteColumns {
            alloc,
            config: kept,
            seed,
            worker: 0,
            okd,
            proxies,
            pubd,
            oklogd,
            launches,
            own: Journal::new(alloc, keeps),
        })
    }

    /// The record of what was made, with one own list and with no cells.
    pub fn into_record(self) -> Result<Record, AllocError>
        ensures record { IfOk result (λ r. r ≡ record { okd = self.seen.okd; proxies = self.seen.proxies; pubd = self.seen.pubd; oklogd = self.seen.oklogd; launcher = self.seen.launcher; cells = []; sents = []; doors = []; workers = self.seen.own ∷ []; launches = [] }) }
        ensures faultless { (p : ℕ) → faults (proxy_past self.seen.proxies p) ≡ 0 }
    {
        let SiteColumns {
            alloc,
            config: _,
            seed: _,
            worker: _,
            okd,
            proxies,
            pubd,
            oklogd,
            launches,
            own,
        } = self;
        let (oklogd, _sink) = oklogd.close();
        let pasts = (okd.close(), pubd.close(), oklogd, launches.into_past());
        let pasts = both(pasts, proxies.close(alloc))?;
        let pasts = both(pasts, alone(alloc, own.into_past()))?;
        let (((okd, pubd, oklogd, launcher), proxies), workers) = pasts;
        Ok(Record {
            okd,
            proxies: Items::of(proxies),
            pubd,
            oklogd,
            launcher,
            cells: Items::of(Vec::new(alloc)),
            sents: Items::of(Vec::new(alloc)),
            doors: Items::of(Vec::new(alloc)),
            workers: Items::of(workers),
            launches: Past::of(Vec::new(alloc)),
        })
    }

    /// The greatest incarnation of the service that was begun, 0 for none.
    pub fn greatest(&self, service: u16) -> u32
        ensures is { result ≡ begun self.now.seen.launcher service }
        ensures most { result ≤ MOST_INCARNATIONS }
        ensures begun { AreBegun self.now.seen.proxies self.now.seen.pubd self.now.seen.oklogd self.now.seen.launcher }
    {
        self.launches.greatest(service)
    }

    /// The incarnation of the service that is up.
    pub fn standing_at_okd(&self, service: u16) -> Option<u32>
        ensures { result ≡ up_at_okd self.now.seen.okd service }
    {
        self.okd.standing(service)
    }

    /// The next incarnation of the service begins. Where memory is refused, all is as before.
    pub fn begin(&mut self, service: u16) -> Result<(), AllocError>
        requires service { service < length self.old.config.services }
        requires more { begun self.old.seen.launcher service < MOST_INCARNATIONS }
        ensures ok { OnOk result (self.new ≡ made_launcher self.old (launcher_event.Begun service (begun self.old.seen.launcher service + 1))) }
        ensures err { OnErr result (self.new ≡ self.old) }
    {
        let incarnation = self.launches.greatest(service) + 1;
        let begun = LauncherEvent::Begun {
            service,
            incarnation,
        };
        in_turn!(
            self.launches,
            Own::Launcher(begun),
            self.launches.begin(service)?
        )
    }

    /// The incarnation of the service is up. Where memory is refused, all is as before.
    pub fn up(&mut self, service: u16, incarnation: u32) -> Result<(), AllocError>
        requires service { service < length self.old.config.services }
        requires first { 0 < incarnation }
        ensures ok { OnOk result (self.new ≡ made_okd self.old (okd_event.Up service incarnation)) }
        ensures err { OnErr result (self.new ≡ self.old) }
    {
        let up = OkdEvent::Up {
            service,
            incarnation,
        };
        in_turn!(self.okd, Own::Okd(up), self.okd.up(service, incarnation)?)
    }

    /// What is up of the service, if anything, is down. Where memory is refused, all is as before.
    pub fn down(&mut self, service: u16) -> Result<(), AllocError>
        requires { service < length self.old.config.services }
        ensures lasts { SameLasts service self.old.seen self.new.seen }
        ensures ok { OnOk result (self.new ≡ downed_at self.old service (up_at_okd self.old.seen.okd service)) }
        ensures err { OnErr result (self.new ≡ self.old) }
    {
        let Some(incarnation) = self.okd.standing(service) else {
            return Ok(());
        };
        let down = OkdEvent::Down {
            service,
            incarnation,
        };
        in_turn!(
            self.okd,
            Own::Okd(down),
            self.okd.down(service, incarnation)
        )
    }

    /// Where a request for the path goes. Where memory is refused, all is as before.
    pub fn accept(&mut self, path: Items<u8>) -> Result<Way, AllocError>
        ensures verdict { IfOk result (λ way. way ≡ accept_verdict self.old.config self.old.seen.okd path) }
        ensures goes { IfOk result (λ way. IfSome (goes_of way) (λ (at : ℕ × ℕ). (at.0 < length self.old.config.services) × (0 < at.1))) }
        ensures ok { OnOk result (self.new ≡ made_okd self.old (okd_event.Accept path)) }
        ensures err { OnErr result (self.new ≡ self.old) }
    {
        let accept = OkdEvent::Accept(path.copy(self.alloc)?);
        in_turn!(self.okd, Own::Okd(accept), self.okd.accept(path)?)
    }

    /// How many editions of the template were published.
    pub fn edition(&self, template: u16) -> u32
        requires { template < length self.now.config.templates }
        ensures { result ≡ edition self.now.seen.pubd template }
    {
        self.pubd.edition(template)
    }

    /// Publishes an edition of a template. Where memory is refused, all is as before.
    pub fn publish(&mut self, template: u16, content: Items<u8>) -> Result<(), AllocError>
        requires template { template < length self.old.config.templates }
        requires more { edition self.old.seen.pubd template < MOST_EDITIONS }
        requires fits { length content ≤ LONGEST_TEMPLATE }
        ensures ok { OnOk result (self.new ≡ made_pubd self.old (pubd_event.Publish template content)) }
        ensures err { OnErr result (self.new ≡ self.old) }
    {
        let publish = PubdEvent::Publish {
            template,
            content: content.copy(self.alloc)?,
        };
        in_turn!(
            self.pubd,
            Own::Pubd(publish),
            self.pubd.publish_at(template, content)?
        )
    }
}
