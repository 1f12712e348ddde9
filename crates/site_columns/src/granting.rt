//! What is installed and revoked at the columns of a site.

ghost use Rattle.std.specs.Prelude.{◌≡◌, ◌<◌, ◌≤◌, OnOk, OnErr, length};
ghost use Rattle.okws_plan.specs.Lines.{PlaceFits};
ghost use Rattle.monitor_model.specs.Launcher.{begun};
ghost use Rattle.monitor_model.specs.Script.{stands_of, last_at};
ghost use Rattle.site_columns.specs.Site.{installed_at, revoked_at, SameLasts};

use crate::columns::SiteColumns;
use monitor_model::record::Own;
use okws_plan::event::{LogEvent, ProxyEvent, PubdEvent};
use okws_plan::script::Place;
use std::alloc::AllocError;
use token_core::token;
use turn_lock::Journaled;

impl SiteColumns {
    /// Installs the greatest incarnation begun of the service at a column, where its token is that of
    /// the seed. Where memory is refused, all is as before.
    pub fn install(&mut self, service: u16, place: Place) -> Result<(), AllocError>
        requires place { PlaceFits self.old.config place }
        requires service { service < length self.old.config.services }
        requires first { 0 < begun self.old.seen.launcher service }
        requires later { last_at service place self.old.seen < begun self.old.seen.launcher service }
        ensures launcher { self.new.seen.launcher ≡ self.old.seen.launcher }
        ensures ok { OnOk result (self.new ≡ installed_at self.old service (begun self.old.seen.launcher service) place) }
        ensures err { OnErr result (self.new ≡ self.old) }
    {
        let incarnation = self.greatest(service);
        match place {
            Place::Proxy(proxy) => {
                let token = token(&self.seed, service, incarnation, proxy);
                let install = ProxyEvent::Install {
                    service,
                    incarnation,
                    token,
                };
                in_turn!(
                    self.proxies,
                    Own::Proxy(proxy, install),
                    self.proxies.install(proxy, service, incarnation, token)?
                )
            }
            Place::Pubd => {
                let install = PubdEvent::Install {
                    service,
                    incarnation,
                };
                in_turn!(
                    self.pubd,
                    Own::Pubd(install),
                    self.pubd.install(service, incarnation)?
                )
            }
            Place::Oklogd => {
                let install = LogEvent::Install {
                    service,
                    incarnation,
                };
                in_turn!(
                    self.oklogd,
                    Own::Oklogd(install),
                    self.oklogd.install(service, incarnation)?
                )
            }
        }
    }

    /// What stands of the service at a column, if anything, stands no longer. Where memory is refused,
    /// all is as before.
    pub fn revoke(&mut self, service: u16, place: Place) -> Result<(), AllocError>
        requires place { PlaceFits self.old.config place }
        requires service { service < length self.old.config.services }
        ensures lasts { SameLasts service self.old.seen self.new.seen }
        ensures ok { OnOk result (self.new ≡ revoked_at self.old service place (stands_of service place self.old.seen)) }
        ensures err { OnErr result (self.new ≡ self.old) }
    {
        let Some(incarnation) = self.standing(service, place) else {
            return Ok(());
        };
        match place {
            Place::Proxy(proxy) => {
                let revoke = ProxyEvent::Revoke {
                    service,
                    incarnation,
                };
                in_turn!(
                    self.proxies,
                    Own::Proxy(proxy, revoke),
                    self.proxies.revoke(proxy, service, incarnation)
                )
            }
            Place::Pubd => {
                let revoke = PubdEvent::Revoke {
                    service,
                    incarnation,
                };
                in_turn!(
                    self.pubd,
                    Own::Pubd(revoke),
                    self.pubd.revoke(service, incarnation)
                )
            }
            Place::Oklogd => {
                let revoke = LogEvent::Revoke {
                    service,
                    incarnation,
                };
                in_turn!(
                    self.oklogd,
                    Own::Oklogd(revoke),
                    self.oklogd.revoke(service, incarnation)
                )
            }
        }
    }

    /// The incarnation of the service that stands at a column.
    pub fn standing(&self, service: u16, place: Place) -> Option<u32>
        requires place { PlaceFits self.now.config place }
        requires service { service < length self.now.config.services }
        ensures { result ≡ stands_of service place self.now.seen }
    {
        match place {
            Place::Proxy(proxy) => self.proxies.standing(proxy, service),
            Place::Pubd => self.pubd.standing(service),
            Place::Oklogd => self.oklogd.standing(service),
        }
    }

    /// The greatest incarnation of the service that was installed at a column, 0 for none.
    pub fn last(&self, service: u16, place: Place) -> u32
        requires place { PlaceFits self.now.config place }
        requires service { service < length self.now.config.services }
        ensures { result ≡ last_at service place self.now.seen }
    {
        match place {
            Place::Proxy(proxy) => self.proxies.last(proxy, service),
            Place::Pubd => self.pubd.last(service),
            Place::Oklogd => self.oklogd.last(service),
        }
    }
}
