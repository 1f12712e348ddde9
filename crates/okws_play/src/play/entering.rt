//! Events that a line enters at a column.

ghost use Rattle.std.specs.Prelude.{◌≡◌, ◌<◌, ◌≤◌, OnOk, if◌then◌else◌, length};
ghost use Rattle.okws_base.specs.declared.limit.TheConstants.{MOST_INCARNATIONS, MOST_EDITIONS, MOST_PROXIES, LONGEST_TEMPLATE};
ghost use Rattle.okws_plan.specs.Configuration.{grants_at};
ghost use Rattle.okws_plan.specs.Lines.{PlaceFits};
ghost use Rattle.okws_plan.specs.declared.event.PubdEvent.TheVariants as pubd_event;
ghost use Rattle.okws_plan.specs.declared.script.Place.TheVariants as at_column;
ghost use Rattle.monitor_model.specs.Cell.{incarnation};
ghost use Rattle.monitor_model.specs.Pubd.{edition};
ghost use Rattle.monitor_model.specs.Script.{greatest, begins, installed, revoked, downed, upped, at_pubd, last_at};
ghost use Rattle.monitor_model.specs.Stage.{stand, with_seen};
ghost use Rattle.okws_play.specs.Run.{at_stage, MayLaunch, IsOnlyAt, KeepsCells};

use crate::play::run::Play;
use okws_base::items::Items;
use okws_plan::script::Place;
use service_cell::tokens::may_call_at;
use std::alloc::AllocError;

impl Play {
    /// `begin`: the next incarnation of the service begins.
    pub fn begin(&mut self, service: u16) -> Result<(), AllocError>
        requires service { service < length self.old.config.services }
        requires more { greatest self.old.stage service < MOST_INCARNATIONS }
        ensures state { OnOk result (self.new ≡ at_stage self.old (begins service self.old.stage)) }
        ensures may { OnOk result (MayLaunch service self.new.stage) }
    {
        let _before = self.columns.greatest(service);
        self.columns.begin(service)?;
        Ok(())
    }

    /// `install`: the greatest incarnation begun is installed at a column.
    pub fn install(&mut self, service: u16, place: Place) -> Result<(), AllocError>
        requires service { service < length self.old.config.services }
        requires place { PlaceFits self.old.config place }
        requires first { 0 < greatest self.old.stage service }
        requires later { last_at service place self.old.stage.seen < greatest self.old.stage service }
        ensures { OnOk result (self.new ≡ at_stage self.old (installed self.old.seed service place self.old.stage)) }
    {
        self.columns.install(service, place)?;
        Ok(())
    }

    /// `revoke`: what stands of the service at a column, if anything, is revoked.
    pub fn revoke(&mut self, service: u16, place: Place) -> Result<(), AllocError>
        requires service { service < length self.old.config.services }
        requires place { PlaceFits self.old.config place }
        ensures state { OnOk result (self.new ≡ at_stage self.old (revoked service place self.old.stage)) }
        ensures cells { KeepsCells self.old.stage self.new.stage }
        ensures may { MayLaunch service self.old.stage → MayLaunch service self.new.stage }
    {
        self.columns.revoke(service, place)?;
        Ok(())
    }

    /// `down`: what is up of the service, if anything, is down.
    pub fn down(&mut self, service: u16) -> Result<(), AllocError>
        requires { service < length self.old.config.services }
        ensures state { OnOk result (self.new ≡ at_stage self.old (downed service self.old.stage)) }
        ensures cells { KeepsCells self.old.stage self.new.stage }
        ensures may { MayLaunch service self.old.stage → MayLaunch service self.new.stage }
    {
        self.columns.down(service)?;
        Ok(())
    }

    /// `up`: the incarnation of the service's cell is up.
    pub fn up(&mut self, service: u16) -> Result<(), AllocError>
        requires service { service < length self.old.config.services }
        requires there { 0 < incarnation (stand self.old.stage service).past }
        ensures { OnOk result (self.new ≡ at_stage self.old (upped service self.old.stage)) }
    {
        let incarnation = self.cell(service).incarnation();
        self.columns.up(service, incarnation)?;
        Ok(())
    }

    /// `publish`: a template gets its next edition.
    pub fn publish(&mut self, template: u16, content: Items<u8>) -> Result<(), AllocError>
        requires template { template < length self.old.config.templates }
        requires more { edition self.old.stage.seen.pubd template < MOST_EDITIONS }
        requires fits { length content ≤ LONGEST_TEMPLATE }
        ensures { OnOk result (self.new ≡ at_stage self.old (with_seen self.old.stage (at_pubd (pubd_event.Publish template content) self.old.stage.seen))) }
    {
        self.columns.publish(template, content)?;
        Ok(())
    }

    /// How many proxies are declared.
    pub fn proxies(&self) -> usize
        ensures is { result ≡ length self.now.config.proxies }
        ensures few { result ≤ MOST_PROXIES }
    {
        let _columns = &self.columns;
        self.config.proxies.as_slice().len()
    }

    /// The greatest incarnation begun is installed at a proxy, where the service has a grant there.
    pub fn install_if_granted(&mut self, service: u16, proxy: u16) -> Result<(), AllocError>
        requires service { service < length self.old.config.services }
        requires proxy { proxy < length self.old.config.proxies }
        requires first { 0 < greatest self.old.stage service }
        requires later { last_at service (at_column.Proxy proxy) self.old.stage.seen < greatest self.old.stage service }
        ensures state { OnOk result (self.new ≡ at_stage self.old (if grants_at self.old.config service proxy then installed self.old.seed service (at_column.Proxy proxy) self.old.stage else self.old.stage)) }
        ensures only { OnOk result (IsOnlyAt proxy service self.old.stage self.new.stage) }
    {
        if may_call_at(&self.config, service, proxy) {
            self.columns.install(service, Place::Proxy(proxy))?;
        }
        Ok(())
    }
}
