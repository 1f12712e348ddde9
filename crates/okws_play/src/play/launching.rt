//! Launches and relaunches of services.

ghost use Rattle.std.specs.Prelude.{◌≡◌, ◌<◌, OnOk, None, length, map};
ghost use Rattle.okws_base.specs.declared.limit.TheConstants.{MOST_INCARNATIONS};
ghost use Rattle.okws_plan.specs.Configuration.{proxies_of, cols, all_places, numbered_from};
ghost use Rattle.okws_plan.specs.declared.script.Place.TheVariants as at_column;
ghost use Rattle.monitor_model.specs.Cell.{incarnation, last_booted};
ghost use Rattle.monitor_model.specs.Stage.{stand};
ghost use Rattle.monitor_model.specs.Script.{greatest, begins, installed_all, revoked_all, booting_text, launched_rest, launched, relaunched, superseded_text};
ghost use Rattle.okws_outer.specs.Printing.{PrintsAs, printer};
ghost use Rattle.okws_play.specs.Run.{at_stage, down_from, MayLaunch, IsAtProxies, KeepsCells};

use crate::play::run::Play;
use okws_outer::stream::Sink;
use okws_plan::script::Place;
use std::alloc::AllocError;

impl Play {
    fn install_at_proxies(&mut self, service: u16) -> Result<(), AllocError>
        requires service { service < length self.old.config.services }
        requires may { MayLaunch service self.old.stage }
        ensures state { OnOk result (self.new ≡ at_stage self.old (installed_all self.old.seed service (map at_column.Proxy (proxies_of self.old.config service)) self.old.stage)) }
        ensures only { OnOk result (IsAtProxies self.old.stage self.new.stage) }
    {
        for i in 0..self.proxies() {
            self.install_if_granted(service, i as u16)?;
        }
        Ok(())
    }

    fn install_all(&mut self, service: u16) -> Result<(), AllocError>
        requires service { service < length self.old.config.services }
        requires may { MayLaunch service self.old.stage }
        ensures state { OnOk result (self.new ≡ at_stage self.old (installed_all self.old.seed service (cols self.old.config service) self.old.stage)) }
        ensures cells { OnOk result (KeepsCells self.old.stage self.new.stage) }
    {
        self.install_at_proxies(service)?;
        self.install(service, Place::Pubd)?;
        self.install(service, Place::Oklogd)?;
        Ok(())
    }

    fn revoke_at_proxies(&mut self, service: u16) -> Result<(), AllocError>
        requires service { service < length self.old.config.services }
        requires may { MayLaunch service self.old.stage }
        ensures state { OnOk result (self.new ≡ at_stage self.old (revoked_all service (map at_column.Proxy (numbered_from 0 (length self.old.config.proxies))) self.old.stage)) }
        ensures cells { OnOk result (KeepsCells self.old.stage self.new.stage) }
        ensures may { OnOk result (MayLaunch service self.new.stage) }
    {
        for i in 0..self.proxies() {
            self.revoke(service, Place::Proxy(i as u16))?;
        }
        Ok(())
    }

    fn revoke_all(&mut self, service: u16) -> Result<(), AllocError>
        requires service { service < length self.old.config.services }
        requires may { MayLaunch service self.old.stage }
        ensures state { OnOk result (self.new ≡ at_stage self.old (revoked_all service (all_places self.old.config) self.old.stage)) }
        ensures cells { OnOk result (KeepsCells self.old.stage self.new.stage) }
        ensures may { OnOk result (MayLaunch service self.new.stage) }
    {
        self.revoke_at_proxies(service)?;
        self.revoke(service, Place::Pubd)?;
        self.revoke(service, Place::Oklogd)?;
        Ok(())
    }

    // The rest of a launch, once the next incarnation has begun.
    fn launch_rest<O: Sink>(
        &mut self,
        out: &mut O,
        stopped: &mut bool,
        service: u16,
    ) -> Result<(), AllocError>
        requires service { service < length self.old.config.services }
        requires may { MayLaunch service self.old.stage }
        ensures state { OnOk result (self.new ≡ at_stage self.old (launched_rest self.old.config self.old.seed service self.old.stage)) }
        ensures printed { PrintsAs result (printer O.given O.faults out.old stopped.old) (printer O.given O.faults out.new stopped.new) (booting_text self.old.config self.old.seed service self.old.stage) }
    {
        self.install_all(service)?;
        self.boot(out, stopped, service)?;
        self.up(service)?;
        Ok(())
    }

    /// `launch`: begin, install along the service's columns, boot, up.
    pub fn launch<O: Sink>(
        &mut self,
        out: &mut O,
        stopped: &mut bool,
        service: u16,
    ) -> Result<(), AllocError>
        requires service { service < length self.old.config.services }
        requires more { greatest self.old.stage service < MOST_INCARNATIONS }
        ensures state { OnOk result (self.new ≡ at_stage self.old (launched self.old.config self.old.seed service self.old.stage)) }
        ensures printed { PrintsAs result (printer O.given O.faults out.old stopped.old) (printer O.given O.faults out.new stopped.new) (booting_text self.old.config self.old.seed service (begins service self.old.stage)) }
    {
        self.begin(service)?;
        self.launch_rest(out, stopped, service)?;
        Ok(())
    }

    // What stands of the service is taken down, once the next incarnation has begun.
    fn take_down<O: Sink>(
        &mut self,
        out: &mut O,
        stopped: &mut bool,
        service: u16,
    ) -> Result<(), AllocError>
        requires service { service < length self.old.config.services }
        requires may { MayLaunch service self.old.stage }
        ensures state { OnOk result (self.new ≡ at_stage self.old (down_from self.old.config service self.old.stage)) }
        ensures printed { PrintsAs result (printer O.given O.faults out.old stopped.old) (printer O.given O.faults out.new stopped.new) (superseded_text service (stand self.old.stage service).open_dialog self.old.stage) }
        ensures closed { OnOk result ((stand self.new.stage service).open_dialog ≡ None) }
        ensures launcher { OnOk result (self.new.stage.seen.launcher ≡ self.old.stage.seen.launcher) }
        ensures may { OnOk result (MayLaunch service self.new.stage) }
    {
        self.down(service)?;
        self.revoke_all(service)?;
        self.supersede(out, stopped, service)?;
        self.retire(service)?;
        Ok(())
    }

    /// `relaunch`: begin, down, revoke everywhere, the cell retired, and then the rest of a launch.
    pub fn relaunch<O: Sink>(
        &mut self,
        out: &mut O,
        stopped: &mut bool,
        service: u16,
    ) -> Result<(), AllocError>
        requires service { service < length self.old.config.services }
        requires more { greatest self.old.stage service < MOST_INCARNATIONS }
        ensures state { OnOk result (self.new ≡ at_stage self.old (relaunched self.old.config self.old.seed service self.old.stage)) }
        ensures printed { PrintsAs result (printer O.given O.faults out.old stopped.old) (printer O.given O.faults out.new stopped.new) (booting_text self.old.config self.old.seed service (begins service self.old.stage)) }
    {
        self.begin(service)?;
        self.take_down(out, stopped, service)?;
        self.launch_rest(out, stopped, service)?;
        Ok(())
    }
}
