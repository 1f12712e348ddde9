//! Dialogs that are superseded, and cells that are retired and booted.

ghost use Rattle.std.specs.Prelude.{◌≡◌, ◌<◌, ◌≤◌, IfOk, OnOk, None, length};
ghost use Rattle.okws_base.specs.declared.limit.TheConstants.{MOST_INCARNATIONS};
ghost use Rattle.frame_codec.specs.Spelling.{HasSpelling};
ghost use Rattle.monitor_model.specs.Cell.{boot_frame, incarnation, last_booted};
ghost use Rattle.monitor_model.specs.Script.{greatest, retired, superseded, superseded_text, freshly_booted, boot_text, booted, booting_text};
ghost use Rattle.monitor_model.specs.Stage.{heard_line, stand};
ghost use Rattle.okws_outer.specs.Printing.{PrintsAs, printer};
ghost use Rattle.okws_play.specs.Run.{at_stage, MayLaunch};

use crate::play::cells::boot_cell;
use crate::play::lines::line_of_heard;
use crate::play::run::Play;
use frame_codec::frame::ServerFrame;
use frame_codec::making::boot;
use monitor_model::record::Own;
use okws_base::items::Items;
use okws_outer::printing::print;
use okws_outer::stream::Sink;
use service_cell::columns::Columns;
use service_cell::tokens::tokens_of;
use std::alloc::AllocError;

impl Play {
    /// The cell is retired, where it has an incarnation.
    pub fn retire(&mut self, service: u16) -> Result<(), AllocError>
        requires service { service < length self.old.config.services }
        requires closed { (stand self.old.stage service).open_dialog ≡ None }
        ensures state { OnOk result (self.new ≡ at_stage self.old (retired service self.old.stage)) }
        ensures launcher { OnOk result (self.new.stage.seen.launcher ≡ self.old.stage.seen.launcher) }
        ensures booted { OnOk result (last_booted (stand self.new.stage service).past ≡ last_booted (stand self.old.stage service).past) }
        ensures empty { OnOk result (incarnation (stand self.new.stage service).past ≡ 0) }
        ensures closed { OnOk result ((stand self.new.stage service).open_dialog ≡ None) }
        ensures may { MayLaunch service self.old.stage → OnOk result (MayLaunch service self.new.stage) }
    {
        let cell = &mut self.cells[service as usize];
        if cell.incarnation() == 0 {
            return Ok(());
        }
        self.columns.note(Own::Retired(service))?;
        cell.discard();
        Ok(())
    }

    /// An open dialog of the service, if any, ends as superseded, and its request is answered.
    pub fn supersede<O: Sink>(
        &mut self,
        out: &mut O,
        stopped: &mut bool,
        service: u16,
    ) -> Result<(), AllocError>
        requires service { service < length self.old.config.services }
        requires later { last_booted (stand self.old.stage service).past < greatest self.old.stage service }
        ensures state { OnOk result (self.new ≡ at_stage self.old (superseded service self.old.stage)) }
        ensures launcher { OnOk result (self.new.stage.seen.launcher ≡ self.old.stage.seen.launcher) }
        ensures booted { OnOk result (last_booted (stand self.new.stage service).past ≡ last_booted (stand self.old.stage service).past) }
        ensures printed { PrintsAs result (printer O.given O.faults out.old stopped.old) (printer O.given O.faults out.new stopped.new) (superseded_text service (stand self.old.stage service).open_dialog self.old.stage) }
        ensures closed { OnOk result ((stand self.new.stage service).open_dialog ≡ None) }
        ensures may { MayLaunch service self.old.stage → OnOk result (MayLaunch service self.new.stage) }
    {
        let shown = self.columns.greatest(service);
        let cell = &mut self.cells[service as usize];
        let Some(request) = cell.open_request() else {
            return Ok(());
        };
        cell.supersede(shown);
        self.print_unavailable(out, stopped, request)
    }

    // The Boot frame of an incarnation.
    fn boot_frame(&self, service: u16, incarnation: u32) -> Result<ServerFrame, AllocError>
        requires first { 0 < incarnation }
        requires most { incarnation ≤ MOST_INCARNATIONS }
        ensures frame { IfOk result (λ f. f ≡ boot_frame self.now.config self.now.seed service incarnation) }
        ensures spelling { IfOk result (λ f. HasSpelling f) }
    {
        let tokens = tokens_of(self.alloc, &self.config, &self.seed, service, incarnation)?;
        Ok(boot(service, incarnation, Items::of(tokens)))
    }

    // The line that tells of the Boot frame of an incarnation.
    fn boot_line(&self, service: u16, incarnation: u32) -> Result<Vec<u8>, AllocError>
        requires first { 0 < incarnation }
        requires most { incarnation ≤ MOST_INCARNATIONS }
        ensures { IfOk result (λ v. v.items ≡ heard_line self.now.config service incarnation (boot_frame self.now.config self.now.seed service incarnation)) }
    {
        let frame = self.boot_frame(service, incarnation)?;
        line_of_heard(self.alloc, &self.config, service, incarnation, &frame)
    }

    /// The cell's fresh link gets Boot of the greatest incarnation begun.
    pub fn boot_freshly<O: Sink>(
        &mut self,
        out: &mut O,
        stopped: &mut bool,
        service: u16,
    ) -> Result<(), AllocError>
        requires service { service < length self.old.config.services }
        requires closed { (stand self.old.stage service).open_dialog ≡ None }
        requires empty { incarnation (stand self.old.stage service).past ≡ 0 }
        requires later { last_booted (stand self.old.stage service).past < greatest self.old.stage service }
        ensures state { OnOk result (self.new ≡ at_stage self.old (freshly_booted service self.old.stage)) }
        ensures printed { PrintsAs result (printer O.given O.faults out.old stopped.old) (printer O.given O.faults out.new stopped.new) (boot_text self.old.config self.old.seed service self.old.stage) }
        ensures there { OnOk result (0 < incarnation (stand self.new.stage service).past) }
    {
        let incarnation = self.columns.greatest(service);
        let line = self.boot_line(service, incarnation)?;
        boot_cell(self.alloc, &mut self.cells[service as usize], incarnation)?;
        self.columns.note(Own::Boot {
            service,
            incarnation,
        })?;
        print(out, stopped, &line);
        Ok(())
    }

    /// `boot`: an open dialog of the service ends as superseded; the cell is retired; a fresh link gets
    /// Boot of the greatest incarnation begun.
    pub fn boot<O: Sink>(
        &mut self,
        out: &mut O,
        stopped: &mut bool,
        service: u16,
    ) -> Result<(), AllocError>
        requires service { service < length self.old.config.services }
        requires later { last_booted (stand self.old.stage service).past < greatest self.old.stage service }
        ensures state { OnOk result (self.new ≡ at_stage self.old (booted service self.old.stage)) }
        ensures printed { PrintsAs result (printer O.given O.faults out.old stopped.old) (printer O.given O.faults out.new stopped.new) (booting_text self.old.config self.old.seed service self.old.stage) }
        ensures there { OnOk result (0 < incarnation (stand self.new.stage service).past) }
    {
        self.supersede(out, stopped, service)?;
        self.retire(service)?;
        self.boot_freshly(out, stopped, service)?;
        Ok(())
    }
}
