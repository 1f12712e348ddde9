//! The dialogs of a run: a request's dialog begins, bytes come from a service or end, and the cell goes
//! on while its dialog is open and its link is ready.

ghost use Rattle.std.specs.Prelude.{◌≡◌, ◌≤◌, ◌<◌, ◌+◌, None, IfOk, IfSome, OnOk, IsSome, IsTrue, ◌↔◌, length, slice_get};
ghost use Rattle.okws_base.specs.Runs.{Each};
ghost use Rattle.okws_base.specs.declared.limit.TheConstants.{LONGEST_FRAME};
ghost use Rattle.okws_plan.specs.declared.script.Line.TheVariants as line;
ghost use Rattle.http_text.specs.Response.{own_response};
ghost use Rattle.monitor_model.specs.Script.{IsReady, refusal, request_method};
ghost use Rattle.monitor_model.specs.Stage.{stand, answer_line};
ghost use Rattle.okws_outer.specs.Printing.{PrintsAs, printer};
ghost use Rattle.service_cell.specs.Exchange.{IsSpelled};
ghost use Rattle.okws_play.specs.Cells.{left_to_do};
ghost use Rattle.okws_play.specs.Printed.{closes, BeginsAs, DoesAs, RunsAs, StepsAs, item_text, items_text, last_response, newest_of, newest_text};

use crate::play::lines::{print_answer, print_heard};
use crate::play::responses::dialog_response;
use crate::play::run::Play;
use http_text::response::own_response;
use monitor_model::record::Item;
use okws_base::crash::Cause;
use okws_base::items::{Exact, Items};
use okws_outer::memory::passing::PassingLink;
use okws_outer::stream::Sink;
use okws_plan::configuration::Config;
use service_cell::answer::{Advanced, Begun};
use service_cell::cell::Cell;
use std::alloc::{AllocError, Global};

// Prints a frame that was heard.
fn print_item<O: Sink>(
    out: &mut O,
    stopped: &mut bool,
    alloc: Global,
    config: &Config,
    service: u16,
    incarnation: u32,
    item: &Item,
) -> Result<(), AllocError>
    requires { IsSpelled item.now }
    ensures { PrintsAs result (printer O.given O.faults out.old stopped.old) (printer O.given O.faults out.new stopped.new) (item_text config.now service incarnation item.now) }
{
    match item {
        Item::Heard(frame) => {
            print_heard(out, stopped, alloc, config, service, incarnation, frame)
        }
        Item::Said(_) => Ok(()),
    }
}

// Prints the frames that were heard.
fn print_items<O: Sink>(
    out: &mut O,
    stopped: &mut bool,
    alloc: Global,
    config: &Config,
    service: u16,
    incarnation: u32,
    items: &[Item],
) -> Result<(), AllocError>
    requires { Each IsSpelled items.now }
    ensures { PrintsAs result (printer O.given O.faults out.old stopped.old) (printer O.given O.faults out.new stopped.new) (items_text config.now service incarnation items.now) }
{
    for item in items {
        print_item(out, stopped, alloc, config, service, incarnation, item)?;
    }
    Ok(())
}

// Prints the frames that were heard in the last step of a cell's open dialog.
fn print_step<O: Sink>(
    out: &mut O,
    stopped: &mut bool,
    alloc: Global,
    config: &Config,
    cell: &Cell<PassingLink>,
) -> Result<(), AllocError>
    requires open { IsSome cell.now.open_dialog }
    requires spelled { Each IsSpelled (newest_of cell.now.open_dialog) }
    ensures { PrintsAs result (printer O.given O.faults out.old stopped.old) (printer O.given O.faults out.new stopped.new) (newest_text config.now cell.now) }
{
    print_items(
        out,
        stopped,
        alloc,
        config,
        cell.service(),
        cell.incarnation(),
        cell.last_items(),
    )
}

// Whether a step ended its dialog, though memory was not refused.
fn closes(advanced: Advanced) -> bool
    ensures { result ≡ closes advanced }
{
    match advanced {
        Advanced::Goes | Advanced::Crashed(Cause::Starved) => false,
        Advanced::Reply | Advanced::Superseded { .. } | Advanced::Crashed(_) => true,
    }
}

impl Play {
    // Whether a dialog is open at the service's cell that can go on: what is left begins with a whole
    // frame, or is bad, or nothing comes behind it.
    fn is_ready(&self, service: u16) -> bool
        requires { service < length self.now.config.services }
        ensures { IsTrue result ↔ (IsSome (stand self.now.stage service).open_dialog × IsReady (stand self.now.stage service)) }
    {
        let cell = self.cell(service);
        cell.open_request().is_some() && cell.ready()
    }

    // The response of the dialog that is the last event of the service's cell; no text where that is no
    // dialog.
    fn closing_response(&self, service: u16, method: &[u8]) -> Result<Vec<u8>, AllocError>
        requires { service < length self.now.config.services }
        ensures { IfOk result (λ v. v.items ≡ last_response (stand self.now.stage service).past method.now) }
    {
        match self.cell(service).last_dialog() {
            None => Ok(Vec::new(self.alloc)),
            Some(dialog) => dialog_response(self.alloc, dialog, method),
        }
    }

    // Prints the answer of a request, whose dialog is the last event of the service's cell.
    fn print_closing<O: Sink>(
        &self,
        out: &mut O,
        stopped: &mut bool,
        service: u16,
        request: u32,
    ) -> Result<(), AllocError>
        requires { service < length self.now.config.services }
        ensures { PrintsAs result (printer O.given O.faults out.old stopped.old) (printer O.given O.faults out.new stopped.new) (answer_line request (last_response (stand self.now.stage service).past (request_method (slice_get self.now.stage.requests request)))) }
    {
        let text = self.closing_response(service, self.method_of(request))?;
        print_answer(out, stopped, self.alloc, request as usize, &text)
    }

    // Prints that the service of a request is unavailable.
    pub(crate) fn print_unavailable<O: Sink>(
        &self,
        out: &mut O,
        stopped: &mut bool,
        request: u32,
    ) -> Result<(), AllocError>
        ensures { PrintsAs result (printer O.given O.faults out.old stopped.old) (printer O.given O.faults out.new stopped.new) (answer_line request (own_response 503 (request_method (slice_get self.now.stage.requests request)))) }
    {
        let text = own_response(self.alloc, 503, self.method_of(request))?;
        print_answer(out, stopped, self.alloc, request as usize, &text)
    }

    // One step of the open dialog.
    fn step<O: Sink>(
        &mut self,
        out: &mut O,
        stopped: &mut bool,
        service: u16,
    ) -> Result<(), AllocError>
        requires service { service < length self.old.config.services }
        requires open { IsSome (stand self.old.stage service).open_dialog }
        requires ready { IsReady (stand self.old.stage service) }
        ensures steps { StepsAs service self.old (printer O.given O.faults out.old stopped.old) (printer O.given O.faults out.new stopped.new) result self.new }
        ensures less { OnOk result (left_to_do (stand self.new.stage service) < left_to_do (stand self.old.stage service)) }
    {
        let cell = &mut self.cells[service as usize];
        let Some(request) = cell.open_request() else {
            unreachable!()
        };
        let advanced = cell.advance(&mut self.columns);
        if closes(advanced) {
            return self.print_closing(out, stopped, service, request);
        }
        let Advanced::Goes = advanced else {
            return Err(AllocError);
        };
        print_step(out, stopped, self.alloc, &self.config, cell)
    }

    // The cell goes on while its dialog is open and its link is ready.
    fn go_on<O: Sink>(
        &mut self,
        out: &mut O,
        stopped: &mut bool,
        service: u16,
    ) -> Result<(), AllocError>
        requires { service < length self.old.config.services }
        ensures { RunsAs service self.old (printer O.given O.faults out.old stopped.old) (printer O.given O.faults out.new stopped.new) result self.new }
    {
        'ready: while self.is_ready(service) {
            self.step(out, stopped, service)?;
        }
        Ok(())
    }

    /// `bytes`: bytes come from the service.
    pub fn bytes<O: Sink>(
        &mut self,
        out: &mut O,
        stopped: &mut bool,
        service: u16,
        bytes: &[u8],
    ) -> Result<(), AllocError>
        requires service { service < length self.old.config.services }
        requires may { refusal (line.Bytes service bytes.now) self.old.stage ≡ None }
        ensures { DoesAs (line.Bytes service bytes.now) self.old (printer O.given O.faults out.old stopped.old) (printer O.given O.faults out.new stopped.new) result self.new }
    {
        let cell = &mut self.cells[service as usize];
        cell.feed(bytes)?;
        self.go_on(out, stopped, service)
    }

    /// `end`: the service's bytes end.
    pub fn end<O: Sink>(
        &mut self,
        out: &mut O,
        stopped: &mut bool,
        service: u16,
    ) -> Result<(), AllocError>
        requires service { service < length self.old.config.services }
        requires may { refusal (line.End service) self.old.stage ≡ None }
        ensures { DoesAs (line.End service) self.old (printer O.given O.faults out.old stopped.old) (printer O.given O.faults out.new stopped.new) result self.new }
    {
        let cell = &mut self.cells[service as usize];
        cell.feed_end();
        self.go_on(out, stopped, service)
    }

    // The dialog of a request begins.
    fn begin_dialog<O: Sink>(
        &mut self,
        out: &mut O,
        stopped: &mut bool,
        number: u32,
        goes: (u16, u32),
        head: Items<u8>,
        content: Items<u8>,
    ) -> Result<(), AllocError>
        requires service { goes.0 < length self.old.config.services }
        requires wanted { 0 < goes.1 }
        requires short { length head + length content + 9 ≤ LONGEST_FRAME }
        requires closed { (stand self.old.stage goes.0).open_dialog ≡ None }
        requires asked { IfSome (slice_get self.old.stage.requests number) (λ asked. (asked.head ≡ head) × (asked.content ≡ content)) }
        requires there { IsSome (slice_get self.old.stage.requests number) }
        ensures { BeginsAs number goes.0 goes.1 self.old (printer O.given O.faults out.old stopped.old) (printer O.given O.faults out.new stopped.new) result self.new }
    {
        let (service, incarnation) = goes;
        let cell = &mut self.cells[service as usize];
        match cell.begin(number, head, content, incarnation, &mut self.columns) {
            Begun::Started => {
                print_step(out, stopped, self.alloc, &self.config, cell)?;
                self.go_on(out, stopped, service)
            }
            Begun::Missed { .. } => self.print_unavailable(out, stopped, number),
            Begun::Superseded { .. } => self.print_unavailable(out, stopped, number),
            _ => Err(AllocError),
        }
    }

    /// `dialog`: the dialog of a request begins at the cell to which it goes.
    pub fn dialog<O: Sink>(
        &mut self,
        out: &mut O,
        stopped: &mut bool,
        number: u32,
    ) -> Result<(), AllocError>
        requires { refusal (line.Dialog number) self.old.stage ≡ None }
        ensures { DoesAs (line.Dialog number) self.old (printer O.given O.faults out.old stopped.old) (printer O.given O.faults out.new stopped.new) result self.new }
    {
        let asked = &self.requests[number as usize];
        let head = asked.head(self.alloc)?;
        let content = asked.content.copy(self.alloc)?;
        let Some(goes) = asked.goes else {
            unreachable!()
        };
        self.requests[number as usize].has_begun = true;
        self.begin_dialog(out, stopped, number, goes, head, content)
    }
}
