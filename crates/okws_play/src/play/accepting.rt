//! Requests that are accepted.

ghost use Rattle.std.specs.Prelude.{◌≡◌, ℕ, ◌<◌, ◌≤◌, ◌+◌, ◌*◌, IfOk, IfSome, OnOk, IsSome, length};
ghost use Rattle.http_text.specs.Target.{path, path_of};
ghost use Rattle.okws_base.specs.declared.limit.TheConstants.{LONGEST_CONTENT, LONGEST_PATH};
ghost use Rattle.monitor_model.specs.Okd.{accept_verdict};
ghost use Rattle.okws_plan.specs.declared.event.OkdEvent.TheVariants as okd_event;
ghost use Rattle.monitor_model.specs.Script.{at_okd, goes_of, way_text};
ghost use Rattle.monitor_model.specs.Stage.{method_text, with_seen};
ghost use Rattle.okws_outer.specs.Printing.{PrintsAs, printer};
ghost use Rattle.okws_play.specs.Cells.{FitsRequest};
ghost use Rattle.okws_play.specs.Run.{at_stage, accept_made, with_request};

use crate::play::lines::print_way;
use crate::play::request::{Request, asked, method_name};
use crate::play::run::Play;
use http_text::target::path_of;
use monitor_model::verdict::Way;
use okws_base::items::{Items, copies};
use okws_outer::stream::Sink;
use okws_plan::script::Method;
use std::alloc::{AllocError, Global};

// The path of a target.
fn path_in(target: &[u8]) -> &[u8]
    requires { IsSome (path_of target.now) }
    ensures { result.now ≡ path target.now }
{
    path_of(target).unwrap()
}

fn path_items(alloc: Global, target: &[u8]) -> Result<Items<u8>, AllocError>
    requires { IsSome (path_of target.now) }
    ensures { IfOk result (λ p. p ≡ path target.now) }
{
    let bytes = copies(alloc, path_in(target))?;
    Ok(Items::of(bytes))
}

impl Play {
    // Enters the Accept of a path, and tells where its request goes.
    fn enter_accept(&mut self, path: Items<u8>) -> Result<Way, AllocError>
        ensures verdict { IfOk result (λ way. way ≡ accept_verdict self.old.config self.old.stage.seen.okd path) }
        ensures goes { IfOk result (λ way. IfSome (goes_of way) (λ (at : ℕ × ℕ). (at.0 < length self.old.config.services) × (0 < at.1))) }
        ensures state { OnOk result (self.new ≡ at_stage self.old (with_seen self.old.stage (at_okd (okd_event.Accept path) self.old.stage.seen))) }
    {
        let _columns = &self.columns;
        self.columns.accept(path)
    }

    // Adds a request behind the others.
    fn add_request(&mut self, request: Request) -> Result<(), AllocError>
        requires { FitsRequest self.old.config request }
        ensures { OnOk result (self.new ≡ at_stage self.old (with_request request self.old.stage)) }
    {
        self.requests.push(request)?;
        Ok(())
    }

    // How many requests there are.
    fn request_count(&self) -> usize
        ensures { result ≡ length self.now.stage.requests }
    {
        self.requests.len()
    }

    /// `accept`: the next request. One that goes to nobody is answered at once.
    pub fn accept<O: Sink>(
        &mut self,
        out: &mut O,
        stopped: &mut bool,
        method: Method,
        target: Items<u8>,
        content: Items<u8>,
    ) -> Result<(), AllocError>
        requires taken { IsSome (path_of target) }
        requires short { length target ≤ 2 * LONGEST_PATH + 1 }
        requires fits { length content ≤ LONGEST_CONTENT }
        ensures state { OnOk result (self.new ≡ at_stage self.old (accept_made self.old.config method target content self.old.stage)) }
        ensures printed { PrintsAs result (printer O.given O.faults out.old stopped.old) (printer O.given O.faults out.new stopped.new) (way_text (length self.old.stage.requests) (accept_verdict self.old.config self.old.stage.seen.okd (path target)) (method_text method)) }
    {
        let alloc = self.alloc;
        let number = self.request_count();
        let path = path_items(alloc, target.as_slice())?;
        let way = self.enter_accept(path)?;
        self.add_request(asked(method, target, content, way))?;
        print_way(out, stopped, alloc, number, way, method_name(method))
    }
}
