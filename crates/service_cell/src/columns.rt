//! What a dialog asks of the columns.

ghost use Rattle.std.specs.Prelude.{◌≡◌, ◌<◌, ℕ, List, length, IfOk, OnOk, OnErr, IsTrue, Some};
ghost use Rattle.okws_base.specs.Runs.{Each};
ghost use Rattle.okws_base.specs.declared.journal.Entry.{Entry};
ghost use Rattle.okws_outer.specs.Families.{child_named};
ghost use Rattle.okws_plan.specs.declared.event.Mark.{Mark};
ghost use Rattle.okws_plan.specs.declared.event.ProxyEvent.{ProxyEvent};
ghost use Rattle.okws_plan.specs.declared.event.ProxyEvent.TheVariants as proxied;
ghost use Rattle.okws_plan.specs.declared.event.PubdEvent.{PubdEvent};
ghost use Rattle.okws_plan.specs.declared.event.PubdEvent.TheVariants as pubd;
ghost use Rattle.okws_plan.specs.declared.event.LogEvent.{LogEvent};
ghost use Rattle.okws_plan.specs.declared.event.LogEvent.TheVariants as oklogd;
ghost use Rattle.monitor_model.specs.Proxy.{open_verdict, call_verdict};
ghost use Rattle.monitor_model.specs.Pubd.{get_verdict};
ghost use Rattle.monitor_model.specs.Logd.{log_verdict};
ghost use Rattle.okws_plan.specs.declared.statement.Answer.TheVariants.{Rows};
ghost use Rattle.started_call.specs.Starting.{verdict_of};
ghost use Rattle.monitor_model.specs.Seen.{Seen, AtProxy, AtPubd, AtLog, noted};
ghost use Rattle.service_cell.specs.Asking.{Asker, KeepsBoard, Drains, IsNextBy, IsNarrow, IsShortPush, IsShortGot};

use monitor_model::record::Own;
use monitor_model::verdict::{Got, Noted, Push, Verdict};
use okws_base::items::Items;
use okws_base::value::Token;
use okws_outer::pinned::Pinned;
use okws_outer::stream::Link;
use okws_plan::event::Call;
use started_call::Started;
use std::alloc::AllocError;

/// The columns as one worker has them. Each call enters at most one event, under the worker's number,
/// with its own item beside it; where memory is refused, nothing is entered and noted.
pub trait Columns {
    /// The answer of a call that lists rows, which is found after its entry.
    type Pin: Pinned + Drop;

    /// The site's configuration, the worker's number, and whether nobody else enters anything.
    ghost asker: { Self → Asker };

    /// The seed of the tokens that the columns issue.
    ghost token_seed: { Self → List ℕ };

    /// How many items there is room for that the worker may note without memory. No call here uses it up.
    ghost spare: { Self → ℕ };

    /// What the worker has seen of each column, and its own items.
    ghost seen: { Self → Seen };

    /// That the board may show this incarnation as the greatest that was begun of a service.
    ghost shows: { Self → ℕ → ℕ → Type 0 };

    /// That the worker may ask proxies, pubd and oklogd in the name of this incarnation of a service.
    ghost may_ask: { Self → ℕ → ℕ → Type 0 };

    /// The number of the worker, which entries name.
    fn worker(&self) -> u16
        ensures { result ≡ (asker self.now).worker };

    /// How many proxies are declared.
    fn proxies(&self) -> usize
        ensures { result ≡ length (asker self.now).config.proxies };

    /// The greatest incarnation of the service that was begun, as the board shows it; 0 for none.
    fn current(&mut self, service: u16) -> u32
        requires { service < length (asker self.old).config.services }
        ensures shown { shows self.new service result }
        ensures seen { seen self.new ≡ seen self.old }
        ensures board { KeepsBoard asker shows token_seed spare may_ask self.old self.new };

    /// Hears that the Request of a dialog with the service was just put. Nothing changes.
    fn requested(&mut self, service: u16)
        requires { service < length (asker self.old).config.services }
        ensures seen { seen self.new ≡ seen self.old }
        ensures board { KeepsBoard asker shows token_seed spare may_ask self.old self.new };

    /// Notes an own item that is no entry.
    fn note(&mut self, item: Own) -> Result<(), AllocError>
        ensures ok { OnOk result (seen self.new ≡ noted (seen self.old) item) }
        ensures err { OnErr result (seen self.new ≡ seen self.old) }
        ensures board { KeepsBoard asker shows token_seed spare may_ask self.old self.new };

    /// Notes a dialog with the incarnation, enters its Drain, and gives what is pushed.
    fn drain(&mut self, service: u16, incarnation: u32) -> Result<Vec<Push>, AllocError>
        requires service { service < length (asker self.old).config.services }
        requires may { may_ask self.old service incarnation }
        ensures ok { IfOk result (λ pushes. Drains (asker self.old) service incarnation (seen self.old) pushes.items (seen self.new)) }
        ensures short { IfOk result (λ pushes. Each IsShortPush pushes.items) }
        ensures err { OnErr result (seen self.new ≡ seen self.old) }
        ensures board { KeepsBoard asker shows token_seed spare may_ask self.old self.new };

    /// Enters an Open at a proxy, and gives its verdict.
    fn open_session(
        &mut self,
        proxy: u16,
        service: u16,
        incarnation: u32,
        shown: Token,
    ) -> Result<Verdict, AllocError>
        requires proxy { proxy < length (asker self.old).config.proxies }
        requires service { service < length (asker self.old).config.services }
        requires may { may_ask self.old service incarnation }
        ensures ok { IfOk result (λ v. (before : List (Entry ProxyEvent)) × (v ≡ open_verdict before service incarnation shown)
            × AtProxy (asker self.old).worker proxy (proxied.Open service incarnation shown) (seen self.old) before (seen self.new)) }
        ensures err { OnErr result (seen self.new ≡ seen self.old) }
        ensures next { IsTrue (asker self.old).alone → IsNextBy (asker self.old).worker (seen self.old) (seen self.new) }
        ensures board { KeepsBoard asker shows token_seed spare may_ask self.old self.new };

    /// Enters a Call at a proxy. What lists rows is ready to be found, whatever is entered since; with its
    /// rows, what is given tells the verdict of the entry.
    fn call(&mut self, proxy: u16, call: Call) -> Result<Started<Self::Pin>, AllocError>
        requires proxy { proxy < length (asker self.old).config.proxies }
        requires service { call.service < length (asker self.old).config.services }
        requires may { may_ask self.old call.service call.incarnation }
        ensures ok { IfOk result (λ s. (before : List (Entry ProxyEvent)) × (mark : Mark) × (verdict_of (λ p. Rows (Self.Pin.width p) (Self.Pin.rows p)) s ≡ call_verdict (asker self.old).config proxy before call mark)
            × AtProxy (asker self.old).worker proxy (proxied.Call call mark) (seen self.old) before (seen self.new)) }
        ensures narrow { IfOk result (λ s. IsNarrow (verdict_of (λ p. Rows (Self.Pin.width p) (Self.Pin.rows p)) s)) }
        ensures err { OnErr result (seen self.new ≡ seen self.old) }
        ensures next { IsTrue (asker self.old).alone → IsNextBy (asker self.old).worker (seen self.old) (seen self.new) }
        ensures board { KeepsBoard asker shows token_seed spare may_ask self.old self.new };

    /// Enters a Get at the template publisher, and gives what it is answered.
    fn get(&mut self, service: u16, incarnation: u32, name: Items<u8>) -> Result<Got, AllocError>
        requires service { service < length (asker self.old).config.services }
        requires may { may_ask self.old service incarnation }
        ensures ok { IfOk result (λ v. (before : List (Entry PubdEvent)) × (v ≡ get_verdict (asker self.old).config before service incarnation name)
            × AtPubd (asker self.old).worker (pubd.Get service incarnation name) (seen self.old) before (seen self.new)) }
        ensures short { IfOk result IsShortGot }
        ensures err { OnErr result (seen self.new ≡ seen self.old) }
        ensures next { IsTrue (asker self.old).alone → IsNextBy (asker self.old).worker (seen self.old) (seen self.new) }
        ensures board { KeepsBoard asker shows token_seed spare may_ask self.old self.new };

    /// Enters a Log at the log daemon, and gives what it is answered.
    fn log(&mut self, service: u16, incarnation: u32, text: Items<u8>) -> Result<Noted, AllocError>
        requires service { service < length (asker self.old).config.services }
        requires may { may_ask self.old service incarnation }
        ensures ok { IfOk result (λ v. (before : List (Entry LogEvent)) × (v ≡ log_verdict (asker self.old).config before service incarnation text)
            × AtLog (asker self.old).worker (oklogd.Log service incarnation text) (seen self.old) before (seen self.new)) }
        ensures err { OnErr result (seen self.new ≡ seen self.old) }
        ensures next { IsTrue (asker self.old).alone → IsNextBy (asker self.old).worker (seen self.old) (seen self.new) }
        ensures board { KeepsBoard asker shows token_seed spare may_ask self.old self.new };
}

/// Columns whose worker learns from a child's link that it may ask in the name of the child's incarnation.
pub trait Hears<L: Link>: Columns {
    /// Hears from the link. Nothing is entered or noted, and the link is as before.
    fn hear(&mut self, link: &mut L)
        ensures may { (s k : ℕ) → (L.wire link.old).whose ≡ Some (child_named s k) → Self.may_ask self.new s k }
        ensures seen { Self.seen self.new ≡ Self.seen self.old }
        ensures board { KeepsBoard Self.asker Self.shows Self.token_seed Self.spare Self.may_ask self.old self.new }
        ensures link { L.wire link.new ≡ L.wire link.old };
}
