//! What a number does at the proxies.

ghost use Rattle.std.specs.Prelude.{◌≡◌, ◌<◌, List, IfOk, OnOk, OnErr, length, None};
ghost use Rattle.okws_base.specs.Past.{standing_by, last_by};
ghost use Rattle.okws_base.specs.declared.journal.Entry.{Entry};
ghost use Rattle.okws_plan.specs.declared.event.Mark.{Mark};
ghost use Rattle.okws_plan.specs.declared.event.ProxyEvent.{ProxyEvent};
ghost use Rattle.okws_plan.specs.declared.event.ProxyEvent.TheVariants as event;
ghost use Rattle.okws_plan.specs.declared.statement.Answer.TheVariants.{Rows};
ghost use Rattle.monitor_model.specs.Proxy.{open_verdict};
ghost use Rattle.monitor_model.specs.Seen.{proxy_past};
ghost use Rattle.monitor_model.specs.Standing.{proxy_grant};
ghost use Rattle.named_columns.specs.Asked.{IsInstalledAt};
ghost use Rattle.service_cell.specs.Asking.{IsNarrow};
ghost use Rattle.started_call.specs.Starting.{verdict_of};
ghost use Rattle.token_core.specs.Token.{token_of};
ghost use Rattle.named_columns.specs.Calls.{Answered};
ghost use Rattle.site_locks.specs.Calls.{mark_of};
ghost use Rattle.site_locks.specs.Sat.{AreSeats, sat_of};
ghost use Rattle.site_locks.specs.Steps.{NotesProxy, EntersProxy, SeesProxy, RevokesProxy};
ghost use Rattle.named_columns.specs.Turns.{Stays};

use crate::locks::{Locks, Seats};
use crate::named::Site;
use monitor_model::record::Own;
use monitor_model::verdict::Verdict;
use named_columns::named::Backed;
use named_columns::proxy_turn;
use okws_base::items::Exact;
use okws_base::value::Token;
use okws_outer::gate::Gate;
use okws_outer::keeper::Keeper;
use okws_outer::pinned::Pinned;
use okws_outer::stream::Sink;
use okws_plan::event::{Call, Mark, ProxyEvent};
use started_call::Started;
use std::alloc::{AllocError, Global};
use std::sync::Wait;

// A call that says the same.
fn copy_of_call(alloc: Global, call: &Call) -> Result<Call, AllocError>
    ensures { IfOk result (λ c. c ≡ call.now) }
{
    Ok(Call {
        service: call.service,
        incarnation: call.incarnation,
        session: call.session,
        query: call.query,
        args: call.args.copy(alloc)?,
    })
}

// The mark of a call that was answered so: a fault where it failed.
fn mark_of<P>(started: &Started<P>) -> Mark
    ensures { result ≡ mark_of started.now }
{
    match started {
        Started::Failed => Mark::Fault,
        Started::Ready(_) | Started::Changed(_) | Started::Duplicate | Started::Denied(_) =>
            Mark::Done,
    }
}

impl<N: Backed, J: Site, K: Keeper, S: Sink> Seats<N, J, K, S> {
    /// Opens a session at a proxy, or says which rule that breaks. The number has seen the incarnation
    /// installed there, where its service has a grant. Where memory is refused, nothing is entered.
    pub fn open_session<R: Wait>(
        &mut self,
        rt: &R,
        locks: &Locks<N, J, K, S>,
        proxy: u16,
        service: u16,
        incarnation: u32,
        shown: Token,
    ) -> Result<Verdict, AllocError>
        requires proxy { proxy < length N.site.proxies }
        requires service { service < length N.site.services }
        requires installed { IsInstalledAt N.site proxy (proxy_past self.old.proxies proxy) service incarnation }
        ensures ok { IfOk result (λ v. (before : List (Entry ProxyEvent)) × (v ≡ open_verdict before service incarnation shown) × NotesProxy proxy (event.Open service incarnation shown) before self.old self.new) }
        ensures err { OnErr result ((before : List (Entry ProxyEvent)) × SeesProxy proxy before self.old self.new) }
    {
        self.own.make_room(self.spare as usize + 1)?;
        let turn = &locks.proxies[proxy as usize];
        let seat = &mut self.proxies[proxy as usize];
        let verdict = proxy_turn::open_session(rt, turn, seat, service, incarnation, shown)?;
        self.own.enter(Own::Proxy(
            proxy,
            ProxyEvent::Open {
                service,
                incarnation,
                shown,
            },
        ));
        Ok(verdict)
    }

    /// Decides a call at a proxy, and enters it. The number has seen the incarnation installed there, where
    /// its service has a grant. The call is marked as a fault where its keeper failed. Rows are found when the proxy's turn was given back. Where memory is refused, nothing is entered.
    pub fn start<R: Wait, G: Gate>(
        &mut self,
        rt: &R,
        gate: &G,
        locks: &Locks<N, J, K, S>,
        proxy: u16,
        call: Call,
    ) -> Result<Started<K::Pin>, AllocError>
        requires proxy { proxy < length N.site.proxies }
        requires service { call.service < length N.site.services }
        requires installed { IsInstalledAt N.site proxy (proxy_past self.old.proxies proxy) call.service call.incarnation }
        ensures ok { IfOk result (λ s. (before : List (Entry ProxyEvent)) × (mark : Mark) × Answered N.site N.tells N.steady proxy before call mark (verdict_of (λ p. Rows (K.Pin.width p) (K.Pin.rows p)) s) × NotesProxy proxy (event.Call call mark) before self.old self.new) }
        ensures narrow { IfOk result (λ s. IsNarrow (verdict_of (λ p. Rows (K.Pin.width p) (K.Pin.rows p)) s)) }
        ensures err { OnErr result ((before : List (Entry ProxyEvent)) × SeesProxy proxy before self.old self.new) }
    {
        self.own.make_room(self.spare as usize + 1)?;
        let copy = copy_of_call(self.alloc, &call)?;
        let turn = &locks.proxies[proxy as usize];
        let seat = &mut self.proxies[proxy as usize];
        let started = proxy_turn::start(rt, gate, proxy, turn, seat, call)?;
        let called = ProxyEvent::Call(copy, mark_of(&started));
        self.own.enter(Own::Proxy(proxy, called));
        Ok(started)
    }

    /// The launcher installs an incarnation at a proxy, where it has seen that nothing of the service stands,
    /// with its token there, and notes nothing here. Where memory is refused, nothing is entered.
    pub fn install_at_proxy<R: Wait>(
        &mut self,
        rt: &R,
        locks: &Locks<N, J, K, S>,
        proxy: u16,
        service: u16,
        incarnation: u32,
        token: Token,
    ) -> Result<(), AllocError>
        requires launcher { self.old.number ≡ N.launcher }
        requires proxy { proxy < length N.site.proxies }
        requires service { service < length N.site.services }
        requires later { last_by proxy_grant (proxy_past self.old.proxies proxy) service < incarnation }
        requires vacant { standing_by proxy_grant (proxy_past self.old.proxies proxy) service ≡ None }
        requires token { token ≡ token_of N.run_seed service incarnation proxy }
        ensures ok { OnOk result ((before : List (Entry ProxyEvent)) × Stays proxy_grant (proxy_past self.old.proxies proxy) before × EntersProxy proxy (event.Install service incarnation token) before self.old self.new) }
        ensures err { OnErr result ((before : List (Entry ProxyEvent)) × Stays proxy_grant (proxy_past self.old.proxies proxy) before × SeesProxy proxy before self.old self.new) }
    {
        let turn = &locks.proxies[proxy as usize];
        let seat = &mut self.proxies[proxy as usize];
        proxy_turn::install(rt, turn, seat, service, incarnation, token)
    }

    /// The launcher revokes what stands of a service at a proxy, if anything does, and notes nothing here.
    /// Takes no memory.
    pub fn revoke_at_proxy<R: Wait>(
        &mut self,
        rt: &R,
        locks: &Locks<N, J, K, S>,
        proxy: u16,
        service: u16,
    ) -> Option<u32>
        requires launcher { self.old.number ≡ N.launcher }
        requires proxy { proxy < length N.site.proxies }
        requires service { service < length N.site.services }
        ensures { (before : List (Entry ProxyEvent)) × Stays proxy_grant (proxy_past self.old.proxies proxy) before × (result ≡ standing_by proxy_grant before service) × RevokesProxy proxy (λ k. event.Revoke service k) result before self.old self.new }
    {
        let turn = &locks.proxies[proxy as usize];
        let seat = &mut self.proxies[proxy as usize];
        proxy_turn::revoke(rt, turn, seat, service)
    }
}
