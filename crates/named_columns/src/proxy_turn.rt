//! Turns at a proxy.

ghost use Rattle.std.specs.Prelude.{◌≡◌, false, ◌<◌, List, IfOk, OnOk, OnErr, length, None};
ghost use Rattle.okws_base.specs.Past.{standing_by, last_by};
ghost use Rattle.okws_base.specs.Turns.{AddsBy};
ghost use Rattle.okws_base.specs.declared.journal.Entry.{Entry};
ghost use Rattle.okws_plan.specs.declared.event.Mark.{Mark};
ghost use Rattle.okws_plan.specs.declared.event.ProxyEvent.{ProxyEvent};
ghost use Rattle.okws_plan.specs.declared.event.ProxyEvent.TheVariants as event;
ghost use Rattle.okws_plan.specs.declared.statement.Answer.TheVariants.{Rows};
ghost use Rattle.monitor_model.specs.Standing.{proxy_grant};
ghost use Rattle.monitor_model.specs.Proxy.{open_verdict};
ghost use Rattle.named_columns.specs.Asked.{IsInstalledAt};
ghost use Rattle.named_columns.specs.Launched.{by_entry};
ghost use Rattle.service_cell.specs.Asking.{IsNarrow};
ghost use Rattle.started_call.specs.Starting.{verdict_of};
ghost use Rattle.token_core.specs.Token.{token_of};
ghost use Rattle.named_columns.specs.Calls.{Answered};
ghost use Rattle.named_columns.specs.Turns.{Enters, Sees, EntersAny, Stays, past_after};

use crate::named::Backed;
use crate::proxy::SiteProxy;
use monitor_model::verdict::Verdict;
use okws_base::value::Token;
use okws_outer::gate::{Gate, Point};
use okws_outer::keeper::Keeper;
use okws_outer::pinned::Pinned;
use okws_plan::event::Call;
use started_call::Started;
use std::alloc::AllocError;
use std::sync::Wait;
use turn_lock::{Seat, Turn};

/// Opens a session in a turn, for an incarnation that was seen installed where its service has a grant.
pub fn open_session<N: Backed, K: Keeper, R: Wait>(
    rt: &R,
    turn: &Turn<SiteProxy<N, K>>,
    seat: &mut Seat<SiteProxy<N, K>>,
    service: u16,
    incarnation: u32,
    shown: Token,
) -> Result<Verdict, AllocError>
    requires lock { seat.old.lock ≡ turn.now.id }
    requires free { seat.old.held ≡ false }
    requires service { service < length N.site.services }
    requires installed { IsInstalledAt N.site seat.old.label seat.old.seen service incarnation }
    ensures ok { IfOk result (λ v. (before : List (Entry ProxyEvent)) × (v ≡ open_verdict before service incarnation shown) × Enters (event.Open service incarnation shown) before seat.old seat.new) }
    ensures err { OnErr result ((before : List (Entry ProxyEvent)) × Sees before seat.old seat.new) }
{
    let mut proxy = turn.take(rt, seat);
    let answer = proxy.open_session(service, incarnation, shown);
    turn.give(seat, proxy);
    answer
}

/// Decides a call and enters it, in a turn, in which the gate is passed with the proxy's number, for an
/// incarnation that was seen installed where its service has a grant. Rows are found when the turn was given
/// back.
pub fn start<N: Backed, K: Keeper, R: Wait, G: Gate>(
    rt: &R,
    gate: &G,
    proxy: u16,
    turn: &Turn<SiteProxy<N, K>>,
    seat: &mut Seat<SiteProxy<N, K>>,
    call: Call,
) -> Result<Started<K::Pin>, AllocError>
    requires lock { seat.old.lock ≡ turn.now.id }
    requires free { seat.old.held ≡ false }
    requires service { call.service < length N.site.services }
    requires installed { IsInstalledAt N.site seat.old.label seat.old.seen call.service call.incarnation }
    ensures ok { IfOk result (λ s. (before : List (Entry ProxyEvent)) × (mark : Mark) × Answered N.site N.tells N.steady seat.old.label before call mark (verdict_of (λ p. Rows (K.Pin.width p) (K.Pin.rows p)) s) × Enters (event.Call call mark) before seat.old seat.new) }
    ensures narrow { IfOk result (λ s. IsNarrow (verdict_of (λ p. Rows (K.Pin.width p) (K.Pin.rows p)) s)) }
    ensures err { OnErr result ((before : List (Entry ProxyEvent)) × Sees before seat.old seat.new) }
{
    let mut column = turn.take(rt, seat);
    gate.pass(Point::Called, u64::from(proxy));
    column.launched();
    let started = column.start(call);
    turn.give(seat, column);
    started
}

/// Installs an incarnation in a turn, where nothing of the service was seen to stand.
pub fn install<N: Backed, K: Keeper, R: Wait>(
    rt: &R,
    turn: &Turn<SiteProxy<N, K>>,
    seat: &mut Seat<SiteProxy<N, K>>,
    service: u16,
    incarnation: u32,
    token: Token,
) -> Result<(), AllocError>
    requires lock { seat.old.lock ≡ turn.now.id }
    requires free { seat.old.held ≡ false }
    requires launcher { seat.old.number ≡ N.launcher }
    requires service { service < length N.site.services }
    requires later { last_by proxy_grant seat.old.seen service < incarnation }
    requires vacant { standing_by proxy_grant seat.old.seen service ≡ None }
    requires token { token ≡ token_of N.run_seed service incarnation seat.old.label }
    ensures ok { OnOk result ((before : List (Entry ProxyEvent)) × Stays proxy_grant seat.old.seen before × Enters (event.Install service incarnation token) before seat.old seat.new) }
    ensures err { OnErr result ((before : List (Entry ProxyEvent)) × Stays proxy_grant seat.old.seen before × Sees before seat.old seat.new) }
{
    let mut proxy = turn.take(rt, seat);
    proxy.launched();
    let answer = proxy.install(service, incarnation, token);
    turn.give(seat, proxy);
    answer
}

// Revokes what stands of a service, and tells what it was. Takes no memory.
fn end_standing<N: Backed, K: Keeper>(proxy: &mut SiteProxy<N, K>, service: u16) -> Option<u32>
    requires launcher { proxy.old.holder ≡ N.launcher }
    requires service { service < length N.site.services }
    ensures was { result ≡ standing_by proxy_grant proxy.old.past service }
    ensures past { proxy.new.past ≡ past_after (λ k. event.Revoke service k) proxy.old.holder result proxy.old.past }
    ensures number { proxy.new.number ≡ proxy.old.number }
    ensures adds { AddsBy by_entry proxy.old.holder proxy.old.past proxy.new.past }
{
    let standing = proxy.standing(service);
    if let Some(incarnation) = standing {
        proxy.revoke(service, incarnation);
    }
    standing
}

/// Revokes what stands of a service, in a turn, and tells what it was. Takes no memory.
pub fn revoke<N: Backed, K: Keeper, R: Wait>(
    rt: &R,
    turn: &Turn<SiteProxy<N, K>>,
    seat: &mut Seat<SiteProxy<N, K>>,
    service: u16,
) -> Option<u32>
    requires lock { seat.old.lock ≡ turn.now.id }
    requires free { seat.old.held ≡ false }
    requires launcher { seat.old.number ≡ N.launcher }
    requires service { service < length N.site.services }
    ensures { (before : List (Entry ProxyEvent)) × Stays proxy_grant seat.old.seen before × (result ≡ standing_by proxy_grant before service) × EntersAny (λ k. event.Revoke service k) result before seat.old seat.new }
{
    let mut proxy = turn.take(rt, seat);
    proxy.launched();
    let standing = end_standing(&mut proxy, service);
    turn.give(seat, proxy);
    standing
}
