//! Turns at oklogd.

ghost use Rattle.std.specs.Prelude.{◌≡◌, false, ◌<◌, List, IfOk, OnOk, OnErr, length};
ghost use Rattle.okws_base.specs.Past.{standing_by, last_by};
ghost use Rattle.okws_base.specs.Turns.{AddsBy};
ghost use Rattle.okws_base.specs.declared.journal.Entry.{Entry};
ghost use Rattle.okws_plan.specs.declared.event.LogEvent.{LogEvent};
ghost use Rattle.okws_plan.specs.declared.event.LogEvent.TheVariants as event;
ghost use Rattle.monitor_model.specs.Installed.{HasStood};
ghost use Rattle.monitor_model.specs.Standing.{log_grant};
ghost use Rattle.monitor_model.specs.Logd.{log_verdict};
ghost use Rattle.named_columns.specs.Launched.{by_entry};
ghost use Rattle.named_columns.specs.Turns.{Enters, Sees, EntersAny, Stays, past_after};

use crate::log::SiteLog;
use crate::named::Backed;
use monitor_model::verdict::Noted;
use okws_base::items::Items;
use okws_outer::stream::Sink;
use std::alloc::AllocError;
use std::sync::Wait;
use turn_lock::{Seat, Turn};

/// Decides a text that an incarnation logs which was seen installed, in a turn.
pub fn log<N: Backed, S: Sink, R: Wait>(
    rt: &R,
    turn: &Turn<SiteLog<N, S>>,
    seat: &mut Seat<SiteLog<N, S>>,
    service: u16,
    incarnation: u32,
    text: Items<u8>,
) -> Result<Noted, AllocError>
    requires lock { seat.old.lock ≡ turn.now.id }
    requires free { seat.old.held ≡ false }
    requires service { service < length N.site.services }
    requires installed { HasStood log_grant seat.old.seen service incarnation }
    ensures ok { IfOk result (λ v. (before : List (Entry LogEvent)) × (v ≡ log_verdict N.site before service incarnation text) × Enters (event.Log service incarnation text) before seat.old seat.new) }
    ensures err { OnErr result ((before : List (Entry LogEvent)) × Sees before seat.old seat.new) }
{
    let mut oklogd = turn.take(rt, seat);
    let answer = oklogd.log(service, incarnation, text);
    turn.give(seat, oklogd);
    answer
}

/// Installs an incarnation in a turn.
pub fn install<N: Backed, S: Sink, R: Wait>(
    rt: &R,
    turn: &Turn<SiteLog<N, S>>,
    seat: &mut Seat<SiteLog<N, S>>,
    service: u16,
    incarnation: u32,
) -> Result<(), AllocError>
    requires lock { seat.old.lock ≡ turn.now.id }
    requires free { seat.old.held ≡ false }
    requires launcher { seat.old.number ≡ N.launcher }
    requires service { service < length N.site.services }
    requires later { last_by log_grant seat.old.seen service < incarnation }
    ensures ok { OnOk result ((before : List (Entry LogEvent)) × Stays log_grant seat.old.seen before × Enters (event.Install service incarnation) before seat.old seat.new) }
    ensures err { OnErr result ((before : List (Entry LogEvent)) × Stays log_grant seat.old.seen before × Sees before seat.old seat.new) }
{
    let mut oklogd = turn.take(rt, seat);
    oklogd.launched();
    let answer = oklogd.install(service, incarnation);
    turn.give(seat, oklogd);
    answer
}

// Revokes what stands of a service, and tells what it was. Takes no memory.
fn end_standing<N: Backed, S: Sink>(oklogd: &mut SiteLog<N, S>, service: u16) -> Option<u32>
    requires launcher { oklogd.old.holder ≡ N.launcher }
    requires service { service < length N.site.services }
    ensures was { result ≡ standing_by log_grant oklogd.old.past service }
    ensures past { oklogd.new.past ≡ past_after (λ k. event.Revoke service k) oklogd.old.holder result oklogd.old.past }
    ensures adds { AddsBy by_entry oklogd.old.holder oklogd.old.past oklogd.new.past }
{
    let standing = oklogd.standing(service);
    if let Some(incarnation) = standing {
        oklogd.revoke(service, incarnation);
    }
    standing
}

/// Revokes what stands of a service, in a turn, and tells what it was. Takes no memory.
pub fn revoke<N: Backed, S: Sink, R: Wait>(
    rt: &R,
    turn: &Turn<SiteLog<N, S>>,
    seat: &mut Seat<SiteLog<N, S>>,
    service: u16,
) -> Option<u32>
    requires lock { seat.old.lock ≡ turn.now.id }
    requires free { seat.old.held ≡ false }
    requires launcher { seat.old.number ≡ N.launcher }
    requires service { service < length N.site.services }
    ensures { (before : List (Entry LogEvent)) × Stays log_grant seat.old.seen before × (result ≡ standing_by log_grant before service) × EntersAny (λ k. event.Revoke service k) result before seat.old seat.new }
{
    let mut oklogd = turn.take(rt, seat);
    oklogd.launched();
    let standing = end_standing(&mut oklogd, service);
    turn.give(seat, oklogd);
    standing
}
