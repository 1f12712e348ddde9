//! Turns at okd.

ghost use Rattle.std.specs.Prelude.{◌≡◌, false, ◌<◌, ℕ, List, IfOk, IfSome, OnOk, OnErr, length};
ghost use Rattle.okws_base.specs.Turns.{AddsBy};
ghost use Rattle.okws_base.specs.declared.journal.Entry.{Entry};
ghost use Rattle.okws_plan.specs.declared.event.OkdEvent.{OkdEvent};
ghost use Rattle.okws_plan.specs.declared.event.OkdEvent.TheVariants as event;
ghost use Rattle.monitor_model.specs.Okd.{accept_verdict};
ghost use Rattle.monitor_model.specs.Script.{goes_of};
ghost use Rattle.monitor_model.specs.Standing.{up_at_okd, okd_grant};
ghost use Rattle.named_columns.specs.Launched.{by_entry};
ghost use Rattle.named_columns.specs.Turns.{Enters, Sees, EntersAny, Stays, past_after};

use crate::okd::SiteOkd;
use monitor_model::verdict::Way;
use okws_base::items::Items;
use site_cells::named::Numbered;
use std::alloc::AllocError;
use std::sync::Wait;
use turn_lock::{Seat, Turn};

/// Accepts a request in a turn.
pub fn accept<N: Numbered, R: Wait>(
    rt: &R,
    turn: &Turn<SiteOkd<N>>,
    seat: &mut Seat<SiteOkd<N>>,
    path: Items<u8>,
) -> Result<Way, AllocError>
    requires lock { seat.old.lock ≡ turn.now.id }
    requires free { seat.old.held ≡ false }
    ensures ok { IfOk result (λ way. (before : List (Entry OkdEvent)) × (way ≡ accept_verdict N.site before path) × Enters (event.Accept path) before seat.old seat.new) }
    ensures goes { IfOk result (λ way. IfSome (goes_of way) (λ (at : ℕ × ℕ). (at.0 < length N.site.services) × (0 < at.1))) }
    ensures err { OnErr result ((before : List (Entry OkdEvent)) × Sees before seat.old seat.new) }
{
    let mut okd = turn.take(rt, seat);
    let answer = okd.accept(path);
    turn.give(seat, okd);
    answer
}

/// Has an incarnation be up, in a turn.
pub fn up<N: Numbered, R: Wait>(
    rt: &R,
    turn: &Turn<SiteOkd<N>>,
    seat: &mut Seat<SiteOkd<N>>,
    service: u16,
    incarnation: u32,
) -> Result<(), AllocError>
    requires lock { seat.old.lock ≡ turn.now.id }
    requires free { seat.old.held ≡ false }
    requires launcher { seat.old.number ≡ N.launcher }
    requires service { service < length N.site.services }
    requires counted { 0 < incarnation }
    ensures ok { OnOk result ((before : List (Entry OkdEvent)) × Stays okd_grant seat.old.seen before × Enters (event.Up service incarnation) before seat.old seat.new) }
    ensures err { OnErr result ((before : List (Entry OkdEvent)) × Stays okd_grant seat.old.seen before × Sees before seat.old seat.new) }
{
    let mut okd = turn.take(rt, seat);
    okd.launched();
    let answer = okd.up(service, incarnation);
    turn.give(seat, okd);
    answer
}

// Has what is up of a service be down, and tells what it was. Takes no memory.
fn take_down<N: Numbered>(okd: &mut SiteOkd<N>, service: u16) -> Option<u32>
    requires launcher { okd.old.holder ≡ N.launcher }
    requires service { service < length N.site.services }
    ensures was { result ≡ up_at_okd okd.old.past service }
    ensures past { okd.new.past ≡ past_after (λ k. event.Down service k) okd.old.holder result okd.old.past }
    ensures adds { AddsBy by_entry okd.old.holder okd.old.past okd.new.past }
{
    let standing = okd.standing(service);
    if let Some(incarnation) = standing {
        okd.down(service, incarnation);
    }
    standing
}

/// Has what is up of a service be down, in a turn, and tells what it was. Takes no memory.
pub fn down<N: Numbered, R: Wait>(
    rt: &R,
    turn: &Turn<SiteOkd<N>>,
    seat: &mut Seat<SiteOkd<N>>,
    service: u16,
) -> Option<u32>
    requires lock { seat.old.lock ≡ turn.now.id }
    requires free { seat.old.held ≡ false }
    requires launcher { seat.old.number ≡ N.launcher }
    requires service { service < length N.site.services }
    ensures { (before : List (Entry OkdEvent)) × Stays okd_grant seat.old.seen before × (result ≡ up_at_okd before service) × EntersAny (λ k. event.Down service k) result before seat.old seat.new }
{
    let mut okd = turn.take(rt, seat);
    okd.launched();
    let standing = take_down(&mut okd, service);
    turn.give(seat, okd);
    standing
}
