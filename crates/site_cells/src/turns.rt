//! One turn at one cell.

ghost use Rattle.std.specs.Prelude.{◌≡◌, ◌≤◌, ◌<◌, ◌+◌, false, length, is_some, option_map, IfSome};
ghost use Rattle.okws_base.specs.declared.limit.TheConstants.{LONGEST_FRAME};
ghost use Rattle.monitor_model.specs.Cell.{CellLaw, incarnation, last_booted, boot_frame};
ghost use Rattle.service_cell.specs.Asking.{KeepsBoard};
ghost use Rattle.service_cell.specs.Ending.{IsSpelledReply};
ghost use Rattle.okws_outer.specs.Families.{IsNewLink};
ghost use Rattle.site_cells.specs.Held.{events_in, has_booted, is_booted, IsLinkOf};
ghost use Rattle.site_cells.specs.Turns.{reply_frame, HasReplied, RepliedIf, EndsInReply, GivesLast, HasTalked, HasLaunched, HasRetired};

use crate::answer::Launched;
use crate::cell::SiteCell;
use crate::gate::DialogGate;
use crate::named::Numbered;
use frame_codec::frame::{Issued, ServerFrame, ServiceFrame};
use http_front::reply::Reply;
use okws_base::items::Items;
use okws_outer::stream::Link;
use service_cell::answer::Spoken;
use service_cell::columns::Hears;
use std::sync::Wait;
use turn_lock::{Seat, Turn};

// Fills the buffer with the parts of a Reply.
fn fill_by(reply: &mut Reply, frame: &ServiceFrame)
    requires { IsSpelledReply frame.now }
    ensures { reply_frame reply.new ≡ frame.now }
{
    match frame {
        ServiceFrame::Reply {
            status,
            content_type,
            location,
            content,
        } => reply.fill(
            *status,
            content_type.as_slice(),
            location.as_slice(),
            content.as_slice(),
        ),
        ServiceFrame::Open { .. }
        | ServiceFrame::Call { .. }
        | ServiceFrame::Get(_)
        | ServiceFrame::Log(_) => unreachable!(),
    }
}

// Fills the buffer with the Reply in which the last dialog ended.
fn fill_last<N: Numbered, L: Link>(reply: &mut Reply, cell: &SiteCell<N, L>)
    requires { HasReplied cell.now.standing.past }
    ensures { EndsInReply reply.new cell.now.standing.past }
{
    let Some(dialog) = cell.last_dialog() else {
        unreachable!()
    };
    let Some(frame) = dialog.reply() else {
        unreachable!()
    };
    fill_by(reply, frame);
}

// Fills the buffer where the service replied.
fn fill_where<N: Numbered, L: Link>(reply: &mut Reply, spoken: Spoken, cell: &SiteCell<N, L>)
    requires { RepliedIf spoken cell.now.standing.past }
    ensures { GivesLast spoken reply.new cell.now.standing.past }
{
    if let Spoken::Reply = spoken {
        fill_last(reply, cell);
    }
}

/// A whole dialog in one turn, behind the gate. Where the service replied, the Reply is filled before the
/// turn is given back.
pub(crate) fn talk<R: Wait, N: Numbered, L: Link, C: Hears<L>>(
    rt: &R,
    gate: &DialogGate,
    lock: &Turn<SiteCell<N, L>>,
    seat: &mut Seat<SiteCell<N, L>>,
    head: Items<u8>,
    content: Items<u8>,
    wanted: u32,
    columns: &mut C,
    reply: &mut Reply,
) -> Spoken
    requires lock { seat.old.lock ≡ lock.now.id }
    requires free { seat.old.held ≡ false }
    requires worker { (C.asker columns.old).worker ≡ seat.old.number }
    requires wanted { 0 < wanted }
    requires declared { seat.old.label < length (C.asker columns.old).config.services }
    requires short { length head + length content + 9 ≤ LONGEST_FRAME }
    ensures talked { HasTalked N.launcher (C.asker columns.old) (C.shows columns.new seat.old.label) head content wanted seat.old.label (events_in seat.old.seen) (C.seen columns.old) result (events_in seat.new.seen) (C.seen columns.new) }
    ensures gives { GivesLast result reply.new (events_in seat.new.seen) }
    ensures seat { seat.new ≡ record seat.old { seen = seat.new.seen } }
    ensures board { KeepsBoard C.asker C.shows C.token_seed C.spare C.may_ask columns.old columns.new }
{
    let gate = gate.pass(rt);
    let mut cell = lock.take(rt, seat);
    cell.keeps();
    let spoken = cell.dialog(head, content, wanted, columns);
    fill_where(reply, spoken, &cell);
    lock.give(seat, cell);
    drop(gate);
    spoken
}

/// Boots an incarnation in one turn, where the launcher had left the cell without one.
pub(crate) fn boot<R: Wait, N: Numbered, L: Link>(
    rt: &R,
    lock: &Turn<SiteCell<N, L>>,
    seat: &mut Seat<SiteCell<N, L>>,
    link: L,
    number: u32,
    tokens: Items<Issued>,
) -> Launched<L>
    requires lock { seat.old.lock ≡ lock.now.id }
    requires free { seat.old.held ≡ false }
    requires launcher { seat.old.number ≡ N.launcher }
    requires empty { incarnation (events_in seat.old.seen) ≡ 0 }
    requires later { last_booted (events_in seat.old.seen) < number }
    requires few { length tokens < 256 }
    requires tokens { ServerFrame.Boot seat.old.label number tokens ≡ boot_frame N.site N.run_seed seat.old.label number }
    requires link { IsNewLink seat.old.label number (L.wire link) }
    ensures launched { HasLaunched L.wire N.launcher link (ServerFrame.Boot seat.old.label number tokens) number seat.old.label (events_in seat.old.seen) result (events_in seat.new.seen) }
    ensures link { is_booted seat.new.seen ≡ has_booted result.booting }
    ensures seat { seat.new ≡ record seat.old { seen = seat.new.seen } }
{
    let mut cell = lock.take(rt, seat);
    cell.keeps();
    let left = cell.retire();
    let booting = cell.boot(link, number, tokens);
    lock.give(seat, cell);
    Launched { booting, left }
}

/// Retires the incarnation, where there is one, in one turn, and takes the link out. Tells which incarnation
/// was there, 0 for none.
pub(crate) fn retire<R: Wait, N: Numbered, L: Link>(
    rt: &R,
    lock: &Turn<SiteCell<N, L>>,
    seat: &mut Seat<SiteCell<N, L>>,
) -> (u32, Option<L>)
    requires lock { seat.old.lock ≡ lock.now.id }
    requires free { seat.old.held ≡ false }
    requires launcher { seat.old.number ≡ N.launcher }
    ensures retired { HasRetired L.wire N.launcher seat.old.label (events_in seat.old.seen) result.0 result.1 (events_in seat.new.seen) }
    ensures taken { is_some result.1 ≡ is_booted seat.old.seen }
    ensures law { CellLaw (events_in seat.new.seen) }
    ensures holds { IfSome (option_map L.wire result.1) (IsLinkOf N.site N.run_seed seat.old.label (events_in seat.new.seen)) }
    ensures link { is_booted seat.new.seen ≡ false }
    ensures seat { seat.new ≡ record seat.old { seen = seat.new.seen } }
{
    let mut cell = lock.take(rt, seat);
    cell.keeps();
    let was = cell.incarnation();
    let link = cell.retire();
    lock.give(seat, cell);
    (was, link)
}
