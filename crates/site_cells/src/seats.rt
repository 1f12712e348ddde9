//! The seats of one number at a site's cells.

ghost use Rattle.std.specs.Prelude.{◌≡◌, ◌≤◌, ◌<◌, ℕ, ◌+◌, false, length, is_some, map, option_map, IfSome};
ghost use Rattle.okws_base.specs.Turns.{GrowsBy, Behind};
ghost use Rattle.okws_base.specs.declared.limit.TheConstants.{LONGEST_FRAME};
ghost use Rattle.monitor_model.specs.Cell.{CellLaw, incarnation, last_booted, boot_frame};
ghost use Rattle.service_cell.specs.Asking.{KeepsBoard};
ghost use Rattle.okws_outer.specs.Families.{IsNewLink};
ghost use Rattle.site_cells.specs.Held.{by_event, events_in, has_booted, is_booted, IsLinkOf};
ghost use Rattle.turn_lock.specs.Rows.{RestRow};
ghost use Rattle.site_cells.specs.Row.{seen_at, link_at, AllAlone, OnlyAt};
ghost use Rattle.site_cells.specs.Turns.{GivesLast, HasTalked, HasLaunched, HasRetired};

use crate::answer::Launched;
use crate::cell::SiteCell;
use crate::lock_names::CellNames;
use crate::locks::CellLocks;
use crate::named::Numbered;
use crate::note::CellNote;
use crate::turns;
use frame_codec::frame::{Issued, ServerFrame};
use http_front::reply::Reply;
use okws_base::items::Items;
use okws_outer::stream::Link;
use service_cell::answer::Spoken;
use service_cell::columns::Hears;
use std::marker::{Model, PhantomData};
use std::sync::Wait;
use turn_lock::Seat;

/// The seats of one number at all cells of a site, none of which holds its turn. Contracts see the number,
/// and what was seen at each cell: its events, the newest first, and whether it had its link.
pub struct CellSeats<N: Numbered, C: CellNames, L: Link> {
    pub(crate) number: u16,
    pub(crate) seats: Vec<Seat<SiteCell<N, L>>>,
    pub(crate) of: PhantomData<C>,
}

impl<N: Numbered, C: CellNames, L: Link + Drop> Drop for CellSeats<N, C, L> {
    fn drop(self) {
        let CellSeats {
            number: _,
            seats,
            of: _,
        } = self;
        drop(seats);
    }
}

impl<N: Numbered, C: CellNames, L: Link> Model for CellSeats<N, C, L> {
    ghost use Rattle.std.specs.Prelude.{map};
    ghost use Rattle.site_cells.specs.Held.{events_in, is_booted};
    ghost use Rattle.site_cells.specs.Row.{CellsSeen, AreSeats};

    ghost Value = { CellsSeen };

    ghost view = { λ s. record { number = s.number; cells = map (λ a. events_in a.seen) s.seats.items; links = map (λ a. is_booted a.seen) s.seats.items } };

    ghost invariant = { λ s. AreSeats C.cell_turns s.number s.seats.items };
}

impl<N: Numbered, C: CellNames, L: Link> CellSeats<N, C, L> {
    /// The number that the entries of these seats name.
    pub fn number(&self) -> u16
        ensures { result ≡ self.now.number }
    {
        self.number
    }

    /// How many cells there are: one for each of the locks.
    pub fn services(&self) -> usize
        ensures cells { result ≡ length self.now.cells }
        ensures locks { result ≡ length C.cell_turns }
    {
        self.seats.len()
    }

    // The seats without the names of their locks.
    pub(crate) fn into_row(self) -> Vec<Seat<SiteCell<N, L>>>
        ensures rest { RestRow C.cell_turns result.items }
        ensures alone { AllAlone self.number result.items }
        ensures seen { self ≡ record { number = self.number; cells = map (λ a. events_in a.seen) result.items; links = map (λ a. is_booted a.seen) result.items } }
    {
        let CellSeats {
            number: _,
            seats,
            of: _,
        } = self;
        seats
    }

    /// What the seats' type tells of what was seen: a cell whose link is out has no incarnation.
    pub fn keeps(&self)
        ensures { (s : ℕ) → link_at self.now s ≡ false → incarnation (seen_at self.now s) ≡ 0 }
    {
        let _seats = &self.seats;
    }

    /// A whole dialog of a worker at the cell of a service, in one turn. Where the service replies, the Reply
    /// is filled before the turn is given up; else nothing is said of it.
    pub fn dialog<R: Wait, W: Hears<L>>(
        &mut self,
        rt: &R,
        locks: &CellLocks<N, C, L>,
        service: u16,
        head: Items<u8>,
        content: Items<u8>,
        wanted: u32,
        columns: &mut W,
        reply: &mut Reply,
    ) -> Spoken
        requires worker { (W.asker columns.old).worker ≡ self.old.number }
        requires service { service < length self.old.cells }
        requires wanted { 0 < wanted }
        requires declared { service < length (W.asker columns.old).config.services }
        requires short { length head + length content + 9 ≤ LONGEST_FRAME }
        ensures talked { HasTalked N.launcher (W.asker columns.old) (W.shows columns.new service) head content wanted service (seen_at self.old service) (W.seen columns.old) result (seen_at self.new service) (W.seen columns.new) }
        ensures gives { GivesLast result reply.new (seen_at self.new service) }
        ensures only { OnlyAt service self.old self.new }
        ensures board { KeepsBoard W.asker W.shows W.token_seed W.spare W.may_ask columns.old columns.new }
    {
        let i = service as usize;
        let seat = &mut self.seats[i];
        let lock = &locks.turns[i];
        let gate = &locks.gates[i];
        turns::talk(rt, gate, lock, seat, head, content, wanted, columns, reply)
    }

    /// Boots an incarnation at the cell of a service, in one turn, where the launcher had left it without
    /// one: it is still so, since no other number boots. Its Boot frame is put first on the link.
    pub fn boot<R: Wait>(
        &mut self,
        rt: &R,
        locks: &CellLocks<N, C, L>,
        service: u16,
        link: L,
        number: u32,
        tokens: Items<Issued>,
    ) -> Launched<L>
        requires launcher { self.old.number ≡ N.launcher }
        requires service { service < length self.old.cells }
        requires empty { incarnation (seen_at self.old service) ≡ 0 }
        requires later { last_booted (seen_at self.old service) < number }
        requires few { length tokens < 256 }
        requires tokens { ServerFrame.Boot service number tokens ≡ boot_frame N.site N.run_seed service number }
        requires link { IsNewLink service number (L.wire link) }
        ensures launched { HasLaunched L.wire N.launcher link (ServerFrame.Boot service number tokens) number service (seen_at self.old service) result (seen_at self.new service) }
        ensures link { link_at self.new service ≡ has_booted result.booting }
        ensures only { OnlyAt service self.old self.new }
    {
        let i = service as usize;
        let seat = &mut self.seats[i];
        let lock = &locks.turns[i];
        turns::boot(rt, lock, seat, link, number, tokens)
    }

    /// Retires the incarnation at the cell of a service, where there is one, in one turn, and takes the link
    /// out, which is there where the launcher has booted the cell since it took one out last: it was given
    /// what the last incarnation heard, and what that said was taken from it. Tells which incarnation was there, 0 for none. Takes no memory.
    pub fn retire<R: Wait>(
        &mut self,
        rt: &R,
        locks: &CellLocks<N, C, L>,
        service: u16,
    ) -> (u32, Option<L>)
        requires launcher { self.old.number ≡ N.launcher }
        requires service { service < length self.old.cells }
        ensures retired { HasRetired L.wire N.launcher service (seen_at self.old service) result.0 result.1 (seen_at self.new service) }
        ensures empty { incarnation (seen_at self.new service) ≡ 0 }
        ensures last { last_booted (seen_at self.new service) ≡ last_booted (seen_at self.old service) }
        ensures taken { is_some result.1 ≡ link_at self.old service }
        ensures law { CellLaw (seen_at self.new service) }
        ensures holds { IfSome (option_map L.wire result.1) (IsLinkOf N.site N.run_seed service (seen_at self.new service)) }
        ensures link { link_at self.new service ≡ false }
        ensures only { OnlyAt service self.old self.new }
    {
        let i = service as usize;
        let seat = &mut self.seats[i];
        let lock = &locks.turns[i];
        turns::retire(rt, lock, seat)
    }

    /// A note of what was seen at the cell of a service. It takes no turn and no memory.
    pub fn split(&mut self, locks: &CellLocks<N, C, L>, service: u16) -> CellNote<N, C, L>
        requires { service < length self.old.cells }
        ensures note { result ≡ record { service = service; seen = seen_at self.old service } }
        ensures same { self.new ≡ self.old }
    {
        let i = service as usize;
        let seat = &mut self.seats[i];
        let lock = &locks.turns[i];
        CellNote {
            service,
            note: lock.split(seat),
            of: PhantomData,
        }
    }

    /// Takes in a note of another number: what it has seen at its cell is then seen here too, and what is
    /// new was entered by others. It takes no turn and no memory.
    pub fn meet(&mut self, locks: &CellLocks<N, C, L>, note: CellNote<N, C, L>)
        ensures met { Behind note.seen (seen_at self.new note.service) }
        ensures grows { GrowsBy (by_event N.launcher) self.old.number (seen_at self.old note.service) (seen_at self.new note.service) }
        ensures link { self.old.number ≡ N.launcher → link_at self.new note.service ≡ link_at self.old note.service }
        ensures only { OnlyAt note.service self.old self.new }
    {
        let CellNote {
            service,
            note,
            of: _,
        } = note;
        let i = service as usize;
        let seat = &mut self.seats[i];
        let lock = &locks.turns[i];
        lock.meet(seat, note);
    }
}
