//! A cell behind a lock that is taken in turns. No dialog is open when it is given back.

ghost use Rattle.std.specs.Prelude.{◌≡◌, ◌≤◌, ◌<◌, ◌+◌, [], ◌∷◌, length, option_map, is_some, IfSome, MatchOption, Some};
ghost use Rattle.okws_base.specs.Turns.{AddsBy};
ghost use Rattle.okws_base.specs.declared.limit.TheConstants.{LONGEST_FRAME};
ghost use Rattle.monitor_model.specs.declared.record.CellEvent.TheVariants as event;
ghost use Rattle.monitor_model.specs.Cell.{CellLaw, incarnation, last_booted, boot_frame};
ghost use Rattle.monitor_model.specs.Sent.{AreSent};
ghost use Rattle.service_cell.specs.Asking.{KeepsBoard};
ghost use Rattle.site_cells.specs.Held.{by_event, events_in, is_booted, IsLinkOf, LeadsTo, newest, with_boot, with_dialog};
ghost use Rattle.service_cell.specs.Dialogs.{Dialogs};
ghost use Rattle.service_cell.specs.Ending.{EndsOtherwise, IsLast};
ghost use Rattle.service_cell.specs.Standing.{all_sent};
ghost use Rattle.okws_outer.specs.Families.{IsNewLink};
ghost use Rattle.service_cell.specs.Steps.{Boots, retired};

use crate::entered::Entered;
use crate::named::Numbered;
use frame_codec::frame::{Issued, ServerFrame};
use monitor_model::record::CellEvent;
use monitor_model::sent::Sents;
use okws_base::items::Items;
use okws_base::journal::Past;
use okws_outer::stream::Link;
use service_cell::answer::{Booting, Spoken};
use service_cell::cell::Cell;
use service_cell::columns::Hears;
use service_cell::ending::Finished;
use std::marker::{Model, PhantomData};
use turn_lock::Journaled;

/// A cell of a run as it stands behind its lock: by its type no dialog is open at it, and its site and
/// its seed are the run's. Each call enters at most one event, under the holder's number. What is entered at
/// the lock tells whether the link is there: taking it out is entered too where that is no event of the cell.
pub struct SiteCell<N: Numbered, L: Link> {
    holder: u16,
    cell: Cell<L>,
    entered: Entered,
    of: PhantomData<N>,
}

impl<N: Numbered, L: Link + Drop> Drop for SiteCell<N, L> {
    fn drop(self) {
        let SiteCell {
            holder: _,
            cell,
            entered,
            of: _,
        } = self;
        drop(cell);
        drop(entered);
    }
}

impl<N: Numbered, L: Link> Model for SiteCell<N, L> {
    ghost use Rattle.site_cells.specs.Held.{Held, IsShut};

    ghost Value = { Held };

    ghost view = { λ b. record { holder = b.holder; standing = b.cell; entered = b.entered } };

    ghost invariant = { λ b. IsShut N.site N.run_seed b.entered b.cell };
}

// Where the wanted incarnation is there, the columns hear from its link.
fn prepare<L: Link, H: Hears<L>>(cell: &mut Cell<L>, wanted: u32, columns: &mut H)
    requires wanted { 0 < wanted }
    requires leads { LeadsTo cell.old.service cell.old.past cell.old.link }
    ensures cell { cell.new ≡ cell.old }
    ensures may { wanted ≡ incarnation cell.old.past → H.may_ask columns.new cell.old.service wanted }
    ensures seen { H.seen columns.new ≡ H.seen columns.old }
    ensures board { KeepsBoard H.asker H.shows H.token_seed H.spare H.may_ask columns.old columns.new }
{
    cell.keeps();
    if cell.incarnation() == wanted {
        cell.lend(columns);
    }
}

// A whole dialog with the wanted incarnation. Before its first turn at a column the columns hear from the link.
fn speak<L: Link, H: Hears<L>>(
    cell: &mut Cell<L>,
    head: Items<u8>,
    content: Items<u8>,
    wanted: u32,
    columns: &mut H,
) -> Spoken
    requires closed { cell.old.open_dialog ≡ None }
    requires leads { LeadsTo cell.old.service cell.old.past cell.old.link }
    requires wanted { 0 < wanted }
    requires declared { cell.old.service < length (H.asker columns.old).config.services }
    requires short { length head + length content + 9 ≤ LONGEST_FRAME }
    ensures dialogs { Dialogs (H.asker columns.old) (H.shows columns.new cell.old.service) head content wanted cell.old (H.seen columns.old) result cell.new (H.seen columns.new) }
    ensures board { KeepsBoard H.asker H.shows H.token_seed H.spare H.may_ask columns.old columns.new }
{
    prepare(cell, wanted, columns);
    cell.dialog(head, content, wanted, columns)
}

impl<N: Numbered, L: Link> SiteCell<N, L> {
    /// A cell of the run at which nothing happened; takes no memory.
    pub fn new(cell: Cell<L>) -> Self
        requires closed { cell.open_dialog ≡ None }
        requires site { cell.config ≡ N.site }
        requires seed { cell.seed ≡ N.run_seed }
        requires fresh { (cell.past ≡ []) × (cell.link ≡ None) }
        ensures { result ≡ record { holder = 0; standing = cell; entered = [] } }
    {
        SiteCell {
            holder: 0,
            cell,
            entered: Entered::new(),
            of: PhantomData,
        }
    }

    /// What a cell's type tells of it.
    pub fn keeps(&self)
        ensures { self.now.standing.past ≡ events_in self.now.entered }
    {
        let _cell = &self.cell;
    }

    /// The incarnation that is there, 0 for none.
    pub fn incarnation(&self) -> u32
        ensures { result ≡ incarnation self.now.standing.past }
    {
        self.cell.incarnation()
    }

    /// The dialog that ended last, where nothing happened since.
    pub fn last_dialog(&self) -> Option<&Finished>
        ensures { MatchOption result (EndsOtherwise self.now.standing.past) (λ d. IsLast (Some d.now) self.now.standing.past) }
    {
        self.cell.last_dialog()
    }

    /// A whole dialog of the holder with the wanted incarnation, of whose link the columns hear first. Waits
    /// where the link does.
    pub fn dialog<C: Hears<L>>(
        &mut self,
        head: Items<u8>,
        content: Items<u8>,
        wanted: u32,
        columns: &mut C,
    ) -> Spoken
        requires holder { (C.asker columns.old).worker ≡ self.old.holder }
        requires wanted { 0 < wanted }
        requires declared { self.old.standing.service < length (C.asker columns.old).config.services }
        requires short { length head + length content + 9 ≤ LONGEST_FRAME }
        ensures dialogs { Dialogs (C.asker columns.old) (C.shows columns.new self.old.standing.service) head content wanted self.old.standing (C.seen columns.old) result self.new.standing (C.seen columns.new) }
        ensures holder { self.new.holder ≡ self.old.holder }
        ensures service { self.new.standing.service ≡ self.old.standing.service }
        ensures entered { self.new.entered ≡ with_dialog result (newest self.new.standing.past) self.old.entered }
        ensures adds { AddsBy (by_event N.launcher) self.old.holder self.old.entered self.new.entered }
        ensures past { self.new.standing.past ≡ events_in self.new.entered }
        ensures board { KeepsBoard C.asker C.shows C.token_seed C.spare C.may_ask columns.old columns.new }
    {
        self.cell.keeps();
        let spoken = speak(&mut self.cell, head, content, wanted, columns);
        self.entered.enter_dialog(spoken, &self.cell);
        spoken
    }

    /// Gives the cell, which has no incarnation, the fresh link of a child and its incarnation, whose Boot
    /// frame is put first. One that isn't Booted hands the link back. The launcher has taken the link of the incarnation before
    /// by `retire`.
    pub fn boot(&mut self, link: L, number: u32, tokens: Items<Issued>) -> Booting<L>
        requires holder { self.old.holder ≡ N.launcher }
        requires empty { incarnation self.old.standing.past ≡ 0 }
        requires unlinked { self.old.standing.link ≡ None }
        requires later { last_booted self.old.standing.past < number }
        requires few { length tokens < 256 }
        requires tokens { ServerFrame.Boot self.old.standing.service number tokens ≡ boot_frame N.site N.run_seed self.old.standing.service number }
        requires link { IsNewLink self.old.standing.service number (L.wire link) }
        ensures boots { Boots L.wire link (ServerFrame.Boot self.old.standing.service number tokens) number self.old.standing result self.new.standing }
        ensures holder { self.new.holder ≡ self.old.holder }
        ensures service { self.new.standing.service ≡ self.old.standing.service }
        ensures entered { self.new.entered ≡ with_boot result number self.old.entered }
        ensures adds { AddsBy (by_event N.launcher) self.old.holder self.old.entered self.new.entered }
        ensures past { self.new.standing.past ≡ events_in self.new.entered }
    {
        let booting = self.cell.boot(link, number, tokens);
        self.entered.enter_boot(&booting, number);
        booting
    }

    /// Takes the link out, which is there where the cell was booted last, and enters Retired: an event of the
    /// cell where that has an incarnation. Takes no memory.
    pub fn retire(&mut self) -> Option<L>
        requires holder { self.old.holder ≡ N.launcher }
        ensures cell { self.new ≡ record self.old { standing = retired self.old.standing; entered = event.Retired ∷ self.old.entered } }
        ensures link { option_map L.wire result ≡ self.old.standing.link }
        ensures there { is_some result ≡ is_booted self.old.entered }
        ensures law { CellLaw self.new.standing.past }
        ensures holds { IfSome self.old.standing.link (IsLinkOf N.site N.run_seed self.old.standing.service self.old.standing.past) }
        ensures adds { AddsBy (by_event N.launcher) self.old.holder self.old.entered self.new.entered }
    {
        self.entered.enter_retired();
        self.cell.retire()
    }
}

impl<N: Numbered, L: Link + Drop> SiteCell<N, L> {
    /// What happened, and what the link of each incarnation was given: just what the incarnation heard.
    pub fn close(self) -> (Past<CellEvent>, Sents)
        ensures past { result.0 ≡ self.standing.past }
        ensures law { CellLaw result.0 }
        ensures links { result.1 ≡ all_sent (last_booted self.standing.past) self.standing.link self.standing.sent }
        ensures sent { AreSent N.site N.run_seed self.standing.service result.0 result.1 }
    {
        let SiteCell {
            holder: _,
            cell,
            entered: _,
            of: _,
        } = self;
        cell.close()
    }
}

impl<N: Numbered, L: Link> Journaled for SiteCell<N, L> {
    ghost use Rattle.site_cells.specs.Held.{by_event};

    type Entry = CellEvent;

    ghost journal = { λ b. b.entered };

    ghost by = { by_event N.launcher };

    ghost holder = { λ b. b.holder };

    ghost label = { λ b. b.standing.service };

    ghost held = { λ b n. record b { holder = n } };

    fn hold(&mut self, number: u16)
        ensures same { self.new.entered ≡ self.old.entered }
        ensures label { self.new.standing.service ≡ self.old.standing.service }
        ensures holder { self.new.holder ≡ number }
        ensures all { self.new ≡ record self.old { holder = number } }
    {
        self.holder = number;
    }

    fn label(&self) -> u16 {
        self.cell.service()
    }

    fn holder(&self) -> u16 {
        self.holder
    }
}
