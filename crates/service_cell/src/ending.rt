//! The events of a cell, and its last dialog, of which the end and the Reply stay at hand whether or not
//! the events are kept.

ghost use Rattle.std.specs.Prelude.{◌≡◌, ◌≤◌, ◌<◌, ◌+◌, [], ◌∷◌, OnOk, MatchOption};
ghost use Rattle.monitor_model.specs.declared.record.CellEvent.TheVariants as cell;
ghost use Rattle.monitor_model.specs.declared.record.End.TheVariants as end;
ghost use Rattle.monitor_model.specs.declared.record.Item.TheVariants.{Said};
ghost use Rattle.service_cell.specs.Ending.{with_last, places, IsOther, IsLast, EndsOtherwise, IsSpelledReply, HasNoReply, EndsIn};

use frame_codec::frame::ServiceFrame;
use monitor_model::due::Due;
use monitor_model::record::{CellEvent, Dialog, End, Item};
use okws_base::journal::{Journal, Past};
use std::alloc::{AllocError, Global};
use std::marker::Model;

/// A dialog that ended. Contracts see it whole; its end and its Reply are at hand.
pub struct Finished {
    worker: u16,
    // All but its Reply.
    items: Journal<Item>,
    reply: Option<ServiceFrame>,
    end: End,
    due: Due,
}

impl Drop for Finished {
    fn drop(self) {
        let Finished {
            worker: _,
            items,
            reply,
            end: _,
            due,
        } = self;
        drop(items);
        drop(reply);
        drop(due);
    }
}

impl Model for Finished {
    ghost use Rattle.monitor_model.specs.declared.record.Dialog.{Dialog};
    ghost use Rattle.service_cell.specs.Ending.{with_reply, FitsEnd};

    ghost Value = { Dialog };

    ghost view = { λ a. record { worker = a.worker; items = with_reply a.reply a.items.past; end = a.end; due = a.due } };

    ghost invariant = { λ a. FitsEnd a.reply a.items.room a.end };
}

impl Finished {
    /// The dialog of a worker that ended without a Reply, and what was due then on its link.
    pub(crate) fn new(worker: u16, items: Journal<Item>, end: End, due: Due) -> Self
        requires { HasNoReply end }
        ensures { result ≡ record { worker = worker; items = items.past; end = end; due = due } }
    {
        Finished {
            worker,
            items,
            reply: None,
            end,
            due,
        }
    }

    /// The dialog of a worker that ended in a Reply, for which its journal has room.
    pub(crate) fn replied(worker: u16, items: Journal<Item>, reply: ServiceFrame) -> Self
        requires reply { IsSpelledReply reply }
        requires room { 0 < items.room }
        ensures { result ≡ record { worker = worker; items = Said reply ∷ items.past; end = end.Reply; due = [] } }
    {
        Finished {
            worker,
            items,
            reply: Some(reply),
            end: End::Reply,
            due: Due::none(),
        }
    }

    /// How it ended.
    pub fn end(&self) -> End
        ensures { result ≡ self.now.end }
    {
        self.end
    }

    /// Its Reply, where it ended so.
    pub fn reply(&self) -> Option<&ServiceFrame>
        ensures { MatchOption result (HasNoReply self.now.end) (λ reply. EndsIn reply.now self.now) }
    {
        self.reply.as_ref()
    }

    fn into_dialog(self) -> Dialog
        ensures { result ≡ self }
    {
        let Finished {
            worker,
            mut items,
            reply,
            end,
            due,
        } = self;
        if let Some(reply) = reply {
            items.enter(Item::Said(reply));
        }
        Dialog {
            worker,
            items: items.into_past(),
            end,
            due,
        }
    }
}

/// The events of a cell, seen as a journal. Of a dialog that is the last one the end and the Reply stay
/// in memory.
pub(crate) struct Events {
    journal: Journal<CellEvent>,
    last: Option<Finished>,
}

impl Drop for Events {
    fn drop(self) {
        let Events { journal, last } = self;
        drop(journal);
        drop(last);
    }
}

impl Model for Events {
    ghost use Rattle.std.specs.Prelude.{◌-◌};
    ghost use Rattle.okws_base.specs.Kept.{Kept};
    ghost use Rattle.monitor_model.specs.declared.record.CellEvent.{CellEvent};
    ghost use Rattle.service_cell.specs.Ending.{with_last, places, FitsLast};

    ghost Value = { Kept CellEvent };

    ghost view = { λ a. record { past = with_last a.last a.journal.past; room = a.journal.room - places a.last; keeps = a.journal.keeps } };

    ghost invariant = { λ a. FitsLast a.last a.journal.past a.journal.room };
}

// Enters the last dialog, if it isn't entered yet.
fn enter_last(journal: &mut Journal<CellEvent>, last: &mut Option<Finished>)
    requires { places last.old ≤ journal.old.room }
    ensures past { journal.new.past ≡ with_last last.old journal.old.past }
    ensures keeps { journal.new.keeps ≡ journal.old.keeps }
    ensures room { journal.new.room + places last.old ≡ journal.old.room }
{
    match last.take() {
        Some(dialog) => journal.enter(CellEvent::Dialog(dialog.into_dialog())),
        None => {}
    }
}

impl Events {
    /// No events.
    pub(crate) fn new(alloc: Global, keeps: bool) -> Self
        ensures past { result.past ≡ [] }
        ensures keeps { result.keeps ≡ keeps }
    {
        Events {
            journal: Journal::new(alloc, keeps),
            last: None,
        }
    }

    /// Makes room for two more; where memory is refused the events are as before.
    pub(crate) fn make_room(&mut self) -> Result<(), AllocError>
        ensures past { self.new.past ≡ self.old.past }
        ensures keeps { self.new.keeps ≡ self.old.keeps }
        ensures ok { OnOk result (2 ≤ self.new.room) }
        ensures room { self.old.room ≤ self.new.room }
    {
        self.journal.make_room(3)
    }

    /// Enters an event that is no dialog, which takes no memory.
    pub(crate) fn enter(&mut self, event: CellEvent)
        requires room { 0 < self.old.room }
        requires other { IsOther event }
        ensures past { self.new.past ≡ event ∷ self.old.past }
        ensures keeps { self.new.keeps ≡ self.old.keeps }
        ensures room { self.new.room + 1 ≡ self.old.room }
    {
        enter_last(&mut self.journal, &mut self.last);
        self.journal.enter(event);
        self.last = None;
    }

    /// Enters a dialog, which takes no memory.
    pub(crate) fn finish(&mut self, dialog: Finished)
        requires { 0 < self.old.room }
        ensures past { self.new.past ≡ cell.Dialog dialog ∷ self.old.past }
        ensures keeps { self.new.keeps ≡ self.old.keeps }
        ensures room { self.new.room + 1 ≡ self.old.room }
    {
        enter_last(&mut self.journal, &mut self.last);
        self.last = Some(dialog);
    }

    /// The last event, where that is a dialog.
    pub(crate) fn last(&self) -> Option<&Finished>
        ensures { MatchOption result (EndsOtherwise self.now.past) (λ d. IsLast (Some d.now) self.now.past) }
    {
        self.last.as_ref()
    }

    /// What was entered.
    pub(crate) fn into_past(self) -> Past<CellEvent>
        ensures { result ≡ self.past }
    {
        let Events {
            mut journal,
            mut last,
        } = self;
        enter_last(&mut journal, &mut last);
        journal.into_past()
    }
}
