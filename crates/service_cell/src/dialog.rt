//! The dialogs of a cell, step by step.

ghost use Rattle.std.specs.Prelude.{◌≡◌, ◌≢◌, ◌≤◌, ◌<◌, ℕ, ◌+◌, [], ◌∷◌, length, IsTrue, IsSome, IfSome, OnOk, OnErr, ◌↔◌, reverse, option_map};
ghost use Rattle.okws_base.specs.declared.limit.TheConstants.{LONGEST_FRAME};
ghost use Rattle.monitor_model.specs.declared.record.CellEvent.TheVariants as cell;
ghost use Rattle.monitor_model.specs.declared.record.End.TheVariants as end;
ghost use Rattle.monitor_model.specs.declared.record.Own.TheVariants as own;
ghost use Rattle.monitor_model.specs.Seen.{noted};
ghost use Rattle.monitor_model.specs.Cell.{incarnation};
ghost use Rattle.service_cell.specs.Asking.{KeepsBoard, IsNextBy};
ghost use Rattle.service_cell.specs.Ending.{HasNoReply, EndsInReply};
ghost use Rattle.service_cell.specs.Exchange.{AreSpelled, IsHeardOpen};
ghost use Rattle.service_cell.specs.Standing.{AreNewest, finished};
ghost use Rattle.service_cell.specs.Steps.{crash_end, StepsOpen, OpensCell, Begins, AdvancesOpen, IsSpeaking, superseded};

use crate::answer::{Advanced, Begun};
use crate::cell::Cell;
use crate::columns::Columns;
use crate::course::Course;
use crate::ending::{Events, Finished};
use crate::exchange::{Exchanged, Who, exchange, hear_opening};
use frame_codec::frame::ServerFrame;
use monitor_model::due::Due;
use monitor_model::record::{CellEvent, End, Item, Own};
use okws_base::crash::Cause;
use okws_base::items::Items;
use okws_base::limit::LONGEST_FRAME;
use okws_outer::stream::Link;
use std::alloc::AllocError;

/// A dialog that is open.
#[derive(Drop)]
pub(crate) struct Speaking {
    // What its caller calls its request.
    pub(crate) request: u32,
    pub(crate) worker: u16,
    // How many frames the service said in it.
    pub(crate) frames: usize,
    pub(crate) items: Course,
}

/// The end of a dialog that crashed by this cause.
fn end_of(cause: Cause) -> End
    ensures end { result ≡ crash_end cause }
    ensures unreplied { HasNoReply result }
{
    match cause {
        Cause::BadFrame => End::BadFrame,
        Cause::Ended => End::Ended,
        Cause::LinkFault => End::LinkFault,
        Cause::FrameLimit => End::FrameLimit,
        Cause::Starved => End::Starved,
    }
}

/// Enters a dialog that ended so, without a Reply, in a place that was kept; and what was due then on
/// its link.
fn finish(events: &mut Events, worker: u16, items: Course, end: End, due: Due)
    requires room { 0 < events.old.room }
    requires unreplied { HasNoReply end }
    ensures past { events.new.past ≡ cell.Dialog (record { worker = worker; items = items.past; end = end; due = due }) ∷ events.old.past }
    ensures keeps { events.new.keeps ≡ events.old.keeps }
    ensures room { events.new.room + 1 ≡ events.old.room }
{
    events.finish(Finished::new(worker, items.into_journal(), end, due));
}

/// Enters a dialog that ended in a Reply, in a place that was kept.
fn finish_replied(events: &mut Events, worker: u16, items: Course)
    requires room { 0 < events.old.room }
    requires replied { EndsInReply items.newest }
    ensures past { events.new.past ≡ cell.Dialog (record { worker = worker; items = items.past; end = end.Reply; due = [] }) ∷ events.old.past }
    ensures keeps { events.new.keeps ≡ events.old.keeps }
    ensures room { events.new.room + 1 ≡ events.old.room }
{
    let (reply, before) = items.into_reply();
    events.finish(Finished::replied(worker, before, reply));
}

impl<L: Link> Cell<L> {
    /// What `begin` was told is the number of the open dialog's request.
    pub fn open_request(&self) -> Option<u32>
        ensures request { result ≡ option_map (λ o. o.request) self.now.open_dialog }
        ensures there { IsSome result → incarnation self.now.past ≢ 0 }
    {
        self.speaking.as_ref().map(|speaking| speaking.request)
    }

    /// The items of the open dialog's last step, the oldest first: what its opening put, or the frame
    /// that was said and the one that answered it. No others are at hand.
    pub fn last_items(&self) -> &[Item]
        requires { IsSome self.now.open_dialog }
        ensures items { IfSome self.now.open_dialog (λ o. reverse result.now ≡ o.newest) }
        ensures newest { IfSome self.now.open_dialog (λ o. AreNewest o.newest o.items) }
    {
        match &self.speaking {
            Some(speaking) => speaking.items.last(),
            None => unreachable!(),
        }
    }

    /// Ends the open dialog as superseded by a greater incarnation. Takes no memory.
    pub fn supersede(&mut self, shown: u32)
        requires open { IsSome self.old.open_dialog }
        requires above { incarnation self.old.past < shown }
        ensures { self.new ≡ superseded self.old self.old.open_dialog shown }
    {
        match self.speaking.take() {
            Some(Speaking { worker, items, .. }) => {
                finish(
                    &mut self.events,
                    worker,
                    items,
                    End::Superseded(shown),
                    Due::none(),
                )
            }
            None => unreachable!(),
        }
    }

    /// Begins a dialog: tests that the wanted incarnation is there and that none above it was begun,
    /// enters the Drain, and puts its pushes and the Request. Where the wanted incarnation is there, the worker
    /// may ask in its name. `request` is the caller's own number for
    /// the request, of which the cell says nothing but to hand it back (`open_request`).
    pub fn begin<C: Columns>(
        &mut self,
        request: u32,
        head: Items<u8>,
        content: Items<u8>,
        wanted: u32,
        columns: &mut C,
    ) -> Begun
        requires closed { self.old.open_dialog ≡ None }
        requires wanted { 0 < wanted }
        requires declared { self.old.service < length (C.asker columns.old).config.services }
        requires short { length head + length content + 9 ≤ LONGEST_FRAME }
        requires may { wanted ≡ incarnation self.old.past → C.may_ask columns.old self.old.service wanted }
        ensures begins { Begins (C.asker columns.old) (C.shows columns.new self.old.service) request (ServerFrame.Request head content) wanted self.old (C.seen columns.old) result self.new (C.seen columns.new) }
        ensures spelled { result ≡ Begun.Started → AreSpelled self.new.open_dialog }
        ensures board { KeepsBoard C.asker C.shows C.token_seed C.spare C.may_ask columns.old columns.new }
    {
        let is = self.incarnation;
        if is != wanted {
            return match self.miss(wanted, columns) {
                Ok(()) => Begun::Missed { wanted, is },
                Err(_) => Begun::NoMemory,
            };
        }
        let shown = columns.current(self.service);
        if shown > wanted {
            return match self.supersede_at_once(shown, columns) {
                Ok(()) => Begun::Superseded {
                    incarnation: wanted,
                    shown,
                },
                Err(_) => Begun::NoMemory,
            };
        }
        self.open(request, head, content, columns)
    }

    /// Enters a Missed, and notes it.
    fn miss<C: Columns>(&mut self, wanted: u32, columns: &mut C) -> Result<(), AllocError>
        requires closed { self.old.open_dialog ≡ None }
        requires another { wanted ≢ incarnation self.old.past }
        ensures ok { OnOk result ((self.new ≡ record self.old { past = cell.Missed (C.asker columns.old).worker wanted (incarnation self.old.past) ∷ self.old.past }) × (C.seen columns.new ≡ noted (C.seen columns.old) (own.Missed self.old.service wanted (incarnation self.old.past)))) }
        ensures err { OnErr result ((self.new ≡ self.old) × (C.seen columns.new ≡ C.seen columns.old)) }
        ensures board { KeepsBoard C.asker C.shows C.token_seed C.spare C.may_ask columns.old columns.new }
    {
        let is = self.incarnation;
        let missed = Own::Missed {
            service: self.service,
            wanted,
            is,
        };
        self.events.make_room()?;
        columns.note(missed)?;
        self.events.enter(CellEvent::Missed {
            worker: columns.worker(),
            wanted,
            is,
        });
        Ok(())
    }

    /// Enters a dialog that was superseded before its Drain, and notes it.
    fn supersede_at_once<C: Columns>(
        &mut self,
        shown: u32,
        columns: &mut C,
    ) -> Result<(), AllocError>
        requires closed { self.old.open_dialog ≡ None }
        requires there { 0 < incarnation self.old.past }
        requires above { incarnation self.old.past < shown }
        ensures ok { OnOk result ((self.new ≡ finished self.old (C.asker columns.old).worker [] (end.Superseded shown) [] self.old.link) × (C.seen columns.new ≡ noted (C.seen columns.old) (own.Dialog self.old.service))) }
        ensures err { OnErr result ((self.new ≡ self.old) × (C.seen columns.new ≡ C.seen columns.old)) }
        ensures board { KeepsBoard C.asker C.shows C.token_seed C.spare C.may_ask columns.old columns.new }
    {
        self.events.make_room()?;
        columns.note(Own::Dialog(self.service))?;
        let items = Course::new(self.alloc, self.keeps);
        finish(
            &mut self.events,
            columns.worker(),
            items,
            End::Superseded(shown),
            Due::none(),
        );
        Ok(())
    }

    /// Enters the Drain, and puts its pushes and the Request.
    fn open<C: Columns>(
        &mut self,
        request: u32,
        head: Items<u8>,
        content: Items<u8>,
        columns: &mut C,
    ) -> Begun
        requires closed { self.old.open_dialog ≡ None }
        requires there { 0 < incarnation self.old.past }
        requires declared { self.old.service < length (C.asker columns.old).config.services }
        requires short { length head + length content + 9 ≤ LONGEST_FRAME }
        requires may { C.may_ask columns.old self.old.service (incarnation self.old.past) }
        ensures opens { OpensCell (C.asker columns.old) request (ServerFrame.Request head content) self.old (C.seen columns.old) result self.new (C.seen columns.new) }
        ensures spelled { result ≡ Begun.Started → AreSpelled self.new.open_dialog }
        ensures board { KeepsBoard C.asker C.shows C.token_seed C.spare C.may_ask columns.old columns.new }
    {
        if self.events.make_room().is_err() {
            return Begun::NoMemory;
        }
        let Ok(pushes) = columns.drain(self.service, self.incarnation) else {
            return Begun::NoMemory;
        };
        let Some(link) = &mut self.wire else {
            unreachable!()
        };
        let worker = columns.worker();
        let mut items = Course::new(self.alloc, self.keeps);
        let mut due = Due::none();
        match hear_opening(link, &mut items, &mut due, pushes, head, content) {
            Ok(()) => {
                self.speaking = Some(Speaking {
                    request,
                    worker,
                    frames: 0,
                    items,
                });
                Begun::Started
            }
            Err(cause) => {
                finish(&mut self.events, worker, items, end_of(cause), due);
                self.incarnation = 0;
                Begun::Crashed(cause)
            }
        }
    }

    /// Takes the next frame of the open dialog and answers it, or ends the dialog. Reads the board
    /// before that, and takes memory before the frame.
    pub fn advance<C: Columns>(&mut self, columns: &mut C) -> Advanced
        requires speaking { IsSpeaking (C.asker columns.old).worker self.old.open_dialog }
        requires declared { self.old.service < length (C.asker columns.old).config.services }
        requires may { C.may_ask columns.old self.old.service (incarnation self.old.past) }
        ensures advances { AdvancesOpen (C.asker columns.old) (C.shows columns.new self.old.service) self.old self.old.open_dialog (C.seen columns.old) result self.new (C.seen columns.new) }
        ensures spelled { result ≡ Advanced.Goes → IsHeardOpen self.new.open_dialog }
        ensures next { IsTrue (C.asker columns.old).alone → IsNextBy (C.asker columns.old).worker (C.seen columns.old) (C.seen columns.new) }
        ensures board { KeepsBoard C.asker C.shows C.token_seed C.spare C.may_ask columns.old columns.new }
    {
        let shown = columns.current(self.service);
        if shown > self.incarnation {
            let incarnation = self.incarnation;
            self.supersede(shown);
            return Advanced::Superseded { incarnation, shown };
        }
        match self.exchange(columns) {
            Exchanged::Goes => Advanced::Goes,
            Exchanged::Reply => Advanced::Reply,
            Exchanged::Crashed(cause) => Advanced::Crashed(cause),
        }
    }

    /// Takes the next frame of the open dialog and answers it, or ends the dialog.
    fn exchange<C: Columns>(&mut self, columns: &mut C) -> Exchanged
        requires speaking { IsSpeaking (C.asker columns.old).worker self.old.open_dialog }
        requires declared { self.old.service < length (C.asker columns.old).config.services }
        requires may { C.may_ask columns.old self.old.service (incarnation self.old.past) }
        ensures steps { StepsOpen (C.asker columns.old) self.old self.old.open_dialog (C.seen columns.old) result self.new (C.seen columns.new) }
        ensures spelled { result ≡ Exchanged.Goes → IsHeardOpen self.new.open_dialog }
        ensures next { IsTrue (C.asker columns.old).alone → IsNextBy (C.asker columns.old).worker (C.seen columns.old) (C.seen columns.new) }
        ensures board { KeepsBoard C.asker C.shows C.token_seed C.spare C.may_ask columns.old columns.new }
    {
        let who = Who {
            service: self.service,
            incarnation: self.incarnation,
        };
        let Some(mut speaking) = self.speaking.take() else {
            unreachable!()
        };
        let Some(link) = &mut self.wire else {
            unreachable!()
        };
        let mut due = Due::none();
        let exchanged = exchange(
            self.alloc,
            link,
            speaking.frames,
            &mut speaking.items,
            &mut due,
            columns,
            who,
        );
        match exchanged {
            Exchanged::Goes => {
                speaking.frames += 1;
                self.speaking = Some(speaking);
            }
            Exchanged::Reply => {
                finish_replied(&mut self.events, speaking.worker, speaking.items)
            }
            Exchanged::Crashed(cause) => {
                let end = end_of(cause);
                finish(&mut self.events, speaking.worker, speaking.items, end, due);
                self.incarnation = 0;
            }
        }
        exchanged
    }
}
