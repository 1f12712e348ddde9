//! The items of a dialog, of which those of its last step stay at hand whether or not the others are
//! kept.

ghost use Rattle.std.specs.Prelude.{◌≡◌, ◌≤◌, ◌<◌, ◌+◌, ◌++◌, [], ◌∷◌, List, length, reverse, OnOk};
ghost use Rattle.monitor_model.specs.declared.record.Item.{Item};
ghost use Rattle.monitor_model.specs.declared.record.Item.TheVariants.{Said};
ghost use Rattle.service_cell.specs.Ending.{IsSpelledReply, EndsInReply};

use frame_codec::frame::ServiceFrame;
use monitor_model::record::Item;
use okws_base::journal::Journal;
use std::alloc::{AllocError, Global};
use std::marker::Model;

/// The items of a dialog: those of its last step, and a journal of those before them.
#[derive(Drop)]
pub(crate) struct Course {
    journal: Journal<Item>,
    last: Vec<Item>,
}

impl Model for Course {
    ghost use Rattle.std.specs.Prelude.{◌≤◌, ◌++◌, ◌-◌, length, min, reverse, vec_len, vec_capacity};
    ghost use Rattle.service_cell.specs.Paced.{Paced};

    ghost Value = { Paced };

    ghost view = { λ a. record {
      past = reverse a.last.items ++ a.journal.past;
      newest = reverse a.last.items;
      room = min (vec_capacity a.last - vec_len a.last) (a.journal.room - vec_len a.last);
    } };

    ghost invariant = { λ a. vec_len a.last ≤ a.journal.room };
}

// Enters items, the oldest of which comes first, and leaves their places empty.
fn enter_all(journal: &mut Journal<Item>, items: &mut Vec<Item>)
    requires { length items.old.items ≤ journal.old.room }
    ensures past { journal.new.past ≡ reverse items.old.items ++ journal.old.past }
    ensures room { journal.new.room + length items.old.items ≡ journal.old.room }
    ensures empty { items.new.items ≡ [] }
{
    items.reverse();
    while let Some(item) = items.pop() {
        journal.enter(item);
    }
}

impl Course {
    /// No items; those before the last step will be kept, or not.
    pub(crate) fn new(alloc: Global, keeps: bool) -> Self
        ensures past { result.past ≡ [] }
        ensures newest { result.newest ≡ [] }
    {
        Course {
            journal: Journal::new(alloc, keeps),
            last: Vec::new(alloc),
        }
    }

    /// Makes room for n more; where memory is refused the items are as before.
    pub(crate) fn make_room(&mut self, n: usize) -> Result<(), AllocError>
        ensures past { self.new.past ≡ self.old.past }
        ensures newest { self.new.newest ≡ self.old.newest }
        ensures ok { OnOk result (n ≤ self.new.room) }
    {
        self.last.reserve(n)?;
        self.journal.make_room(self.last.len() + n)
    }

    /// Begins a step of at most n items: those of the one before it go to the journal, and room is made
    /// for its own. Where memory is refused all items are still those that were.
    pub(crate) fn begin_step(&mut self, n: usize) -> Result<(), AllocError>
        ensures past { self.new.past ≡ self.old.past }
        ensures ok { OnOk result ((self.new.newest ≡ []) × (n ≤ self.new.room)) }
    {
        enter_all(&mut self.journal, &mut self.last);
        self.make_room(n)
    }

    /// Enters an item, which takes no memory.
    pub(crate) fn enter(&mut self, item: Item)
        requires { 0 < self.old.room }
        ensures past { self.new.past ≡ item ∷ self.old.past }
        ensures newest { self.new.newest ≡ item ∷ self.old.newest }
        ensures room { self.new.room + 1 ≡ self.old.room }
    {
        self.last.push_reserved(item);
    }

    /// The items of the last step, the oldest first.
    pub(crate) fn last(&self) -> &[Item]
        ensures items { reverse result.now ≡ self.now.newest }
        ensures before { (before : List Item) × (self.now.past ≡ self.now.newest ++ before) }
    {
        &self.last
    }

    /// The items, in a journal.
    pub(crate) fn into_journal(self) -> Journal<Item>
        ensures { result.past ≡ self.past }
    {
        let Course {
            mut journal,
            mut last,
        } = self;
        enter_all(&mut journal, &mut last);
        journal
    }

    /// The Reply that is the last item, and a journal of the others, which has room for it.
    pub(crate) fn into_reply(self) -> (ServiceFrame, Journal<Item>)
        requires { EndsInReply self.newest }
        ensures past { self.past ≡ Said result.0 ∷ result.1.past }
        ensures reply { IsSpelledReply result.0 }
        ensures room { 0 < result.1.room }
    {
        let Course {
            mut journal,
            mut last,
        } = self;
        let Some(Item::Said(reply)) = last.pop() else {
            unreachable!()
        };
        enter_all(&mut journal, &mut last);
        (reply, journal)
    }
}
