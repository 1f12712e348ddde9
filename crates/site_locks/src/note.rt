//! What a number has seen at okd, for others to take in.

ghost use Rattle.std.specs.Prelude.{◌≡◌};
ghost use Rattle.okws_base.specs.Turns.{GrowsBy, Behind};
ghost use Rattle.named_columns.specs.Launched.{by_entry};

use crate::locks::{Locks, Seats};
use crate::named::Site;
use named_columns::named::Backed;
use named_columns::okd::SiteOkd;
use okws_outer::keeper::Keeper;
use okws_outer::stream::Sink;
use std::marker::{Model, PhantomData};
use turn_lock::Note;

/// What a number has seen at okd, which it hands to another number. Contracts see the entries, the newest
/// first.
#[derive(Drop)]
pub struct OkdNote<N: Backed, J: Site> {
    note: Note<SiteOkd<N>>,
    of: PhantomData<J>,
}

impl<N: Backed, J: Site> Model for OkdNote<N, J> {
    ghost use Rattle.std.specs.Prelude.{◌≡◌, List};
    ghost use Rattle.okws_base.specs.declared.journal.Entry.{Entry};
    ghost use Rattle.okws_plan.specs.declared.event.OkdEvent.{OkdEvent};

    ghost Value = { List (Entry OkdEvent) };

    ghost view = { λ n. n.note.seen };

    ghost invariant = { λ n. n.note.lock ≡ J.ids.okd };
}

impl<N: Backed, J: Site> OkdNote<N, J> {
    /// Another note of the same. It takes no turn and no memory.
    pub fn again<K: Keeper, S: Sink>(&mut self, locks: &Locks<N, J, K, S>) -> OkdNote<N, J>
        ensures same { self.new ≡ self.old }
        ensures again { result ≡ self.old }
    {
        OkdNote {
            note: locks.okd.again(&mut self.note),
            of: PhantomData,
        }
    }
}

impl<N: Backed, J: Site, K: Keeper, S: Sink> Seats<N, J, K, S> {
    /// A note of what was seen at okd. It takes no turn and no memory.
    pub fn note_okd(&mut self, locks: &Locks<N, J, K, S>) -> OkdNote<N, J>
        ensures note { result ≡ self.old.okd }
        ensures same { self.new ≡ self.old }
    {
        OkdNote {
            note: locks.okd.split(&mut self.okd),
            of: PhantomData,
        }
    }

    /// Takes in a note of another number: what it has seen at okd is then seen here too, and what is new
    /// was entered by others. It takes no turn and no memory.
    pub fn meet_okd(&mut self, locks: &Locks<N, J, K, S>, note: OkdNote<N, J>)
        ensures met { Behind note self.new.okd }
        ensures grows { GrowsBy by_entry self.old.number self.old.okd self.new.okd }
        ensures only { self.new ≡ record self.old { okd = self.new.okd } }
    {
        locks.okd.meet(&mut self.okd, note.note);
    }
}
