//! What a number has seen at the columns where incarnations are installed, for others to take in.

ghost use Rattle.std.specs.Prelude.{◌≡◌, IfOk};
ghost use Rattle.okws_base.specs.Turns.{Behind, GrowsBy};
ghost use Rattle.named_columns.specs.Launched.{by_entry};
ghost use Rattle.site_locks.specs.Heard.{HasHeard, SeesColumns, columns_of};

use crate::locks::{Locks, Seats};
use crate::named::Site;
use crate::proxy_notes::ProxyNotes;
use named_columns::log::SiteLog;
use named_columns::named::Backed;
use named_columns::pubd::SitePubd;
use okws_outer::keeper::Keeper;
use okws_outer::stream::Sink;
use std::alloc::AllocError;
use std::marker::{Model, PhantomData};
use turn_lock::Note;

/// What a number has seen at pubd, which it hands to other numbers. Contracts see the entries, the newest
/// first.
#[derive(Drop)]
pub struct PubdNote<N: Backed, J: Site> {
    note: Note<SitePubd<N>>,
    of: PhantomData<J>,
}

impl<N: Backed, J: Site> Model for PubdNote<N, J> {
    ghost use Rattle.std.specs.Prelude.{◌≡◌, List};
    ghost use Rattle.okws_base.specs.declared.journal.Entry.{Entry};
    ghost use Rattle.okws_plan.specs.declared.event.PubdEvent.{PubdEvent};

    ghost Value = { List (Entry PubdEvent) };

    ghost view = { λ n. n.note.seen };

    ghost invariant = { λ n. n.note.lock ≡ J.ids.pubd };
}

impl<N: Backed, J: Site> PubdNote<N, J> {
    // Another note of the same.
    fn again<K: Keeper, S: Sink>(&mut self, locks: &Locks<N, J, K, S>) -> PubdNote<N, J>
        ensures same { self.new ≡ self.old }
        ensures again { result ≡ self.old }
    {
        PubdNote {
            note: locks.pubd.again(&mut self.note),
            of: PhantomData,
        }
    }
}

/// What a number has seen at oklogd, which it hands to other numbers. Contracts see the entries, the newest
/// first.
#[derive(Drop)]
pub struct LogNote<N: Backed, J: Site, S: Sink> {
    note: Note<SiteLog<N, S>>,
    of: PhantomData<J>,
}

impl<N: Backed, J: Site, S: Sink> Model for LogNote<N, J, S> {
    ghost use Rattle.std.specs.Prelude.{◌≡◌, List};
    ghost use Rattle.okws_base.specs.declared.journal.Entry.{Entry};
    ghost use Rattle.okws_plan.specs.declared.event.LogEvent.{LogEvent};

    ghost Value = { List (Entry LogEvent) };

    ghost view = { λ n. n.note.seen };

    ghost invariant = { λ n. n.note.lock ≡ J.ids.oklogd };
}

impl<N: Backed, J: Site, S: Sink> LogNote<N, J, S> {
    // Another note of the same.
    fn again<K: Keeper>(&mut self, locks: &Locks<N, J, K, S>) -> LogNote<N, J, S>
        ensures same { self.new ≡ self.old }
        ensures again { result ≡ self.old }
    {
        LogNote {
            note: locks.oklogd.again(&mut self.note),
            of: PhantomData,
        }
    }
}

/// What a number has seen at each proxy, at pubd and at oklogd, which it hands to other numbers.
#[derive(Drop)]
pub struct ColumnNotes<N: Backed, J: Site, K: Keeper, S: Sink> {
    proxies: ProxyNotes<N, J, K>,
    pubd: PubdNote<N, J>,
    oklogd: LogNote<N, J, S>,
}

impl<N: Backed, J: Site, K: Keeper, S: Sink> Model for ColumnNotes<N, J, K, S> {
    ghost use Rattle.site_locks.specs.Heard.{ColumnsSeen};

    ghost Value = { ColumnsSeen };

    ghost view = { λ n. record { proxies = n.proxies; pubd = n.pubd; oklogd = n.oklogd } };
}

impl<N: Backed, J: Site, K: Keeper, S: Sink> Seats<N, J, K, S> {
    // A note of what was seen at pubd. It takes no turn and no memory.
    fn note_pubd(&mut self, locks: &Locks<N, J, K, S>) -> PubdNote<N, J>
        ensures note { result ≡ self.old.pubd }
        ensures same { self.new ≡ self.old }
    {
        PubdNote {
            note: locks.pubd.split(&mut self.pubd),
            of: PhantomData,
        }
    }

    // Takes in a note of another number: what it has seen at pubd is then seen here too, and what is new was
    // entered by others. It takes no turn and no memory.
    fn meet_pubd(&mut self, locks: &Locks<N, J, K, S>, note: PubdNote<N, J>)
        ensures met { Behind note self.new.pubd }
        ensures grows { GrowsBy by_entry self.old.number self.old.pubd self.new.pubd }
        ensures only { self.new ≡ record self.old { pubd = self.new.pubd } }
    {
        locks.pubd.meet(&mut self.pubd, note.note);
    }

    // A note of what was seen at oklogd. It takes no turn and no memory.
    fn note_log(&mut self, locks: &Locks<N, J, K, S>) -> LogNote<N, J, S>
        ensures note { result ≡ self.old.oklogd }
        ensures same { self.new ≡ self.old }
    {
        LogNote {
            note: locks.oklogd.split(&mut self.oklogd),
            of: PhantomData,
        }
    }

    // Takes in a note of another number: what it has seen at oklogd is then seen here too, and what is new was
    // entered by others. It takes no turn and no memory.
    fn meet_log(&mut self, locks: &Locks<N, J, K, S>, note: LogNote<N, J, S>)
        ensures met { Behind note self.new.oklogd }
        ensures grows { GrowsBy by_entry self.old.number self.old.oklogd self.new.oklogd }
        ensures only { self.new ≡ record self.old { oklogd = self.new.oklogd } }
    {
        locks.oklogd.meet(&mut self.oklogd, note.note);
    }

    /// Notes of what was seen at each proxy, at pubd and at oklogd. It takes no turn. Where memory is refused,
    /// nothing changes.
    pub fn note_columns(
        &mut self,
        locks: &Locks<N, J, K, S>,
    ) -> Result<ColumnNotes<N, J, K, S>, AllocError>
        ensures notes { IfOk result (λ n. n ≡ columns_of self.old) }
        ensures same { self.new ≡ self.old }
    {
        let proxies = self.note_proxies(locks)?;
        let pubd = self.note_pubd(locks);
        let oklogd = self.note_log(locks);
        Ok(ColumnNotes {
            proxies,
            pubd,
            oklogd,
        })
    }

    /// Takes in what another number has seen at the proxies, at pubd and at oklogd: it is then seen here too,
    /// and what is new was entered by others. The notes stay. It takes no turn and no memory.
    pub fn hear(&mut self, locks: &Locks<N, J, K, S>, notes: &mut ColumnNotes<N, J, K, S>)
        ensures notes { notes.new ≡ notes.old }
        ensures heard { HasHeard N.site notes.old (columns_of self.new) }
        ensures sees { SeesColumns self.old self.new }
    {
        self.hear_proxies(locks, &mut notes.proxies);
        let pubd = notes.pubd.again(locks);
        self.meet_pubd(locks, pubd);
        let oklogd = notes.oklogd.again(locks);
        self.meet_log(locks, oklogd);
    }
}
