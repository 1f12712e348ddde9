//! What a number has seen at the proxies, for others to take in.

ghost use Rattle.std.specs.Prelude.{◌≡◌, ◌<◌, ℕ, List, IfOk, length, slice_index_or};
ghost use Rattle.okws_base.specs.Turns.{Behind};
ghost use Rattle.okws_base.specs.declared.journal.Entry.{Entry};
ghost use Rattle.okws_plan.specs.declared.event.ProxyEvent.{ProxyEvent};
ghost use Rattle.monitor_model.specs.Seen.{proxy_past};
ghost use Rattle.site_locks.specs.Heard.{SeesProxies};
ghost use Rattle.site_locks.specs.Steps.{SeesProxy};

use crate::locks::{Locks, Seats};
use crate::named::Site;
use named_columns::named::Backed;
use named_columns::proxy::SiteProxy;
use okws_outer::keeper::Keeper;
use okws_outer::stream::Sink;
use std::alloc::{AllocError, Global};
use std::marker::{Model, PhantomData};
use turn_lock::Note;

/// What a number has seen at each proxy, which it hands to other numbers. Contracts see the entries at each,
/// the newest first. A note is a number of two bytes: making one takes a load, and meeting one takes two.
#[derive(Drop)]
pub struct ProxyNotes<N: Backed, J: Site, K: Keeper> {
    notes: Vec<Note<SiteProxy<N, K>>>,
    of: PhantomData<J>,
}

impl<N: Backed, J: Site, K: Keeper> Model for ProxyNotes<N, J, K> {
    ghost use Rattle.std.specs.Prelude.{◌≡◌, List, map};
    ghost use Rattle.okws_base.specs.declared.journal.Entry.{Entry};
    ghost use Rattle.okws_plan.specs.declared.event.ProxyEvent.{ProxyEvent};
    ghost use Rattle.turn_lock.specs.Seats.{NoteIs};

    ghost Value = { List (List (Entry ProxyEvent)) };

    ghost view = { λ n. map (λ (a : NoteIs (Entry ProxyEvent)). a.seen) n.notes.items };

    ghost invariant = { λ n. map (λ (a : NoteIs (Entry ProxyEvent)). a.lock) n.notes.items ≡ J.ids.proxies };
}

// Notes of what was seen at each proxy.
fn notes_of<N: Backed, J: Site, K: Keeper, S: Sink>(
    alloc: Global,
    locks: &Locks<N, J, K, S>,
    seats: &mut Seats<N, J, K, S>,
) -> Result<ProxyNotes<N, J, K>, AllocError>
    ensures notes { IfOk result (λ n. n ≡ seats.old.proxies) }
    ensures same { seats.new ≡ seats.old }
{
    let count = seats.proxy_count(locks);
    let mut notes = Vec::with_capacity(alloc, count)?;
    for proxy in 0..count {
        notes.push_reserved(seats.note_proxy(locks, proxy));
    }
    Ok(ProxyNotes {
        notes,
        of: PhantomData,
    })
}

impl<N: Backed, J: Site, K: Keeper, S: Sink> Seats<N, J, K, S> {
    // How many proxies there are: as many as locks and seats.
    fn proxy_count(&self, locks: &Locks<N, J, K, S>) -> usize
        ensures declared { result ≡ length N.site.proxies }
        ensures seats { result ≡ length self.now.proxies }
        ensures locks { result ≡ length J.ids.proxies }
    {
        let _turns = &locks.proxies;
        self.proxies.len()
    }

    // A note of what was seen at a proxy. It takes no turn.
    fn note_proxy(&mut self, locks: &Locks<N, J, K, S>, proxy: usize) -> Note<SiteProxy<N, K>>
        requires { proxy < length N.site.proxies }
        ensures same { self.new ≡ self.old }
        ensures seen { result.seen ≡ proxy_past self.old.proxies proxy }
        ensures lock { result.lock ≡ slice_index_or J.ids.proxies proxy result.lock }
    {
        let turn = &locks.proxies[proxy];
        let seat = &mut self.proxies[proxy];
        turn.split(seat)
    }

    // Takes in another note of the same at one proxy: what is new was entered by others. It takes no turn.
    fn hear_proxy(
        &mut self,
        locks: &Locks<N, J, K, S>,
        proxy: usize,
        notes: &mut ProxyNotes<N, J, K>,
    )
        requires { proxy < length N.site.proxies }
        ensures notes { notes.new ≡ notes.old }
        ensures sees { (before : List (Entry ProxyEvent)) × Behind (proxy_past notes.old proxy) before × SeesProxy proxy before self.old self.new }
    {
        let turn = &locks.proxies[proxy];
        let kept = &mut notes.notes[proxy];
        let note = turn.again(kept);
        let seat = &mut self.proxies[proxy];
        turn.meet(seat, note);
    }

    /// Notes of what was seen at each proxy. It takes no turn. Where memory is refused, nothing changes.
    pub(crate) fn note_proxies(
        &mut self,
        locks: &Locks<N, J, K, S>,
    ) -> Result<ProxyNotes<N, J, K>, AllocError>
        ensures notes { IfOk result (λ n. n ≡ self.old.proxies) }
        ensures same { self.new ≡ self.old }
    {
        notes_of(self.alloc, locks, self)
    }

    /// Takes in what another number has seen at the proxies: it is then seen here too, and what is new was
    /// entered by others. The notes stay. It takes no turn and no memory.
    pub(crate) fn hear_proxies(
        &mut self,
        locks: &Locks<N, J, K, S>,
        notes: &mut ProxyNotes<N, J, K>,
    )
        ensures notes { notes.new ≡ notes.old }
        ensures heard { (p : ℕ) → p < length N.site.proxies → Behind (proxy_past notes.old p) (proxy_past self.new.proxies p) }
        ensures sees { SeesProxies self.old self.new }
    {
        for proxy in 0..self.proxy_count(locks) {
            self.hear_proxy(locks, proxy, notes);
        }
    }
}
