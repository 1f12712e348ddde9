//! The lock and its seats as callers see them. Journals have the newest entry first.
ghost use Rattle.std.specs.Prelude.{◌≡◌, ℕ, ◌<◌, ◌≤◌, [], ◌∷◌, ◌++◌, length, vec_len, IfOk, IfErr, true, false};
ghost use Rattle.okws_base.specs.Turns.{of, GrowsBy, AddsBy, Behind};
ghost use Rattle.turn_lock.specs.Seats.{AllGrow, AllClosed, AllRest, HasSight, SomeHas, sight, sights, AreFresh};

use crate::journaled::Journaled;
use crate::queue::{Queue, Spot};
use std::alloc::Global;
use std::marker::Model;
use std::sync::Wait;

/// A value that is taken in turns. Contracts see which lock it is, for how many seats it was made, and
/// the label of its value.
#[derive(Drop)]
pub struct Turn<V: Journaled> {
    queue: Queue<V>,
}

impl<V: Journaled> Model for Turn<V> {
    ghost use Rattle.turn_lock.specs.Seats.{TurnIs, turn_of};

    ghost Value = { TurnIs };

    ghost view = { λ t. turn_of t.queue.table.shared.table_id t.queue.table.shared.key };
}

/// A seat that takes turns. Contracts see its lock, its number, what it has seen, whether it holds the
/// turn, the label of the lock's value, and what was joined into it.
#[derive(Drop)]
pub struct Seat<V: Journaled> {
    spot: Spot<V>,
}

impl<V: Journaled> Model for Seat<V> {
    ghost use Rattle.turn_lock.specs.Seats.{SeatIs, seat_of, IsSeat};

    ghost Value = { SeatIs V.Entry };

    ghost view = { λ s. seat_of s.spot.place };

    ghost invariant = { λ s. IsSeat V.by s.spot.place };
}

/// What a seat has seen. A note takes no turn.
#[derive(Drop)]
pub struct Note<V: Journaled> {
    spot: Spot<V>,
}

impl<V: Journaled> Model for Note<V> {
    ghost use Rattle.turn_lock.specs.Seats.{NoteIs, note_is, IsNoteSpot};

    ghost Value = { NoteIs V.Entry };

    ghost view = { λ n. note_is n.spot.place };

    ghost invariant = { λ n. IsNoteSpot n.spot.place };
}

impl<V: Journaled> Seat<V> {
    /// The number that its entries name.
    pub fn number(&self) -> u16
        ensures { result ≡ self.now.number }
    {
        self.spot.number
    }
}

impl<V: Journaled> Turn<V> {
    /// A lock round the value, whose journal is empty, and its seats, which have seen nothing: their numbers
    /// fall to 0 at the last. Gives the value back where memory is refused.
    pub fn new(alloc: Global, value: V, count: u16) -> Result<(Turn<V>, Vec<Seat<V>>), V>
        requires count { 0 < count }
        requires journal { V.journal value ≡ [] }
        ensures ok { IfOk result (λ r. (r.0.count ≡ count) × (r.0.label ≡ V.label value) × (vec_len r.1 ≡ count) × AreFresh r.0.id r.0.label 0 r.1.items) }
        ensures err { IfErr result (λ v. v ≡ value) }
    {
        let Ok(mut seats) = Vec::with_capacity(alloc, count as usize) else {
            return Err(value);
        };
        let (queue, mut spots) = Queue::new(alloc, value, count)?;
        while let Some(spot) = spots.pop() {
            seats.push_reserved(Seat { spot });
        }
        Ok((Turn { queue }, seats))
    }

    /// Waits for the turn, and takes the value. Its journal is what the seat has seen, and what others
    /// entered since; it will enter under the seat's number.
    pub fn take<R: Wait>(&self, rt: &R, seat: &mut Seat<V>) -> V
        requires lock { seat.old.lock ≡ self.now.id }
        requires free { seat.old.held ≡ false }
        ensures grows { GrowsBy V.by seat.old.number seat.old.seen (V.journal result) }
        ensures seat { seat.new ≡ record seat.old { seen = V.journal result; held = true } }
        ensures holder { V.holder result ≡ seat.old.number }
        ensures label { V.label result ≡ seat.old.label }
    {
        self.queue.take(rt, &mut seat.spot)
    }

    /// Gives the value back, with entries of this seat added, and lets the next in line have its turn.
    pub fn give(&self, seat: &mut Seat<V>, value: V)
        requires lock { seat.old.lock ≡ self.now.id }
        requires held { seat.old.held ≡ true }
        requires label { V.label value ≡ seat.old.label }
        requires adds { AddsBy V.by seat.old.number seat.old.seen (V.journal value) }
        ensures seat { seat.new ≡ record seat.old { seen = V.journal value; held = false } }
    {
        self.queue.give(&mut seat.spot, value);
    }

    /// A note of what the seat has seen. It takes no memory.
    pub fn split(&self, seat: &mut Seat<V>) -> Note<V>
        requires lock { seat.old.lock ≡ self.now.id }
        ensures seat { seat.new ≡ seat.old }
        ensures note { result ≡ record { lock = seat.old.lock; seen = seat.old.seen } }
    {
        Note {
            spot: self.queue.split(&mut seat.spot),
        }
    }

    /// Another note of the same.
    pub fn again(&self, note: &mut Note<V>) -> Note<V>
        requires lock { note.old.lock ≡ self.now.id }
        ensures note { note.new ≡ note.old }
        ensures again { result ≡ note.old }
    {
        Note {
            spot: self.queue.split(&mut note.spot),
        }
    }

    /// The seat has then seen what the note has; what it had not seen was entered by others.
    pub fn meet(&self, seat: &mut Seat<V>, note: Note<V>)
        requires lock { (seat.old.lock ≡ self.now.id) × (note.lock ≡ self.now.id) }
        requires free { seat.old.held ≡ false }
        ensures seat { seat.new ≡ record seat.old { seen = seat.new.seen } }
        ensures grows { GrowsBy V.by seat.old.number seat.old.seen seat.new.seen }
        ensures met { Behind note.seen seat.new.seen }
    {
        self.queue.meet(&mut seat.spot, note.spot);
    }

    /// Joins another seat into this one, which then has seen what both had. It takes no memory, and the
    /// other takes no turn any more.
    pub fn join(&self, seat: &mut Seat<V>, other: Seat<V>)
        requires lock { (seat.old.lock ≡ self.now.id) × (other.lock ≡ self.now.id) }
        requires free { (seat.old.held ≡ false) × (other.held ≡ false) }
        ensures seat { seat.new ≡ record seat.old { seen = seat.new.seen; olds = sight other ∷ other.olds ++ seat.old.olds } }
        ensures grows { GrowsBy V.by seat.old.number seat.old.seen seat.new.seen }
        ensures both { Behind other.seen seat.new.seen }
    {
        self.queue.join(&mut seat.spot, other.spot);
    }

    /// Ends the lock by a seat into which all others were joined, and gives the value. Its journal goes on
    /// from what each of them had seen by entries of others alone.
    pub fn end(self, seat: Seat<V>) -> V
        requires lock { seat.lock ≡ self.id }
        requires free { seat.held ≡ false }
        requires all { (k : ℕ) → k < self.count → HasSight k (sights seat) }
        ensures told { AllGrow V.by (sights seat) (V.journal result) }
        ensures none { (k : ℕ) → self.count ≤ k → of V.by k (V.journal result) ≡ [] }
        ensures label { V.label result ≡ seat.label }
    {
        self.queue.end(seat.spot)
    }

    /// Ends the lock by all its seats, and gives the value. Its journal goes on from what each of them has
    /// seen, and from what each that was joined into one of them had seen, by entries of others alone.
    pub fn close(self, mut seats: Vec<Seat<V>>) -> V
        requires some { 0 < vec_len seats }
        requires rest { AllRest self.id seats.items }
        requires all { (k : ℕ) → k < self.count → SomeHas k seats.items }
        ensures told { AllClosed V.by seats.items (V.journal result) }
        ensures none { (k : ℕ) → self.count ≤ k → of V.by k (V.journal result) ≡ [] }
    {
        let mut all = match seats.pop() {
            Some(seat) => seat,
            None => unreachable!(),
        };
        while let Some(seat) = seats.pop() {
            self.join(&mut all, seat);
        }
        seats.destroy_empty();
        self.end(all)
    }
}
