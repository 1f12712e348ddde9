//! The lock over a table of words: tickets are drawn, and served one after another. Its journals have the
//! oldest entry first. What callers see of it is in `turn`.
ghost use Rattle.std.specs.Prelude.{◌≡◌, ◌≢◌, ℕ, List, [], ◌∷◌, ◌++◌, ◌-◌, ◌+◌, ◌<◌, ◌≤◌, ◌⊎◌, length, map, reverse, vec_len, vec_capacity, drop, IfOk, IfErr, Some, None};
ghost use Rattle.okws_base.specs.Turns.{of};
ghost use Rattle.turn_lock.specs.Tickets.{note_number, staged, given, opening_view, dealer, dealt, note_of, with_seen, longer, parts_of, HasNumber, AllTold, Rests, IsNew, AreNew, view_of, part_of, Gets, Goes, StartsWith, KnowsBoth, IsFree, HasTurn, IsSamePlace, IsSameRest, number_of, seen_of, own_of};
ghost use Rattle.turn_lock.specs.declared.rule.Stage.TheVariants.{Idle, Waits, Holds};

use crate::journaled::Journaled;
use crate::rule::{Deal, Draw, Learn, Look, Meet, Note, Ring, Serve, TakeIn, Tickets, View};
use atomic_table::{Refused, Table};
use std::alloc::Global;
use std::hint;
use std::sync::Wait;

// The word of the ticket that is served.
const SERVING: usize = 0;

// The word of the next ticket.
const TICKETS: usize = 1;

// How often the next in line looks before it sleeps.
const SPINS: u32 = 1000;

// The number of a seat that takes no turn.
const NOTE: u16 = u16::MAX;

// Those that wait for a ticket sleep on the bell of its remainder.
fn bell_of(ticket: u64) -> usize
    ensures { (2 ≤ result) × (result < 10) }
{
    2 + (ticket % 8) as usize
}

pub type Place<V> = atomic_table::Seat<Option<V>, View<<V as Journaled>::Entry>>;

/// A seat at the table, and its number.
pub struct Spot<V: Journaled> {
    pub number: u16,
    pub place: Place<V>,
    ghost numbered: { number ≡ place.me.0.part.number },
}

impl<V: Journaled> Drop for Spot<V> {
    fn drop(self) {
        let Spot { number: _, place } = self;
        drop(place);
    }
}

impl<V: Journaled> Spot<V> {
    // The seat without its number.
    fn into_place(self) -> Place<V>
        ensures { result ≡ self.place }
    {
        let Spot { number: _, place } = self;
        place
    }
}

/// The table of one lock.
pub struct Queue<V: Journaled> {
    pub table: Table<Option<V>, View<V::Entry>, (u16, u16), Tickets, Global>,
    ghost sizes: { (table.shared.table_id.words ≡ 10) × (table.shared.table_id.slots ≡ 1) },
}

impl<V: Journaled + Drop> Drop for Queue<V> {
    fn drop(self) {
        let Queue { table } = self;
        drop(table);
    }
}

impl<V: Journaled> Queue<V> {
    fn draw<R: Wait>(&self, rt: &R, place: &mut Place<V>) -> u64
        requires table { place.old.table_id ≡ self.now.table.shared.table_id }
        requires free { (place.old.me.0.stage ≡ Idle) × (place.old.me.0.part.number ≢ note_number) }
        ensures table { (place.new.table_id ≡ place.old.table_id) × (place.new.id ≡ place.old.id) }
        ensures ticket { place.new.me ≡ (staged (Waits result) place.old.me.0, place.old.me.1) }
    {
        for _ in rt.forever() {
            let next = self.table.shared.peek(TICKETS);
            if next < u64::MAX {
                let found = self
                    .table
                    .shared
                    .compare_exchange::<Draw>(place, TICKETS, next, next + 1);
                if found == next {
                    return next;
                }
            }
        }
        unreachable!()
    }

    // Waits until the ticket is served, and then has the value.
    fn wait<R: Wait>(&self, rt: &R, place: &mut Place<V>, ticket: u64)
        requires table { place.old.table_id ≡ self.now.table.shared.table_id }
        requires waits { place.old.me.0.stage ≡ Waits ticket }
        ensures table { (place.new.table_id ≡ place.old.table_id) × (place.new.id ≡ place.old.id) }
        ensures turn { Gets (λ x. reverse (V.journal x)) V.label V.by ticket place.old.me place.new.me }
    {
        let bell = bell_of(ticket);
        let mut tries = 0;
        for _ in rt.forever() {
            let rung = self.table.shared.peek(bell);
            let now = self.table.shared.load::<Look>(place, SERVING);
            if now == ticket {
                return;
            }
            if tries < SPINS && ticket.wrapping_sub(now) == 1 {
                tries += 1;
                hint::spin_loop();
            } else {
                self.table.shared.park(rt, bell, (rung % (1 << 32)) as u32);
            }
        }
        unreachable!()
    }

    // Takes the value out of the slot.
    fn lift(&self, place: &mut Place<V>) -> V
        requires table { place.old.table_id ≡ self.now.table.shared.table_id }
        requires out { (x : V) × (place.old.me.1 ≡ (0, Some x) ∷ []) }
        ensures table { (place.new.table_id ≡ place.old.table_id) × (place.new.id ≡ place.old.id) }
        ensures value { (place.old.me.1 ≡ (0, Some result) ∷ []) × (place.new.me ≡ (place.old.me.0, (0, None) ∷ [])) }
    {
        match place.slot_mut(&self.table.shared, 0).take() {
            Some(value) => value,
            None => unreachable!(),
        }
    }

    // Lays the value into the slot.
    fn lay(&self, place: &mut Place<V>, value: V)
        requires table { place.old.table_id ≡ self.now.table.shared.table_id }
        requires out { place.old.me.1 ≡ (0, None) ∷ [] }
        ensures table { (place.new.table_id ≡ place.old.table_id) × (place.new.id ≡ place.old.id) }
        ensures value { place.new.me ≡ (place.old.me.0, (0, Some value) ∷ []) }
    {
        match place.slot_mut(&self.table.shared, 0).replace(value) {
            Some(_) => unreachable!(),
            None => {}
        }
    }

    // Gives up the turn, and wakes those that wait for theirs.
    fn serve(&self, place: &mut Place<V>)
        requires table { place.old.table_id ≡ self.now.table.shared.table_id }
        requires turn { (t : ℕ) × (place.old.me.0.stage ≡ Holds t) }
        requires entries { (x : V) × (place.old.me.1 ≡ (0, Some x) ∷ []) × Goes V.by (number_of place.old) (seen_of place.old) (reverse (V.journal x)) × (V.label x ≡ place.old.me.0.tag) }
        ensures table { IsSamePlace place.old place.new }
        ensures given { (x : V) → place.old.me.1 ≡ (0, Some x) ∷ [] → place.new.me ≡ (given (reverse (V.journal x)) place.old.me.0, []) }
    {
        let served = self.table.shared.fetch_add::<Serve>(place, SERVING, 1);
        let next = served.wrapping_add(1);
        if self.table.shared.peek(TICKETS) != next {
            let bell = bell_of(next);
            self.table.shared.store::<Ring>(place, bell, next);
            self.table.shared.wake_all(bell);
        }
    }

    /// Waits for the turn, and takes the value.
    pub fn take<R: Wait>(&self, rt: &R, spot: &mut Spot<V>) -> V
        requires table { spot.old.place.table_id ≡ self.now.table.shared.table_id }
        requires free { IsFree spot.old.place }
        ensures seen { StartsWith (reverse (V.journal result)) (seen_of spot.old.place) }
        ensures own { of V.by (number_of spot.old.place) (reverse (V.journal result)) ≡ own_of spot.old.place }
        ensures holder { V.holder result ≡ number_of spot.old.place }
        ensures label { V.label result ≡ spot.old.place.me.0.tag }
        ensures turn { HasTurn spot.new.place × IsSamePlace spot.old.place spot.new.place × IsSameRest spot.old.place spot.new.place }
        ensures knows { (seen_of spot.new.place ≡ reverse (V.journal result)) × (own_of spot.new.place ≡ own_of spot.old.place) }
    {
        let place = &mut spot.place;
        let ticket = self.draw(rt, place);
        self.wait(rt, place, ticket);
        let mut value = self.lift(place);
        value.hold(spot.number);
        value
    }

    /// Gives the value back, with entries of this seat added.
    pub fn give(&self, spot: &mut Spot<V>, value: V)
        requires table { spot.old.place.table_id ≡ self.now.table.shared.table_id }
        requires turn { HasTurn spot.old.place }
        requires entries { Goes V.by (number_of spot.old.place) (seen_of spot.old.place) (reverse (V.journal value)) }
        requires label { V.label value ≡ spot.old.place.me.0.tag }
        ensures seat { IsSamePlace spot.old.place spot.new.place × IsSameRest spot.old.place spot.new.place × (spot.new.place.me.0.stage ≡ Idle) × (spot.new.place.me.1 ≡ []) }
        ensures seen { seen_of spot.new.place ≡ reverse (V.journal value) }
        ensures own { own_of spot.new.place ≡ own_of spot.old.place ++ drop (length (seen_of spot.old.place)) (reverse (V.journal value)) }
    {
        let place = &mut spot.place;
        self.lay(place, value);
        self.serve(place);
    }

    // The table, and the first seat, which has the last number and the others to give.
    fn open(alloc: Global, value: V, count: u16) -> Result<(Queue<V>, Place<V>), V>
        requires { (0 < count) × (V.journal value ≡ []) }
        ensures ok { IfOk result (λ r. (r.0.table.shared.key ≡ (count, V.label value)) × (r.1.table_id ≡ r.0.table.shared.table_id) × (r.1.me ≡ (opening_view count (V.label value), []))) }
        ensures err { IfErr result (λ v. v ≡ value) }
    {
        let Ok(mut slots) = Vec::with_capacity(alloc, 1) else {
            return Err(value);
        };
        let label = value.label();
        slots.push_reserved(Some(value));
        match Table::new(alloc, &[0; 10], slots, &(count, label)) {
            Ok((table, place)) => Ok((Queue { table }, place)),
            Err(Refused { slots }) => Err(only(slots)),
        }
    }

    // A new seat at the table, with the next number.
    fn deal(&self, place: &mut Place<V>) -> Place<V>
        requires table { place.old.table_id ≡ self.now.table.shared.table_id }
        requires rest { (place.old.me.0.olds ≡ []) × (place.old.me.0.spare < self.now.table.shared.key.0) × (place.old.me.0.spare ≢ place.old.me.0.part.number) × (place.old.me.0.part.number ≢ note_number) }
        ensures old { IsSamePlace place.old place.new × (place.new.me ≡ (dealer place.old.me.0, place.old.me.1)) }
        ensures new { (result.table_id ≡ place.old.table_id) × (result.me ≡ (dealt place.old.me.0, [])) }
    {
        self.table.shared.split_seat::<Deal>(place)
    }

    /// A note: it takes no turn, and has seen the same.
    pub fn split(&self, spot: &mut Spot<V>) -> Spot<V>
        requires table { spot.old.place.table_id ≡ self.now.table.shared.table_id }
        ensures old { IsSamePlace spot.old.place spot.new.place × (spot.new.place.me ≡ spot.old.place.me) }
        ensures new { (result.place.table_id ≡ spot.old.place.table_id) × (result.place.me ≡ (note_of spot.old.place.me.0, [])) }
    {
        let place = self.table.shared.split_seat::<Note>(&mut spot.place);
        Spot {
            number: NOTE,
            place,
        }
    }

    fn learn(&self, place: &mut Place<V>, other: Place<V>)
        requires table { (place.old.table_id ≡ self.now.table.shared.table_id) × (other.table_id ≡ self.now.table.shared.table_id) }
        requires rest { Rests place.old × Rests other }
        ensures same { IsSamePlace place.old place.new }
        ensures learned { (place.new.me ≡ (with_seen (longer (seen_of place.old) (seen_of other)) (other.me.0.part ∷ other.me.0.olds ++ place.old.me.0.olds) place.old.me.0, place.old.me.1)) × KnowsBoth (λ x. reverse (V.journal x)) V.label V.by (seen_of place.old) (seen_of other) place.new.me.0.part }
    {
        self.table.shared.join_seat::<TakeIn>(place, other);
        self.table.shared.load::<Learn>(place, SERVING);
    }

    fn see(&self, place: &mut Place<V>, note: Place<V>)
        requires table { (place.old.table_id ≡ self.now.table.shared.table_id) × (note.table_id ≡ self.now.table.shared.table_id) }
        requires rest { Rests place.old × Rests note }
        requires note { note.me.0.olds ≡ [] }
        ensures same { IsSamePlace place.old place.new }
        ensures seen { (place.new.me ≡ (with_seen (longer (seen_of place.old) (seen_of note)) place.old.me.0.olds place.old.me.0, place.old.me.1)) × KnowsBoth (λ x. reverse (V.journal x)) V.label V.by (seen_of place.old) (seen_of note) place.new.me.0.part }
    {
        self.table.shared.join_seat::<TakeIn>(place, note);
        self.table.shared.load::<Meet>(place, SERVING);
    }

    /// Takes in another seat, with its parts, and what it had seen.
    pub fn join(&self, spot: &mut Spot<V>, other: Spot<V>)
        requires table { (spot.old.place.table_id ≡ self.now.table.shared.table_id) × (other.place.table_id ≡ self.now.table.shared.table_id) }
        requires rest { Rests spot.old.place × Rests other.place }
        ensures same { IsSamePlace spot.old.place spot.new.place × Rests spot.new.place }
        ensures parts { spot.new.place.me.0 ≡ with_seen (longer (seen_of spot.old.place) (seen_of other.place)) (other.place.me.0.part ∷ other.place.me.0.olds ++ spot.old.place.me.0.olds) spot.old.place.me.0 }
        ensures begins { StartsWith (seen_of spot.new.place) (seen_of spot.old.place) × StartsWith (seen_of spot.new.place) (seen_of other.place) }
        ensures own { StartsWith (own_of spot.new.place) (of V.by (number_of spot.new.place) (seen_of spot.new.place)) }
        ensures told { (log : List V.Entry) → AllTold V.by log (parts_of spot.new.place.me.0) → AllTold V.by log (parts_of spot.old.place.me.0) × AllTold V.by log (parts_of other.place.me.0) }
        ensures numbers { (k : ℕ) → HasNumber k (parts_of spot.old.place.me.0) ⊎ HasNumber k (parts_of other.place.me.0) → HasNumber k (parts_of spot.new.place.me.0) }
    {
        self.learn(&mut spot.place, other.into_place());
    }

    /// Takes in what a note has seen.
    pub fn meet(&self, spot: &mut Spot<V>, note: Spot<V>)
        requires table { (spot.old.place.table_id ≡ self.now.table.shared.table_id) × (note.place.table_id ≡ self.now.table.shared.table_id) }
        requires rest { Rests spot.old.place × Rests note.place }
        requires note { note.place.me.0.olds ≡ [] }
        ensures same { IsSamePlace spot.old.place spot.new.place × Rests spot.new.place }
        ensures parts { spot.new.place.me.0 ≡ with_seen (longer (seen_of spot.old.place) (seen_of note.place)) spot.old.place.me.0.olds spot.old.place.me.0 }
        ensures begins { StartsWith (seen_of spot.new.place) (seen_of spot.old.place) × StartsWith (seen_of spot.new.place) (seen_of note.place) }
        ensures own { StartsWith (own_of spot.new.place) (of V.by (number_of spot.new.place) (seen_of spot.new.place)) }
    {
        self.see(&mut spot.place, note.into_place());
    }

    /// Ends the lock, by a seat into which all others were joined, and gives the value.
    pub fn end(self, spot: Spot<V>) -> V
        requires table { spot.place.table_id ≡ self.table.shared.table_id }
        requires rest { Rests spot.place × (number_of spot.place ≢ note_number) }
        requires all { (k : ℕ) → k < self.table.shared.key.0 → HasNumber k (parts_of spot.place.me.0) }
        ensures told { AllTold V.by (reverse (V.journal result)) (parts_of spot.place.me.0) }
        ensures none { (k : ℕ) → self.table.shared.key.0 ≤ k → of V.by k (reverse (V.journal result)) ≡ [] }
        ensures label { V.label result ≡ spot.place.me.0.tag }
    {
        let Queue { table } = self;
        let mut closed = table.close_with(spot.into_place());
        let slot = closed.take(0);
        closed.free();
        match slot {
            Some(value) => value,
            None => unreachable!(),
        }
    }

    // Deals the numbers below the last one.
    fn deal_all(&self, place: &mut Place<V>, spots: &mut Vec<Spot<V>>, count: u16)
        requires table { place.old.table_id ≡ self.now.table.shared.table_id }
        requires count { (0 < count) × (self.now.table.shared.key.0 ≡ count) }
        requires first { place.old.me ≡ (opening_view count self.now.table.shared.key.1, []) }
        requires room { (spots.old.items ≡ []) × (count ≤ vec_capacity spots.old) }
        ensures table { place.new.table_id ≡ place.old.table_id }
        ensures last { place.new.me ≡ (view_of Idle (part_of (count - 1) [] []) [] (count - 1) self.now.table.shared.key.1, []) }
        ensures others { AreNew self.now.table.shared.table_id self.now.table.shared.key.1 0 (map (λ s. s.place) spots.new.items) × (vec_len spots.new + 1 ≡ count) × (vec_capacity spots.new ≡ vec_capacity spots.old) }
    {
        for number in 0..count - 1 {
            let new = self.deal(place);
            spots.push_reserved(seated(number, new));
        }
    }

    /// The lock, and seats with the numbers below `count`, in order.
    pub fn new(alloc: Global, value: V, count: u16) -> Result<(Queue<V>, Vec<Spot<V>>), V>
        requires count { 0 < count }
        requires journal { V.journal value ≡ [] }
        ensures ok { IfOk result (λ r. (r.0.table.shared.key ≡ (count, V.label value)) × (vec_len r.1 ≡ count) × AreNew r.0.table.shared.table_id (V.label value) 0 (map (λ s. s.place) r.1.items)) }
        ensures err { IfErr result (λ v. v ≡ value) }
    {
        let Ok(mut spots) = Vec::with_capacity(alloc, count as usize) else {
            return Err(value);
        };
        let (queue, mut place) = Queue::open(alloc, value, count)?;
        queue.deal_all(&mut place, &mut spots, count);
        spots.push_reserved(seated(count - 1, place));
        Ok((queue, spots))
    }
}

fn seated<V: Journaled>(number: u16, place: Place<V>) -> Spot<V>
    requires { number ≡ place.me.0.part.number }
    ensures { (result.number ≡ number) × (result.place ≡ place) }
{
    Spot { number, place }
}

// The one element.
fn only<V>(mut slots: Vec<Option<V>>) -> V
    requires { (x : V) × (slots.items ≡ Some x ∷ []) }
    ensures { slots.items ≡ Some result ∷ [] }
{
    let slot = slots.pop();
    slots.destroy_empty();
    match slot {
        Some(Some(value)) => value,
        _ => unreachable!(),
    }
}
