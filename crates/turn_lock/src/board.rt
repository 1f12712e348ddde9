//! The board and its seats.
ghost use Rattle.std.specs.Prelude.{◌≡◌, ◌≢◌, ℕ, List, ◌<◌, ◌≤◌, ◌+◌, ◌-◌, [], ◌∷◌, ◌++◌, map, length, vec_len, vec_capacity, IfOk, slice_index, slice_set};
ghost use Rattle.turn_lock.specs.Board.{services, most_drawn, spent_number, opening_view, dealer, dealt, part_of, view_of, none_begun, AllUnder, AllSaw, AllDrew, from_on};
ghost use Rattle.turn_lock.specs.BoardSeats.{parts, seat_of, IsSeat, MayDraw, AreFresh, AreRising, AllAt, SeatsSaw, SeatsDrew};

use crate::board_rule::{
    Compare, Current, Deal, Draw, DrawRest, Glimpse, Raise, Rises, TakeIn, View,
};
use atomic_table::Table;
use std::alloc::{AllocError, Global};
use std::marker::Model;

// The word that counts the numbers drawn. The word of service s is 1 + s.
const DRAWN: usize = 0;

// A seat that drew a number from here on draws no more.
const MOST_DRAWN: u64 = 1 << 62;

type Place = atomic_table::Seat<u8, View>;

/// The board. Contracts see which one it is, and for how many seats it was made.
pub struct Board {
    table: Table<u8, View, u16, Rises, Global>,
    ghost sizes: { (table.shared.table_id.words ≡ 65) × (table.shared.table_id.slots ≡ 0) },
}

impl Drop for Board {
    fn drop(self) {
        let Board { table } = self;
        drop(table);
    }
}

impl Model for Board {
    ghost use Rattle.turn_lock.specs.BoardSeats.{BoardIs};

    ghost Value = { BoardIs };

    ghost view = { λ b. record { id = b.table.shared.table_id; count = b.table.shared.key } };
}

/// A seat at the board. Contracts see its number, what it has seen of each service, and the numbers that
/// it drew.
pub struct Seat {
    number: u16,
    place: Place,
    ghost numbered: { number ≡ place.me.0.part.number },
}

impl Drop for Seat {
    fn drop(self) {
        let Seat { number: _, place } = self;
        drop(place);
    }
}

impl Model for Seat {
    ghost use Rattle.turn_lock.specs.BoardSeats.{SeatIs, seat_of, IsSeat};

    ghost Value = { SeatIs };

    ghost view = { λ s. seat_of s.place };

    ghost invariant = { λ s. IsSeat s.place };
}

impl Seat {
    /// The seat's number: that of the launcher's seat is the last.
    pub fn number(&self) -> u16
        ensures { result ≡ self.now.number }
    {
        self.number
    }

    // Its place at the table.
    fn into_place(self) -> Place
        ensures seat { seat_of result ≡ self }
        ensures is { IsSeat result }
    {
        let Seat { number: _, place } = self;
        place
    }
}

impl Board {
    // The table, and the first seat, which has the last number and the others to give.
    fn open(alloc: Global, count: u16) -> Result<(Board, Place), AllocError>
        requires { 0 < count }
        ensures ok { IfOk result (λ r. (r.0.count ≡ count) × (r.1.table_id ≡ r.0.id) × (r.1.me ≡ (opening_view count, []))) }
    {
        let (table, place) = Table::of_words(alloc, &[0; 65], &count)?;
        Ok((Board { table }, place))
    }

    // A new seat, with the next number.
    fn deal(&self, place: &mut Place) -> Place
        requires table { place.old.table_id ≡ self.now.id }
        requires rest { (place.old.me.0.olds ≡ []) × (place.old.me.0.spare + 1 < self.now.count) × (place.old.me.0.part.number + 1 ≡ self.now.count) × (0 < place.old.me.0.room) }
        ensures old { (place.new.table_id ≡ place.old.table_id) × (place.new.me ≡ (dealer place.old.me.0, place.old.me.1)) }
        ensures new { (result.table_id ≡ place.old.table_id) × (result.me ≡ (dealt place.old.me.0, [])) }
    {
        self.table.shared.split_seat::<Deal>(place)
    }

    // Gives out the numbers below the last one; the seats' numbers rise from 0.
    fn deal_all(&self, place: &mut Place, seats: &mut Vec<Seat>, count: u16)
        requires table { place.old.table_id ≡ self.now.id }
        requires count { (0 < count) × (self.now.count ≡ count) }
        requires first { place.old.me ≡ (opening_view count, []) }
        requires room { (seats.old.items ≡ []) × (count ≤ vec_capacity seats.old) }
        ensures table { place.new.table_id ≡ place.old.table_id }
        ensures last { place.new.me ≡ (view_of (part_of (count - 1) none_begun []) [] (count - 1) 1, []) }
        ensures others { AreRising self.now.id 0 seats.new.items × (vec_len seats.new + 1 ≡ count) × (vec_capacity seats.new ≡ vec_capacity seats.old) }
    {
        for number in 0..count - 1 {
            let new = self.deal(place);
            seats.push_reserved(Seat { number, place: new });
        }
    }

    /// A board on which no incarnation has begun and no number was drawn, and its seats, which have seen
    /// nothing: their numbers fall to 0 at the last. The seat with the last number, the first of the
    /// list, is the launcher's.
    pub fn new(alloc: Global, count: u16) -> Result<(Board, Vec<Seat>), AllocError>
        requires count { 0 < count }
        ensures ok { IfOk result (λ r. (r.0.count ≡ count) × (vec_len r.1 ≡ count) × AreFresh r.0.id 0 r.1.items) }
    {
        let mut seats = Vec::with_capacity(alloc, count as usize)?;
        let mut rising = Vec::with_capacity(alloc, count as usize)?;
        let (board, mut place) = Board::open(alloc, count)?;
        board.deal_all(&mut place, &mut rising, count);
        seats.push_reserved(Seat {
            number: count - 1,
            place,
        });
        while let Some(seat) = rising.pop() {
            seats.push_reserved(seat);
        }
        Ok((board, seats))
    }

    /// The greatest incarnation of a service that has begun: at least what the seat has seen, and seen
    /// from then on.
    pub fn current(&self, seat: &mut Seat, service: u16) -> u32
        requires board { seat.old.board ≡ self.now.id }
        requires service { service < services }
        ensures least { slice_index seat.old.seen service ≤ result }
        ensures seen { seat.new ≡ record seat.old { seen = slice_set seat.old.seen service result } }
        ensures shown { slice_index seat.new.seen service ≡ result }
    {
        let words = &self.table.shared;
        let found = words.load::<Current>(&mut seat.place, 1 + service as usize);
        found as u32
    }

    /// Writes that an incarnation of a service has begun, above the one that stands there. The launcher's
    /// seat alone may.
    pub fn raise(&self, seat: &mut Seat, service: u16, incarnation: u32)
        requires board { seat.old.board ≡ self.now.id }
        requires launcher { seat.old.number + 1 ≡ self.now.count }
        requires service { service < services }
        requires above { slice_index seat.old.seen service < incarnation }
        ensures seen { seat.new ≡ record seat.old { seen = slice_set seat.old.seen service incarnation } }
    {
        let words = &self.table.shared;
        words.store::<Raise>(&mut seat.place, 1 + service as usize, incarnation as u64);
    }

    /// The launcher's seat has seen at least what another one has of each service: it alone writes them.
    pub fn compare(&self, launcher: &mut Seat, other: &mut Seat)
        requires board { (launcher.old.board ≡ self.now.id) × (other.old.board ≡ self.now.id) }
        requires launcher { launcher.old.number + 1 ≡ self.now.count }
        ensures least { (s : ℕ) → slice_index other.old.seen s ≤ slice_index launcher.old.seen s }
        ensures same { (launcher.new ≡ launcher.old) × (other.new ≡ other.old) }
    {
        let words = &self.table.shared;
        let glimpse = words.split_seat::<Glimpse>(&mut other.place);
        words.join_seat::<TakeIn>(&mut launcher.place, glimpse);
        words.load::<Compare>(&mut launcher.place, DRAWN);
    }

    /// Draws a connection number, above all that the seat drew. No other seat is given it.
    pub fn draw(&self, seat: &mut Seat) -> u64
        requires board { seat.old.board ≡ self.now.id }
        requires limit { MayDraw seat.old.drawn }
        ensures above { AllUnder result seat.old.drawn }
        ensures drawn { seat.new ≡ record seat.old { drawn = result ∷ seat.old.drawn } }
    {
        let words = &self.table.shared;
        words.fetch_add::<Draw>(&mut seat.place, DRAWN, 1)
    }

    /// Draws all connection numbers that are left below the limit, and gives the first of them, or where none
    /// is left the next one. No other seat is given one of them.
    pub fn draw_rest(&self, seat: &mut Seat) -> u64
        requires board { seat.old.board ≡ self.now.id }
        ensures above { AllUnder result seat.old.drawn }
        ensures drawn { seat.new ≡ record seat.old { drawn = from_on result most_drawn ++ seat.old.drawn } }
    {
        let words = &self.table.shared;
        words.fetch_max::<DrawRest>(&mut seat.place, DRAWN, MOST_DRAWN)
    }

    /// Joins another seat into this one, by which the board is then closed. It takes no memory.
    pub fn join(&self, seat: &mut Seat, other: Seat)
        requires board { (seat.old.board ≡ self.now.id) × (other.board ≡ self.now.id) }
        ensures seat { seat.new ≡ record seat.old { olds = parts other ++ seat.old.olds } }
    {
        let words = &self.table.shared;
        words.join_seat::<TakeIn>(&mut seat.place, other.into_place());
    }

    /// Ends the board by a seat into which the others were joined, and gives the count of numbers drawn. No
    /// seat has seen a number above those that the launcher's seat raised last. Each drew just the
    /// numbers below the count that `hand` tells of its number.
    pub fn end(self, seat: Seat) -> u64
        requires board { seat.board ≡ self.id }
        ensures seen { (greatest : List ℕ) × AllSaw self.count greatest (parts seat) }
        ensures drawn { (hand : ℕ → ℕ) × AllDrew hand result (parts seat) × ((k : ℕ) → k < result → hand k < self.count) }
    {
        let Board { table } = self;
        let closed = table.close_with(seat.into_place());
        let count = closed.word(DRAWN);
        closed.free();
        count
    }

    /// Ends the board by its seats, and gives the count of numbers drawn. No seat has seen a number above
    /// those that the launcher's seat raised last. Each drew just the numbers below the count that
    /// `hand` tells of its number: so no number was drawn twice, and with all seats there is none below
    /// the count that no seat drew.
    pub fn close(self, mut seats: Vec<Seat>) -> u64
        requires some { 0 < vec_len seats }
        requires at { AllAt self.id seats.items }
        ensures seen { (greatest : List ℕ) × SeatsSaw self.count greatest seats.items }
        ensures drawn { (hand : ℕ → ℕ) × SeatsDrew hand result seats.items × ((k : ℕ) → k < result → hand k < self.count) }
    {
        let mut all = match seats.pop() {
            Some(seat) => seat,
            None => unreachable!(),
        };
        while let Some(seat) = seats.pop() {
            self.join(&mut all, seat);
        }
        seats.destroy_empty();
        self.end(all)
    }
}
