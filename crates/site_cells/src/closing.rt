//! Closing the locks of a site's cells with the seats of all numbers.

ghost use Rattle.std.specs.Prelude.{◌≡◌, ◌⊎◌, ℕ, ◌<◌, ◌≤◌, List, [], map, reverse, length, vec_len, vec_capacity};
ghost use Rattle.monitor_model.specs.declared.record.CellEvent.{CellEvent};
ghost use Rattle.site_cells.specs.Held.{by_event, events_in};
ghost use Rattle.turn_lock.specs.Rows.{AllCount, RowHas, GrownRow, NoneFrom};
ghost use Rattle.site_cells.specs.Row.{Rise};
ghost use Rattle.site_cells.specs.Closing.{CellsGrow, AllCellsGrow, HasNumber};

use crate::cell::SiteCell;
use crate::lock_names::CellNames;
use crate::locks::CellLocks;
use crate::named::Numbered;
use crate::seats::CellSeats;
use okws_outer::stream::Link;
use std::marker::{Model, PhantomData};
use turn_lock::{Seat, end_row, join_row};

/// The seats at a site's cells into which those of all numbers are joined. Contracts see the row of seats, with
/// what was seen of the cells' events.
#[derive(Drop)]
pub struct CellEnds<N: Numbered, C: CellNames, L: Link> {
    seats: Vec<Seat<SiteCell<N, L>>>,
    of: PhantomData<C>,
}

impl<N: Numbered, C: CellNames, L: Link> Model for CellEnds<N, C, L> {
    ghost use Rattle.std.specs.Prelude.{List, map};
    ghost use Rattle.monitor_model.specs.declared.record.CellEvent.{CellEvent};
    ghost use Rattle.turn_lock.specs.Seats.{SeatIs};
    ghost use Rattle.turn_lock.specs.Rows.{RestRow};
    ghost use Rattle.site_cells.specs.Closing.{cell_seat};

    ghost Value = { List (SeatIs CellEvent) };

    ghost view = { λ e. map cell_seat e.seats.items };

    ghost invariant = { λ e. RestRow C.cell_turns e.seats.items };
}

impl<N: Numbered, C: CellNames, L: Link> CellEnds<N, C, L> {
    /// The seats of the first number; takes no memory.
    pub fn of(seats: CellSeats<N, C, L>) -> Self
        ensures told { (Js : List (List CellEvent)) → GrownRow (by_event N.launcher) result Js → CellsGrow N.launcher seats.number seats.cells Js }
        ensures has { RowHas seats.number result }
    {
        CellEnds {
            seats: seats.into_row(),
            of: PhantomData,
        }
    }

    /// Joins the seats of another number into these; takes no memory.
    pub fn join(&mut self, locks: &CellLocks<N, C, L>, other: CellSeats<N, C, L>)
        ensures told { (Js : List (List CellEvent)) → GrownRow (by_event N.launcher) self.new Js → GrownRow (by_event N.launcher) self.old Js × CellsGrow N.launcher other.number other.cells Js }
        ensures has { RowHas other.number self.new }
        ensures still { (k : ℕ) → RowHas k self.old → RowHas k self.new }
    {
        join_row(&locks.turns, &mut self.seats, other.into_row());
    }
}

// What the types of these cells tell of them.
fn keep_all<N: Numbered, L: Link>(cells: &[SiteCell<N, L>])
    ensures { map (λ c. c.standing.past) cells.now ≡ map events_in (map (λ c. c.entered) cells.now) }
{
    for cell in cells {
        cell.keeps();
    }
}

// The same, the last first.
fn turned<T>(mut items: Vec<T>) -> Vec<T>
    ensures { result.items ≡ reverse items.items }
{
    items.as_mut_slice().reverse();
    items
}

/// Ends the locks with the seats into which those of all numbers were joined, and gives the cells in `done`,
/// that of service 0 first. It takes no memory. The events of each go on from what each number had seen
/// there by events of others alone, and none names another number.
pub fn end_cells<N: Numbered, C: CellNames, L: Link>(
    locks: CellLocks<N, C, L>,
    ends: CellEnds<N, C, L>,
    done: Vec<SiteCell<N, L>>,
    count: u16,
) -> Vec<SiteCell<N, L>>
    requires counts { AllCount count locks }
    requires all { (k : ℕ) → k < count → RowHas k ends }
    requires room { (done.items ≡ []) × (length locks ≤ vec_capacity done) }
    ensures told { GrownRow (by_event N.launcher) ends (map (λ c. c.standing.past) result.items) }
    ensures none { NoneFrom (by_event N.launcher) count (map (λ c. c.standing.past) result.items) }
    ensures services { Rise 0 (map (λ c. c.standing.service) result.items) }
    ensures count { vec_len result ≡ length locks }
{
    let CellEnds { seats, of: _ } = ends;
    let mut done = done;
    end_row(locks.into_turns(), seats, &mut done, count);
    keep_all(&done);
    turned(done)
}

/// Joins the seats of all numbers, ends the locks, and gives the cells in `done`, that of service 0 first.
/// It takes no memory. The events of each go on from what each number had seen there by events of others
/// alone, and none names another number.
pub fn close_cells<N: Numbered, C: CellNames, L: Link>(
    locks: CellLocks<N, C, L>,
    seats: Vec<CellSeats<N, C, L>>,
    done: Vec<SiteCell<N, L>>,
    count: u16,
) -> Vec<SiteCell<N, L>>
    requires some { 0 < vec_len seats }
    requires counts { AllCount count locks }
    requires all { (k : ℕ) → k < count → HasNumber k seats.items }
    requires room { (done.items ≡ []) × (length locks ≤ vec_capacity done) }
    ensures told { AllCellsGrow N.launcher seats.items (map (λ c. c.standing.past) result.items) }
    ensures none { NoneFrom (by_event N.launcher) count (map (λ c. c.standing.past) result.items) }
    ensures services { Rise 0 (map (λ c. c.standing.service) result.items) }
    ensures count { vec_len result ≡ length locks }
{
    let mut left = seats;
    let Some(first) = left.pop() else {
        unreachable!()
    };
    let mut ends = CellEnds::of(first);
    while let Some(other) = left.pop() {
        ends.join(&locks, other);
    }
    left.destroy_empty();
    end_cells(locks, ends, done, count)
}
