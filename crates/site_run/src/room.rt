//! Memory that a run takes before it begins.

ghost use Rattle.std.specs.Prelude.{◌≡◌, ◌≤◌, ◌<◌, length, map, IfOk, vec_len};
ghost use Rattle.atomic_table.specs.Seated.{TableId};
ghost use Rattle.turn_lock.specs.BoardSeats.{AreFresh, AreRising};
ghost use Rattle.okws_base.specs.declared.limit.TheConstants.{MOST_DOORS};
ghost use Rattle.site_run.specs.Rooms.{AreOffered};

use crate::closing::{CellsEnd, CellsRoom, ColumnsRoom, ProxiesEnd};
use http_front::kept::Kept;
use http_front::reply::Reply;
use named_columns::named::Backed;
use okws_outer::keeper::Keeper;
use okws_outer::stream::Link;
use std::alloc::{AllocError, Global};
use std::marker::Model;
use turn_lock::board::{Board, Seat as Place};

/// What a worker needs at its door: what is kept of a connection, a service's Reply, and the seat from which
/// it draws the numbers of its connections.
#[derive(Drop)]
pub struct Desk {
    pub kept: Kept,
    pub reply: Reply,
    pub place: Place,
}

impl Desk {
    // A desk with this seat.
    fn new(alloc: Global, place: Place) -> Result<Desk, AllocError>
        ensures { IfOk result (λ d. d.place ≡ place) }
    {
        Ok(Desk {
            kept: Kept::new(alloc)?,
            reply: Reply::new(alloc)?,
            place,
        })
    }
}

// A desk for each of these seats, the last of which comes first.
fn desks(alloc: Global, mut places: Vec<Place>) -> Result<Vec<Desk>, AllocError>
    ensures rising { IfOk result (λ v. (z : TableId) → AreFresh z 0 places.items → AreRising z 0 (map (λ (d : Desk). d.place) v.items)) }
    ensures many { IfOk result (λ v. vec_len v ≡ vec_len places) }
{
    let mut desks = Vec::with_capacity(alloc, places.len())?;
    while let Some(place) = places.pop() {
        let desk = Desk::new(alloc, place)?;
        desks.push_reserved(desk);
    }
    Ok(desks)
}

/// The board from which the numbers of all connections are drawn, a desk for each door, and the console's
/// seat, which is the last; from none of them was a number drawn.
#[derive(Drop)]
pub(crate) struct Office {
    pub(crate) numbers: Board,
    pub(crate) desks: Vec<Desk>,
    pub(crate) last: Place,
}

impl Office {
    /// An office for so many doors.
    pub(crate) fn new(alloc: Global, doors: u16) -> Result<Office, AllocError>
        requires { doors ≤ MOST_DOORS }
        ensures { IfOk result (λ o. AreOffered doors o.numbers (map (λ (d : Desk). d.place) o.desks.items) o.last) }
    {
        let (numbers, mut places) = Board::new(alloc, doors + 1)?;
        let last = places.remove(0);
        let desks = desks(alloc, places)?;
        Ok(Office {
            numbers,
            desks,
            last,
        })
    }
}

/// Room for what a run's closing gives. Contracts see for how many doors.
#[derive(Drop)]
pub struct Room<N: Backed, K: Keeper, L: Link> {
    pub(crate) doors: usize,
    pub(crate) columns: ColumnsRoom<N, K>,
    pub(crate) cells: CellsRoom<N, L>,
    pub(crate) places: Vec<Place>,
}

impl<N: Backed, K: Keeper, L: Link> Model for Room<N, K, L> {
    ghost use Rattle.std.specs.Prelude.{◌≡◌, ℕ, ◌+◌, vec_len, vec_capacity};
    ghost use Rattle.site_run.specs.Rooms.{HasRoom};

    ghost Value = { ℕ };

    ghost view = { λ r. r.doors };

    ghost invariant = { λ r. (r.columns ≡ r.doors + 2) × HasRoom (r.doors + 1) (vec_len r.places) (vec_capacity r.places) };
}

// Room for the columns of so many proxies and the own items of so many numbers.
fn columns_room<N: Backed, K: Keeper + Drop>(
    alloc: Global,
    proxies: usize,
    numbers: usize,
) -> Result<ColumnsRoom<N, K>, AllocError>
    requires { proxies ≡ length N.site.proxies }
    ensures { IfOk result (λ r. r ≡ numbers) }
{
    Ok(ColumnsRoom {
        numbers,
        proxies: Vec::with_capacity(alloc, proxies)?,
        owns: Vec::with_capacity(alloc, numbers)?,
        room: ProxiesEnd {
            pasts: Vec::with_capacity(alloc, proxies)?,
            keepers: Vec::with_capacity(alloc, proxies)?,
        },
    })
}

// Room for so many cells.
fn cells_room<N: Backed, L: Link + Drop>(
    alloc: Global,
    services: usize,
) -> Result<CellsRoom<N, L>, AllocError>
    requires { services ≡ length N.site.services }
{
    Ok(CellsRoom {
        cells: Vec::with_capacity(alloc, services)?,
        room: CellsEnd {
            events: Vec::with_capacity(alloc, services)?,
            sents: Vec::with_capacity(alloc, services)?,
        },
    })
}

impl<N: Backed, K: Keeper + Drop, L: Link + Drop> Room<N, K, L> {
    /// Room for the closing of a run of so many proxies, services and doors.
    pub(crate) fn new(
        alloc: Global,
        proxies: usize,
        services: usize,
        doors: usize,
    ) -> Result<Self, AllocError>
        requires proxies { proxies ≡ length N.site.proxies }
        requires services { services ≡ length N.site.services }
        requires doors { doors ≤ MOST_DOORS }
        ensures { IfOk result (λ r. r ≡ doors) }
    {
        Ok(Room {
            doors,
            columns: columns_room(alloc, proxies, doors + 2)?,
            cells: cells_room(alloc, services)?,
            places: Vec::with_capacity(alloc, doors + 1)?,
        })
    }
}
