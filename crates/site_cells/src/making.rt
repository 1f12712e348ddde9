//! Making the locks of a site's cells, and the seats of all numbers at them.

ghost use Rattle.std.specs.Prelude.{◌≡◌, ◌<◌, ◌≤◌, map, reverse, length, vec_len, IfOk};
ghost use Rattle.turn_lock.specs.Rows.{AllNone, AllCount, FreshRows};
ghost use Rattle.site_cells.specs.Making.{AreMade};
ghost use Rattle.site_cells.specs.Row.{Rise, AreNew};

use crate::cell::SiteCell;
use crate::gate::DialogGate;
use crate::lock_names::CellNames;
use crate::locks::CellLocks;
use crate::named::Numbered;
use crate::seats::CellSeats;
use okws_outer::stream::Link;
use std::alloc::{AllocError, Global};
use std::marker::{Model, PhantomData};
use turn_lock::{Seat, Turn, make_row};

/// The locks of a site's cells, and the seats of all numbers at them, before they have names. Contracts see
/// the locks, and how many numbers there are.
pub struct NewCells<N: Numbered, L: Link> {
    turns: Vec<Turn<SiteCell<N, L>>>,
    gates: Vec<DialogGate>,
    rows: Vec<Vec<Seat<SiteCell<N, L>>>>,
}

impl<N: Numbered, L: Link + Drop> Drop for NewCells<N, L> {
    fn drop(self) {
        let NewCells { turns, gates, rows } = self;
        drop(turns);
        drop(gates);
        drop(rows);
    }
}

impl<N: Numbered, L: Link> Model for NewCells<N, L> {
    ghost use Rattle.std.specs.Prelude.{map, vec_len};
    ghost use Rattle.site_cells.specs.Making.{NewCellsAre, AreMade};

    ghost Value = { NewCellsAre };

    ghost view = { λ m. record { turns = m.turns.items; numbers = vec_len m.rows } };

    ghost invariant = { λ m. AreMade m.turns.items (vec_len m.gates) (map (λ r. r.items) m.rows.items) };
}

impl<N: Numbered, L: Link> NewCells<N, L> {
    // The locks, a gate for each, and the seats.
    fn into_parts(
        self,
    ) -> (
        Vec<Turn<SiteCell<N, L>>>,
        Vec<DialogGate>,
        Vec<Vec<Seat<SiteCell<N, L>>>>,
    )
        ensures made { AreMade result.0.items (vec_len result.1) (map (λ r. r.items) result.2.items) }
        ensures turns { result.0.items ≡ self.turns }
        ensures numbers { vec_len result.2 ≡ self.numbers }
    {
        let NewCells { turns, gates, rows } = self;
        (turns, gates, rows)
    }
}

// The same, the last first.
fn turned<T>(mut items: Vec<T>) -> Vec<T>
    ensures { result.items ≡ reverse items.items }
{
    items.as_mut_slice().reverse();
    items
}

// So many gates.
fn gates_for(alloc: Global, count: usize) -> Result<Vec<DialogGate>, AllocError>
    ensures { IfOk result (λ r. vec_len r ≡ count) }
{
    let mut gates = Vec::with_capacity(alloc, count)?;
    for _ in 0..count {
        gates.push_reserved(DialogGate::new());
    }
    Ok(gates)
}

/// A lock round each of a site's cells, at which nothing happened, that of service 0 first, and seats of so
/// many numbers, from 0 on.
pub fn make_cells<N: Numbered, L: Link + Drop>(
    alloc: Global,
    cells: Vec<SiteCell<N, L>>,
    count: u16,
) -> Result<NewCells<N, L>, AllocError>
    requires count { 0 < count }
    requires new { AllNone (map (λ c. c.entered) cells.items) }
    requires services { Rise 0 (map (λ c. c.standing.service) cells.items) }
    ensures locks { IfOk result (λ m. (length m.turns ≡ vec_len cells) × AllCount count m.turns) }
    ensures numbers { IfOk result (λ m. m.numbers ≡ count) }
{
    let gates = gates_for(alloc, cells.len())?;
    let (turns, rows) = make_row(alloc, cells, count)?;
    Ok(NewCells { turns, gates, rows })
}

/// The locks under their names, which are picked where this is called, and the seats of each number, which
/// has seen nothing. The numbers fall by one, to 0 at the last.
pub fn name_cells<N: Numbered, C: CellNames, L: Link + Drop>(
    alloc: Global,
    made: NewCells<N, L>,
) -> Result<(CellLocks<N, C, L>, Vec<CellSeats<N, C, L>>), AllocError>
    requires named { made.turns ≡ C.cell_turns }
    ensures locks { IfOk result (λ r. r.0 ≡ made.turns) }
    ensures seats { IfOk result (λ r. AreNew (length made.turns) 0 r.1.items) }
    ensures numbers { IfOk result (λ r. vec_len r.1 ≡ made.numbers) }
{
    let (turns, gates, rows) = made.into_parts();
    let seats = name_rows(alloc, rows)?;
    let locks = CellLocks {
        turns,
        gates,
        of: PhantomData,
    };
    Ok((locks, seats))
}

// The seats of each row under their lock's names.
fn name_rows<N: Numbered, C: CellNames, L: Link + Drop>(
    alloc: Global,
    mut rows: Vec<Vec<Seat<SiteCell<N, L>>>>,
) -> Result<Vec<CellSeats<N, C, L>>, AllocError>
    requires fresh { FreshRows C.cell_turns 0 (map (λ r. r.items) rows.items) }
    requires few { vec_len rows ≤ 65535 }
    ensures seats { IfOk result (λ r. AreNew (length C.cell_turns) 0 r.items) }
    ensures numbers { IfOk result (λ r. vec_len r ≡ vec_len rows) }
{
    let mut all = Vec::with_capacity(alloc, rows.len())?;
    let mut number = 0;
    while let Some(seats) = rows.pop() {
        all.push_reserved(CellSeats {
            number,
            seats,
            of: PhantomData,
        });
        number += 1;
    }
    rows.destroy_empty();
    Ok(turned(all))
}
