//! The locks of a site's cells.

ghost use Rattle.std.specs.Prelude.{◌≡◌};
ghost use Rattle.site_cells.specs.Row.{AreCells};

use crate::cell::SiteCell;
use crate::gate::DialogGate;
use crate::lock_names::CellNames;
use crate::named::Numbered;
use okws_outer::stream::Link;
use std::marker::{Model, PhantomData};
use turn_lock::Turn;

/// A lock round each cell of a site, that of service 0 first. Contracts see the locks, which are those of
/// the names by their type.
pub struct CellLocks<N: Numbered, C: CellNames, L: Link> {
    pub(crate) turns: Vec<Turn<SiteCell<N, L>>>,
    pub(crate) gates: Vec<DialogGate>,
    pub(crate) of: PhantomData<C>,
}

impl<N: Numbered, C: CellNames, L: Link + Drop> Drop for CellLocks<N, C, L> {
    fn drop(self) {
        let CellLocks {
            turns,
            gates,
            of: _,
        } = self;
        drop(turns);
        drop(gates);
    }
}

impl<N: Numbered, C: CellNames, L: Link> Model for CellLocks<N, C, L> {
    ghost use Rattle.std.specs.Prelude.{List, vec_len};
    ghost use Rattle.turn_lock.specs.Seats.{TurnIs};
    ghost use Rattle.site_cells.specs.Row.{AreCells, AreLocks};

    ghost Value = { List TurnIs };

    ghost view = { λ s. s.turns.items };

    ghost invariant = { λ s. AreLocks C.cell_turns s.turns.items (vec_len s.gates) };
}

impl<N: Numbered, C: CellNames, L: Link> CellLocks<N, C, L> {
    // The locks, without their names and gates.
    pub(crate) fn into_turns(self) -> Vec<Turn<SiteCell<N, L>>>
        ensures same { result.items ≡ self }
        ensures cells { AreCells self }
    {
        let CellLocks {
            turns,
            gates: _,
            of: _,
        } = self;
        turns
    }
}
