//! What a number has seen at one cell, for another number to take in.

ghost use Rattle.std.specs.Prelude.{◌≡◌};

use crate::cell::SiteCell;
use crate::lock_names::CellNames;
use crate::locks::CellLocks;
use crate::named::Numbered;
use okws_outer::stream::Link;
use std::marker::{Model, PhantomData};
use turn_lock::Note;

/// What a number has seen at the cell of a service, which it hands to another number. Contracts see the
/// service, and the events, the newest first.
#[derive(Drop)]
pub struct CellNote<N: Numbered, C: CellNames, L: Link> {
    pub(crate) service: u16,
    pub(crate) note: Note<SiteCell<N, L>>,
    pub(crate) of: PhantomData<C>,
}

impl<N: Numbered, C: CellNames, L: Link> Model for CellNote<N, C, L> {
    ghost use Rattle.site_cells.specs.Held.{events_in};
    ghost use Rattle.site_cells.specs.Notes.{CellNoteIs, IsNoteAt};

    ghost Value = { CellNoteIs };

    ghost view = { λ n. record { service = n.service; seen = events_in n.note.seen } };

    ghost invariant = { λ n. IsNoteAt C.cell_turns n.service n.note };
}

impl<N: Numbered, C: CellNames, L: Link> CellNote<N, C, L> {
    /// Another note of the same. It takes no turn and no memory.
    pub fn again(&mut self, locks: &CellLocks<N, C, L>) -> CellNote<N, C, L>
        ensures same { self.new ≡ self.old }
        ensures again { result ≡ self.old }
    {
        let i = self.service as usize;
        let lock = &locks.turns[i];
        CellNote {
            service: self.service,
            note: lock.again(&mut self.note),
            of: PhantomData,
        }
    }
}
