//! What the launcher has seen, for other numbers to take in, and what others have seen of the board.

ghost use Rattle.std.specs.Prelude.{◌≡◌, ◌<◌, ◌≤◌, ℕ, IfOk, length, slice_index};
ghost use Rattle.site_cells.specs.Row.{seen_at};
ghost use Rattle.site_locks.specs.Heard.{columns_of};

use crate::recorder::Recorder;
use named_columns::named::Backed;
use okws_outer::keeper::Keeper;
use okws_outer::stream::{Link, Sink};
use site_cells::lock_names::CellNames;
use site_cells::locks::CellLocks;
use site_cells::note::CellNote;
use site_locks::column_notes::ColumnNotes;
use site_locks::locks::{Locks, Seats};
use site_locks::named::Site;
use site_locks::note::OkdNote;
use site_locks::noted_link::NotedLink;
use std::alloc::AllocError;

impl<N: Backed, J: Site, C: CellNames, K: Keeper, S: Sink, L: Link> Recorder<N, J, C, K, S, L> {
    /// A note of what was seen at okd. It takes no turn and no memory.
    pub fn note_okd(&mut self, locks: &Locks<N, J, K, S>) -> OkdNote<N, J>
        ensures note { result ≡ self.old.sat.okd }
        ensures same { self.new ≡ self.old }
    {
        let _own = &self.own;
        self.seats.note_okd(locks)
    }

    /// On the board at least what another number has seen of each service was seen, for nobody else writes
    /// there. It takes no turn and no memory.
    pub fn compare(&mut self, locks: &Locks<N, J, K, S>, other: &mut Seats<N, J, K, S>)
        ensures least { (s : ℕ) → slice_index other.old.board s ≤ slice_index self.old.sat.board s }
        ensures same { (self.new ≡ self.old) × (other.new ≡ other.old) }
    {
        let _own = &self.own;
        self.seats.compare(locks, other);
    }

    /// Notes of what was seen at the proxies, at pubd and at oklogd. It takes no turn. Where memory is refused,
    /// nothing changes.
    pub fn note_columns(
        &mut self,
        locks: &Locks<N, J, K, S>,
    ) -> Result<ColumnNotes<N, J, K, S>, AllocError>
        ensures notes { IfOk result (λ n. n ≡ columns_of self.old.sat) }
        ensures same { self.new ≡ self.old }
    {
        let _own = &self.own;
        self.seats.note_columns(locks)
    }

    /// A note of what was seen at the cell of a service. It takes no turn and no memory.
    pub fn note_cell(
        &mut self,
        cells: &CellLocks<N, C, NotedLink<N, J, K, S, L>>,
        service: u16,
    ) -> CellNote<N, C, NotedLink<N, J, K, S, L>>
        requires { service < length N.site.services }
        ensures note { result ≡ record { service = service; seen = seen_at self.old.watch service } }
        ensures same { self.new ≡ self.old }
    {
        let _own = &self.own;
        self.cells.split(cells, service)
    }
}
