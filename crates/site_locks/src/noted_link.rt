//! A child's link that tells where the child's incarnation was installed.

ghost use Rattle.std.specs.Prelude.{◌≡◌, ℕ, Some};
ghost use Rattle.okws_outer.specs.Families.{child_named};
ghost use Rattle.site_locks.specs.Heard.{AreInstalled, SeesColumns, columns_of};

use crate::column_notes::ColumnNotes;
use crate::locks::{Locks, Seats};
use crate::named::Site;
use named_columns::named::Backed;
use okws_outer::children::Children;
use okws_outer::keeper::Keeper;
use okws_outer::stream::{Link, Pull, Put, Sink};
use std::alloc::AllocError;
use std::marker::Model;

/// A child's link with notes of the columns, which have seen the child's incarnation installed at pubd, at oklogd
/// and at each proxy where its service has a grant. Contracts see the link.
#[derive(Drop)]
pub struct NotedLink<N: Backed, J: Site, K: Keeper, S: Sink, L: Link> {
    link: L,
    notes: ColumnNotes<N, J, K, S>,
}

/// The links of a run's children, with notes.
pub type Noted<N, J, K, S, F> = NotedLink<N, J, K, S, <F as Children>::Link>;

impl<N: Backed, J: Site, K: Keeper, S: Sink, L: Link> Model for NotedLink<N, J, K, S, L> {
    ghost use Rattle.std.specs.Prelude.{◌≡◌, ℕ, Some};
    ghost use Rattle.okws_outer.specs.Families.{child_named};
    ghost use Rattle.okws_outer.specs.Wire.{Wire};
    ghost use Rattle.site_locks.specs.Heard.{AreInstalled};

    ghost Value = { Wire };

    ghost view = { λ l. L.wire l.link };

    ghost invariant = { λ l. (s k : ℕ) → (L.wire l.link).whose ≡ Some (child_named s k) → AreInstalled N.site s k l.notes };
}

impl<N: Backed, J: Site, K: Keeper, S: Sink, L: Link> NotedLink<N, J, K, S, L> {
    /// The link to the child of an incarnation that was installed, as the notes tell.
    pub fn new(link: L, notes: ColumnNotes<N, J, K, S>) -> Self
        requires told { (s k : ℕ) → (L.wire link).whose ≡ Some (child_named s k) → AreInstalled N.site s k notes }
        ensures { result ≡ L.wire link }
    {
        NotedLink { link, notes }
    }

    /// The link alone.
    pub fn into_link(self) -> L
        ensures { L.wire result ≡ self }
    {
        let NotedLink { link, notes: _ } = self;
        link
    }

    /// A number takes in the notes: it has then seen installed the incarnation to whose child the link leads.
    /// It takes no turn and no memory.
    pub fn tell(&mut self, locks: &Locks<N, J, K, S>, seats: &mut Seats<N, J, K, S>)
        ensures link { self.new ≡ self.old }
        ensures told { (s k : ℕ) → self.old.whose ≡ Some (child_named s k) → AreInstalled N.site s k (columns_of seats.new) }
        ensures sees { SeesColumns seats.old seats.new }
    {
        seats.hear(locks, &mut self.notes);
    }
}

impl<N: Backed, J: Site, K: Keeper, S: Sink, L: Link> Link for NotedLink<N, J, K, S, L> {
    ghost wire = { λ l. l };

    fn pull(&mut self, into: &mut [u8]) -> Pull {
        self.link.pull(into)
    }

    fn put(&mut self, bytes: &[u8]) -> Put {
        self.link.put(bytes)
    }

    fn make_room(&mut self, n: usize) -> Result<(), AllocError> {
        self.link.make_room(n)
    }
}
