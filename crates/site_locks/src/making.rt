//! Putting the columns of a run behind locks.

ghost use Rattle.std.specs.Prelude.{◌≡◌, ◌<◌, ◌≤◌, ◌+◌, [], ◌∷◌, ◌++◌, IfOk, length, map, vec_len};
ghost use Rattle.turn_lock.specs.Board.{services};
ghost use Rattle.named_columns.specs.Held.{HeldProxy};
ghost use Rattle.turn_lock.specs.Rows.{AllNone};
ghost use Rattle.turn_lock.specs.Seats.{AreFresh};
ghost use Rattle.site_locks.specs.Made.{AreFreshFrom, DealsFrom, fresh};
ghost use Rattle.site_locks.specs.Sat.{RiseFrom, ids_of};

use crate::locks::{Locks, Seats};
use crate::named::Site;
use crate::pairing::pair;
use named_columns::log::SiteLog;
use named_columns::named::Backed;
use named_columns::okd::SiteOkd;
use named_columns::proxy::SiteProxy;
use named_columns::pubd::SitePubd;
use okws_base::journal::Journal;
use okws_outer::keeper::Keeper;
use okws_outer::stream::Sink;
use std::alloc::{AllocError, Global};
use std::marker::{Model, PhantomData};
use turn_lock::board::Board;
use turn_lock::{Journaled, Seat, Turn, make_row};

/// The columns of a run, the proxies' in order.
#[derive(Drop)]
pub struct Columned<N: Backed, K: Keeper, S: Sink> {
    pub okd: SiteOkd<N>,
    pub proxies: Vec<SiteProxy<N, K>>,
    pub pubd: SitePubd<N>,
    pub oklogd: SiteLog<N, S>,
}

// The seats that are not given to a number yet, by number, the last first.
struct Deck<N: Backed, K: Keeper, S: Sink> {
    okd: Vec<Seat<SiteOkd<N>>>,
    rows: Vec<Vec<Seat<SiteProxy<N, K>>>>,
    pubd: Vec<Seat<SitePubd<N>>>,
    oklogd: Vec<Seat<SiteLog<N, S>>>,
    board: Vec<turn_lock::board::Seat>,
}

impl<N: Backed, K: Keeper + Drop, S: Sink + Drop> Drop for Deck<N, K, S> {
    fn drop(self) {
        let Deck {
            okd,
            rows,
            pubd,
            oklogd,
            board,
        } = self;
        drop(okd);
        drop(rows);
        drop(pubd);
        drop(oklogd);
        drop(board);
    }
}

impl<N: Backed, K: Keeper, S: Sink> Model for Deck<N, K, S> {
    ghost use Rattle.std.specs.Prelude.{map};
    ghost use Rattle.site_locks.specs.Made.{DeckIs};

    ghost Value = { DeckIs };

    ghost view = { λ d. record { okd = d.okd.items; rows = map (λ r. r.items) d.rows.items; pubd = d.pubd.items; oklogd = d.oklogd.items; board = d.board.items } };
}

// Takes the last of some seats out.
fn last<T>(seats: &mut Vec<T>) -> T
    requires { 0 < length seats.old.items }
    ensures { seats.old.items ≡ seats.new.items ++ result ∷ [] }
{
    match seats.pop() {
        Some(seat) => seat,
        None => unreachable!(),
    }
}

impl<N: Backed, K: Keeper, S: Sink> Deck<N, K, S> {
    // Gives a number its seats, with an own list that keeps its items or not. Takes no memory.
    fn deal<J: Site>(
        &mut self,
        locks: &Locks<N, J, K, S>,
        alloc: Global,
        number: u16,
        keeps: bool,
    ) -> Seats<N, J, K, S>
        requires some { 0 < length self.old.okd }
        requires deals { DealsFrom locks.now number (length self.old.okd) self.old }
        ensures seats { result ≡ fresh (length locks.now.proxies) number }
        ensures deals { DealsFrom locks.now (number + 1) (length self.new.okd) self.new }
        ensures less { length self.new.okd + 1 ≡ length self.old.okd }
    {
        let _okd = &locks.okd;
        Seats {
            alloc,
            number,
            okd: last(&mut self.okd),
            proxies: last(&mut self.rows),
            pubd: last(&mut self.pubd),
            oklogd: last(&mut self.oklogd),
            board: last(&mut self.board),
            own: Journal::new(alloc, keeps),
            spare: 0,
            of: PhantomData,
        }
    }
}

/// Locks round the columns of a run, and a board, with their seats, which have seen nothing. Contracts see
/// which locks they are.
pub struct Made<N: Backed, K: Keeper, S: Sink> {
    count: u16,
    okd: Turn<SiteOkd<N>>,
    proxies: Vec<Turn<SiteProxy<N, K>>>,
    pubd: Turn<SitePubd<N>>,
    oklogd: Turn<SiteLog<N, S>>,
    board: Board,
    deck: Deck<N, K, S>,
}

impl<N: Backed, K: Keeper + Drop, S: Sink + Drop> Drop for Made<N, K, S> {
    fn drop(self) {
        let Made {
            count: _,
            okd,
            proxies,
            pubd,
            oklogd,
            board,
            deck,
        } = self;
        drop(okd);
        drop(proxies);
        drop(pubd);
        drop(oklogd);
        drop(board);
        drop(deck);
    }
}

impl<N: Backed, K: Keeper, S: Sink> Model for Made<N, K, S> {
    ghost use Rattle.site_locks.specs.Sat.{LocksAre};
    ghost use Rattle.site_locks.specs.Made.{IsMade};

    ghost Value = { LocksAre };

    ghost view = { λ m. record { okd = m.okd; proxies = m.proxies.items; pubd = m.pubd; oklogd = m.oklogd; board = m.board } };

    ghost invariant = { λ m. IsMade N.site N.launcher m.count (record { okd = m.okd; proxies = m.proxies.items; pubd = m.pubd; oklogd = m.oklogd; board = m.board }) m.deck };
}

// A lock round a value, and its seats; the value is let go where memory is refused.
fn lock<V: Journaled + Drop>(
    alloc: Global,
    value: V,
    count: u16,
) -> Result<(Turn<V>, Vec<Seat<V>>), AllocError>
    requires count { 0 < count }
    requires journal { V.journal value ≡ [] }
    ensures { IfOk result (λ r. (r.0.count ≡ count) × (r.0.label ≡ V.label value) × (vec_len r.1 ≡ count) × AreFresh r.0.id r.0.label 0 r.1.items) }
{
    match Turn::new(alloc, value, count) {
        Ok(made) => Ok(made),
        Err(_) => Err(AllocError),
    }
}

impl<N: Backed, K: Keeper + Drop, S: Sink + Drop> Made<N, K, S> {
    /// Locks round columns at which nothing happened yet, made for so many workers and the launcher.
    pub fn new(alloc: Global, columns: Columned<N, K, S>, workers: u16) -> Result<Self, AllocError>
        requires workers { workers ≡ N.launcher }
        requires most { workers < 65535 }
        requires few { length N.site.services ≤ services }
        requires fresh { (columns.okd.past ≡ []) × AllNone (map (λ (x : HeldProxy). x.past) columns.proxies.items) × (columns.pubd.past ≡ []) × (columns.oklogd.past ≡ []) }
        requires declared { length columns.proxies.items ≡ length N.site.proxies }
        requires numbered { RiseFrom 0 (map (λ (x : HeldProxy). x.number) columns.proxies.items) }
    {
        let count = workers + 1;
        let okd = lock(alloc, columns.okd, count);
        let pubd = lock(alloc, columns.pubd, count);
        let oklogd = lock(alloc, columns.oklogd, count);
        let row = make_row(alloc, columns.proxies, count);
        let board = Board::new(alloc, count);
        let made = pair(pair(pair(pair(okd, pubd), oklogd), row), board)?;
        let ((((okd, pubd), oklogd), row), board) = made;
        let (okd, okd_seats) = okd;
        let (pubd, pubd_seats) = pubd;
        let (oklogd, log_seats) = oklogd;
        let (proxies, rows) = row;
        let (board, board_seats) = board;
        let deck = Deck {
            okd: okd_seats,
            rows,
            pubd: pubd_seats,
            oklogd: log_seats,
            board: board_seats,
        };
        Ok(Made {
            count,
            okd,
            proxies,
            pubd,
            oklogd,
            board,
            deck,
        })
    }

    /// The locks under their names, and the seats of each number, from 0 up to the launcher's, each with an
    /// own list that keeps its items or not.
    pub fn share<J: Site>(
        self,
        alloc: Global,
        keeps: bool,
    ) -> Result<(Locks<N, J, K, S>, Vec<Seats<N, J, K, S>>), AllocError>
        requires { ids_of self ≡ J.ids }
        ensures locks { IfOk result (λ r. r.0 ≡ self) }
        ensures seats { IfOk result (λ r. AreFreshFrom (length N.site.proxies) 0 r.1.items) }
        ensures many { IfOk result (λ r. vec_len r.1 ≡ N.launcher + 1) }
    {
        let mut seats = Vec::with_capacity(alloc, self.count as usize)?;
        let Made {
            count,
            okd,
            proxies,
            pubd,
            oklogd,
            board,
            deck,
        } = self;
        let mut deck = deck;
        let locks = Locks {
            okd,
            proxies,
            pubd,
            oklogd,
            board,
            of: PhantomData,
        };
        for number in 0..count {
            seats.push_reserved(deck.deal(&locks, alloc, number, keeps));
        }
        Ok((locks, seats))
    }
}
