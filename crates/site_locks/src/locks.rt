//! The locks of a run, and the seats of one number at them.

ghost use Rattle.std.specs.Prelude.{◌≡◌, ◌≤◌, ◌<◌, ◌+◌, ℕ, List, [], OnOk, OnErr, length, map, reverse, vec_len, vec_capacity};
ghost use Rattle.okws_base.specs.Turns.{of};
ghost use Rattle.named_columns.specs.Held.{HeldProxy};
ghost use Rattle.named_columns.specs.Launched.{by_entry};
ghost use Rattle.turn_lock.specs.Board.{AllSaw as PartsSaw, AllDrew as PartsDrew};
ghost use Rattle.turn_lock.specs.BoardSeats.{parts};
ghost use Rattle.turn_lock.specs.Rows.{NoneFrom, GrownRow};
ghost use Rattle.turn_lock.specs.Seats.{AllGrow, sights};
ghost use Rattle.site_locks.specs.Closing.{AreOf, RestAt, HasAll};
ghost use Rattle.site_locks.specs.Sat.{AreLocks, AreSeats, LocksAre, RiseFrom, sat_of};
ghost use Rattle.site_locks.specs.Steps.{noted, NotesSpare};

use crate::closing::{Closed, Ends};
use crate::named::Site;
use monitor_model::record::Own;
use named_columns::log::SiteLog;
use named_columns::named::Backed;
use named_columns::okd::SiteOkd;
use named_columns::proxy::SiteProxy;
use named_columns::pubd::SitePubd;
use okws_base::journal::{Journal, Past};
use okws_outer::keeper::Keeper;
use okws_outer::stream::Sink;
use std::alloc::{AllocError, Global};
use std::marker::{Model, PhantomData};
use turn_lock::board::Board;
use turn_lock::{Seat, Turn, end_row};

/// The locks round the columns of a run, and its board. They were made for the workers' numbers and the
/// launcher's, which is the last.
pub struct Locks<N: Backed, J: Site, K: Keeper, S: Sink> {
    pub(crate) okd: Turn<SiteOkd<N>>,
    pub(crate) proxies: Vec<Turn<SiteProxy<N, K>>>,
    pub(crate) pubd: Turn<SitePubd<N>>,
    pub(crate) oklogd: Turn<SiteLog<N, S>>,
    pub(crate) board: Board,
    pub(crate) of: PhantomData<J>,
}

impl<N: Backed, J: Site, K: Keeper + Drop, S: Sink + Drop> Drop for Locks<N, J, K, S> {
    fn drop(self) {
        let Locks {
            okd,
            proxies,
            pubd,
            oklogd,
            board,
            of: _,
        } = self;
        drop(okd);
        drop(proxies);
        drop(pubd);
        drop(oklogd);
        drop(board);
    }
}

impl<N: Backed, J: Site, K: Keeper, S: Sink> Model for Locks<N, J, K, S> {
    ghost use Rattle.site_locks.specs.Sat.{LocksAre, AreLocks};

    ghost Value = { LocksAre };

    ghost view = { λ l. record { okd = l.okd; proxies = l.proxies.items; pubd = l.pubd; oklogd = l.oklogd; board = l.board } };

    ghost invariant = { λ l. AreLocks N.site N.launcher J.ids (record { okd = l.okd; proxies = l.proxies.items; pubd = l.pubd; oklogd = l.oklogd; board = l.board }) };
}

impl<N: Backed, J: Site, K: Keeper, S: Sink> Locks<N, J, K, S> {
    /// How many proxies are declared.
    pub fn count(&self) -> usize
        ensures { result ≡ length N.site.proxies }
    {
        self.proxies.len()
    }

    // Ends all locks by seats into which those of all numbers were joined.
    pub(crate) fn end(
        self,
        ends: Ends<N, K, S>,
        done: &mut Vec<SiteProxy<N, K>>,
        count: u16,
    ) -> Closed<N, S>
        requires rest { RestAt self ends }
        requires count { count ≡ N.launcher + 1 }
        requires all { (k : ℕ) → k < count → HasAll k ends }
        requires room { (done.old.items ≡ []) × (length N.site.proxies ≤ vec_capacity done.old) }
        ensures okd { AllGrow by_entry (sights ends.okd) result.okd.past × ((k : ℕ) → count ≤ k → of by_entry k result.okd.past ≡ []) }
        ensures proxies { GrownRow by_entry ends.proxies (reverse (map (λ (x : HeldProxy). x.past) done.new.items)) × NoneFrom by_entry count (reverse (map (λ (x : HeldProxy). x.past) done.new.items)) }
        ensures numbers { RiseFrom 0 (reverse (map (λ (x : HeldProxy). x.number) done.new.items)) }
        ensures many { vec_len done.new ≡ length N.site.proxies }
        ensures pubd { AllGrow by_entry (sights ends.pubd) result.pubd.past × ((k : ℕ) → count ≤ k → of by_entry k result.pubd.past ≡ []) }
        ensures oklogd { AllGrow by_entry (sights ends.oklogd) result.oklogd.past × ((k : ℕ) → count ≤ k → of by_entry k result.oklogd.past ≡ []) }
        ensures saw { (greatest : List ℕ) × PartsSaw count greatest (parts ends.board) }
        ensures drew { (hand : ℕ → ℕ) × PartsDrew hand result.drawn (parts ends.board) × ((k : ℕ) → k < result.drawn → hand k < count) }
    {
        let Locks {
            okd,
            proxies,
            pubd,
            oklogd,
            board,
            of: _,
        } = self;
        end_row(proxies, ends.proxies, done, count);
        Closed {
            okd: okd.end(ends.okd),
            pubd: pubd.end(ends.pubd),
            oklogd: oklogd.end(ends.oklogd),
            drawn: board.end(ends.board),
        }
    }
}

/// The seats of one number at the locks and at the board, and its own list. Of the places that its list has
/// ahead some are spare: each call leaves so many, and an item noted in one takes no memory.
pub struct Seats<N: Backed, J: Site, K: Keeper, S: Sink> {
    pub(crate) alloc: Global,
    pub(crate) number: u16,
    pub(crate) okd: Seat<SiteOkd<N>>,
    pub(crate) proxies: Vec<Seat<SiteProxy<N, K>>>,
    pub(crate) pubd: Seat<SitePubd<N>>,
    pub(crate) oklogd: Seat<SiteLog<N, S>>,
    pub(crate) board: turn_lock::board::Seat,
    pub(crate) own: Journal<Own>,
    pub(crate) spare: u32,
    pub(crate) of: PhantomData<J>,
}

impl<N: Backed, J: Site, K: Keeper, S: Sink> Drop for Seats<N, J, K, S> {
    fn drop(self) {
        let Seats {
            alloc: _,
            number: _,
            okd,
            proxies,
            pubd,
            oklogd,
            board,
            own,
            spare: _,
            of: _,
        } = self;
        drop(okd);
        drop(proxies);
        drop(pubd);
        drop(oklogd);
        drop(board);
        drop(own);
    }
}

impl<N: Backed, J: Site, K: Keeper, S: Sink> Model for Seats<N, J, K, S> {
    ghost use Rattle.std.specs.Prelude.{◌≤◌};
    ghost use Rattle.site_locks.specs.Sat.{Sat, AreSeats, sat_of};

    ghost Value = { Sat };

    ghost view = { λ s. sat_of s.number s.okd s.proxies.items s.pubd s.oklogd s.board s.own.past s.spare };

    ghost invariant = { λ s. AreSeats J.ids s.number s.okd s.proxies.items s.pubd s.oklogd s.board × (s.spare ≤ s.own.room) };
}

impl<N: Backed, J: Site, K: Keeper, S: Sink> Seats<N, J, K, S> {
    /// The number that its entries name.
    pub fn number(&self) -> u16
        ensures { result ≡ self.now.number }
    {
        self.number
    }

    /// Notes an own item that is no entry. Where memory is refused, all is as before.
    pub fn note(&mut self, item: Own) -> Result<(), AllocError>
        ensures ok { OnOk result (self.new ≡ noted self.old item) }
        ensures err { OnErr result (self.new ≡ self.old) }
    {
        self.own.make_room(self.spare as usize + 1)?;
        self.own.enter(item);
        Ok(())
    }

    /// Makes so many spare places in its own list. Where memory is refused, there are as many as before.
    pub fn make_spare(&mut self, places: u32) -> Result<(), AllocError>
        ensures ok { OnOk result (self.new ≡ record self.old { spare = places }) }
        ensures err { OnErr result (self.new ≡ self.old) }
    {
        self.own.make_room(places as usize)?;
        self.spare = places;
        Ok(())
    }

    /// How many spare places its own list has.
    pub fn spare_places(&self) -> u32
        ensures { result ≡ self.now.spare }
    {
        self.spare
    }

    /// Notes an own item that is no entry in a spare place. Takes no memory.
    pub fn note_spare(&mut self, item: Own)
        requires { 0 < self.old.spare }
        ensures { NotesSpare item self.old self.new }
    {
        self.own.enter(item);
        self.spare -= 1;
    }

    // The seats, apart from the names of their locks, and the own list.
    pub(crate) fn part(self, locks: &Locks<N, J, K, S>) -> (Ends<N, K, S>, Past<Own>)
        ensures ends { AreOf locks.now self result.0 }
        ensures rest { RestAt locks.now result.0 }
        ensures own { result.1 ≡ self.own }
    {
        let _okd = &locks.okd;
        let Seats {
            alloc: _,
            number: _,
            okd,
            proxies,
            pubd,
            oklogd,
            board,
            own,
            spare: _,
            of: _,
        } = self;
        let ends = Ends {
            okd,
            proxies,
            pubd,
            oklogd,
            board,
        };
        (ends, own.into_past())
    }
}
