//! Closing the locks of a run with the seats of all its numbers.

ghost use Rattle.std.specs.Prelude.{◌≡◌, ◌<◌, ◌≤◌, ◌+◌, ℕ, List, [], length, map, reverse, vec_len, vec_capacity};
ghost use Rattle.okws_base.specs.Turns.{of};
ghost use Rattle.named_columns.specs.Held.{HeldProxy};
ghost use Rattle.named_columns.specs.Launched.{by_entry};
ghost use Rattle.turn_lock.specs.Rows.{NoneFrom};
ghost use Rattle.site_locks.specs.Sat.{Sat, RiseFrom};
ghost use Rattle.site_locks.specs.Closing.{AllGrown, RowsGrown, AllSaw, AllDrew, SomeIs, EndsAre, AreOf, RestAt, TakesIn};

use crate::locks::{Locks, Seats};
use crate::named::Site;
use monitor_model::record::Own;
use named_columns::log::SiteLog;
use named_columns::named::Backed;
use named_columns::okd::SiteOkd;
use named_columns::proxy::SiteProxy;
use named_columns::pubd::SitePubd;
use okws_base::journal::Past;
use okws_outer::keeper::Keeper;
use okws_outer::stream::Sink;
use std::marker::Model;
use turn_lock::{Seat, join_row};

// The seats into which those of all numbers are joined.
#[derive(Drop)]
pub(crate) struct Ends<N: Backed, K: Keeper, S: Sink> {
    pub(crate) okd: Seat<SiteOkd<N>>,
    pub(crate) proxies: Vec<Seat<SiteProxy<N, K>>>,
    pub(crate) pubd: Seat<SitePubd<N>>,
    pub(crate) oklogd: Seat<SiteLog<N, S>>,
    pub(crate) board: turn_lock::board::Seat,
}

impl<N: Backed, K: Keeper, S: Sink> Model for Ends<N, K, S> {
    ghost use Rattle.site_locks.specs.Closing.{EndsAre};

    ghost Value = { EndsAre };

    ghost view = { λ e. record { okd = e.okd; proxies = e.proxies.items; pubd = e.pubd; oklogd = e.oklogd; board = e.board } };
}

/// What the locks kept, but for the proxies' columns: okd's, pubd's and oklogd's, and how many connection
/// numbers were drawn.
#[derive(Drop)]
pub struct Closed<N: Backed, S: Sink> {
    pub okd: SiteOkd<N>,
    pub pubd: SitePubd<N>,
    pub oklogd: SiteLog<N, S>,
    pub drawn: u64,
}

// Joins a number's seats into these, and gives its own list.
fn take_in<N: Backed, J: Site, K: Keeper, S: Sink>(
    locks: &Locks<N, J, K, S>,
    ends: &mut Ends<N, K, S>,
    seats: Seats<N, J, K, S>,
) -> Past<Own>
    requires rest { RestAt locks.now ends.old }
    ensures taken { (other : EndsAre) × AreOf locks.now seats other × TakesIn seats other ends.old ends.new }
    ensures rest { RestAt locks.now ends.new }
    ensures own { result ≡ seats.own }
{
    let (more, own) = seats.part(locks);
    locks.okd.join(&mut ends.okd, more.okd);
    join_row(&locks.proxies, &mut ends.proxies, more.proxies);
    locks.pubd.join(&mut ends.pubd, more.pubd);
    locks.oklogd.join(&mut ends.oklogd, more.oklogd);
    locks.board.join(&mut ends.board, more.board);
    own
}

/// Ends the locks of a run by the seats of all its numbers. It takes no memory: the proxies' columns are put
/// into `done`, the last first, and the own lists into `owns`, the last first. Each journal goes on from what
/// each number had seen by entries of others alone, and no number beyond the launcher's made an entry. No
/// number has seen on the board what the launcher didn't raise. Each connection number below the count that
/// was drawn was drawn by one number, and by no other.
pub fn close<N: Backed, J: Site, K: Keeper, S: Sink>(
    locks: Locks<N, J, K, S>,
    mut seats: Vec<Seats<N, J, K, S>>,
    done: &mut Vec<SiteProxy<N, K>>,
    owns: &mut Vec<Past<Own>>,
    count: u16,
) -> Closed<N, S>
    requires count { count ≡ N.launcher + 1 }
    requires all { (k : ℕ) → k < count → SomeIs k seats.items }
    requires done { (done.old.items ≡ []) × (length N.site.proxies ≤ vec_capacity done.old) }
    requires owns { (owns.old.items ≡ []) × (vec_len seats ≤ vec_capacity owns.old) }
    ensures okd { AllGrown (λ s. s.okd) seats.items result.okd.past × ((k : ℕ) → count ≤ k → of by_entry k result.okd.past ≡ []) }
    ensures proxies { RowsGrown seats.items (reverse (map (λ (x : HeldProxy). x.past) done.new.items)) × NoneFrom by_entry count (reverse (map (λ (x : HeldProxy). x.past) done.new.items)) }
    ensures numbers { RiseFrom 0 (reverse (map (λ (x : HeldProxy). x.number) done.new.items)) }
    ensures many { vec_len done.new ≡ length N.site.proxies }
    ensures pubd { AllGrown (λ s. s.pubd) seats.items result.pubd.past × ((k : ℕ) → count ≤ k → of by_entry k result.pubd.past ≡ []) }
    ensures oklogd { AllGrown (λ s. s.oklogd) seats.items result.oklogd.past × ((k : ℕ) → count ≤ k → of by_entry k result.oklogd.past ≡ []) }
    ensures saw { (greatest : List ℕ) × AllSaw count greatest seats.items }
    ensures drew { (hand : ℕ → ℕ) × AllDrew hand result.drawn seats.items × ((k : ℕ) → k < result.drawn → hand k < count) }
    ensures owns { owns.new.items ≡ reverse (map (λ (s : Sat). s.own) seats.items) }
{
    let Some(first) = seats.pop() else {
        unreachable!()
    };
    let (mut ends, own) = first.part(&locks);
    owns.push_reserved(own);
    while let Some(more) = seats.pop() {
        owns.push_reserved(take_in(&locks, &mut ends, more));
    }
    seats.destroy_empty();
    locks.end(ends, done, count)
}
