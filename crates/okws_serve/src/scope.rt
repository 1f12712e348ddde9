//! The workers of a run in one scope.

ghost use Rattle.std.specs.Prelude.{◌≡◌, ◌≤◌, ◌<◌, ◌+◌, ◌*◌, ℕ, true, length, vec_len, vec_capacity, slice_index_or};
ghost use Rattle.okws_base.specs.declared.limit.TheConstants.{MOST_SERVICES, MOST_TEMPLATES, GREATEST_RETRY};
ghost use Rattle.turn_lock.specs.BoardSeats.{AllAt, IsFresh};
ghost use Rattle.site_worker.specs.declared.worker.TheConstants.{TURN_ITEMS};
ghost use Rattle.site_run.specs.Opening.{IsUnopened};
ghost use Rattle.site_run.specs.Places.{AllIdle, Placed, HasPlaces};
ghost use Rattle.site_run.specs.Rooms.{HasRoom};
ghost use Rattle.site_run.specs.Rows.{Seated, Spacious, SameRoom, first_spare};
ghost use Rattle.site_run.specs.Tied.{Unused};
ghost use Rattle.okws_serve.specs.Manned.{AllWork, WorkDone};
ghost use Rattle.okws_serve.specs.declared.outfit.TheConstants.{MOST_BEGUN};

use crate::leaving::{Served, leave_console, leave_doors};
use crate::manning::{Console, man_all};
use crate::outfit::Ending;
use crate::post::{Post, PostOf, Works};
use okld_launch::named::Staffed;
use okws_outer::children::Children;
use okws_outer::conn::Conn;
use okws_outer::door::Door;
use okws_outer::gate::Gate;
use okws_outer::keeper::Keeper;
use okws_outer::stream::{Link, Sink};
use site_cells::lock_names::CellNames;
use site_locks::named::Site;
use site_locks::note::OkdNote;
use site_run::launching::launch_all;
use site_run::places::Doors;
use site_run::row::{Chairs, Ground};
use std::sync::Wait;
use std::thread;
use std::thread::Threads;
use turn_lock::board::Seat as Place;

// Has each do what it has to do, in a thread of its own where one can be started.
fn work_each<R: Threads + Sync, P: Works + Send>(rt: &R, all: &mut [P])
    ensures each { (i : ℕ) (d : P) → i < length all.old → P.does (slice_index_or all.old i d) (slice_index_or all.new i d) }
    ensures many { length all.new ≡ length all.old }
{
    let threads = all.len().max(1);
    thread::for_each_mut(
        rt,
        all,
        threads,
        &|_, one: &mut P|
            ensures { P.does one.old one.new }
        { one.work() },
    );
}

// Does what is to do at all posts, each in a thread of its own where one can be started.
fn work_all<
    R: Threads + Wait + Sync,
    G: Gate + Sync,
    N: Staffed + Send + Sync,
    J: Site + Send + Sync,
    C: CellNames + Send + Sync,
    K: Keeper + Send,
    S: Sink + Send,
    F: Children + Send,
    D: Door + Send,
    O: Conn + Send,
>(rt: &R, posts: &mut [PostOf<'_, R, G, N, J, C, K, S, F, D, O>])
where
    D::Conn: Send,
    F::Child: Send,
    F::Link: Send,
    K::Pin: Send,
    ensures { AllWork D.Conn.wire N.site N.launcher posts.old posts.new }
{
    work_each(rt, posts);
}

// The same at the posts of a vector.
fn work_posts<
    R: Threads + Wait + Sync,
    G: Gate + Sync,
    N: Staffed + Send + Sync,
    J: Site + Send + Sync,
    C: CellNames + Send + Sync,
    K: Keeper + Send,
    S: Sink + Send,
    F: Children + Send,
    D: Door + Send,
    O: Conn + Send,
>(rt: &R, posts: &mut Vec<PostOf<'_, R, G, N, J, C, K, S, F, D, O>>)
where
    D::Conn: Send,
    F::Child: Send,
    F::Link: Send,
    K::Pin: Send,
    ensures { AllWork D.Conn.wire N.site N.launcher posts.old.items posts.new.items }
{
    work_all(rt, posts.as_mut_slice());
}

/// Launches all services, and then has a worker attend each door and one oversee the console, all at once.
/// `posts` is room for them all. Tells what stood at okd before they began, where all that came up does.
pub(crate) fn run<
    'a,
    R: Threads + Wait + Sync,
    G: Gate + Sync,
    N: Staffed + Send + Sync,
    J: Site + Send + Sync,
    C: CellNames + Send + Sync,
    K: Keeper + Send,
    S: Sink + Send,
    F: Children + Send,
    D: Door + Send,
    O: Conn + Send,
>(
    ground: &Ground<'a, R, G, N, J, C, K, S, F>,
    chairs: &mut Chairs<N, J, C, K, S, F>,
    places: &mut Doors<D>,
    console: Console<O>,
    posts: Vec<PostOf<'a, R, G, N, J, C, K, S, F, D, O>>,
) -> (O, Served, Ending, OkdNote<N, J>, Place)
where
    D::Conn: Send,
    F::Child: Send,
    F::Link: Send,
    K::Pin: Send,
    requires tells { N.tells ≡ true }
    requires site { ground.now.site.now ≡ N.site }
    requires few { (length N.site.services ≤ MOST_SERVICES) × (length N.site.templates ≤ MOST_TEMPLATES) }
    requires retry { N.site.retry ≤ GREATEST_RETRY }
    requires most { ground.now.most ≤ MOST_BEGUN }
    requires seated { Seated ground.now.turn.now (length N.site.services) chairs.old }
    requires unused { Unused N.site chairs.old }
    requires unopened { IsUnopened chairs.old }
    requires spare { length N.site.services * TURN_ITEMS ≤ first_spare chairs.old }
    requires placed { Placed ground.now.numbers.now.id places.old }
    requires alike { length chairs.old.seats ≡ length places.old.entrances + 1 }
    requires some { 0 < length places.old.entrances }
    requires room { Spacious (length chairs.old.seats) chairs.old × HasPlaces (length places.old.entrances) places.old }
    requires posts { HasRoom (length places.old.entrances + 1) (vec_len posts) (vec_capacity posts) }
    requires first { console.reader ≡ 0 }
    requires last { IsFresh ground.now.numbers.now.id (length places.old.entrances) console.place }
    requires count { ground.now.numbers.now.count ≡ length places.old.entrances + 1 }
    ensures seated { Seated ground.now.turn.now (length N.site.services) chairs.new }
    ensures many { length chairs.new.seats ≡ length chairs.old.seats }
    ensures room { SameRoom chairs.old chairs.new }
    ensures idle { AllIdle places.new.entrances }
    ensures last { result.4.board ≡ ground.now.numbers.now.id }
    ensures places { (length places.new.entrances ≡ length places.old.entrances) × (length places.new.places ≡ length places.old.entrances) × AllAt ground.now.numbers.now.id places.new.places }
    ensures done { WorkDone D.Conn.wire N.site N.launcher ground.now.numbers.now.id ground.now.most chairs.new result.3 places.old places.new (O.wire console.console) (O.wire result.0) result.1.connections result.1.starved result.4 result.2 }
{
    let mut posts = posts;
    let okd = launch_all(ground, chairs);
    man_all(ground, chairs, places, console, &mut posts);
    work_posts(ground.rt, &mut posts);
    let Some(last) = posts.pop() else {
        unreachable!()
    };
    let Post::Console(overseer) = last else {
        unreachable!()
    };
    let served = leave_doors(posts, chairs, places);
    let (console, place, ending) = leave_console(overseer, chairs);
    (console, served, ending, okd, place)
}
