//! Putting the workers of a run to their posts.

ghost use Rattle.std.specs.Prelude.{◌≡◌, ◌≤◌, ◌+◌, [], true, length, map, vec_len, vec_capacity};
ghost use Rattle.okws_base.specs.declared.limit.TheConstants.{MOST_SERVICES, MOST_TEMPLATES, GREATEST_RETRY};
ghost use Rattle.turn_lock.specs.BoardSeats.{IsFresh};
ghost use Rattle.site_run.specs.Places.{Placed, SamePlaces};
ghost use Rattle.site_run.specs.Rooms.{HasRoom};
ghost use Rattle.site_run.specs.Rows.{Seated, SameRoom};
ghost use Rattle.site_run.specs.Tied.{MoreOf};
ghost use Rattle.okws_serve.specs.Manned.{AreManned, doors_of, lives_of, ArePosted};
ghost use Rattle.okws_serve.specs.Posts.{DoorIs};
ghost use Rattle.okws_serve.specs.declared.outfit.TheConstants.{MOST_BEGUN};

use crate::post::{ConsolePost, DoorPost, Post, PostOf};
use admin_console::reader::Reader;
use okld_launch::named::Staffed;
use okws_outer::children::Children;
use okws_outer::conn::Conn;
use okws_outer::door::Door;
use okws_outer::gate::Gate;
use okws_outer::keeper::Keeper;
use okws_outer::stream::Sink;
use site_cells::lock_names::CellNames;
use site_locks::named::Site;
use site_run::places::Doors;
use site_run::row::{Chairs, Ground};
use std::sync::Wait;
use turn_lock::board::Seat as Place;

/// A console, the reading of its lines, and its seat at the board of the connections' numbers.
pub(crate) struct Console<O: Conn> {
    pub(crate) console: O,
    pub(crate) reader: Reader,
    pub(crate) place: Place,
}

// Puts a worker to each door, that of the greatest number first.
fn man_doors<
    'a,
    R: Wait,
    G: Gate,
    N: Staffed,
    J: Site,
    C: CellNames,
    K: Keeper,
    S: Sink,
    F: Children,
    D: Door,
    O: Conn,
>(
    ground: &Ground<'a, R, G, N, J, C, K, S, F>,
    chairs: &mut Chairs<N, J, C, K, S, F>,
    places: &mut Doors<D>,
    posts: &mut Vec<PostOf<'a, R, G, N, J, C, K, S, F, D, O>>,
)
    requires tells { N.tells ≡ true }
    requires few { length N.site.services ≤ MOST_SERVICES }
    requires retry { N.site.retry ≤ GREATEST_RETRY }
    requires most { ground.now.most ≤ MOST_BEGUN }
    requires seated { Seated ground.now.turn.now (length N.site.services) chairs.old }
    requires placed { Placed ground.now.numbers.now.id places.old }
    requires alike { length chairs.old.seats ≡ length places.old.entrances }
    requires none { posts.old.items ≡ [] }
    requires room { length places.old.entrances ≤ vec_capacity posts.old }
    ensures manned { AreManned ground.now.turn.now ground.now.numbers.now.id ground.now.most 0 posts.new.items }
    ensures doors { map (λ (d : DoorIs). d.entrance) (doors_of posts.new.items) ≡ places.old.entrances }
    ensures many { vec_len posts.new ≡ length places.old.entrances }
    ensures lives { MoreOf (lives_of (doors_of posts.new.items)) chairs.new chairs.old }
    ensures empty { (chairs.new.seats ≡ []) × (chairs.new.cells ≡ []) × (chairs.new.turns ≡ []) × (places.new.entrances ≡ []) × (places.new.places ≡ []) }
    ensures room { SameRoom chairs.old chairs.new × SamePlaces places.old places.new × (vec_capacity posts.new ≡ vec_capacity posts.old) }
{
    while let Some(next) = places.next_door() {
        let (door, desk) = next;
        let worker = chairs.last(ground);
        let post = DoorPost::new(door, desk, worker, ground.numbers, ground.most);
        posts.push_reserved(Post::Door(post));
    }
}

/// Puts a worker to each door, and then one to the console.
pub(crate) fn man_all<
    'a,
    R: Wait,
    G: Gate,
    N: Staffed,
    J: Site,
    C: CellNames,
    K: Keeper,
    S: Sink,
    F: Children,
    D: Door,
    O: Conn,
>(
    ground: &Ground<'a, R, G, N, J, C, K, S, F>,
    chairs: &mut Chairs<N, J, C, K, S, F>,
    places: &mut Doors<D>,
    console: Console<O>,
    posts: &mut Vec<PostOf<'a, R, G, N, J, C, K, S, F, D, O>>,
)
    requires tells { N.tells ≡ true }
    requires site { ground.now.site.now ≡ N.site }
    requires few { (length N.site.services ≤ MOST_SERVICES) × (length N.site.templates ≤ MOST_TEMPLATES) }
    requires retry { N.site.retry ≤ GREATEST_RETRY }
    requires most { ground.now.most ≤ MOST_BEGUN }
    requires seated { Seated ground.now.turn.now (length N.site.services) chairs.old }
    requires placed { Placed ground.now.numbers.now.id places.old }
    requires alike { length chairs.old.seats ≡ length places.old.entrances + 1 }
    requires posts { HasRoom (length places.old.entrances + 1) (vec_len posts.old) (vec_capacity posts.old) }
    requires first { console.reader ≡ 0 }
    requires last { IsFresh ground.now.numbers.now.id (length places.old.entrances) console.place }
    requires count { ground.now.numbers.now.count ≡ length places.old.entrances + 1 }
    ensures posted { ArePosted ground.now.turn.now ground.now.numbers.now.id ground.now.most chairs.old places.old.entrances (O.wire console.console) posts.new.items }
    ensures empty { (chairs.new.seats ≡ []) × (chairs.new.cells ≡ []) × (chairs.new.turns ≡ []) × (places.new.entrances ≡ []) × (places.new.places ≡ []) }
    ensures room { SameRoom chairs.old chairs.new × SamePlaces places.old places.new }
{
    let worker = chairs.last(ground);
    let overseer = ConsolePost::new(console, worker, ground.numbers, ground.most, ground.site);
    man_doors(ground, chairs, places, posts);
    posts.push_reserved(Post::Console(overseer));
}
