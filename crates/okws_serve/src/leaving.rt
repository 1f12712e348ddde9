//! Taking the workers of a run from their posts.

ghost use Rattle.std.specs.Prelude.{◌≡◌, ◌+◌, ◌++◌, ◌∷◌, ◌||◌, [], Some, length, map, vec_len, IsNone, IsSome};
ghost use Rattle.turn_lock.specs.Seats.{TurnIs};
ghost use Rattle.named_columns.specs.Counts.{capped};
ghost use Rattle.site_run.specs.Places.{AllIdle, HasPlaces, SamePlaces};
ghost use Rattle.site_run.specs.Rows.{Seated, Spacious, SameRoom, WorksAs};
ghost use Rattle.site_run.specs.Tied.{MoreOf};
ghost use Rattle.okws_serve.specs.Doors.{any_starved};
ghost use Rattle.okws_serve.specs.Manned.{doors_of, lives_of, AllDone, AreAt, attended_of, served_of};
ghost use Rattle.okws_serve.specs.Posts.{DoorIs};

use crate::outfit::Ending;
use crate::post::{ConsolePost, DoorPost, Post, PostOf};
use okld_launch::named::Staffed;
use okws_outer::children::Children;
use okws_outer::conn::Conn;
use okws_outer::door::Door;
use okws_outer::gate::Gate;
use okws_outer::keeper::Keeper;
use okws_outer::stream::Sink;
use site_cells::lock_names::CellNames;
use site_locks::named::Site;
use site_run::places::Doors;
use site_run::row::Chairs;
use site_worker::door::Attended;
use std::sync::Wait;
use turn_lock::board::Seat as Place;

/// How the workers at the doors did.
#[derive(Clone, Copy)]
pub(crate) struct Served {
    /// How many connections were served.
    pub(crate) connections: u64,
    /// Whether memory was refused to a worker.
    pub(crate) starved: bool,
}

impl Served {
    // Counts what one more worker did.
    fn with(self, attended: Attended) -> Served
        ensures connections { result.connections ≡ capped (self.connections + attended.connections) }
        ensures starved { result.starved ≡ (self.starved || attended.starved) }
    {
        Served {
            connections: self.connections.saturating_add(attended.connections),
            starved: self.starved || attended.starved,
        }
    }
}

// Takes all from a door's post.
fn leave_door<
    R: Wait,
    G: Gate,
    N: Staffed,
    J: Site,
    C: CellNames,
    K: Keeper,
    S: Sink,
    F: Children,
    D: Door,
>(
    post: DoorPost<'_, R, G, N, J, C, K, S, F, D>,
    chairs: &mut Chairs<N, J, C, K, S, F>,
    places: &mut Doors<D>,
) -> Attended
    requires done { IsSome post.attended }
    requires room { Spacious (length chairs.old.seats + 1) chairs.old × HasPlaces (length chairs.old.seats + 1) places.old }
    requires alike { (length chairs.old.cells ≡ length chairs.old.seats) × (length chairs.old.turns ≡ length chairs.old.seats) × (length places.old.entrances ≡ length chairs.old.seats) × (length places.old.places ≡ length chairs.old.seats) }
    ensures attended { post.entry.attended ≡ Some result }
    ensures seated { (t : TurnIs) → WorksAs t (length chairs.old.seats) post.entry.life → Seated t (length N.site.services) chairs.old → Seated t (length N.site.services) chairs.new }
    ensures more { (length chairs.new.seats ≡ length chairs.old.seats + 1) × (length chairs.new.cells ≡ length chairs.old.seats + 1) × (length chairs.new.turns ≡ length chairs.old.seats + 1) }
    ensures whose { MoreOf (post.entry.life ∷ []) chairs.old chairs.new }
    ensures door { places.new.entrances ≡ places.old.entrances ++ post.entry.entrance ∷ [] }
    ensures place { places.new.places ≡ places.old.places ++ post.entry.place ∷ [] }
    ensures idle { IsNone post.entry.entrance.out }
    ensures room { SameRoom chairs.old chairs.new × SamePlaces places.old places.new }
{
    let (door, desk, worker, attended) = post.into_parts();
    places.put_back(door, desk);
    chairs.take_back(worker);
    match attended {
        Some(attended) => attended,
        None => unreachable!(),
    }
}

/// Takes all from the doors' posts, those of the least number first.
pub(crate) fn leave_doors<
    R: Wait,
    G: Gate,
    N: Staffed,
    J: Site,
    C: CellNames,
    K: Keeper,
    S: Sink,
    F: Children,
    D: Door,
    O: Conn,
>(
    mut posts: Vec<PostOf<'_, R, G, N, J, C, K, S, F, D, O>>,
    chairs: &mut Chairs<N, J, C, K, S, F>,
    places: &mut Doors<D>,
) -> Served
    requires done { AllDone posts.items }
    requires empty { (chairs.old.seats ≡ []) × (chairs.old.cells ≡ []) × (chairs.old.turns ≡ []) × (places.old.entrances ≡ []) × (places.old.places ≡ []) }
    requires room { Spacious (vec_len posts) chairs.old × HasPlaces (vec_len posts) places.old }
    ensures seated { (t : TurnIs) → AreAt t 0 posts.entry.items → Seated t (length N.site.services) chairs.new }
    ensures many { (length chairs.new.seats ≡ vec_len posts.entry) × (length chairs.new.cells ≡ vec_len posts.entry) × (length chairs.new.turns ≡ vec_len posts.entry) }
    ensures lives { MoreOf (lives_of (doors_of posts.entry.items)) chairs.old chairs.new }
    ensures doors { places.new.entrances ≡ map (λ (d : DoorIs). d.entrance) (doors_of posts.entry.items) }
    ensures places { places.new.places ≡ map (λ (d : DoorIs). d.place) (doors_of posts.entry.items) }
    ensures idle { AllIdle places.new.entrances }
    ensures connections { result.connections ≡ capped (served_of (attended_of (doors_of posts.entry.items))) }
    ensures starved { result.starved ≡ any_starved (attended_of (doors_of posts.entry.items)) }
    ensures room { SameRoom chairs.old chairs.new × SamePlaces places.old places.new }
{
    let mut served = Served {
        connections: 0,
        starved: false,
    };
    while let Some(post) = posts.pop() {
        let Post::Door(post) = post else {
            unreachable!()
        };
        let attended = leave_door(post, chairs, places);
        served = served.with(attended);
    }
    posts.destroy_empty();
    served
}

/// Takes all from the console's post.
pub(crate) fn leave_console<
    R: Wait,
    G: Gate,
    N: Staffed,
    J: Site,
    C: CellNames,
    K: Keeper,
    S: Sink,
    F: Children,
    O: Conn,
>(
    post: ConsolePost<'_, R, G, N, J, C, K, S, F, O>,
    chairs: &mut Chairs<N, J, C, K, S, F>,
) -> (O, Place, Ending)
    requires done { IsSome post.ended }
    requires room { Spacious (length chairs.old.seats + 1) chairs.old }
    requires alike { (length chairs.old.cells ≡ length chairs.old.seats) × (length chairs.old.turns ≡ length chairs.old.seats) }
    ensures ended { post.entry.ended ≡ Some result.2 }
    ensures console { O.wire result.0 ≡ post.entry.wire }
    ensures place { result.1 ≡ post.entry.place }
    ensures seated { (t : TurnIs) → WorksAs t (length chairs.old.seats) post.entry.life → Seated t (length N.site.services) chairs.old → Seated t (length N.site.services) chairs.new }
    ensures whose { MoreOf (post.entry.life ∷ []) chairs.old chairs.new }
    ensures many { length chairs.new.seats ≡ length chairs.old.seats + 1 }
    ensures room { SameRoom chairs.old chairs.new }
{
    let (console, place, worker, ended) = post.into_parts();
    chairs.take_back(worker);
    match ended {
        Some(ending) => (console, place, ending),
        None => unreachable!(),
    }
}
