//! Workers at their posts: one at each door, and one at the operator's console.

ghost use Rattle.std.specs.Prelude.{◌≡◌, ◌≤◌, ◌+◌, [], IsNone, None, slice_index};
ghost use Rattle.okws_serve.specs.declared.outfit.TheConstants.{MOST_BEGUN};
ghost use Rattle.site_worker.specs.declared.door.TheConstants.{STOPPED};
ghost use Rattle.okws_serve.specs.Posts.{AttendedIf, OverseenIf, WorksAt, IsSteered};

use crate::concluding::conclude;
use crate::manning::Console;
use crate::outfit::Ending;
use admin_console::reader::Reader;
use okld_launch::named::Staffed;
use okws_outer::children::Children;
use okws_outer::conn::Conn;
use okws_outer::door::Door;
use okws_outer::gate::Gate;
use okws_outer::keeper::Keeper;
use okws_outer::stream::Sink;
use okws_plan::configuration::Config;
use site_cells::lock_names::CellNames;
use site_locks::named::Site;
use site_run::room::Desk;
use site_worker::door::Attended;
use site_worker::worker::Worker;
use std::marker::Model;
use std::sync::Wait;
use turn_lock::board::{Board, Seat as Place};

/// A worker at its door, which it attends once.
pub(crate) struct DoorPost<
    'a,
    R: Wait,
    G: Gate,
    N: Staffed,
    J: Site,
    C: CellNames,
    K: Keeper,
    S: Sink,
    F: Children,
    D: Door,
> {
    pub(crate) door: D,
    pub(crate) desk: Desk,
    pub(crate) worker: Worker<'a, R, G, N, J, C, K, S, F>,
    pub(crate) attended: Option<Attended>,
    numbers: &'a Board,
    most: u64,
}

impl<
    'a,
    R: Wait,
    G: Gate,
    N: Staffed,
    J: Site,
    C: CellNames,
    K: Keeper,
    S: Sink,
    F: Children,
    D: Door,
> Model for DoorPost<'a, R, G, N, J, C, K, S, F, D> {
    ghost use Rattle.okws_serve.specs.Posts.{DoorIs, IsDoor};

    ghost Value = { DoorIs };

    ghost view = { λ p. record { entrance = D.entrance p.door; place = p.desk.place; most = p.most; life = p.worker.life; attended = p.attended } };

    ghost invariant = { λ p. IsDoor p.numbers.now.id (record { entrance = D.entrance p.door; place = p.desk.place; most = p.most; life = p.worker.life; attended = p.attended }) };
}

impl<
    'a,
    R: Wait,
    G: Gate,
    N: Staffed,
    J: Site,
    C: CellNames,
    K: Keeper,
    S: Sink,
    F: Children,
    D: Door,
> DoorPost<'a, R, G, N, J, C, K, S, F, D> {
    /// A worker that drew no number yet, at a door at which no connection is out; it draws numbers from this
    /// board, up to this one.
    pub(crate) fn new(
        door: D,
        desk: Desk,
        worker: Worker<'a, R, G, N, J, C, K, S, F>,
        numbers: &'a Board,
        most: u64,
    ) -> Self
        requires idle { IsNone (D.entrance door).out }
        requires none { desk.place.drawn ≡ [] }
        requires board { desk.place.board ≡ numbers.now.id }
        requires most { most ≤ MOST_BEGUN }
        ensures { result ≡ record { entrance = D.entrance door; place = desk.place; most = most; life = worker.entry.life; attended = None } }
    {
        DoorPost {
            door,
            desk,
            worker,
            attended: None,
            numbers,
            most,
        }
    }

    /// The door, the desk, the worker, and how it attended the door.
    pub(crate) fn into_parts(
        self,
    ) -> (
        D,
        Desk,
        Worker<'a, R, G, N, J, C, K, S, F>,
        Option<Attended>,
    )
        ensures parts { self.entry ≡ record { entrance = D.entrance result.0; place = result.1.place; most = self.entry.most; life = result.2.life; attended = result.3 } }
        ensures idle { IsNone (D.entrance result.0).out }
    {
        let DoorPost {
            door,
            desk,
            worker,
            attended,
            numbers: _,
            most: _,
        } = self;
        (door, desk, worker, attended)
    }

    // Attends the door, unless that is done.
    fn work(&mut self)
        ensures { AttendedIf D.Conn.wire N.site N.launcher self.old self.old.attended self.new }
    {
        if self.attended.is_none() {
            let numbers = self.numbers;
            let attended = self.worker.attend(
                &mut self.door,
                &mut self.desk.kept,
                &mut self.desk.reply,
                numbers,
                &mut self.desk.place,
                self.most,
            );
            self.attended = Some(attended);
        }
    }
}

/// A worker at the operator's console, which it oversees once.
pub(crate) struct ConsolePost<
    'a,
    R: Wait,
    G: Gate,
    N: Staffed,
    J: Site,
    C: CellNames,
    K: Keeper,
    S: Sink,
    F: Children,
    O: Conn,
> {
    pub(crate) console: O,
    pub(crate) reader: Reader,
    pub(crate) place: Place,
    pub(crate) worker: Worker<'a, R, G, N, J, C, K, S, F>,
    pub(crate) ended: Option<Ending>,
    numbers: &'a Board,
    most: u64,
    site: &'a Config,
}

impl<
    'a,
    R: Wait,
    G: Gate,
    N: Staffed,
    J: Site,
    C: CellNames,
    K: Keeper,
    S: Sink,
    F: Children,
    O: Conn,
> Model for ConsolePost<'a, R, G, N, J, C, K, S, F, O> {
    ghost use Rattle.okws_serve.specs.Posts.{ConsoleIs, IsConsole};

    ghost Value = { ConsoleIs };

    ghost view = { λ p. record { wire = O.wire p.console; lines = p.reader; life = p.worker.life; place = p.place; most = p.most; ended = p.ended } };

    ghost invariant = { λ p. IsConsole N.site p.site.now p.numbers.now (record { wire = O.wire p.console; lines = p.reader; life = p.worker.life; place = p.place; most = p.most; ended = p.ended }) };
}

impl<
    'a,
    R: Wait,
    G: Gate,
    N: Staffed,
    J: Site,
    C: CellNames,
    K: Keeper,
    S: Sink,
    F: Children,
    O: Conn,
> ConsolePost<'a, R, G, N, J, C, K, S, F, O> {
    /// A worker at a console of this site, whose seat at the board of the connections' numbers is the last one
    /// there, and which may stop these below the limit.
    pub(crate) fn new(
        console: Console<O>,
        worker: Worker<'a, R, G, N, J, C, K, S, F>,
        numbers: &'a Board,
        most: u64,
        site: &'a Config,
    ) -> Self
        requires steered { IsSteered N.site site.now }
        requires board { console.place.board ≡ numbers.now.id }
        requires last { console.place.number + 1 ≡ numbers.now.count }
        requires calm { slice_index console.place.seen STOPPED ≡ 0 }
        ensures { result ≡ record { wire = O.wire console.console; lines = console.reader; life = worker.entry.life; place = console.place; most = most; ended = None } }
    {
        let Console {
            console,
            reader,
            place,
        } = console;
        ConsolePost {
            console,
            reader,
            place,
            worker,
            ended: None,
            numbers,
            most,
            site,
        }
    }

    /// The console, its seat, the worker, and how the console ended.
    pub(crate) fn into_parts(self) -> (O, Place, Worker<'a, R, G, N, J, C, K, S, F>, Option<Ending>)
        ensures { self.entry ≡ record { wire = O.wire result.0; lines = self.entry.lines; life = result.2.life; place = result.1; most = self.entry.most; ended = result.3 } }
    {
        let ConsolePost {
            console,
            reader: _,
            place,
            worker,
            ended,
            numbers: _,
            most: _,
            site: _,
        } = self;
        (console, place, worker, ended)
    }

    // Oversees the console, unless that is done.
    fn work(&mut self)
        ensures { OverseenIf N.site self.old self.old.ended self.new }
    {
        if self.ended.is_none() {
            let site = self.site;
            let numbers = self.numbers;
            let limit = self.most;
            let overseen = self
                .worker
                .oversee(&mut self.console, &mut self.reader, site);
            let ending = conclude(
                &mut self.console,
                &mut self.reader,
                numbers,
                &mut self.place,
                limit,
                overseen,
            );
            self.ended = Some(ending);
        }
    }
}

/// A post, at a door or at the console.
pub(crate) enum Post<A, B> {
    Door(A),
    Console(B),
}

/// A post of one of these workers.
pub(crate) type PostOf<'a, R, G, N, J, C, K, S, F, D, O> = Post<
    DoorPost<'a, R, G, N, J, C, K, S, F, D>,
    ConsolePost<'a, R, G, N, J, C, K, S, F, O>,
>;

// Does what is to do at a post, unless that is done.
fn work_at<
    R: Wait,
    G: Gate,
    N: Staffed,
    J: Site,
    C: CellNames,
    K: Keeper,
    S: Sink,
    F: Children,
    D: Door,
    O: Conn,
>(post: &mut PostOf<'_, R, G, N, J, C, K, S, F, D, O>)
    ensures { WorksAt D.Conn.wire N.site N.launcher post.old post.new }
{
    match post {
        Post::Door(door) => door.work(),
        Post::Console(console) => console.work(),
    }
}

/// One that has something to do, once.
pub(crate) trait Works {
    /// It is done.
    ghost does: { Self → Self → Type 0 };

    /// Does it, unless that is done.
    fn work(&mut self)
        ensures { does self.old self.new };
}

impl<
    'a,
    R: Wait,
    G: Gate,
    N: Staffed,
    J: Site,
    C: CellNames,
    K: Keeper,
    S: Sink,
    F: Children,
    D: Door,
    O: Conn,
> Works
    for Post<DoorPost<'a, R, G, N, J, C, K, S, F, D>, ConsolePost<'a, R, G, N, J, C, K, S, F, O>> {
    ghost does = { λ old new. WorksAt D.Conn.wire N.site N.launcher old new };

    fn work(&mut self) {
        work_at(self)
    }
}
