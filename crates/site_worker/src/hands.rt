//! The columns behind their locks, as dialogs ask them.

ghost use Rattle.std.specs.Prelude.{◌≡◌, ◌<◌, ◌≤◌, ◌∷◌, ℕ, List, true, false, IfOk, IfSome, OnOk, OnErr, length, slice_index};
ghost use Rattle.okws_base.specs.Turns.{Behind};
ghost use Rattle.okws_base.specs.declared.journal.Entry.{Entry};
ghost use Rattle.okws_base.specs.declared.limit.TheConstants.{LONGEST_TEMPLATE};
ghost use Rattle.okws_plan.specs.declared.event.OkdEvent.{OkdEvent};
ghost use Rattle.okws_plan.specs.declared.event.OkdEvent.TheVariants as okd_event;
ghost use Rattle.turn_lock.specs.Board.{AllUnder};
ghost use Rattle.turn_lock.specs.BoardSeats.{MayDraw};
ghost use Rattle.monitor_model.specs.Okd.{accept_verdict};
ghost use Rattle.monitor_model.specs.Script.{goes_of};
ghost use Rattle.monitor_model.specs.Seen.{AtOkd};
ghost use Rattle.site_locks.specs.Sat.{seen_of};
ghost use Rattle.site_locks.specs.Steps.{NotesSpare};
ghost use Rattle.site_worker.specs.Asking.{CountsAt, KeepsPasts, PublishesAt, SameBoard};

use log_daemon::WriteOut;
use monitor_model::record::Own;
use monitor_model::verdict::{Got, Noted, Published, Push, Verdict, Way};
use named_columns::named::Backed;
use okws_base::items::Items;
use okws_base::value::Token;
use okws_outer::gate::{Gate, Point};
use okws_outer::keeper::Keeper;
use okws_outer::stream::{Link, Sink};
use okws_plan::event::Call;
use service_cell::columns::{Columns, Hears};
use site_locks::locks::{Locks, Seats};
use site_locks::named::Site;
use site_locks::note::OkdNote;
use site_locks::noted_link::NotedLink;
use started_call::Started;
use std::alloc::AllocError;
use std::marker::Model;
use std::sync::Wait;

/// What is counted of the columns' journals.
#[derive(Clone, Copy)]
pub struct Counted {
    /// Requests that were accepted.
    pub accepts: u64,
    /// Incarnations that came up.
    pub launches: u64,
    /// Editions that were published.
    pub publications: u64,
    /// Texts that were logged.
    pub logged: u64,
}

/// The seats of one number, with the locks that they are at and a gate, in a run whose keepers tell their
/// rows.
pub struct Hands<'a, R: Wait, G: Gate, N: Backed, J: Site, K: Keeper, S: Sink> {
    rt: &'a R,
    gate: &'a G,
    locks: &'a Locks<N, J, K, S>,
    pub(crate) seats: Seats<N, J, K, S>,
}

impl<'a, R: Wait, G: Gate, N: Backed, J: Site, K: Keeper, S: Sink> Drop
    for Hands<'a, R, G, N, J, K, S> {
    fn drop(self) {
        let Hands {
            rt: _,
            gate: _,
            locks: _,
            seats,
        } = self;
        drop(seats);
    }
}

impl<'a, R: Wait, G: Gate, N: Backed, J: Site, K: Keeper, S: Sink> Model
    for Hands<'a, R, G, N, J, K, S> {
    ghost use Rattle.std.specs.Prelude.{◌≡◌, true};
    ghost use Rattle.site_locks.specs.Sat.{Sat};

    ghost Value = { Sat };

    ghost view = { λ h. h.seats };

    ghost invariant = { λ h. N.tells ≡ true };
}

impl<'a, R: Wait, G: Gate, N: Backed, J: Site, K: Keeper, S: Sink> Hands<'a, R, G, N, J, K, S> {
    /// A number's seats with the locks; takes no memory.
    pub fn new(
        rt: &'a R,
        gate: &'a G,
        locks: &'a Locks<N, J, K, S>,
        seats: Seats<N, J, K, S>,
    ) -> Self
        requires { N.tells ≡ true }
        ensures { result ≡ seats }
    {
        Hands {
            rt,
            gate,
            locks,
            seats,
        }
    }

    /// Where a request for the path goes: to nobody where no service owns the path, else to the owner's
    /// incarnation that is up, if one is; such a service is declared, and its incarnation is from 1 on.
    /// Where memory is refused, nothing is entered.
    pub fn accept(&mut self, path: Items<u8>) -> Result<Way, AllocError>
        ensures ok { IfOk result (λ way. (before : List (Entry OkdEvent)) × (way ≡ accept_verdict N.site before path) × AtOkd self.old.number (okd_event.Accept path) (seen_of self.old) before (seen_of self.new) × Behind self.old.okd before) }
        ensures goes { IfOk result (λ way. IfSome (goes_of way) (λ (at : ℕ × ℕ). (at.0 < length N.site.services) × (0 < at.1))) }
        ensures err { OnErr result (seen_of self.new ≡ seen_of self.old) }
        ensures okd { KeepsPasts self.old.okd self.new.okd }
        ensures pubd { KeepsPasts self.old.pubd self.new.pubd }
        ensures oklogd { KeepsPasts self.old.oklogd self.new.oklogd }
        ensures same { SameBoard self.old self.new }
    {
        self.seats.accept(self.rt, self.locks, path)
    }

    /// Publishes an edition of the template of this number, unless all of its editions are spent. Where
    /// memory is refused, nothing is entered.
    pub fn publish(&mut self, template: u16, content: Items<u8>) -> Result<Published, AllocError>
        requires template { template < length N.site.templates }
        requires short { length content ≤ LONGEST_TEMPLATE }
        ensures ok { IfOk result (λ v. PublishesAt template content v self.old self.new) }
        ensures err { OnErr result (seen_of self.new ≡ seen_of self.old) }
        ensures okd { KeepsPasts self.old.okd self.new.okd }
        ensures pubd { KeepsPasts self.old.pubd self.new.pubd }
        ensures oklogd { KeepsPasts self.old.oklogd self.new.oklogd }
        ensures same { SameBoard self.old self.new }
    {
        self.seats.publish(self.rt, self.locks, template, content)
    }

    /// Takes in what another number has seen at okd. Enters nothing, and takes no turn and no memory.
    pub fn meet(&mut self, shown: OkdNote<N, J>)
        ensures met { Behind shown self.new.okd }
        ensures okd { KeepsPasts self.old.okd self.new.okd }
        ensures only { self.new ≡ record self.old { okd = self.new.okd } }
        ensures seen { seen_of self.new ≡ seen_of self.old }
    {
        self.seats.meet_okd(self.locks, shown);
    }

    /// Takes in what another number has seen at okd, and counts what stands in the journals of okd, pubd and
    /// oklogd, each in one turn. Enters nothing, and takes no memory.
    pub fn count(&mut self, note: OkdNote<N, J>) -> Counted
        ensures counts { CountsAt N.site note result self.old self.new }
        ensures same { SameBoard self.old self.new }
    {
        self.seats.meet_okd(self.locks, note);
        let (accepts, launches) = self.seats.count_at_okd(self.rt, self.locks);
        let publications = self.seats.count_at_pubd(self.rt, self.locks);
        let logged = self.seats.count_at_log(self.rt, self.locks);
        Counted {
            accepts,
            launches,
            publications,
            logged,
        }
    }

    /// Gives the log's sink what it wasn't given yet of the log's text. Enters nothing, and takes no memory.
    pub fn write_out(&mut self) -> WriteOut
        ensures seen { seen_of self.new ≡ seen_of self.old }
        ensures okd { KeepsPasts self.old.okd self.new.okd }
        ensures pubd { KeepsPasts self.old.pubd self.new.pubd }
        ensures oklogd { KeepsPasts self.old.oklogd self.new.oklogd }
        ensures same { SameBoard self.old self.new }
    {
        self.seats.write_out(self.rt, self.locks)
    }

    /// Makes so many spare places in the number's own list. Where memory is refused, there are as many as
    /// before.
    pub fn make_spare(&mut self, places: u32) -> Result<(), AllocError>
        ensures ok { OnOk result (self.new ≡ record self.old { spare = places }) }
        ensures err { OnErr result (self.new ≡ self.old) }
    {
        self.seats.make_spare(places)
    }

    /// How many spare places the number's own list has.
    pub fn spare_places(&self) -> u32
        ensures { result ≡ self.now.spare }
    {
        self.seats.spare_places()
    }

    /// Notes an own item that is no entry in a spare place. Takes no memory.
    pub fn note_spare(&mut self, item: Own)
        requires { 0 < self.old.spare }
        ensures { NotesSpare item self.old self.new }
    {
        self.seats.note_spare(item);
    }

    /// Draws a connection number, above all that the number drew. No other number is given it.
    pub fn draw(&mut self) -> u64
        requires { MayDraw self.old.drawn }
        ensures above { AllUnder result self.old.drawn }
        ensures drawn { self.new ≡ record self.old { drawn = result ∷ self.old.drawn } }
    {
        self.seats.draw(self.locks)
    }

    /// The seats.
    pub fn into_seats(self) -> Seats<N, J, K, S>
        ensures { result ≡ self.entry }
    {
        let Hands {
            rt: _,
            gate: _,
            locks: _,
            seats,
        } = self;
        seats
    }
}

impl<'a, R: Wait, G: Gate, N: Backed, J: Site, K: Keeper, S: Sink> Columns
    for Hands<'a, R, G, N, J, K, S> {
    ghost use Rattle.std.specs.Prelude.{◌≤◌, false, slice_index};
    ghost use Rattle.site_locks.specs.Heard.{AreInstalled, columns_of};
    ghost use Rattle.site_locks.specs.Sat.{seen_of};

    type Pin = K::Pin;

    ghost asker = { λ h. record { config = N.site; worker = h.number; alone = false } };

    ghost token_seed = { λ h. N.run_seed };

    ghost spare = { λ h. h.spare };

    ghost seen = { λ h. seen_of h };

    ghost shows = { λ h s k. k ≤ slice_index h.board s };

    ghost may_ask = { λ h s k. AreInstalled N.site s k (columns_of h) };

    fn worker(&self) -> u16 {
        self.seats.number()
    }

    fn proxies(&self) -> usize {
        self.locks.count()
    }

    fn current(&mut self, service: u16) -> u32 {
        self.seats.current(self.locks, service)
    }

    fn requested(&mut self, service: u16) {
        self.gate.pass(Point::Requested, u64::from(service));
    }

    fn note(&mut self, item: Own) -> Result<(), AllocError> {
        self.seats.note(item)
    }

    fn drain(&mut self, service: u16, incarnation: u32) -> Result<Vec<Push>, AllocError> {
        self.seats.drain(self.rt, self.locks, service, incarnation)
    }

    fn open_session(
        &mut self,
        proxy: u16,
        service: u16,
        incarnation: u32,
        shown: Token,
    ) -> Result<Verdict, AllocError> {
        self.seats
            .open_session(self.rt, self.locks, proxy, service, incarnation, shown)
    }

    fn call(&mut self, proxy: u16, call: Call) -> Result<Started<K::Pin>, AllocError> {
        self.seats
            .start(self.rt, self.gate, self.locks, proxy, call)
    }

    fn get(&mut self, service: u16, incarnation: u32, name: Items<u8>) -> Result<Got, AllocError> {
        self.seats
            .get(self.rt, self.locks, service, incarnation, name)
    }

    fn log(
        &mut self,
        service: u16,
        incarnation: u32,
        text: Items<u8>,
    ) -> Result<Noted, AllocError> {
        self.seats
            .log(self.rt, self.locks, service, incarnation, text)
    }
}

impl<'a, R: Wait, G: Gate, N: Backed, J: Site, K: Keeper, S: Sink, L: Link> Hears<
    NotedLink<N, J, K, S, L>,
> for Hands<'a, R, G, N, J, K, S> {
    fn hear(&mut self, link: &mut NotedLink<N, J, K, S, L>) {
        link.tell(self.locks, &mut self.seats);
    }
}
