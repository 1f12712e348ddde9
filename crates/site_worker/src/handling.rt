//! A worker behind a door.

ghost use Rattle.std.specs.Prelude.{◌≡◌, ◌<◌, ◌≤◌, ◌+◌, ◌↔◌, ℕ, IfOk, IfSome, IsTrue, OnErr, length};
ghost use Rattle.okws_base.specs.Turns.{Behind};
ghost use Rattle.okws_base.specs.declared.limit.TheConstants.{LONGEST_FRAME};
ghost use Rattle.http_front.specs.Replies.{Replied};
ghost use Rattle.http_front.specs.Requests.{HasTarget, path_text};
ghost use Rattle.monitor_model.specs.Script.{goes_of};
ghost use Rattle.service_cell.specs.Steps.{crash_end};
ghost use Rattle.site_cells.specs.Row.{seen_at};
ghost use Rattle.site_cells.specs.Turns.{GivesLast};
ghost use Rattle.door_worker.specs.Asking.{Asked, asked_by};
ghost use Rattle.door_worker.specs.declared.handler.Outcome.TheVariants as outcome;
ghost use Rattle.site_worker.specs.Lives.{Sees, Spends, Starves};
ghost use Rattle.site_worker.specs.Handling.{Accepts, Enters, Talks, WasBooted, Follows, Goes};
ghost use Rattle.site_worker.specs.declared.worker.TheConstants.{TURN_ITEMS};

use crate::worker::{TURN_ITEMS, Worker};
use door_worker::handler::{Handler, Outcome};
use http_front::reading::Request;
use http_front::reply::Reply;
use monitor_model::record::End;
use monitor_model::verdict::Way;
use okld_launch::named::Staffed;
use okws_base::crash::Cause;
use okws_base::items::{Items, copies};
use okws_base::limit::LONGEST_FRAME;
use okws_outer::children::Children;
use okws_outer::gate::Gate;
use okws_outer::keeper::Keeper;
use okws_outer::stream::Sink;
use service_cell::answer::Spoken;
use site_cells::lock_names::CellNames;
use site_locks::named::Site;
use std::alloc::AllocError;
use std::sync::Wait;

// Whether a frame may carry the request.
fn fits_frame(request: &Request) -> bool
    ensures { IsTrue result ↔ length request.now.head + length request.now.content + 9 ≤ LONGEST_FRAME }
{
    let head = request.head.as_slice().len();
    let content = request.content.as_slice().len();
    head <= LONGEST_FRAME - 9 && content <= LONGEST_FRAME - 9 - head
}

/// The end of a dialog that crashed by this cause.
fn end_of(cause: Cause) -> End
    ensures { result ≡ crash_end cause }
{
    match cause {
        Cause::BadFrame => End::BadFrame,
        Cause::Ended => End::Ended,
        Cause::LinkFault => End::LinkFault,
        Cause::FrameLimit => End::FrameLimit,
        Cause::Starved => End::Starved,
    }
}

impl<
    'a,
    R: Wait,
    G: Gate,
    N: Staffed,
    J: Site,
    C: CellNames,
    K: Keeper,
    S: Sink,
    F: Children,
> Worker<'a, R, G, N, J, C, K, S, F> {
    // Asks okd where a request goes, on what its seat has seen there. Where memory is refused, nothing is entered.
    fn enter(&mut self, request: &Request) -> Result<Way, AllocError>
        requires { HasTarget request.now }
        ensures ok { IfOk result (λ way. Enters N.site (path_text request.now) way self.old.life self.new.life) }
        ensures goes { IfOk result (λ way. IfSome (goes_of way) (λ (at : ℕ × ℕ). (at.0 < length N.site.services) × (0 < at.1))) }
        ensures err { OnErr result (Sees self.old.life.seen self.old.life self.new.life) }
        ensures spare { self.new.spare ≡ self.old.spare }
    {
        let path = copies(self.alloc, request.path())?;
        self.hands.accept(Items::of(path))
    }

    // Takes in what the launcher had seen at okd when the worker's last turn there ended.
    fn see_shown(&mut self)
        ensures met { Behind self.old.life.shown self.new.life.okd }
        ensures sees { Sees self.old.life.seen self.old.life self.new.life }
        ensures spare { self.new.spare ≡ self.old.spare }
    {
        let locks = self.locks;
        let note = self.shown.again(locks);
        self.hands.meet(note);
    }

    // Asks okd where a request goes, once what came up by the worker's last turn at the launcher was seen there.
    // Where memory is refused, nothing is entered.
    fn accept(&mut self, request: &Request) -> Result<Way, AllocError>
        requires { HasTarget request.now }
        ensures ok { IfOk result (λ way. Accepts N.site (path_text request.now) way self.old.life self.new.life) }
        ensures goes { IfOk result (λ way. IfSome (goes_of way) (λ (at : ℕ × ℕ). (at.0 < length N.site.services) × (0 < at.1))) }
        ensures err { OnErr result (Sees self.old.life.seen self.old.life self.new.life) }
        ensures spare { self.new.spare ≡ self.old.spare }
    {
        self.see_shown();
        self.enter(request)
    }

    // Notes want of memory, which is what became of a request.
    fn no_memory(&mut self) -> Outcome
        requires { TURN_ITEMS ≤ self.old.spare }
        ensures outcome { result ≡ outcome.NoMemory }
        ensures notes { Starves self.old.life self.new.life }
        ensures spends { Spends TURN_ITEMS self.old self.new }
    {
        self.note_starved();
        Outcome::NoMemory
    }

    // A whole dialog with an incarnation, in one turn at its cell. Where the service replied, the Reply is
    // filled.
    fn dialog(
        &mut self,
        service: u16,
        incarnation: u32,
        head: Items<u8>,
        content: Items<u8>,
        reply: &mut Reply,
    ) -> Spoken
        requires service { service < length N.site.services }
        requires counted { 0 < incarnation }
        requires short { length head + length content + 9 ≤ LONGEST_FRAME }
        ensures talks { (asked : Asked) → asked.head ≡ head → asked.content ≡ content → Talks N.site N.launcher asked service incarnation result self.old.life self.new.life }
        ensures gives { GivesLast result reply.new (seen_at self.new.life.cells service) }
        ensures booted { WasBooted result incarnation (seen_at self.new.life.cells service) }
        ensures spare { self.new.spare ≡ self.old.spare }
    {
        let rt = self.rt;
        let cells = self.cells;
        self.at_cells.dialog(
            rt,
            cells,
            service,
            head,
            content,
            incarnation,
            &mut self.hands,
            reply,
        )
    }

    // What became of a request whose dialog was answered so. The cell's turn was given back.
    fn conclude(&mut self, service: u16, incarnation: u32, spoken: Spoken) -> Outcome
        requires service { service < length N.site.services }
        requires counted { 0 < incarnation }
        requires booted { WasBooted spoken incarnation (seen_at self.old.life.cells service) }
        requires spare { TURN_ITEMS ≤ self.old.spare }
        ensures follows { (reply : Replied) → GivesLast spoken reply (seen_at self.old.life.cells service) → Follows N.site service incarnation spoken result reply self.old.life self.new.life }
        ensures spends { Spends TURN_ITEMS self.old self.new }
    {
        match spoken {
            Spoken::Reply => Outcome::Ended(End::Reply),
            Spoken::Crashed(cause) => {
                self.report(service, incarnation);
                Outcome::Ended(end_of(cause))
            }
            Spoken::Missed { .. } => Outcome::Missed,
            Spoken::Superseded { shown, .. } => Outcome::Ended(End::Superseded(shown)),
            Spoken::NoMemory => self.no_memory(),
        }
    }

    // Has a dialog about a request that okd sent to an incarnation.
    fn talk(
        &mut self,
        service: u16,
        incarnation: u32,
        request: Request,
        reply: &mut Reply,
    ) -> Outcome
        requires service { service < length N.site.services }
        requires counted { 0 < incarnation }
        requires short { length request.head + length request.content + 9 ≤ LONGEST_FRAME }
        requires spare { TURN_ITEMS ≤ self.old.spare }
        ensures goes { Goes N.site N.launcher (asked_by request) (Way.To service incarnation) result reply.new self.old.life self.new.life }
        ensures spends { Spends TURN_ITEMS self.old self.new }
    {
        let Request { head, content, .. } = request;
        let spoken = self.dialog(service, incarnation, head, content, reply);
        self.conclude(service, incarnation, spoken)
    }
}

impl<
    'a,
    R: Wait,
    G: Gate,
    N: Staffed,
    J: Site,
    C: CellNames,
    K: Keeper,
    S: Sink,
    F: Children,
> Handler for Worker<'a, R, G, N, J, C, K, S, F> {
    ghost use Rattle.std.specs.Prelude.{◌≤◌};
    ghost use Rattle.site_worker.specs.Lives.{Working};
    ghost use Rattle.site_worker.specs.Handling.{HandlesBy, StarvesBy};
    ghost use Rattle.site_worker.specs.declared.worker.TheConstants.{TURN_ITEMS};

    ghost State = { Working };

    ghost state = { λ w. w };

    ghost has_room = { λ w. TURN_ITEMS ≤ w.spare };

    ghost handles = { HandlesBy N.site N.launcher };

    ghost starves = { StarvesBy };

    // The places are made before the door is served: here it is only seen that they are there.
    fn make_room(&mut self) -> Result<(), AllocError> {
        if self.hands.spare_places() < TURN_ITEMS {
            return Err(AllocError);
        }
        Ok(())
    }

    fn handle(&mut self, request: Request, reply: &mut Reply) -> Outcome {
        if !fits_frame(&request) {
            return self.no_memory();
        }
        match self.accept(&request) {
            Err(_) => self.no_memory(),
            Ok(Way::NotOwned) => Outcome::NotOwned,
            Ok(Way::Down(_)) => Outcome::Down,
            Ok(
                Way::To {
                    service,
                    incarnation,
                },
            ) => self.talk(service, incarnation, request, reply),
        }
    }

    fn starve(&mut self) {
        self.note_starved();
    }
}
