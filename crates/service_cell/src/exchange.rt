//! One exchange of a dialog, between a link and the columns.

ghost use Rattle.std.specs.Prelude.{◌≡◌, ◌≤◌, ◌<◌, ℕ, ◌+◌, [], true, length, take, IsTrue, OnOk};
ghost use Rattle.okws_base.specs.Runs.{Each};
ghost use Rattle.frame_codec.specs.Spelling.{server_spelling, HasSpelling, ServiceHasSpelling};
ghost use Rattle.monitor_model.specs.Course.{Answers, opening, said_count};
ghost use Rattle.service_cell.specs.Asking.{Asker, KeepsBoard, IsNextBy, IsShortPush};
ghost use Rattle.service_cell.specs.Ending.{EndsInReply};
ghost use Rattle.service_cell.specs.Exchange.{IsSpelled, IsHeardLast, PutsFrame, Hears, Opens, Exchanges, GivesAnswer, AnswersSaid, AnswersFrame};

use crate::columns::Columns;
use crate::course::Course;
use crate::telling::{told_call, told_got, told_noted, told_push, told_verdict};
use frame_codec::frame::{ServerFrame, ServiceFrame};
use frame_codec::making;
use frame_link::receiving::{NextFrame, next};
use frame_link::sending::{LinkFault, send};
use monitor_model::due::Due;
use monitor_model::record::Item;
use monitor_model::verdict::Push;
use okws_base::crash::Cause;
use okws_base::denial::Rule;
use okws_base::items::{Exact, Items};
use okws_base::limit::{LONGEST_FRAME, MOST_FRAMES};
use okws_base::value::{Token, Value};
use okws_outer::stream::Link;
use okws_plan::event::Call;
use std::alloc::{AllocError, Global};

/// The service and the incarnation that speak.
#[derive(Clone, Copy)]
pub(crate) struct Who {
    pub(crate) service: u16,
    pub(crate) incarnation: u32,
}

/// How an exchange went.
#[derive(Clone, Copy)]
pub(crate) enum Exchanged {
    Goes,
    Reply,
    Crashed(Cause),
}

fn answer_open<C: Columns>(columns: &mut C, who: Who, proxy: u16, shown: Token) -> ServerFrame
    requires declared { who.service < length (C.asker columns.old).config.services }
    requires may { C.may_ask columns.old who.service who.incarnation }
    ensures answer { Answers (C.asker columns.old).config (record { worker = (C.asker columns.old).worker; service = who.service; incarnation = who.incarnation }) (ServiceFrame.Open proxy shown) (C.seen columns.old) result (C.seen columns.new) }
    ensures spelling { HasSpelling result }
    ensures next { IsTrue (C.asker columns.old).alone → IsNextBy (C.asker columns.old).worker (C.seen columns.old) (C.seen columns.new) }
    ensures board { KeepsBoard C.asker C.shows C.token_seed C.spare C.may_ask columns.old columns.new }
{
    if proxy as usize >= columns.proxies() {
        return making::denied(Rule::NoSuchProxy.number());
    }
    match columns.open_session(proxy, who.service, who.incarnation, shown) {
        Ok(verdict) => told_verdict(verdict),
        Err(_) => making::no_memory(),
    }
}

fn answer_call<C: Columns>(
    alloc: Global,
    columns: &mut C,
    proxy: u16,
    call: Call,
) -> Result<ServerFrame, AllocError>
    requires declared { call.service < length (C.asker columns.old).config.services }
    requires may { C.may_ask columns.old call.service call.incarnation }
    ensures answer { GivesAnswer (C.asker columns.old).config (record { worker = (C.asker columns.old).worker; service = call.service; incarnation = call.incarnation }) (ServiceFrame.Call proxy call.session call.query call.args) (C.seen columns.old) result (C.seen columns.new) }
    ensures next { IsTrue (C.asker columns.old).alone → IsNextBy (C.asker columns.old).worker (C.seen columns.old) (C.seen columns.new) }
    ensures board { KeepsBoard C.asker C.shows C.token_seed C.spare C.may_ask columns.old columns.new }
{
    if proxy as usize >= columns.proxies() {
        return Ok(making::denied(Rule::NoSuchProxy.number()));
    }
    match columns.call(proxy, call) {
        Ok(started) => told_call(alloc, started),
        Err(_) => Ok(making::no_memory()),
    }
}

fn answer_get<C: Columns>(columns: &mut C, who: Who, name: Items<u8>) -> ServerFrame
    requires declared { who.service < length (C.asker columns.old).config.services }
    requires may { C.may_ask columns.old who.service who.incarnation }
    ensures answer { Answers (C.asker columns.old).config (record { worker = (C.asker columns.old).worker; service = who.service; incarnation = who.incarnation }) (ServiceFrame.Get name) (C.seen columns.old) result (C.seen columns.new) }
    ensures spelling { HasSpelling result }
    ensures next { IsTrue (C.asker columns.old).alone → IsNextBy (C.asker columns.old).worker (C.seen columns.old) (C.seen columns.new) }
    ensures board { KeepsBoard C.asker C.shows C.token_seed C.spare C.may_ask columns.old columns.new }
{
    match columns.get(who.service, who.incarnation, name) {
        Ok(got) => told_got(got),
        Err(_) => making::no_memory(),
    }
}

fn answer_log<C: Columns>(columns: &mut C, who: Who, text: Items<u8>) -> ServerFrame
    requires declared { who.service < length (C.asker columns.old).config.services }
    requires may { C.may_ask columns.old who.service who.incarnation }
    ensures answer { Answers (C.asker columns.old).config (record { worker = (C.asker columns.old).worker; service = who.service; incarnation = who.incarnation }) (ServiceFrame.Log text) (C.seen columns.old) result (C.seen columns.new) }
    ensures spelling { HasSpelling result }
    ensures next { IsTrue (C.asker columns.old).alone → IsNextBy (C.asker columns.old).worker (C.seen columns.old) (C.seen columns.new) }
    ensures board { KeepsBoard C.asker C.shows C.token_seed C.spare C.may_ask columns.old columns.new }
{
    match columns.log(who.service, who.incarnation, text) {
        Ok(noted) => told_noted(noted),
        Err(_) => making::no_memory(),
    }
}

/// Answers a Call, of which the item keeps the arguments.
fn answer_copied_call<C: Columns>(
    alloc: Global,
    columns: &mut C,
    who: Who,
    proxy: u16,
    session: u32,
    query: u16,
    args: &Items<Value>,
) -> Result<ServerFrame, AllocError>
    requires declared { who.service < length (C.asker columns.old).config.services }
    requires may { C.may_ask columns.old who.service who.incarnation }
    ensures answer { GivesAnswer (C.asker columns.old).config (record { worker = (C.asker columns.old).worker; service = who.service; incarnation = who.incarnation }) (ServiceFrame.Call proxy session query args.now) (C.seen columns.old) result (C.seen columns.new) }
    ensures next { IsTrue (C.asker columns.old).alone → IsNextBy (C.asker columns.old).worker (C.seen columns.old) (C.seen columns.new) }
    ensures board { KeepsBoard C.asker C.shows C.token_seed C.spare C.may_ask columns.old columns.new }
{
    if proxy as usize >= columns.proxies() {
        return Ok(making::denied(Rule::NoSuchProxy.number()));
    }
    let Ok(args) = args.copy(alloc) else {
        return Ok(making::no_memory());
    };
    answer_call(
        alloc,
        columns,
        proxy,
        Call {
            service: who.service,
            incarnation: who.incarnation,
            session,
            query,
            args,
        },
    )
}

/// Answers what was said by one frame; a Reply has none. Memory is refused only behind the entry of a
/// call that has rows.
fn answer<C: Columns>(
    alloc: Global,
    columns: &mut C,
    who: Who,
    said: &ServiceFrame,
) -> Result<Option<ServerFrame>, AllocError>
    requires declared { who.service < length (C.asker columns.old).config.services }
    requires may { C.may_ask columns.old who.service who.incarnation }
    ensures answer { AnswersSaid (C.asker columns.old).config (record { worker = (C.asker columns.old).worker; service = who.service; incarnation = who.incarnation }) said.now (C.seen columns.old) result (C.seen columns.new) }
    ensures next { IsTrue (C.asker columns.old).alone → IsNextBy (C.asker columns.old).worker (C.seen columns.old) (C.seen columns.new) }
    ensures board { KeepsBoard C.asker C.shows C.token_seed C.spare C.may_ask columns.old columns.new }
{
    match said {
        ServiceFrame::Open { proxy, shown } => Ok(Some(answer_open(columns, who, *proxy, *shown))),
        ServiceFrame::Call {
            proxy,
            session,
            query,
            args,
        } => Ok(Some(answer_copied_call(alloc, columns, who, *proxy, *session, *query, args)?)),
        ServiceFrame::Get(name) => match name.copy(alloc) {
            Ok(name) => Ok(Some(answer_get(columns, who, name))),
            Err(_) => Ok(Some(making::no_memory())),
        },
        ServiceFrame::Log(text) => match text.copy(alloc) {
            Ok(text) => Ok(Some(answer_log(columns, who, text))),
            Err(_) => Ok(Some(making::no_memory())),
        },
        ServiceFrame::Reply { .. } => Ok(None),
    }
}

/// Puts a frame for which there is room where the link is steady.
pub(crate) fn put_frame<L: Link>(link: &mut L, frame: &ServerFrame) -> Result<(), LinkFault>
    requires spelling { HasSpelling frame.now }
    requires room { (L.wire link.old).steady ≡ true → length (server_spelling frame.now) ≤ (L.wire link.old).room }
    ensures { PutsFrame (L.wire link.old) (server_spelling frame.now) result (L.wire link.new) }
{
    send(link, frame)
}

/// Puts a frame, and enters it as heard. Makes room for both first. Where the link fails the frame was
/// due.
#[tactic(auto, using(crate::proofs::Wires::spelling_is_short))]
fn hear<L: Link>(
    link: &mut L,
    items: &mut Course,
    due: &mut Due,
    frame: ServerFrame,
) -> Result<(), Cause>
    requires spelling { HasSpelling frame }
    requires whole { due.old ≡ [] }
    ensures hears { Hears (L.wire link.old) items.old.past frame result (L.wire link.new) items.new.past due.new }
    ensures newest { items.old.newest ≡ items.old.past → items.new.newest ≡ items.new.past }
{
    if items.make_room(1).is_err() || link.make_room(LONGEST_FRAME + 4).is_err() {
        return Err(Cause::Starved);
    }
    match put_frame(link, &frame) {
        Ok(()) => {
            items.enter(Item::Heard(frame));
            Ok(())
        }
        Err(_) => {
            *due = Due::frame(&frame);
            Err(Cause::LinkFault)
        }
    }
}

/// Puts the pushes and the Request of a dialog, each of which is heard, or was due as the link failed.
pub(crate) fn hear_opening<L: Link>(
    link: &mut L,
    items: &mut Course,
    due: &mut Due,
    pushes: Vec<Push>,
    head: Items<u8>,
    content: Items<u8>,
) -> Result<(), Cause>
    requires fresh { items.old.past ≡ [] }
    requires none { items.old.newest ≡ [] }
    requires whole { due.old ≡ [] }
    requires short { Each IsShortPush pushes.items }
    requires request { length head + length content + 9 ≤ LONGEST_FRAME }
    ensures opens { Opens (L.wire link.old) (opening pushes.items (ServerFrame.Request head content)) result (L.wire link.new) items.new.past due.new }
    ensures said { said_count items.new.past ≡ 0 }
    ensures newest { items.new.newest ≡ items.new.past }
    ensures spelled { OnOk result (Each IsSpelled items.new.past) }
{
    for push in pushes {
        if let Err(cause) = hear(link, items, due, told_push(push)) {
            return Err(cause);
        }
    }
    hear(link, items, due, making::request(head, content))
}

/// Takes a frame that came over the link, and answers it; the answer was due where the link fails.
fn exchange_frame<L: Link, C: Columns>(
    alloc: Global,
    link: &mut L,
    frames: usize,
    items: &mut Course,
    due: &mut Due,
    columns: &mut C,
    who: Who,
    said: ServiceFrame,
) -> Exchanged
    requires spelling { ServiceHasSpelling said }
    requires declared { who.service < length (C.asker columns.old).config.services }
    requires may { C.may_ask columns.old who.service who.incarnation }
    requires counted { frames ≡ said_count items.old.past }
    requires most { frames ≤ MOST_FRAMES }
    requires fresh { items.old.newest ≡ [] }
    requires places { 2 ≤ items.old.room }
    requires whole { due.old ≡ [] }
    requires room { (L.wire link.old).steady ≡ true → LONGEST_FRAME + 4 ≤ (L.wire link.old).room }
    ensures exchanged { AnswersFrame (C.asker columns.old).config (record { worker = (C.asker columns.old).worker; service = who.service; incarnation = who.incarnation }) (L.wire link.old) items.old.past said (C.seen columns.old) result (L.wire link.new) items.new.past due.new (C.seen columns.new) }
    ensures spelled { result ≡ Exchanged.Goes → IsHeardLast items.new.past }
    ensures newest { result ≡ Exchanged.Goes → items.new.newest ≡ take 2 items.new.past }
    ensures replied { result ≡ Exchanged.Reply → EndsInReply items.new.newest }
    ensures next { IsTrue (C.asker columns.old).alone → IsNextBy (C.asker columns.old).worker (C.seen columns.old) (C.seen columns.new) }
    ensures board { KeepsBoard C.asker C.shows C.token_seed C.spare C.may_ask columns.old columns.new }
{
    if frames >= MOST_FRAMES {
        items.enter(Item::Said(said));
        return Exchanged::Crashed(Cause::FrameLimit);
    }
    let reply = answer(alloc, columns, who, &said);
    items.enter(Item::Said(said));
    let heard = match reply {
        Ok(Some(heard)) => heard,
        Ok(None) => return Exchanged::Reply,
        Err(_) => return Exchanged::Crashed(Cause::Starved),
    };
    match put_frame(link, &heard) {
        Ok(()) => {
            items.enter(Item::Heard(heard));
            Exchanged::Goes
        }
        Err(_) => {
            *due = Due::frame(&heard);
            Exchanged::Crashed(Cause::LinkFault)
        }
    }
}

/// Takes the next frame and answers it. Takes memory for both before that, but what the answer asks
/// of the columns.
pub(crate) fn exchange<L: Link, C: Columns>(
    alloc: Global,
    link: &mut L,
    frames: usize,
    items: &mut Course,
    due: &mut Due,
    columns: &mut C,
    who: Who,
) -> Exchanged
    requires declared { who.service < length (C.asker columns.old).config.services }
    requires may { C.may_ask columns.old who.service who.incarnation }
    requires counted { frames ≡ said_count items.old.past }
    requires most { frames ≤ MOST_FRAMES }
    requires whole { due.old ≡ [] }
    ensures exchanged { Exchanges (C.asker columns.old).config (record { worker = (C.asker columns.old).worker; service = who.service; incarnation = who.incarnation }) (L.wire link.old) items.old.past (C.seen columns.old) result (L.wire link.new) items.new.past due.new (C.seen columns.new) }
    ensures spelled { result ≡ Exchanged.Goes → IsHeardLast items.new.past }
    ensures newest { result ≡ Exchanged.Goes → items.new.newest ≡ take 2 items.new.past }
    ensures replied { result ≡ Exchanged.Reply → EndsInReply items.new.newest }
    ensures next { IsTrue (C.asker columns.old).alone → IsNextBy (C.asker columns.old).worker (C.seen columns.old) (C.seen columns.new) }
    ensures board { KeepsBoard C.asker C.shows C.token_seed C.spare C.may_ask columns.old columns.new }
{
    if items.begin_step(2).is_err() || link.make_room(LONGEST_FRAME + 4).is_err() {
        return Exchanged::Crashed(Cause::Starved);
    }
    match next(alloc, link) {
        NextFrame::Frame(said) => exchange_frame(
            alloc, link, frames, items, due, columns, who, said,
        ),
        NextFrame::Ended => Exchanged::Crashed(Cause::Ended),
        NextFrame::BadFrame => Exchanged::Crashed(Cause::BadFrame),
        NextFrame::LinkFault => Exchanged::Crashed(Cause::LinkFault),
        NextFrame::NoMemory => Exchanged::Crashed(Cause::Starved),
    }
}
