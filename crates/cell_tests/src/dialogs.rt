//! Dialogs over a link in memory, one for each way in which they end.

ghost use Rattle.std.specs.Prelude.{◌≡◌, ◌≢◌, ◌≤◌, ◌<◌, None, IfSome, length};
ghost use Rattle.std.specs.Arc.{arc_value};
ghost use Rattle.okws_base.specs.declared.limit.TheConstants.{MOST_INCARNATIONS};
ghost use Rattle.service_cell.specs.Standing.{IsFresh};
ghost use Rattle.monitor_model.specs.Cell.{incarnation};
ghost use Rattle.service_cell.specs.Steps.{IsSpeaking};

use crate::bare::Bare;
use crate::holding::{MEMORY, holds};
use crate::scant::Scant;
use frame_codec::frame::ServiceFrame;
use okws_base::crash::Cause;
use okws_base::items::Items;
use okws_outer::memory::link::{FedLink, MemoryLink};
use okws_outer::stream::Link;
use okws_plan::configuration::Config;
use service_cell::answer::{Advanced, Begun, Booting};
use service_cell::cell::Cell;
use service_cell::ending::Finished;
use std::alloc::Global;
use std::process::Abort;
use std::sync::Arc;

/// What the tests call their requests.
const REQUEST: u32 = 7;

pub(crate) const LOG: &[u8] = b"\x00\x00\x00\x07\x44\x00\x00\x00\x02hi";

pub(crate) const REPLY: &[u8] = b"\x00\x00\x00\x15\x45\x00\xc8\x0atext/plain\x00\x00\x00\x00\x02ok";

/// One letter for each cause of a crash.
pub(crate) fn letter_of_cause(cause: Cause) -> char {
    match cause {
        Cause::BadFrame => 'b',
        Cause::Ended => 'e',
        Cause::LinkFault => 'f',
        Cause::FrameLimit => 'l',
        Cause::Starved => 'n',
    }
}

/// One letter for each answer.
fn letter_of(answer: Advanced) -> char {
    match answer {
        Advanced::Goes => 'g',
        Advanced::Reply => 'r',
        Advanced::Superseded { .. } => 's',
        Advanced::Crashed(cause) => letter_of_cause(cause),
    }
}

/// The cell, once its dialog is open.
fn begun<L: Link + Drop>(alloc: Global, mut cell: Cell<L>, columns: &mut Bare) -> Option<Cell<L>>
    requires service { cell.service ≡ 0 }
    requires closed { cell.open_dialog ≡ None }
    ensures { IfSome result (λ c. IsSpeaking 0 c.open_dialog × (c.service ≡ 0) × (incarnation c.past ≢ 0)) }
{
    let head = Items::of(Vec::new(alloc));
    let content = Items::of(Vec::new(alloc));
    match cell.begin(REQUEST, head, content, 1, columns) {
        Begun::Started => Some(cell),
        _ => {
            let _pasts = cell.close();
            None
        }
    }
}

/// A site that declares nothing.
pub(crate) fn site(rt: &impl Abort, alloc: Global) -> Arc<Config, Global>
    ensures { length (arc_value result).proxies ≤ 16 }
{
    let config = Config {
        proxies: Items::of(Vec::new(alloc)),
        services: Items::of(Vec::new(alloc)),
        templates: Items::of(Vec::new(alloc)),
        retry: 0,
        paths: Items::of(Vec::new(alloc)),
        grants: Items::of(Vec::new(alloc)),
        readables: Items::of(Vec::new(alloc)),
        loggers: Items::of(Vec::new(alloc)),
    };
    Arc::new(alloc, config).expect(rt, MEMORY)
}

/// A cell with this incarnation, over this link.
pub(crate) fn booted<R: Abort, L: Link + Drop>(
    rt: &R,
    alloc: Global,
    link: L,
    number: u32,
) -> Option<Cell<L>>
    requires fresh { IsFresh (L.wire link) }
    requires first { 0 < number }
    requires most { number ≤ MOST_INCARNATIONS }
    ensures { IfSome result (λ c. (c.open_dialog ≡ None) × (c.service ≡ 0)) }
{
    let mut cell = Cell::new(alloc, site(rt, alloc), [0; 32], 0, false);
    let Ok(tokens) = cell.tokens(number) else {
        panic!(rt; "memory was refused");
    };
    match cell.boot(link, number, Items::of(tokens)) {
        Booting::Booted => Some(cell),
        Booting::LinkFault(_) | Booting::NoMemory(_) => {
            let _pasts = cell.close();
            None
        }
    }
}

/// A cell whose dialog is open, with this link.
fn started<R: Abort, L: Link + Drop>(
    rt: &R,
    alloc: Global,
    link: L,
    columns: &mut Bare,
) -> Option<Cell<L>>
    requires { IsFresh (L.wire link) }
    ensures { IfSome result (λ c. IsSpeaking 0 c.open_dialog × (c.service ≡ 0) × (incarnation c.past ≢ 0)) }
{
    match booted(rt, alloc, link, 1) {
        Some(cell) => begun(alloc, cell, columns),
        None => None,
    }
}

/// The letter of the last of at most two answers.
fn last_answer<L: Link>(cell: &mut Cell<L>, columns: &mut Bare) -> char
    requires { IsSpeaking 0 cell.old.open_dialog × (cell.old.service ≡ 0) × (incarnation cell.old.past ≢ 0) }
{
    match cell.advance(columns) {
        Advanced::Goes => letter_of(cell.advance(columns)),
        other => letter_of(other),
    }
}

/// The last letter where these bytes come, and what was put on the link; nothing where no dialog opens.
fn spoken(
    rt: &impl Abort,
    alloc: Global,
    coming: &[u8],
    has_ended: bool,
    shown: u32,
    failing: &[u64],
) -> (char, Vec<u8>) {
    let mut columns = Bare::new(alloc);
    let link = MemoryLink::new(alloc, 3, failing);
    let Some(mut cell) = started(rt, alloc, link, &mut columns) else {
        return ('-', Vec::new(alloc));
    };
    columns.shown = shown;
    cell.feed(coming).expect(rt, MEMORY);
    if has_ended {
        cell.feed_end();
    }
    let letter = last_answer(&mut cell, &mut columns);
    let link = match cell.open_request() {
        Some(_) => None,
        None => cell.retire(),
    };
    let _pasts = cell.close();
    match link {
        Some(link) => {
            let given = Vec::from_slice(alloc, link.given());
            (letter, given.expect(rt, MEMORY))
        }
        None => (letter, Vec::new(alloc)),
    }
}

#[test]
fn each_end_comes_once(rt: HostRuntime) {
    for (coming, has_ended, shown, want) in [
        // A Log, and nothing behind it, or its end.
        (LOG, false, 1, 'e'),
        (LOG, true, 1, 'e'),
        // A Reply, and one that comes after a greater incarnation was begun.
        (REPLY, false, 1, 'r'),
        (REPLY, false, 2, 's'),
        // No frame, and the end inside of one.
        (b"\x00\x00\x00\x01\xff", false, 1, 'b'),
        (b"\x00\x00\x00\x07\x44", true, 1, 'b'),
    ] {
        let (letter, _given) = spoken(&rt, rt.alloc(), coming, has_ended, shown, &[]);
        holds(&rt, letter == want, "another end");
    }
}

#[test]
fn a_link_fails(rt: HostRuntime) {
    // The call that takes a Log, and the one that puts its answer: what was put before stays.
    for (call, length) in [(2, 25), (7, 25)] {
        let (letter, given) = spoken(&rt, rt.alloc(), LOG, true, 1, &[call]);
        holds(&rt, letter == 'f', "another end");
        holds(&rt, given.len() == length, "given");
    }
}

/// The last letter for a Log and its end over a link that makes room so many times; nothing where no
/// dialog opens.
fn spoken_in(rt: &impl Abort, alloc: Global, rooms: u32) -> char {
    let mut columns = Bare::new(alloc);
    let mut link = MemoryLink::new(alloc, 3, &[]);
    link.feed(LOG).expect(rt, MEMORY);
    link.feed_end();
    let Some(mut cell) = started(rt, alloc, Scant::new(link, rooms), &mut columns) else {
        return '-';
    };
    let letter = last_answer(&mut cell, &mut columns);
    let _pasts = cell.close();
    letter
}

#[test]
fn memory_is_refused(rt: HostRuntime) {
    // Room is made for the Boot, for the Request, and before each frame is taken.
    for (rooms, want) in [(0, '-'), (1, '-'), (2, 'n'), (3, 'n'), (4, 'e')] {
        holds(
            &rt,
            spoken_in(&rt, rt.alloc(), rooms) == want,
            "another end",
        );
    }
}

#[test]
fn frames_are_put(rt: HostRuntime) {
    // A Boot without tokens, an empty Request, and NoMemory, which the columns say of any Log.
    let (_letter, given) = spoken(&rt, rt.alloc(), LOG, true, 1, &[]);
    let want =
        b"\x00\x00\x00\x08\x01\x00\x00\x00\x00\x00\x01\x00\x00\x00\x00\x09\x02\x00\x00\x00\x00\x00\x00\x00\x00\x00\x00\x00\x01\x0b";
    holds(&rt, given.as_slice() == want.as_slice(), "given");
}

/// What is at hand of a cell: the number of the request whose dialog is open, how many items its last
/// step has, and the status of the Reply in which the last dialog ended.
type Hand = (Option<u32>, usize, Option<u16>);

/// The status of the Reply in which a dialog ended.
fn status_of(dialog: &Finished) -> Option<u16> {
    match dialog.reply() {
        Some(ServiceFrame::Reply { status, .. }) => Some(*status),
        _ => None,
    }
}

/// What is at hand of a cell.
fn hand_of<L: Link>(cell: &Cell<L>) -> Hand {
    let count = match cell.open_request() {
        Some(_) => cell.last_items().len(),
        None => 0,
    };
    let status = match cell.last_dialog() {
        Some(dialog) => status_of(dialog),
        None => None,
    };
    (cell.open_request(), count, status)
}

/// What is at hand once a dialog is open, or once it took a step where bytes come; nothing where none
/// opens.
fn hand_after(rt: &impl Abort, alloc: Global, coming: &[u8]) -> Hand {
    let mut columns = Bare::new(alloc);
    let link = MemoryLink::new(alloc, 3, &[]);
    let Some(mut cell) = started(rt, alloc, link, &mut columns) else {
        return (None, 0, None);
    };
    cell.feed(coming).expect(rt, MEMORY);
    if !coming.is_empty() {
        let _answer = cell.advance(&mut columns);
    }
    let hand = hand_of(&cell);
    let _pasts = cell.close();
    hand
}

#[test]
fn the_last_step_is_at_hand(rt: HostRuntime) {
    for (coming, open, count, status) in [
        // A Log and its answer, or the Request alone.
        (LOG, Some(REQUEST), 2, None),
        (b"", Some(REQUEST), 1, None),
        // A Reply, and no frame.
        (REPLY, None, 0, Some(200)),
        (b"\x00\x00\x00\x01\xff", None, 0, None),
    ] {
        let (found_open, found_count, found_status) = hand_after(&rt, rt.alloc(), coming);
        holds(&rt, found_open == open, "the open dialog");
        holds(&rt, found_count == count, "items");
        holds(&rt, found_status == status, "the status");
    }
}
