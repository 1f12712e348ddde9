//! Whole dialogs over links in memory, all bytes of which came before: one for each answer.

ghost use Rattle.std.specs.Prelude.{◌≡◌, ◌≤◌, ◌<◌, None, length};
ghost use Rattle.okws_base.specs.declared.limit.TheConstants.{MOST_INCARNATIONS};
ghost use Rattle.monitor_model.specs.Cell.{incarnation};
ghost use Rattle.service_cell.specs.Standing.{IsFresh};

use crate::bare::Bare;
use crate::dialogs::{LOG, REPLY, booted, letter_of_cause};
use crate::holding::{MEMORY, holds};
use crate::scant::Scant;
use okws_base::items::Items;
use okws_outer::memory::link::{FedLink, MemoryLink};
use okws_outer::stream::Link;
use service_cell::answer::Spoken;
use service_cell::cell::Cell;
use service_cell::columns::Columns;
use std::alloc::Global;
use std::process::Abort;

/// One letter for each answer.
fn letter_of(answer: Spoken) -> char {
    match answer {
        Spoken::Reply => 'r',
        Spoken::Missed { .. } => 'm',
        Spoken::Superseded { .. } => 's',
        Spoken::Crashed(cause) => letter_of_cause(cause),
        Spoken::NoMemory => '0',
    }
}

/// A whole dialog of an empty request, which wants this incarnation.
fn talk<L: Link, C: Columns>(
    alloc: Global,
    cell: &mut Cell<L>,
    wanted: u32,
    columns: &mut C,
) -> Spoken
    requires wanted { 0 < wanted }
    requires closed { cell.old.open_dialog ≡ None }
    requires declared { cell.old.service < length (C.asker columns.old).config.services }
    requires may { wanted ≡ incarnation cell.old.past → C.may_ask columns.old cell.old.service wanted }
    ensures { (cell.new.open_dialog ≡ None) × (cell.new.service ≡ cell.old.service) }
{
    cell.keeps();
    let head = Items::of(Vec::new(alloc));
    let content = Items::of(Vec::new(alloc));
    cell.dialog(head, content, wanted, columns)
}

/// What a dialog that wants incarnation 1 answers over this link, of an incarnation of this number;
/// nothing where that isn't booted.
fn talked<R: Abort, L: Link + Drop>(
    rt: &R,
    alloc: Global,
    link: L,
    number: u32,
    columns: &mut Bare,
) -> Option<Spoken>
    requires fresh { IsFresh (L.wire link) }
    requires first { 0 < number }
    requires most { number ≤ MOST_INCARNATIONS }
{
    let mut cell = booted(rt, alloc, link, number)?;
    let answer = talk(alloc, &mut cell, 1, columns);
    let _pasts = cell.close();
    Some(answer)
}

/// A link to which these bytes were fed, and then the end.
fn fed<'a>(rt: &impl Abort, alloc: Global, coming: &[u8], failing: &'a [u64]) -> MemoryLink<'a>
    ensures { IsFresh (⟦<MemoryLink<'a> as Link>⟧.wire result) }
{
    let mut link = MemoryLink::new(alloc, 3, failing);
    link.feed(coming).expect(rt, MEMORY);
    link.feed_end();
    link
}

/// The letter of a dialog with incarnation 1, to which these bytes come.
fn letter(
    rt: &impl Abort,
    alloc: Global,
    coming: &[u8],
    shown: u32,
    meanwhile: u32,
    failing: &[u64],
) -> char {
    let mut columns = Bare::new(alloc);
    columns.shown = shown;
    columns.meanwhile = meanwhile;
    let link = fed(rt, alloc, coming, failing);
    match talked(rt, alloc, link, 1, &mut columns) {
        Some(answer) => letter_of(answer),
        None => '-',
    }
}

/// So many Logs, and a Reply.
fn logs(rt: &impl Abort, alloc: Global, count: usize) -> Vec<u8> {
    let mut all = Vec::new(alloc);
    for _ in 0..count {
        all.extend_from_slice(LOG).expect(rt, MEMORY);
    }
    all.extend_from_slice(REPLY).expect(rt, MEMORY);
    all
}

#[test]
fn each_end_comes_once(rt: HostRuntime) {
    let alloc = rt.alloc();
    let served = logs(&rt, alloc, 2);
    for (coming, shown, meanwhile, want) in [
        (served.as_slice(), 1, 0, 'r'),
        // A greater incarnation was begun before the dialog, or after its Request, before a frame.
        (REPLY, 2, 0, 's'),
        (REPLY, 1, 1, 's'),
        // The end after a frame, no frame, and the end inside of one.
        (LOG, 1, 0, 'e'),
        (b"\x00\x00\x00\x01\xff", 1, 0, 'b'),
        (b"\x00\x00\x00\x07\x44", 1, 0, 'b'),
    ] {
        let found = letter(&rt, alloc, coming, shown, meanwhile, &[]);
        holds(&rt, found == want, "another end");
    }
}

#[test]
fn a_link_fails_in_a_dialog(rt: HostRuntime) {
    let alloc = rt.alloc();
    let served = logs(&rt, alloc, 1);
    // The calls that put the Boot and the Request, the five that take a Log, the one that answers it, and
    // the first and the last of the nine that take a Reply of 25 bytes; one more is never made.
    for (call, want) in [
        (0, '-'),
        (1, 'f'),
        (2, 'f'),
        (6, 'f'),
        (7, 'f'),
        (8, 'f'),
        (16, 'f'),
        (17, 'r'),
    ] {
        let found = letter(&rt, alloc, &served, 1, 0, &[call]);
        holds(&rt, found == want, "another end");
    }
}

#[test]
fn the_4097th_frame_is_too_many(rt: HostRuntime) {
    let alloc = rt.alloc();
    // The Reply is the 4,096th frame, or the 4,097th.
    for (count, want) in [(4_095, 'r'), (4_096, 'l')] {
        let found = letter(&rt, alloc, &logs(&rt, alloc, count), 1, 0, &[]);
        holds(&rt, found == want, "another end");
    }
}

#[test]
fn memory_is_refused_in_a_dialog(rt: HostRuntime) {
    let alloc = rt.alloc();
    // Room is made for the Boot, for the Request, and before each frame is taken.
    for (rooms, want) in [(0, '-'), (1, 'n'), (2, 'n'), (3, 'e')] {
        let mut columns = Bare::new(alloc);
        let link = Scant::new(fed(&rt, alloc, b"", &[]), rooms);
        let letter = talked(&rt, alloc, link, 1, &mut columns).map_or('-', letter_of);
        holds(&rt, letter == want, "another end");
    }
}

#[test]
fn another_incarnation_is_there(rt: HostRuntime) {
    let alloc = rt.alloc();
    let mut columns = Bare::new(alloc);
    let answer = talked(&rt, alloc, fed(&rt, alloc, REPLY, &[]), 2, &mut columns);
    let missed = Spoken::Missed { wanted: 1, is: 2 };
    holds(&rt, answer == Some(missed), "missed");
}

/// The letters of two dialogs with incarnation 1, of which these columns drain one alone.
fn twice(rt: &impl Abort, alloc: Global) -> Option<(char, char)> {
    let mut columns = Bare::new(alloc);
    let mut cell = booted(rt, alloc, fed(rt, alloc, REPLY, &[]), 1)?;
    let first = talk(alloc, &mut cell, 1, &mut columns);
    let second = talk(alloc, &mut cell, 1, &mut columns);
    let _pasts = cell.close();
    Some((letter_of(first), letter_of(second)))
}

#[test]
fn a_drain_is_refused_memory(rt: HostRuntime) {
    holds(&rt, twice(&rt, rt.alloc()) == Some(('r', '0')), "twice");
}
