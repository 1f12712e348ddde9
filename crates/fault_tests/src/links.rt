//! Links whose calls fail, and links with little room.

use crate::holding::{holds, same};
use frame_codec::frame::{ServerFrame, ServiceFrame};
use frame_link::receiving::{NextFrame, next};
use frame_link::sending::send;
use okws_base::items::Items;
use okws_outer::memory::link::{FedLink, MemoryLink};
use okws_outer::stream::Link;
use std::alloc::Global;
use std::process::Abort;

/// One letter for each answer.
fn letter_of(next: &NextFrame) -> char {
    match next {
        NextFrame::Frame(ServiceFrame::Get(_)) => 'g',
        NextFrame::Frame(_) => 'f',
        NextFrame::Ended => 'E',
        NextFrame::BadFrame => 'B',
        NextFrame::LinkFault => 'F',
        NextFrame::NoMemory => 'N',
    }
}

/// What a link answers to which a Get and a Log come, and whose calls of these numbers fail, as far as letters are wanted.
fn answers_with(rt: &impl Abort, alloc: Global, failing: &[u64], want: &str) {
    let mut link = MemoryLink::new(alloc, 4096, failing);
    let frames = b"\0\0\0\x06\x43\x04page\0\0\0\x07\x44\0\0\0\x02hi\0\0";
    link.feed(frames).expect(rt, "memory was refused");
    link.feed_end();
    for letter in want.chars() {
        holds(rt, letter_of(&next(alloc, &mut link)) == letter, want);
    }
}

#[test]
fn links_fail_at_a_call(rt: HostRuntime) {
    for (failing, want) in [([0], "Fg"), ([1], "F"), ([2], "gF")] {
        answers_with(&rt, rt.alloc(), &failing, want);
    }
}

fn template(rt: &impl Abort, alloc: Global) -> ServerFrame {
    let content = Vec::from_slice(alloc, b"bb");
    ServerFrame::Template {
        edition: 2,
        content: Items::of(content.expect(rt, "memory was refused")),
    }
}

/// A link with this room takes the frame whole or doesn't, and what it was given begins with these bytes.
fn goes_into(rt: &impl Abort, alloc: Global, room: usize, done: bool, bytes: &[u8]) {
    let frame = template(rt, alloc);
    let mut link = MemoryLink::new(alloc, 1, &[]);
    link.make_room(room).expect(rt, "memory was refused");
    assert!(rt; frame.has_spelling());
    holds(rt, send(&mut link, &frame).is_ok() == done, "a room");
    same(rt, link.given().get(..bytes.len()).unwrap_or(b""), bytes);
}

#[test]
fn a_frame_is_put_as_far_as_there_is_room(rt: HostRuntime) {
    let whole = b"\0\0\0\x0b\x07\0\0\0\x02\0\0\0\x02bb".as_slice();
    for (room, done, given) in [
        (15, true, 15),
        (14, false, 13),
        (4, false, 4),
        (0, false, 0),
    ] {
        goes_into(&rt, rt.alloc(), room, done, &whole[..given]);
    }
}
