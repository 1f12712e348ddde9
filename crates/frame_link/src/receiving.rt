//! The next frame that comes over a link.

ghost use Rattle.std.specs.Prelude.{◌≡◌, ◌≤◌, ℕ, List, Option, length, take, IsTrue};
ghost use Rattle.std.specs.Io.KnownBytes.{Consumes};
ghost use Rattle.okws_outer.specs.Wire.{Receives};
ghost use Rattle.frame_codec.specs.Spelling.{four, is_lawful_length};
ghost use Rattle.frame_link.specs.Next.{IsNextBy, IsBadFrontBy, IsNext, IsBadFront, IsServerNext, IsServerBadFront};
ghost use Rattle.frame_link.specs.Filling.{Comes, Fills, IsRoom, IsWhole, Reads};

use frame_codec::frame::{ServerFrame, ServiceFrame};
use frame_codec::reading::{FrameRead, Read, read_frame, told_length};
use okws_outer::stream::{Link, Pull};
use std::alloc::Global;

/// What comes next over a link.
#[derive(Drop)]
pub enum NextFrame<F = ServiceFrame> {
    /// A frame, of which all bytes were taken and none beyond it.
    Frame(F),
    /// The bytes ended between frames.
    Ended,
    /// The bytes are no frame, or ended inside one.
    BadFrame,
    /// A call of the link failed and was counted.
    LinkFault,
    /// Memory was refused.
    NoMemory,
}

/// What filling a room answers.
#[derive(Clone, Copy)]
enum Came {
    /// The room is full.
    All,
    /// The bytes ended when so many were in it.
    Ended(usize),
    /// A call of the link failed and was counted.
    Failed,
}

/// What filling a vector answers.
#[derive(Clone, Copy)]
enum Filled {
    /// So many bytes are there as were wanted.
    Whole,
    /// The bytes ended before.
    Ended,
    /// A call of the link failed and was counted.
    Failed,
    /// Memory was refused.
    NoMemory,
}

/// Bytes at the front of a frame that tell its length.
const HEAD: usize = 4;

/// Bytes that a frame may have behind its head to be taken without memory of its own.
const SHORT: usize = 252;

/// Bytes of such a frame with its head.
const ROOM: usize = HEAD + SHORT;

/// Bytes of a longer frame that are asked for at a time.
const PIECE: usize = 65_536;

/// Takes bytes from the link behind the first ones of a room, until it is full.
fn fill_up<L: Link>(link: &mut L, room: &mut [u8], first: usize) -> Came
    requires { first ≤ length room.old }
    ensures bytes { Comes (L.wire link.old).left (L.wire link.new).left (take first room.old) room.new result }
    ensures link { Receives (L.wire link.old) (L.wire link.new) (result ≡ Came.Failed) }
{
    let mut done = first;
    while done < room.len() {
        match link.pull(&mut room[done..]) {
            Pull::Took(count) => done += count,
            Pull::End => return Came::Ended(done),
            Pull::Failed => return Came::Failed,
        }
    }
    Came::All
}

/// Takes bytes from the link until there are so many in all. Only then are all that stand there of the link.
fn fill<L: Link>(link: &mut L, bytes: &mut Vec<u8>, total: usize) -> Filled
    requires { length bytes.old.items ≤ total }
    ensures bytes { Fills (L.wire link.old).left (L.wire link.new).left bytes.old.items bytes.new.items total result }
    ensures link { Receives (L.wire link.old) (L.wire link.new) (result ≡ Filled.Failed) }
{
    if bytes.reserve(total - bytes.len()).is_err() {
        return Filled::NoMemory;
    }
    while bytes.len() < total {
        let done = bytes.len();
        let room = done + (total - done).min(PIECE);
        if bytes.resize(room, 0).is_err() {
            return Filled::NoMemory;
        }
        match fill_up(link, bytes.as_mut_slice(), done) {
            Came::All => {}
            Came::Ended(_) => return Filled::Ended,
            Came::Failed => return Filled::Failed,
        }
    }
    Filled::Whole
}

/// The frame that these bytes are, whose length the first four tell.
fn whole_frame<F: FrameRead>(alloc: Global, bytes: &[u8]) -> NextFrame<F>
    requires { IsWhole bytes.now }
    ensures { Reads F.parts F.fits bytes.now result }
{
    match read_frame(alloc, bytes) {
        Read::Frame(frame, _) => NextFrame::Frame(frame),
        Read::Short => unreachable!(),
        Read::BadFrame => NextFrame::BadFrame,
        Read::NoMemory => NextFrame::NoMemory,
    }
}

/// The frame whose head stands at the front of a room that has place for just all of it.
fn short_frame<F: FrameRead, L: Link>(alloc: Global, link: &mut L, room: &mut [u8]) -> NextFrame<F>
    requires { IsRoom room.old }
    ensures next { (old : Option (List ℕ)) → Consumes old (L.wire link.old).left (take 4 room.old) → IsNextBy F.parts F.fits old (L.wire link.new).left result }
    ensures bad { (old : Option (List ℕ)) → Consumes old (L.wire link.old).left (take 4 room.old) → result ≡ NextFrame.BadFrame → IsBadFrontBy F.parts F.fits old (L.wire link.new).left }
    ensures link { Receives (L.wire link.old) (L.wire link.new) (result ≡ NextFrame.LinkFault) }
{
    match fill_up(link, room, HEAD) {
        Came::All => whole_frame(alloc, room),
        Came::Ended(_) => NextFrame::BadFrame,
        Came::Failed => NextFrame::LinkFault,
    }
}

/// The frame with this head, which tells this length.
fn long_frame<F: FrameRead, L: Link>(
    alloc: Global,
    link: &mut L,
    head: &[u8],
    size: usize,
) -> NextFrame<F>
    requires { IsTrue (is_lawful_length size) × (head.now ≡ four size) }
    ensures next { (old : Option (List ℕ)) → Consumes old (L.wire link.old).left head.now → IsNextBy F.parts F.fits old (L.wire link.new).left result }
    ensures bad { (old : Option (List ℕ)) → Consumes old (L.wire link.old).left head.now → result ≡ NextFrame.BadFrame → IsBadFrontBy F.parts F.fits old (L.wire link.new).left }
    ensures link { Receives (L.wire link.old) (L.wire link.new) (result ≡ NextFrame.LinkFault) }
{
    let Ok(mut bytes) = Vec::from_slice(alloc, head) else {
        return NextFrame::NoMemory;
    };
    match fill(link, &mut bytes, HEAD + size) {
        Filled::Whole => whole_frame(alloc, &bytes),
        Filled::Ended => NextFrame::BadFrame,
        Filled::Failed => NextFrame::LinkFault,
        Filled::NoMemory => NextFrame::NoMemory,
    }
}

/// Takes the next frame from the link, or as many bytes as tell that there is none.
pub fn next_frame<F: FrameRead, L: Link>(alloc: Global, link: &mut L) -> NextFrame<F>
    ensures next { IsNextBy F.parts F.fits (L.wire link.old).left (L.wire link.new).left result }
    ensures bad { result ≡ NextFrame.BadFrame → IsBadFrontBy F.parts F.fits (L.wire link.old).left (L.wire link.new).left }
    ensures link { Receives (L.wire link.old) (L.wire link.new) (result ≡ NextFrame.LinkFault) }
{
    let mut bytes = [0u8; ROOM];
    match fill_up(link, &mut bytes[..HEAD], 0) {
        Came::All => {}
        Came::Ended(count) if count == 0 => return NextFrame::Ended,
        Came::Ended(_) => return NextFrame::BadFrame,
        Came::Failed => return NextFrame::LinkFault,
    }
    let Some(size) = told_length(&bytes[..HEAD]) else {
        return NextFrame::BadFrame;
    };
    if size > SHORT {
        return long_frame(alloc, link, &bytes[..HEAD], size);
    }
    short_frame(alloc, link, &mut bytes[..HEAD + size])
}

/// Takes the next frame that a service says from the link, as `next_frame`.
pub fn next<L: Link>(alloc: Global, link: &mut L) -> NextFrame<ServiceFrame>
    ensures next { IsNext (L.wire link.old).left (L.wire link.new).left result }
    ensures bad { result ≡ NextFrame.BadFrame → IsBadFront (L.wire link.old).left (L.wire link.new).left }
    ensures link { Receives (L.wire link.old) (L.wire link.new) (result ≡ NextFrame.LinkFault) }
{
    next_frame(alloc, link)
}

/// Takes the next frame that a service hears from the link, as `next_frame`.
pub fn next_server_frame<L: Link>(alloc: Global, link: &mut L) -> NextFrame<ServerFrame>
    ensures next { IsServerNext (L.wire link.old).left (L.wire link.new).left result }
    ensures bad { result ≡ NextFrame.BadFrame → IsServerBadFront (L.wire link.old).left (L.wire link.new).left }
    ensures link { Receives (L.wire link.old) (L.wire link.new) (result ≡ NextFrame.LinkFault) }
{
    next_frame(alloc, link)
}
