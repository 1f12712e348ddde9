//! What was read and written on a connection.

ghost use Rattle.std.specs.Prelude.{◌≡◌, ◌≤◌, ◌+◌, ◌++◌, [], length, false, IfOk, vec_len, vec_capacity};
ghost use Rattle.http_front.specs.Kept.{method_text, IsFresh};

use httparse::spans::{EMPTY_HEADER_SPAN, HeaderSpan};
use okws_base::limit::MOST_FIELDS;
use std::alloc::{AllocError, Global};

/// Bytes of a response that go out in one put where it is no longer.
const ONE_PUT: usize = 65_536;

/// Bytes that are asked for at a time.
pub const PIECE: usize = 16_384;

/// Room that reading works in.
#[derive(Drop)]
pub(crate) struct Room {
    /// Where a piece comes.
    pub(crate) piece: [u8; PIECE],
    /// Where the fields of a head stand.
    pub(crate) headers: [HeaderSpan; MOST_FIELDS],
}

/// What was read and written on one connection, whatever the answers were, with the room that
/// reading works in and the buffer that a response goes out of; it can serve for one connection
/// after the other.
#[derive(Drop)]
pub struct Kept {
    /// The bytes that were read.
    pub bytes: Vec<u8>,
    /// How many bytes of the interim response were written.
    pub interim: usize,
    /// How many bytes of the response were written.
    pub response: usize,
    /// Whether a whole head was read whose method is HEAD.
    pub(crate) to_head: bool,
    /// What of the response waits for its put.
    pub(crate) waiting: Vec<u8>,
    pub(crate) room: Box<Room>,
}

impl Kept {
    /// Nothing yet. Fails only where memory is refused.
    pub fn new(alloc: Global) -> Result<Kept, AllocError>
        ensures { IfOk result IsFresh }
    {
        let room = Room {
            piece: [0; PIECE],
            headers: [EMPTY_HEADER_SPAN; MOST_FIELDS],
        };
        Ok(Kept {
            bytes: Vec::new(alloc),
            interim: 0,
            response: 0,
            to_head: false,
            waiting: Vec::with_capacity(alloc, ONE_PUT)?,
            room: Box::new(alloc, room)?,
        })
    }

    /// The method by which a response goes: HEAD where a whole head was read whose method it is,
    /// else GET.
    pub fn method(&self) -> &'static [u8]
        ensures { result.now ≡ method_text self.now.to_head }
    {
        if self.to_head { b"HEAD" } else { b"GET" }
    }

    /// Forgets what was kept, and keeps the memory.
    pub(crate) fn begin(&mut self)
        ensures { IsFresh self.new }
    {
        self.bytes.clear();
        self.interim = 0;
        self.response = 0;
        self.to_head = false;
        self.waiting.clear();
    }
}
