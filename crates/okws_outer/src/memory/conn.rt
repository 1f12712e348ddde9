//! A connection in memory.

ghost use Rattle.std.specs.Prelude.{◌≡◌, Some, [], IfOk};
ghost use Rattle.okws_outer.specs.Conns.{ConnWire};

use crate::conn::Conn;
use crate::memory::failing::Failing;
use crate::memory::room::Room;
use crate::stream::{Pull, Put};
use std::alloc::{AllocError, Global};

/// Both directions of a connection in memory: its bytes come in pieces of listed sizes, and as many
/// bytes may be given as there is room for from its making on. A put past the room gives what fits,
/// and is a fault.
pub struct MemoryConn<'a> {
    left: &'a [u8],
    last: &'a [u8],
    sizes: &'a [usize],
    room: Room,
    failing: Failing<'a>,
}

impl<'a> Drop for MemoryConn<'a> {
    fn drop(self) {
        let MemoryConn {
            left: _,
            last: _,
            sizes: _,
            room,
            failing: _,
        } = self;
        drop(room);
    }
}

impl<'a> MemoryConn<'a> {
    /// A connection of these bytes with room for so many that are given, which is taken here. Each
    /// pull takes one piece at most: the sizes are those of the pieces in their order, the last one
    /// goes for all further pieces, and where there is none a piece is all that is left; a size of 0
    /// is one of 1. The calls, pulls and puts together, of the numbers in `failing` fail.
    pub fn new(
        alloc: Global,
        bytes: &'a [u8],
        sizes: &'a [usize],
        room: usize,
        failing: &'a [u64],
    ) -> Result<Self, AllocError>
        ensures { IfOk result (λ c. ⟦<MemoryConn<'a> as Conn>⟧.wire c ≡ record { left = Some bytes.now; last = Some []; given = Some []; faults = 0 }) }
    {
        Ok(MemoryConn {
            left: bytes,
            last: b"",
            sizes,
            room: Room::new(alloc, room)?,
            failing: Failing::at(failing),
        })
    }

    /// The bytes that are left to come in.
    pub fn left(&self) -> &'a [u8]
        ensures { Some result.now ≡ (⟦<MemoryConn<'a> as Conn>⟧.wire self.now).left }
    {
        self.left
    }

    /// The bytes that were given to go out.
    pub fn given(&self) -> &[u8]
        ensures { Some result.now ≡ (⟦<MemoryConn<'a> as Conn>⟧.wire self.now).given }
    {
        &self.room.bytes
    }

    /// How many calls have failed.
    pub fn faults(&self) -> u64
        ensures { result ≡ (⟦<MemoryConn<'a> as Conn>⟧.wire self.now).faults }
    {
        self.failing.faults
    }
}

/// The size of the next piece; the one of a list's end stays.
fn next_size(sizes: &mut &[usize]) -> usize {
    match *sizes {
        [] => usize::MAX,
        [last] => *last,
        [first, rest @ ..] => {
            *sizes = rest;
            *first
        }
    }
}

impl<'a> Conn for MemoryConn<'a> {
    ghost wire = { λ c. record { left = Some c.left.now; last = Some c.last.now; given = Some c.room.bytes.items; faults = c.failing.faults } };

    fn pull(&mut self, into: &mut [u8]) -> Pull {
        if self.failing.fails() {
            return Pull::Failed;
        }
        if self.left.is_empty() {
            return Pull::End;
        }
        let size = next_size(&mut self.sizes);
        let count = size.max(1).min(self.left.len()).min(into.len());
        let (front, behind) = self.left.split_at(count);
        into[..count].copy_from_slice(front);
        self.last = front;
        self.left = behind;
        Pull::Took(count)
    }

    fn put(&mut self, bytes: &[u8]) -> Put {
        if self.failing.fails() {
            return Put::Stopped(0);
        }
        let count = self.room.take(bytes);
        if count < bytes.len() {
            self.failing.count();
            return Put::Stopped(count);
        }
        Put::Done
    }
}
