//! Links in memory.

ghost use Rattle.std.specs.Prelude.{◌≡◌, ◌≤◌, ◌-◌, ◌==◌, Some, None, OnOk, OnErr, length, vec_len, vec_capacity};
ghost use Rattle.okws_outer.specs.Wire.{unused, fed, shut};

use crate::memory::coming::Coming;
use crate::memory::failing::Failing;
use crate::memory::room::Room;
use crate::stream::{Link, Pull, Put};
use std::alloc::{AllocError, Global};

/// A link in memory: what is to come in is fed to it.
pub trait FedLink: Link {
    /// Adds bytes that are to come in, behind those that are left; where memory is refused the link
    /// is as it was.
    fn feed(&mut self, bytes: &[u8]) -> Result<(), AllocError>
        ensures fed { OnOk result (Self.wire self.new ≡ fed bytes.now (Self.wire self.old)) }
        ensures refused { OnErr result (Self.wire self.new ≡ Self.wire self.old) };

    /// Says that no bytes are to come in behind those that are left.
    fn feed_end(&mut self)
        ensures { Self.wire self.new ≡ shut (Self.wire self.old) };

    /// Whether the end was fed.
    fn is_ended(&self) -> bool
        ensures { result ≡ (Self.wire self.now).ended };

    /// The bytes that are left to come in.
    fn left(&self) -> &[u8]
        ensures { Some result.now ≡ (Self.wire self.now).left };
}

/// Both directions of a link in memory: bytes are fed to it, and come out of it in pieces of at most
/// `piece` bytes, and of 1 where `piece` is 0; bytes that are put to it are kept, as many as room was
/// made for. A put past the room gives what fits, and is a fault.
pub struct MemoryLink<'a> {
    coming: Coming,
    ended: bool,
    piece: usize,
    room: Room,
    failing: Failing<'a>,
}

impl<'a> Drop for MemoryLink<'a> {
    fn drop(self) {
        let MemoryLink {
            coming,
            ended: _,
            piece: _,
            room,
            failing: _,
        } = self;
        drop(coming);
        drop(room);
    }
}

impl<'a> MemoryLink<'a> {
    /// A link with nothing in it and no room, which takes no memory yet. The calls, pulls and puts
    /// together, of the numbers in `failing` fail.
    pub fn new(alloc: Global, piece: usize, failing: &'a [u64]) -> Self
        ensures { ⟦<MemoryLink<'a> as Link>⟧.wire result ≡ unused (length failing.now == 0) }
    {
        MemoryLink {
            coming: Coming::new(alloc),
            ended: false,
            piece,
            room: Room {
                bytes: Vec::new(alloc),
            },
            failing: Failing::at(failing),
        }
    }

    /// The bytes that were given to go out.
    pub fn given(&self) -> &[u8]
        ensures { Some result.now ≡ (⟦<MemoryLink<'a> as Link>⟧.wire self.now).given }
    {
        &self.room.bytes
    }

    /// How many calls have failed.
    pub fn faults(&self) -> u64
        ensures { result ≡ (⟦<MemoryLink<'a> as Link>⟧.wire self.now).faults }
    {
        self.failing.faults
    }
}

impl<'a> Link for MemoryLink<'a> {
    ghost wire = { λ s. record {
      whose = None;
      came = Some s.coming.came;
      left = Some s.coming.left;
      given = Some s.room.bytes.items;
      faults = s.failing.faults;
      steady = (length s.failing.calls.now == 0);
      ended = s.ended;
      room = vec_capacity s.room.bytes - vec_len s.room.bytes;
    } };

    fn pull(&mut self, into: &mut [u8]) -> Pull {
        if self.failing.fails() {
            return Pull::Failed;
        }
        self.coming.pull(self.piece, into)
    }

    fn put(&mut self, bytes: &[u8]) -> Put {
        if self.failing.fails() {
            return Put::Stopped(0);
        }
        let count = self.room.take(bytes);
        if count < bytes.len() {
            self.failing.count();
            return Put::Stopped(count);
        }
        Put::Done
    }

    fn make_room(&mut self, n: usize) -> Result<(), AllocError> {
        self.room.make(n)
    }
}

impl<'a> FedLink for MemoryLink<'a> {
    fn feed(&mut self, bytes: &[u8]) -> Result<(), AllocError> {
        self.coming.feed(bytes)
    }

    fn feed_end(&mut self) {
        self.ended = true;
    }

    fn is_ended(&self) -> bool {
        self.ended
    }

    fn left(&self) -> &[u8] {
        self.coming.left()
    }
}
