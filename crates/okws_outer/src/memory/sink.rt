//! A sink in memory.

ghost use Rattle.std.specs.Prelude.{◌≡◌, Some, [], IfOk};

use crate::memory::failing::Failing;
use crate::memory::room::Room;
use crate::stream::{Put, Sink};
use std::alloc::{AllocError, Global};

/// Bytes that were given, as many as there is room for from the sink's making on. A put past the
/// room gives what fits, and is a fault.
pub struct MemorySink<'a> {
    room: Room,
    failing: Failing<'a>,
}

impl<'a> Drop for MemorySink<'a> {
    fn drop(self) {
        let MemorySink { room, failing: _ } = self;
        drop(room);
    }
}

impl<'a> MemorySink<'a> {
    /// A sink with room for so many bytes, which is taken here; the puts of the numbers in `failing`
    /// fail and give nothing.
    pub fn new(alloc: Global, room: usize, failing: &'a [u64]) -> Result<Self, AllocError>
        ensures given { IfOk result (λ s. ⟦<MemorySink<'a> as Sink>⟧.given s ≡ Some []) }
        ensures faults { IfOk result (λ s. ⟦<MemorySink<'a> as Sink>⟧.faults s ≡ 0) }
    {
        Ok(MemorySink {
            room: Room::new(alloc, room)?,
            failing: Failing::at(failing),
        })
    }

    /// The bytes that were given.
    pub fn given(&self) -> &[u8]
        ensures { Some result.now ≡ ⟦<MemorySink<'a> as Sink>⟧.given self.now }
    {
        &self.room.bytes
    }

    /// How many puts have failed.
    pub fn faults(&self) -> u64
        ensures { result ≡ ⟦<MemorySink<'a> as Sink>⟧.faults self.now }
    {
        self.failing.faults
    }
}

impl<'a> Sink for MemorySink<'a> {
    ghost given = { λ s. Some s.room.bytes.items };

    ghost faults = { λ s. s.failing.faults };

    fn put(&mut self, bytes: &[u8]) -> Put {
        if self.failing.fails() {
            return Put::Stopped(0);
        }
        let count = self.room.take(bytes);
        if count < bytes.len() {
            self.failing.count();
            return Put::Stopped(count);
        }
        Put::Done
    }
}
