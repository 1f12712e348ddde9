//! Bytes that were given, and room for more that was made ahead.

ghost use Rattle.std.specs.Prelude.{◌≡◌, ◌≤◌, ◌+◌, ◌-◌, ◌++◌, [], min, length, take, OnOk, IfOk, vec_len, vec_capacity};

use std::alloc::{AllocError, Global};

/// Bytes that were given; there is room for as many more as the vector has capacity for.
#[derive(Drop)]
pub(crate) struct Room {
    pub(crate) bytes: Vec<u8>,
}

impl Room {
    /// Room for so many bytes.
    pub(crate) fn new(alloc: Global, room: usize) -> Result<Self, AllocError>
        ensures bytes { IfOk result (λ r. r.bytes.items ≡ []) }
        ensures room { IfOk result (λ r. vec_capacity r.bytes - vec_len r.bytes ≡ room) }
    {
        Ok(Room {
            bytes: Vec::with_capacity(alloc, room)?,
        })
    }

    /// Takes as many bytes from the front as there is room for, and tells how many; takes no memory.
    pub(crate) fn take(&mut self, bytes: &[u8]) -> usize
        ensures count { result ≡ min (length bytes.now) (vec_capacity self.old.bytes - vec_len self.old.bytes) }
        ensures bytes { self.new.bytes.items ≡ self.old.bytes.items ++ take result bytes.now }
        ensures room { vec_capacity self.old.bytes - vec_len self.old.bytes ≤ vec_capacity self.new.bytes - vec_len self.new.bytes + result }
    {
        let count = bytes.len().min(self.bytes.capacity() - self.bytes.len());
        let _ = self.bytes.extend_from_slice(&bytes[..count]);
        count
    }

    /// Makes room for n more bytes; the bytes stay, and the room doesn't shrink.
    pub(crate) fn make(&mut self, n: usize) -> Result<(), AllocError>
        ensures bytes { self.new.bytes.items ≡ self.old.bytes.items }
        ensures ok { OnOk result (n ≤ vec_capacity self.new.bytes - vec_len self.new.bytes) }
        ensures room { vec_capacity self.old.bytes - vec_len self.old.bytes ≤ vec_capacity self.new.bytes - vec_len self.new.bytes }
    {
        self.bytes.reserve(n)
    }
}
