//! A source in memory.

ghost use Rattle.std.specs.Prelude.{◌≡◌, Some};

use crate::memory::failing::Failing;
use crate::stream::{Pull, Source};

/// Bytes in memory, which come in pieces of at most `piece` bytes, and of 1 where `piece` is 0.
#[derive(Clone, Copy)]
pub struct MemorySource<'a> {
    left: &'a [u8],
    piece: usize,
    pub(crate) failing: Failing<'a>,
}

impl<'a> MemorySource<'a> {
    /// A source of these bytes; the pulls of the numbers in `failing` fail.
    pub fn new(bytes: &'a [u8], piece: usize, failing: &'a [u64]) -> Self
        ensures left { ⟦<MemorySource<'a> as Source>⟧.left result ≡ Some bytes.now }
        ensures faults { ⟦<MemorySource<'a> as Source>⟧.faults result ≡ 0 }
    {
        MemorySource::with(bytes, piece, Failing::at(failing))
    }

    /// A source that carries on a count of faults.
    pub(crate) fn with(left: &'a [u8], piece: usize, failing: Failing<'a>) -> Self
        ensures left { result.left.now ≡ left.now }
        ensures failing { result.failing ≡ failing.entry }
    {
        MemorySource {
            left,
            piece,
            failing,
        }
    }

    /// How many pulls have failed.
    pub fn faults(&self) -> u64
        ensures { result ≡ ⟦<MemorySource<'a> as Source>⟧.faults self.now }
    {
        self.failing.faults
    }
}

impl<'a> Source for MemorySource<'a> {
    ghost left = { λ s. Some s.left.now };

    ghost faults = { λ s. s.failing.faults };

    fn pull(&mut self, into: &mut [u8]) -> Pull {
        if self.failing.fails() {
            return Pull::Failed;
        }
        if self.left.is_empty() {
            return Pull::End;
        }
        let count = self.piece.max(1).min(self.left.len()).min(into.len());
        let (front, behind) = self.left.split_at(count);
        into[..count].copy_from_slice(front);
        self.left = behind;
        Pull::Took(count)
    }
}
