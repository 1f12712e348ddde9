//! Files in memory.

ghost use Rattle.std.specs.Prelude.{◌≡◌, [], IfSome, None, Some};
ghost use Rattle.okws_outer.specs.Entries.{held_at, told_where};

use crate::files::{FilePath, Files};
use crate::memory::failing::Failing;
use crate::memory::source::MemorySource;
use crate::stream::{Pull, Source};
use okws_base::items::Items;
use okws_base::told::Told;

/// A file's path and content.
#[derive(Clone, Copy)]
pub struct Entry<'a> {
    /// The path, which is compared byte by byte.
    pub path: &'a str,
    /// The content.
    pub bytes: &'a [u8],
}

/// Files in memory, which come in pieces of at most `piece` bytes, and of 1 where `piece` is 0. Of
/// entries of one path the first stands.
pub struct MemoryFiles<'a> {
    entries: &'a [Entry<'a>],
    piece: usize,
    opened: Told<Items<u8>>,
    failing: Failing<'a>,
}

impl<'a> Drop for MemoryFiles<'a> {
    fn drop(self) {
        let MemoryFiles {
            entries: _,
            piece: _,
            opened,
            failing: _,
        } = self;
        drop(opened);
    }
}

/// A file that is open.
#[derive(Clone, Copy)]
pub struct MemoryFile<'a> {
    source: MemorySource<'a>,
    there: bool,
}

impl<'a> MemoryFiles<'a> {
    /// Files of these entries; the pulls, counted over all files, of the numbers in `failing` fail.
    pub fn new(entries: &'a [Entry<'a>], piece: usize, failing: &'a [u64]) -> Self
        ensures { ⟦<MemoryFiles<'a> as Files>⟧.shelf result ≡ record { held = held_at entries.now; opened = []; faults = 0 } }
    {
        MemoryFiles {
            entries,
            piece,
            opened: Told::new(),
            failing: Failing::at(failing),
        }
    }
}

/// The content of the first entry of this path.
fn find<'a>(entries: &'a [Entry<'a>], path: &str) -> Option<&'a [u8]>
    ensures some { IfSome result (λ bytes. held_at entries.now path.now ≡ Some bytes.now) }
    ensures none { result ≡ None → held_at entries.now path.now ≡ None }
{
    for entry in entries {
        if entry.path == path {
            return Some(entry.bytes);
        }
    }
    None
}

impl<'a> Source for MemoryFile<'a> {
    ghost left = { λ s. told_where s.there (⟦<MemorySource<'a> as Source>⟧.left s.source) };

    ghost faults = { λ s. ⟦<MemorySource<'a> as Source>⟧.faults s.source };

    fn pull(&mut self, into: &mut [u8]) -> Pull {
        if !self.there {
            self.source.failing.count();
            return Pull::Failed;
        }
        self.source.pull(into)
    }
}

impl<'a> Files for MemoryFiles<'a> {
    type File = MemoryFile<'a>;

    ghost shelf = { λ s. record { held = held_at s.entries.now; opened = s.opened.past; faults = s.failing.faults } };

    fn open(&mut self, path: &str) -> MemoryFile<'a> {
        self.opened = self.opened.and(&FilePath { path });
        let found = find(self.entries, path);
        MemoryFile {
            source: MemorySource::with(found.unwrap_or(b""), self.piece, self.failing),
            there: found.is_some(),
        }
    }

    fn close(&mut self, file: MemoryFile<'a>) {
        let faults = self.failing.faults.max(file.source.failing.faults);
        self.failing = file.source.failing;
        self.failing.faults = faults;
    }
}
