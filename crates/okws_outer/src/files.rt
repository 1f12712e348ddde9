//! Files by their paths.

ghost use Rattle.std.specs.Prelude.{◌≡◌, ◌∷◌, max};
ghost use Rattle.okws_outer.specs.Shelf.{Shelf};

use crate::stream::Source;
use okws_base::items::Items;
use okws_base::told::Says;

/// The path at which a file is opened.
#[derive(Clone, Copy)]
pub struct FilePath<'a> {
    /// The path, as it was given.
    pub path: &'a str,
}

impl<'a> Says for FilePath<'a> {
    type Item = Items<u8>;

    ghost item = { λ p. p.path.now };
}

/// Files by their paths, which tell where files were opened, with one count of faults: a file that
/// is open carries the count on, and its close gives it back. It never falls, and stays at 2^64 - 1
/// once it is there.
pub trait Files {
    /// A file that is open.
    type File: Source;

    /// What stands at each path, where the files tell, where files were opened, and the count.
    ghost shelf: { Self → Shelf };

    /// Opens the file at a path. Where it can't be opened, its first pull fails and is counted.
    fn open(&mut self, path: &str) -> Self::File
        ensures left { Self.File.left result ≡ (shelf self.old).held path.now }
        ensures faults { Self.File.faults result ≡ (shelf self.old).faults }
        ensures shelf { shelf self.new ≡ record (shelf self.old) { opened = path.now ∷ (shelf self.old).opened } };

    /// Closes a file, and counts the faults that it had.
    fn close(&mut self, file: Self::File)
        ensures { shelf self.new ≡ record (shelf self.old) { faults = max (shelf self.old).faults (Self.File.faults file) } };
}
