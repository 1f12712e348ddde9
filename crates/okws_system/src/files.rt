//! The files of the system.

ghost use Rattle.std.specs.Prelude.{◌≡◌, [], None};

use okws_base::items::Items;
use okws_base::told::Told;
use okws_outer::files::{FilePath, Files};
use okws_outer::stream::{Pull, Source};
use real_network::trying::{count, pull_from};
use std::fs;
use std::io::Read;

/// A file that is open, or one that could not be opened, whose first pull fails.
pub struct RealFile<F> {
    inner: Option<F>,
    faults: u64,
}

impl<F: Drop> Drop for RealFile<F> {
    fn drop(self) {
        let RealFile { inner, faults: _ } = self;
        drop(inner);
    }
}

impl<F: Read> Source for RealFile<F> {
    ghost left = { λ s. None };

    ghost faults = { λ s. s.faults };

    fn pull(&mut self, into: &mut [u8]) -> Pull {
        match &mut self.inner {
            Some(file) => pull_from(file, &mut self.faults, into),
            None => {
                count(&mut self.faults);
                Pull::Failed
            }
        }
    }
}

/// The files of the system by their paths.
pub struct RealFiles<'r, R> {
    rt: &'r R,
    opened: Told<Items<u8>>,
    faults: u64,
}

impl<'r, R> Drop for RealFiles<'r, R> {
    fn drop(self) {
        let RealFiles {
            rt: _,
            opened: _,
            faults: _,
        } = self;
    }
}

impl<'r, R: std::rt::Files> RealFiles<'r, R> {
    /// The files, none of them opened and no fault counted yet.
    pub fn new(rt: &'r R) -> Self
        ensures { ⟦<RealFiles<'r, R> as Files>⟧.shelf result ≡ record { held = λ path. None; opened = []; faults = 0 } }
    {
        RealFiles {
            rt,
            opened: Told::new(),
            faults: 0,
        }
    }
}

impl<'r, R: std::rt::Files> Files for RealFiles<'r, R> {
    type File = RealFile<R::File>;

    ghost shelf = { λ s. record { held = λ path. None; opened = s.opened.past; faults = s.faults } };

    fn open(&mut self, path: &str) -> RealFile<R::File> {
        self.opened = self.opened.and(&FilePath { path });
        RealFile {
            inner: fs::open(self.rt, path).ok(),
            faults: self.faults,
        }
    }

    fn close(&mut self, file: RealFile<R::File>) {
        self.faults = self.faults.max(file.faults);
    }
}
