//! Standard output, and whatever else is written.

ghost use Rattle.std.specs.Prelude.{◌≡◌, None};

use okws_outer::stream::{Put, Sink};
use real_network::trying::put_to;
use std::io::Write;

/// A writer, whose writes that failed, or that took nothing, are counted.
pub struct Writing<W> {
    inner: W,
    faults: u64,
}

impl<W: Drop> Drop for Writing<W> {
    fn drop(self) {
        let Writing { inner, faults: _ } = self;
        drop(inner);
    }
}

impl<W: Write> Writing<W> {
    /// A sink over the writer, with no fault counted yet.
    pub fn new(inner: W) -> Self
        ensures { ⟦<Writing<W> as Sink>⟧.faults result ≡ 0 }
    {
        Writing { inner, faults: 0 }
    }

    /// How many puts have failed.
    pub fn faults(&self) -> u64
        ensures { result ≡ ⟦<Writing<W> as Sink>⟧.faults self.now }
    {
        self.faults
    }
}

impl<W: Write> Sink for Writing<W> {
    ghost given = { λ s. None };

    ghost faults = { λ s. s.faults };

    fn put(&mut self, bytes: &[u8]) -> Put {
        put_to(&mut self.inner, &mut self.faults, bytes)
    }
}
