//! Standard input and output, and whatever else is read and written, as a source and a sink that
//! don't tell what they hold.

ghost use Rattle.std.specs.Prelude.{None};

use okws_outer::stream::{Pull, Put, Sink, Source};
use std::io::{Read, Write};

/// A reader that counts the reads that failed.
#[derive(Drop)]
pub struct Incoming<R> {
    inner: R,
    faults: u64,
}

impl<R: Read> Incoming<R> {
    /// A source over the reader, with no fault counted yet.
    pub fn new(inner: R) -> Self {
        Incoming { inner, faults: 0 }
    }
}

impl<R: Read> Source for Incoming<R> {
    ghost left = { λ s. None };

    ghost faults = { λ s. s.faults };

    fn pull(&mut self, into: &mut [u8]) -> Pull {
        match self.inner.read(into) {
            Ok(0) => Pull::End,
            Ok(count) => Pull::Took(count),
            Err(_) => {
                self.faults = self.faults.saturating_add(1);
                Pull::Failed
            }
        }
    }
}

/// A writer that counts the writes that failed, and those that took nothing.
#[derive(Drop)]
pub struct Outgoing<W> {
    inner: W,
    faults: u64,
}

impl<W: Write> Outgoing<W> {
    /// A sink over the writer, with no fault counted yet.
    pub fn new(inner: W) -> Self {
        Outgoing { inner, faults: 0 }
    }
}

impl<W: Write> Sink for Outgoing<W> {
    ghost given = { λ s. None };

    ghost faults = { λ s. s.faults };

    fn put(&mut self, bytes: &[u8]) -> Put {
        let mut done = 0usize;
        while done < bytes.len() {
            match self.inner.write(&bytes[done..]) {
                Ok(0) | Err(_) => {
                    self.faults = self.faults.saturating_add(1);
                    return Put::Stopped(done);
                }
                Ok(count) => done += count,
            }
        }
        Put::Done
    }
}
