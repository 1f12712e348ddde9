//! The link of a service: bytes come from a source and go to a sink, and those that came together are
//! kept until they are asked for.

ghost use Rattle.std.specs.Prelude.{◌≡◌, ◌<◌, ◌≤◌, ◌-◌, take, drop, length, vec_len, IfOk};
ghost use Rattle.okws_outer.specs.Streams.{Pulls};
ghost use Rattle.okws_outer.specs.Wire.{Receives};
ghost use Rattle.okws_outer.specs.declared.stream.Pull.TheVariants as Pull;
ghost use Rattle.svc_kit.specs.Ends.{wire_of, holding, Refills};

use okws_outer::stream::{Link, Pull, Put, Sink, Source};
use std::alloc::{AllocError, Global};

/// A source and a sink, as the two directions of one link.
#[derive(Drop)]
pub struct Ends<I, O> {
    /// Where the bytes come from.
    pub source: I,
    /// Where the bytes go.
    pub sink: O,
}

impl<I: Source, O: Sink> Link for Ends<I, O> {
    ghost wire = { λ s. wire_of (I.left s.source) (O.given s.sink) (I.faults s.source) (O.faults s.sink) };

    fn pull(&mut self, into: &mut [u8]) -> Pull {
        self.source.pull(into)
    }

    fn put(&mut self, bytes: &[u8]) -> Put {
        self.sink.put(bytes)
    }

    fn make_room(&mut self, _n: usize) -> Result<(), AllocError> {
        Ok(())
    }
}

/// Bytes that are asked for at a time.
const PIECE: usize = 8192;

/// A link that asks for many bytes at a time, and keeps those that came until they are asked for. A
/// pull that it answers from what it keeps can't fail.
#[derive(Drop)]
pub struct Buffered<L> {
    link: L,
    piece: Vec<u8>,
    from: usize,
    to: usize,
    ghost some: { 0 < vec_len piece },
    ghost ordered: { from ≤ to },
    ghost within: { to ≤ vec_len piece },
}

impl<L: Link> Buffered<L> {
    /// The link, of which nothing is kept yet.
    pub fn new(alloc: Global, link: L) -> Result<Self, AllocError>
    where
        L: Drop,
        ensures { IfOk result (λ b. ⟦<Buffered<L> as Link>⟧.wire b ≡ L.wire link) }
    {
        Ok(Buffered {
            link,
            piece: vec![in alloc; 0u8; PIECE]?,
            from: 0,
            to: 0,
        })
    }

    /// Asks the link for bytes, where none are kept.
    fn refill(&mut self) -> Pull
        requires { self.old.from ≡ self.old.to }
        ensures bytes { Refills (⟦<Buffered<L> as Link>⟧.wire self.old).left (⟦<Buffered<L> as Link>⟧.wire self.new).left self.new.from self.new.to result }
        ensures link { Receives (L.wire self.old.link) (L.wire self.new.link) (result ≡ Pull.Failed) }
    {
        match self.link.pull(&mut self.piece) {
            Pull::Took(count) => {
                self.from = 0;
                self.to = count;
                Pull::Took(count)
            }
            Pull::End => Pull::End,
            Pull::Failed => Pull::Failed,
        }
    }

    /// Gives of the bytes that are kept as many as there is room for, and tells how many.
    fn give(&mut self, into: &mut [u8]) -> usize
        requires some { self.old.from < self.old.to }
        requires room { 0 < length into.old }
        ensures bytes { Pulls (⟦<Buffered<L> as Link>⟧.wire self.old).left (⟦<Buffered<L> as Link>⟧.wire self.new).left into.new (Pull.Took result) }
        ensures link { L.wire self.new.link ≡ L.wire self.old.link }
    {
        let count = (self.to - self.from).min(into.len());
        into[..count].copy_from_slice(&self.piece[self.from..self.from + count]);
        self.from += count;
        count
    }
}

impl<L: Link> Link for Buffered<L> {
    ghost wire = { λ s. holding (take (s.to - s.from) (drop s.from s.piece.items)) (L.wire s.link) };

    fn pull(&mut self, into: &mut [u8]) -> Pull {
        if self.from == self.to {
            match self.refill() {
                Pull::Took(_) => {}
                Pull::End => return Pull::End,
                Pull::Failed => return Pull::Failed,
            }
        }
        Pull::Took(self.give(into))
    }

    fn put(&mut self, bytes: &[u8]) -> Put {
        self.link.put(bytes)
    }

    fn make_room(&mut self, n: usize) -> Result<(), AllocError> {
        self.link.make_room(n)
    }
}

/// The link of a service over a source and a sink.
pub fn over<I: Source + Drop, O: Sink + Drop>(
    alloc: Global,
    source: I,
    sink: O,
) -> Result<Buffered<Ends<I, O>>, AllocError>
    ensures { IfOk result (λ b. ⟦<Buffered<Ends<I, O>> as Link>⟧.wire b ≡ wire_of (I.left source) (O.given sink) (I.faults source) (O.faults sink)) }
{
    Buffered::new(alloc, Ends { source, sink })
}
