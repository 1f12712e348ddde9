//! Sinks by their paths in memory.

ghost use Rattle.std.specs.Prelude.{◌≡◌, [], IfSome, IsNone, IsSome, reverse};
ghost use Rattle.okws_outer.specs.Racks.{IsNewSink};
ghost use Rattle.okws_outer.specs.Streams.{Counts};

use crate::noted::Noted;
use okws_base::items::{Items, copies};
use okws_base::told::{Parts, Says};
use okws_outer::error::Fault;
use okws_outer::memory::failing::Failing;
use okws_outer::memory::sink::MemorySink;
use okws_outer::sinks::{SinkEnd, SinkStart, Sinks};
use okws_outer::stream::Sink;
use std::alloc::{AllocError, Global};

/// Sinks in memory, one for each opening. An opening fails too where memory is refused for the sink.
pub struct MemorySinks<'a> {
    alloc: Global,
    room: usize,
    puts: &'a [u64],
    opened: Noted<SinkStart>,
    closed: Noted<SinkEnd>,
    refuses: bool,
    failing: Failing<'a>,
}

impl<'a> Drop for MemorySinks<'a> {
    fn drop(self) {
        let MemorySinks {
            alloc: _,
            room: _,
            puts: _,
            opened,
            closed,
            refuses: _,
            failing: _,
        } = self;
        drop(opened);
        drop(closed);
    }
}

impl<'a> MemorySinks<'a> {
    /// Sinks with room for so many bytes each, of which the puts of the numbers in `puts` fail, at
    /// each sink by its own count; the openings of the numbers in `failing` fail.
    pub fn new(alloc: Global, room: usize, puts: &'a [u64], failing: &'a [u64]) -> Self
        ensures { ⟦<MemorySinks<'a> as Sinks>⟧.rack result ≡ record { opened = []; closed = []; faults = 0 } }
    {
        MemorySinks {
            alloc,
            room,
            puts,
            opened: Noted::new(alloc),
            closed: Noted::new(alloc),
            refuses: false,
            failing: Failing::at(failing),
        }
    }

    /// Sinks that are not there: each opening fails.
    pub fn absent(alloc: Global) -> Self
        ensures { ⟦<MemorySinks<'a> as Sinks>⟧.rack result ≡ record { opened = []; closed = []; faults = 0 } }
    {
        MemorySinks {
            alloc,
            room: 0,
            puts: &[],
            opened: Noted::new(alloc),
            closed: Noted::new(alloc),
            refuses: true,
            failing: Failing::at(&[]),
        }
    }

    /// The openings, the oldest first, unless memory was refused for one.
    pub fn opened(&self) -> Option<&[SinkStart]>
        ensures { IfSome result (λ s. reverse s.now ≡ (⟦<MemorySinks<'a> as Sinks>⟧.rack self.now).opened) }
    {
        self.opened.as_slice()
    }

    /// The sinks that were closed, the oldest first, unless memory was refused for one.
    pub fn closed(&self) -> Option<&[SinkEnd]>
        ensures { IfSome result (λ s. reverse s.now ≡ (⟦<MemorySinks<'a> as Sinks>⟧.rack self.now).closed) }
    {
        self.closed.as_slice()
    }

    /// How many calls have failed, those of closed sinks included.
    pub fn faults(&self) -> u64
        ensures { result ≡ (⟦<MemorySinks<'a> as Sinks>⟧.rack self.now).faults }
    {
        self.failing.faults
    }

    /// The sink of an opening, unless it fails.
    fn sink(&mut self) -> Option<MemorySink<'a>>
        ensures some { IfSome result (λ s. IsNewSink (⟦<MemorySink<'a> as Sink>⟧.given s) (⟦<MemorySink<'a> as Sink>⟧.faults s)) }
        ensures opened { self.new.opened ≡ self.old.opened }
        ensures closed { self.new.closed ≡ self.old.closed }
        ensures still { IsSome result → self.new.failing.faults ≡ self.old.failing.faults }
        ensures faults { Counts self.old.failing.faults self.new.failing.faults (IsNone result) }
    {
        if self.failing.fails_or(self.refuses) {
            return None;
        }
        let sink = MemorySink::new(self.alloc, self.room, self.puts).ok();
        if sink.is_none() {
            self.failing.count();
        }
        sink
    }
}

/// An opening.
#[derive(Clone, Copy)]
struct Opening<'c> {
    path: &'c str,
    is_open: bool,
}

impl<'c> Says for Opening<'c> {
    type Item = SinkStart;

    ghost item = { λ o. record { path = o.path.now; is_open = o.is_open } };
}

impl<'c> Parts for Opening<'c> {
    fn make(&self, alloc: Global) -> Result<SinkStart, AllocError> {
        Ok(SinkStart {
            path: Items::of(copies(alloc, self.path.as_bytes())?),
            is_open: self.is_open,
        })
    }
}

/// A sink that is closed.
#[derive(Clone, Copy)]
struct Closing<'c, 'a> {
    path: &'c str,
    sink: &'c MemorySink<'a>,
}

impl<'c, 'a> Says for Closing<'c, 'a> {
    type Item = SinkEnd;

    ghost item = { λ c. record {
      path = c.path.now;
      given = ⟦<MemorySink<'a> as Sink>⟧.given c.sink.now;
      faults = ⟦<MemorySink<'a> as Sink>⟧.faults c.sink.now;
    } };
}

impl<'c, 'a> Parts for Closing<'c, 'a> {
    fn make(&self, alloc: Global) -> Result<SinkEnd, AllocError> {
        Ok(SinkEnd {
            path: Items::of(copies(alloc, self.path.as_bytes())?),
            given: Some(Items::of(copies(alloc, self.sink.given())?)),
            faults: self.sink.faults(),
        })
    }
}

impl<'a> Sinks for MemorySinks<'a> {
    type Sink = MemorySink<'a>;

    ghost rack = { λ s. record { opened = s.opened.told.past; closed = s.closed.told.past; faults = s.failing.faults } };

    fn open(&mut self, path: &str) -> Result<MemorySink<'a>, Fault> {
        let sink = self.sink();
        let is_open = sink.is_some();
        self.opened.note(self.alloc, &Opening { path, is_open });
        match sink {
            Some(sink) => Ok(sink),
            None => Err(Fault),
        }
    }

    fn close(&mut self, path: &str, sink: MemorySink<'a>) {
        let closing = Closing { path, sink: &sink };
        self.closed.note(self.alloc, &closing);
        self.failing.add(sink.faults());
    }
}
