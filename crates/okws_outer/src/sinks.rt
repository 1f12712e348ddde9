//! Sinks by their paths.

ghost use Rattle.std.specs.Prelude.{◌≡◌, true, false, IfOk, OnErr};
ghost use Rattle.okws_outer.specs.Racks.{Rack, IsNewSink, with_opened, with_closed, Misses};

use crate::error::Fault;
use crate::stream::Sink;
use okws_base::items::Items;

/// What is told of an opening.
#[derive(Drop)]
pub struct SinkStart {
    /// The path.
    pub path: Items<u8>,
    /// Whether a sink could be opened there.
    pub is_open: bool,
}

/// What is told of a sink that was closed.
#[derive(Drop)]
pub struct SinkEnd {
    /// The path.
    pub path: Items<u8>,
    /// The bytes that it was given, where it told them.
    pub given: Option<Items<u8>>,
    /// How many of its puts failed.
    pub faults: u64,
}

/// Sinks by their paths. Bytes go behind those that stand at a path already, which aren't told.
pub trait Sinks {
    /// A sink that is open.
    type Sink: Sink + Send + Drop;

    /// What is told of the sinks. The count of faults takes in openings that failed and the faults of
    /// closed sinks, never falls, and stays at 2^64 - 1 once it is there.
    ghost rack: { Self → Rack };

    /// Opens the sink at a path, which was given nothing yet; fails where there can be none.
    fn open(&mut self, path: &str) -> Result<Self::Sink, Fault>
        ensures sink { IfOk result (λ s. IsNewSink (Self.Sink.given s) (Self.Sink.faults s)) }
        ensures opened { IfOk result (λ s. rack self.new ≡ with_opened path.now true (rack self.old)) }
        ensures failed { OnErr result (Misses (rack self.old) (rack self.new) path.now) };

    /// Closes the sink that was opened at a path, and counts the faults that it had.
    fn close(&mut self, path: &str, sink: Self::Sink)
        ensures { rack self.new ≡ with_closed path.now (Self.Sink.given sink) (Self.Sink.faults sink) (rack self.old) };
}
