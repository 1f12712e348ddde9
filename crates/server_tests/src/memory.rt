//! The further objects of a server in memory.

use okws_outer::gate::NoGate;
use okws_outer::memory::conn::MemoryConn;
use okws_world::equipment::Objects;
use outer_memory::children::MemoryChildren;
use outer_memory::door::MemoryNetwork;
use outer_memory::sinks::MemorySinks;
use outer_memory::stores::{Breaking, MemoryStores};
use std::alloc::{AllocError, Global};

/// Objects in memory, with stores whose keepers `M` makes, and with a gate.
pub type MemoryObjects<'a, M, G> = Objects<
    MemoryNetwork<'a>,
    MemoryChildren<'a>,
    MemoryConn<'a>,
    MemoryStores<'a, M>,
    MemorySinks<'a>,
    G,
>;

/// Objects of which each refuses: each listen, start, making and opening fails, and the console has
/// ended and takes nothing.
pub fn absent<'a>(alloc: Global) -> Result<MemoryObjects<'a, Breaking, NoGate>, AllocError> {
    Ok(Objects {
        network: MemoryNetwork::absent(alloc),
        children: MemoryChildren::absent(alloc),
        console: MemoryConn::new(alloc, b"", &[], 0, &[])?,
        stores: MemoryStores::absent(Breaking),
        sinks: MemorySinks::absent(alloc),
        gate: NoGate,
    })
}
