//! All objects of a run over one system.

ghost use Rattle.std.specs.Prelude.{◌≡◌, [], None, IfOk, IfSome, IsSome};

use crate::children::RealChildren;
use crate::console::RealConsole;
use crate::files::RealFiles;
use crate::output::Writing;
use crate::sinks::RealSinks;
use okws_outer::children::Children;
use okws_outer::conn::Conn;
use okws_outer::files::Files as OuterFiles;
use okws_outer::gate::NoGate;
use okws_outer::network::Network;
use okws_outer::sinks::Sinks;
use okws_outer::stores::Stores;
use okws_outer::stream::Sink;
use okws_outer::world::Outside;
use okws_world::equipment::Objects;
use okws_world::equipped::Fitted;
use real_network::network::RealNetwork;
use real_stores::stores::RealStores;
use std::alloc::{AllocError, Global};
use std::fs::{File, Files};
use std::io;
use std::io::{Read, Write};
use std::net::{Net, TcpListener, TcpStream};
use std::process::{Processes, SystemProcess};
use std::random::RandomSource;
use std::rt::Env;

/// The further objects of a server of the system, with a console over a reader and a writer.
pub type RealObjects<'r, R, I, O> = Objects<
    RealNetwork<'r, R>,
    RealChildren<'r, R>,
    RealConsole<I, O>,
    RealStores<'r>,
    RealSinks<'r, R>,
    NoGate,
>;

/// The further objects of a server of the system, none of which was used yet; the files of its stores
/// are those of the host. Fails only where memory is refused.
pub fn real_objects<'r, R, I, O>(
    rt: &'r R,
    host: &'r HostRuntime,
    alloc: Global,
    input: I,
    output: O,
) -> Result<RealObjects<'r, R, I, O>, AllocError>
where
    R: Net<Listener = TcpListener, Stream = TcpStream>
        + Processes<Started = SystemProcess>
        + Files<File = File>
        + Env
        + AllocGlobal,
    I: Read + Drop,
    O: Write + Drop,
    ensures network { IfOk result (λ o. ⟦<RealNetwork<'r, R> as Network>⟧.net o.network ≡ record { listened = []; doors = []; faults = 0 }) }
    ensures children { IfOk result (λ o. ⟦<RealChildren<'r, R> as Children>⟧.family o.children ≡ record { started = []; finished = []; faults = 0 }) }
    ensures console { IfOk result (λ o. ⟦<RealConsole<I, O> as Conn>⟧.wire o.console ≡ record { left = None; last = None; given = None; faults = 0 }) }
    ensures stores { IfOk result (λ o. ⟦<RealStores<'r> as Stores>⟧.depot o.stores ≡ record { made = []; finished = []; faults = 0 }) }
    ensures sinks { IfOk result (λ o. ⟦<RealSinks<'r, R> as Sinks>⟧.rack o.sinks ≡ record { opened = []; closed = []; faults = 0 }) }
{
    let console = RealConsole::new(alloc, input, output)?;
    Ok(Objects {
        network: RealNetwork::new(rt, host.stderr(), alloc),
        children: RealChildren::new(rt, host.stderr()),
        console,
        stores: RealStores::new(host),
        sinks: RealSinks::new(rt, host.stderr()),
        gate: NoGate,
    })
}

/// A world of the system, with a console over a reader and a writer, which prints at a writer of its own.
pub type RealWorld<'r, R, I, O> = Fitted<
    RealFiles<'r, R>,
    Writing<O>,
    RealNetwork<'r, R>,
    RealChildren<'r, R>,
    RealConsole<I, O>,
    RealStores<'r>,
    RealSinks<'r, R>,
    NoGate,
>;

/// A world of the system, with the seed and all its objects, none of which was used yet. Fails only where
/// memory is refused.
pub fn real_world<'r, R, I, O>(
    rt: &'r R,
    host: &'r HostRuntime,
    seed: [u8; 32],
    out: O,
    input: I,
    output: O,
) -> Result<RealWorld<'r, R, I, O>, AllocError>
where
    R: Net<Listener = TcpListener, Stream = TcpStream>
        + Processes<Started = SystemProcess>
        + Files<File = File>
        + Env
        + AllocGlobal,
    I: Read + Drop,
    O: Write + Drop,
    ensures outside { IfOk result (λ w. IsSome w.outside) }
    ensures further { IfOk result (λ w. IsSome w.further) }
    ensures seed { IfOk result (λ w. IfSome w.outside (λ o. o.seed ≡ seed)) }
    ensures files { IfOk result (λ w. IfSome w.outside (λ o. ⟦<RealFiles<'r, R> as OuterFiles>⟧.shelf o.files ≡ record { held = λ path. None; opened = []; faults = 0 })) }
    ensures out { IfOk result (λ w. IfSome w.outside (λ o. ⟦<Writing<O> as Sink>⟧.faults o.out ≡ 0)) }
    ensures network { IfOk result (λ w. IfSome w.further (λ o. ⟦<RealNetwork<'r, R> as Network>⟧.net o.network ≡ record { listened = []; doors = []; faults = 0 })) }
    ensures children { IfOk result (λ w. IfSome w.further (λ o. ⟦<RealChildren<'r, R> as Children>⟧.family o.children ≡ record { started = []; finished = []; faults = 0 })) }
    ensures stores { IfOk result (λ w. IfSome w.further (λ o. ⟦<RealStores<'r> as Stores>⟧.depot o.stores ≡ record { made = []; finished = []; faults = 0 })) }
    ensures sinks { IfOk result (λ w. IfSome w.further (λ o. ⟦<RealSinks<'r, R> as Sinks>⟧.rack o.sinks ≡ record { opened = []; closed = []; faults = 0 })) }
{
    let things = real_objects(rt, host, host.alloc(), input, output);
    let outside = Outside {
        files: RealFiles::new(rt),
        out: Writing::new(out),
        seed,
    };
    match things {
        Ok(things) => Ok(Fitted {
            outside: Some(outside),
            further: Some(things),
        }),
        Err(refused) => Err(refused),
    }
}

/// A seed that nobody can tell beforehand, of the system's random bytes.
pub fn random_seed<R: RandomSource>(rt: &R) -> io::Result<[u8; 32]> {
    let mut seed = [0u8; 32];
    rt.fill_bytes(&mut seed)?;
    Ok(seed)
}
