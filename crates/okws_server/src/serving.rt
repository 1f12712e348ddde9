//! The run of a server whose doors are open, and where the text of its log goes.

ghost use Rattle.std.specs.Prelude.{◌≡◌, IfSome, IsNone, IsSome, map};
ghost use Rattle.std.specs.Arc.{arc_value};
ghost use Rattle.okws_outer.specs.Racks.{IsNewSink};
ghost use Rattle.site_making.specs.Keepers.{keeper_of};
ghost use Rattle.okws_server.specs.Served.{IsGround, IsUntouched, RanAt, RanLogged, RanOver, RanUnlogged, limit_of, serving_of, shut};
ghost use Rattle.okws_server.specs.Views.{gear_of};

use crate::ground::{Ground, Stock};
use crate::nowhere::Nowhere;
use command_line::command::{Connections, Server};
use okws_outer::keeper::Keeper;
use okws_outer::network::Network;
use okws_outer::sinks::Sinks;
use okws_outer::stream::Sink;
use okws_serve::outfit::{Limits, MOST_BEGUN, Outfit, Ran};
use okws_serve::serve::serve_site;
use okws_world::equipment::{Equipment, Objects, ObjectsOf};
use std::alloc::Global;
use std::sync::Wait;
use std::thread::Threads;

// How many connections are begun at most.
fn limit_of(connections: Connections) -> u64
    ensures { result ≡ limit_of connections }
{
    match connections {
        Connections::Count(count) => u64::from(count),
        Connections::Always => MOST_BEGUN,
    }
}

// Serves over doors that are open, with this sink for the log, and closes them. Where the run began, the
// sink comes back with what it did.
fn serve_over<R, E, K, S>(
    rt: &R,
    alloc: Global,
    server: &Server<'_>,
    ground: Ground<<E::Network as Network>::Door, K>,
    log: S,
    things: ObjectsOf<E>,
) -> (ObjectsOf<E>, Option<S>, Option<Ran>, Vec<K>)
where
    R: Wait + Threads + Sync,
    E: Equipment,
    K: Keeper + Send + Drop,
    K::Pin: Send,
    S: Sink + Send + Drop,
    requires ground { IsGround (serving_of server.now) (arc_value ground.stock.site) (map (keeper_of K.tables K.told K.faults K.steady) ground.stock.keepers.items) (map E.Network.Door.entrance ground.doors.items) }
    requires log { IsNewSink (S.given log) (S.faults log) }
    ensures sinks { E.Sinks.rack result.0.sinks ≡ E.Sinks.rack things.sinks }
    ensures ran { IfSome result.2 (λ ran. IfSome result.1 (λ log. RanOver E.Network.Door.Conn.wire (serving_of server.now) (arc_value ground.stock.site) ground.seed (gear_of E.Network.net E.Children.family E.Console.wire E.Stores.depot E.Sinks.rack things) (gear_of E.Network.net E.Children.family E.Console.wire E.Stores.depot E.Sinks.rack result.0) (map (keeper_of K.tables K.told K.faults K.steady) result.3.items) ran (S.given log) (S.faults log))) }
    ensures both { IsSome result.2 → IsSome result.1 }
    ensures unran { IsNone result.2 → gear_of E.Network.net E.Children.family E.Console.wire E.Stores.depot E.Sinks.rack result.0 ≡ shut (serving_of server.now) (gear_of E.Network.net E.Children.family E.Console.wire E.Stores.depot E.Sinks.rack things) }
{
    let Ground { stock, seed, doors } = ground;
    let Stock { site, keepers } = stock;
    let Objects {
        mut network,
        children,
        console,
        stores,
        sinks,
        gate,
    } = things;
    let limits = Limits {
        connections: limit_of(server.connections),
        keeps: false,
    };
    let outfit = Outfit {
        doors,
        console,
        children,
        keepers,
        log,
        gate,
    };
    let left = serve_site(rt, alloc, &site, &seed, limits, outfit);
    network.close(left.doors);
    let things = Objects {
        network,
        children: left.children,
        console: left.console,
        stores,
        sinks,
        gate: left.gate,
    };
    (things, left.log, left.ran, left.keepers)
}

// The same with the log in a sink that was opened at a path, which is closed at the end of a run, and let go
// where none began.
fn serve_logged<R, E, K>(
    rt: &R,
    alloc: Global,
    server: &Server<'_>,
    ground: Ground<<E::Network as Network>::Door, K>,
    path: &str,
    sink: <E::Sinks as Sinks>::Sink,
    things: ObjectsOf<E>,
) -> (ObjectsOf<E>, Option<Ran>, Vec<K>)
where
    R: Wait + Threads + Sync,
    E: Equipment,
    K: Keeper + Send + Drop,
    K::Pin: Send,
    requires ground { IsGround (serving_of server.now) (arc_value ground.stock.site) (map (keeper_of K.tables K.told K.faults K.steady) ground.stock.keepers.items) (map E.Network.Door.entrance ground.doors.items) }
    requires sink { IsNewSink (E.Sinks.Sink.given sink) (E.Sinks.Sink.faults sink) }
    ensures ran { IfSome result.1 (RanLogged E.Network.Door.Conn.wire (serving_of server.now) (arc_value ground.stock.site) ground.seed path.now (gear_of E.Network.net E.Children.family E.Console.wire E.Stores.depot E.Sinks.rack things) (gear_of E.Network.net E.Children.family E.Console.wire E.Stores.depot E.Sinks.rack result.0) (map (keeper_of K.tables K.told K.faults K.steady) result.2.items)) }
    ensures unran { IsNone result.1 → gear_of E.Network.net E.Children.family E.Console.wire E.Stores.depot E.Sinks.rack result.0 ≡ shut (serving_of server.now) (gear_of E.Network.net E.Children.family E.Console.wire E.Stores.depot E.Sinks.rack things) }
{
    let (mut things, log, ran, keepers) = serve_over::<R, E, K, _>(
        rt, alloc, server, ground, sink, things,
    );
    let Some(ran) = ran else {
        return (things, None, keepers);
    };
    match log {
        Some(sink) => {
            things.sinks.close(path, sink);
            (things, Some(ran), keepers)
        }
        None => (things, Some(ran), keepers),
    }
}

// The same with the log's text going nowhere.
fn serve_unlogged<R, E, K>(
    rt: &R,
    alloc: Global,
    server: &Server<'_>,
    ground: Ground<<E::Network as Network>::Door, K>,
    things: ObjectsOf<E>,
) -> (ObjectsOf<E>, Option<Ran>, Vec<K>)
where
    R: Wait + Threads + Sync,
    E: Equipment,
    K: Keeper + Send + Drop,
    K::Pin: Send,
    requires { IsGround (serving_of server.now) (arc_value ground.stock.site) (map (keeper_of K.tables K.told K.faults K.steady) ground.stock.keepers.items) (map E.Network.Door.entrance ground.doors.items) }
    ensures ran { IfSome result.1 (RanUnlogged E.Network.Door.Conn.wire (serving_of server.now) (arc_value ground.stock.site) ground.seed (gear_of E.Network.net E.Children.family E.Console.wire E.Stores.depot E.Sinks.rack things) (gear_of E.Network.net E.Children.family E.Console.wire E.Stores.depot E.Sinks.rack result.0) (map (keeper_of K.tables K.told K.faults K.steady) result.2.items)) }
    ensures unran { IsNone result.1 → gear_of E.Network.net E.Children.family E.Console.wire E.Stores.depot E.Sinks.rack result.0 ≡ shut (serving_of server.now) (gear_of E.Network.net E.Children.family E.Console.wire E.Stores.depot E.Sinks.rack things) }
{
    let (things, _, ran, keepers) = serve_over::<R, E, K, _>(
        rt,
        alloc,
        server,
        ground,
        Nowhere {},
        things,
    );
    (things, ran, keepers)
}

/// Serves over doors that are open, with the log where the words say, and closes them; answers also
/// whether the log's sink could not be opened. The keepers come back where the run began.
pub fn serve_doors<R, E, K>(
    rt: &R,
    alloc: Global,
    server: &Server<'_>,
    ground: Ground<<E::Network as Network>::Door, K>,
    mut things: ObjectsOf<E>,
) -> (ObjectsOf<E>, Option<Ran>, bool, Vec<K>)
where
    R: Wait + Threads + Sync,
    E: Equipment,
    K: Keeper + Send + Drop,
    K::Pin: Send,
    requires { IsGround (serving_of server.now) (arc_value ground.stock.site) (map (keeper_of K.tables K.told K.faults K.steady) ground.stock.keepers.items) (map E.Network.Door.entrance ground.doors.items) }
    ensures ran { IfSome result.1 (λ ran. RanAt E.Network.Door.Conn.wire (serving_of server.now) (arc_value ground.stock.site) ground.seed (gear_of E.Network.net E.Children.family E.Console.wire E.Stores.depot E.Sinks.rack things) (gear_of E.Network.net E.Children.family E.Console.wire E.Stores.depot E.Sinks.rack result.0) (map (keeper_of K.tables K.told K.faults K.steady) result.3.items) ran result.2) }
    ensures unran { IsNone result.1 → IsUntouched (serving_of server.now) (gear_of E.Network.net E.Children.family E.Console.wire E.Stores.depot E.Sinks.rack things) (gear_of E.Network.net E.Children.family E.Console.wire E.Stores.depot E.Sinks.rack result.0) }
{
    let Some(path) = server.log else {
        let (things, ran, keepers) = serve_unlogged::<R, E, K>(rt, alloc, server, ground, things);
        return (things, ran, false, keepers);
    };
    match things.sinks.open(path) {
        Err(_) => {
            let (things, ran, keepers) = serve_unlogged::<R, E, K>(
                rt, alloc, server, ground, things,
            );
            (things, ran, true, keepers)
        }
        Ok(sink) => {
            let (things, ran, keepers) = serve_logged::<R, E, K>(
                rt, alloc, server, ground, path, sink, things,
            );
            (things, ran, false, keepers)
        }
    }
}
