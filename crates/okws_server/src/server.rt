//! A server: its configuration, its doors, its run, and what is printed at its end.

ghost use Rattle.std.specs.Prelude.{◌≡◌, ◌||◌, IsSome, None, Some, is_some, map, true};
ghost use Rattle.std.specs.Arc.{arc_value};
ghost use Rattle.std.specs.List.{list_any};
ghost use Rattle.okws_plan.specs.Sound.{IsSound};
ghost use Rattle.config_reader.specs.Ruled.{AreRuled};
ghost use Rattle.site_making.specs.Keepers.{are_steady, keeper_of};
ghost use Rattle.store_keeper.specs.Sites.{AllTell};
ghost use Rattle.okws_server.specs.Ending.{RoseWhere};
ghost use Rattle.okws_server.specs.Served.{EndsAs, IsGround, IsServing, IsStock, ServesConfig, ServesOpen, ServesOver, ServesWords, Tells, serving_of};
ghost use Rattle.okws_server.specs.Views.{gear_of, view_of};

use crate::counting::print_counts;
use crate::ending::{NO_MEMORY, out_status, print_config_refusal, print_last};
use crate::ground::{Ground, Stock, stock_of, stored_stock};
use crate::preparing::{ConfigStop, read_config};
use crate::script_run::empty_record;
use crate::serving::serve_doors;
use crate::status::Status;
use command_line::command::Server;
use monitor_model::record::Record;
use okws_outer::error::MakeError;
use okws_outer::files::Files;
use okws_outer::keeper::Keeper;
use okws_outer::network::Network;
use okws_outer::printing::print;
use okws_outer::stream::Sink;
use okws_plan::configuration::Config;
use okws_serve::outfit::Ran;
use okws_world::equipment::{Equipment, ObjectsOf};
use std::alloc::Global;
use std::sync::Wait;
use std::thread::Threads;
use store_keeper::{StoredKeeper, give_back};
use token_core::Seed;

/// What is printed where a file of the record is asked for, which isn't there yet.
pub const NOT_YET: &[u8] = b"error: --audit is not there yet\n";

/// The last line of a run whose configuration could not be read.
const READ_FAULT: &[u8] = b"read fault\n";

/// The last line of a run whose stores could not be opened.
const STORE_FAULT: &[u8] = b"store fault\n";

/// The last line of a run whose doors could not be opened.
const NET_FAULT: &[u8] = b"net fault\n";

/// How a server's run ended, its record, and its further objects.
type Ended<E> = (Status, Record, ObjectsOf<E>);

// Whether the log lacks some of its text.
fn lacks_log(ran: &Ran, missed: bool) -> bool
    ensures { result ≡ (missed || ran.now.log_failed) }
{
    missed || ran.log_failed
}

// Whether a store has parted from the keeper that has its rows.
fn has_lost<K: Keeper>(keepers: &[K]) -> bool
    ensures { result ≡ list_any K.parted keepers.now }
{
    keepers.iter().any(|keeper| keeper.has_parted())
}

// Whether memory was refused to a run, or a store has parted from its keeper, which is want of memory too.
fn lacks_memory(ran: &Ran, lost: bool) -> bool
    ensures { result ≡ (ran.now.starved || lost) }
{
    ran.starved || lost
}

// Prints the counts of a run, and the last line of one that ends with a fault, or no more than that memory was
// refused; answers how it ends.
fn print_end<O: Sink>(out: &mut O, ran: &Ran, missed: bool, lost: bool) -> Status
    ensures { EndsAs ran.now missed lost (O.given out.old) (O.given out.new) (RoseWhere (O.faults out.old) (O.faults out.new)) result }
{
    let mut stopped = false;
    if lacks_memory(ran, lost) {
        print(out, &mut stopped, NO_MEMORY);
        return Status::NoMemory;
    }
    print_counts(out, &mut stopped, &ran.counts);
    if lacks_log(ran, missed) {
        print(out, &mut stopped, b"log fault\n");
        return Status::LogFault;
    }
    if ran.console_failed {
        print(out, &mut stopped, b"console fault\n");
        return Status::ConsoleFault;
    }
    out_status(stopped)
}

// Ends a run that did nothing but with this last line.
fn refused<O: Sink, E: Equipment>(
    alloc: Global,
    out: &mut O,
    line: &[u8],
    status: Status,
    things: ObjectsOf<E>,
) -> Ended<E>
    ensures status { result.0 ≡ status }
    ensures things { result.2 ≡ things }
    ensures tells { Tells (O.given out.old) (O.given out.new) line.now (RoseWhere (O.faults out.old) (O.faults out.new)) result.1 }
{
    print_last(out, line);
    (status, empty_record(alloc), things)
}

// Serves a site whose doors are open. The keepers come back where the run began.
fn serve_open<R, O, E, K>(
    rt: &R,
    alloc: Global,
    server: &Server<'_>,
    ground: Ground<<E::Network as Network>::Door, K>,
    out: &mut O,
    things: ObjectsOf<E>,
) -> (Ended<E>, Vec<K>)
where
    R: Wait + Threads + Sync,
    O: Sink,
    E: Equipment,
    K: Keeper + Send + Drop,
    K::Pin: Send,
    requires { IsGround (serving_of server.now) (arc_value ground.stock.site) (map (keeper_of K.tables K.told K.faults K.steady) ground.stock.keepers.items) (map E.Network.Door.entrance ground.doors.items) }
    ensures { ServesOpen E.Network.Door.Conn.wire (serving_of server.now) (arc_value ground.stock.site) ground.seed (gear_of E.Network.net E.Children.family E.Console.wire E.Stores.depot E.Sinks.rack things) (gear_of E.Network.net E.Children.family E.Console.wire E.Stores.depot E.Sinks.rack result.0.2) (keeper_of K.tables K.told K.faults K.steady) K.parted result.1.items (O.given out.old) (O.given out.new) (RoseWhere (O.faults out.old) (O.faults out.new)) result.0.1 result.0.0 }
{
    let (things, ran, missed, keepers) = serve_doors::<R, E, K>(rt, alloc, server, ground, things);
    let Some(ran) = ran else {
        let ended = refused::<O, E>(alloc, out, NO_MEMORY, Status::NoMemory, things);
        return (ended, Vec::new(alloc));
    };
    let status = print_end(out, &ran, missed, has_lost(&keepers));
    ((status, ran.record, things), keepers)
}

// Serves a site over keepers of its rows: its doors are opened. The keepers come back, as they were where no
// run began; but none does where memory was refused once the doors were open.
fn serve_stock<R, O, E, K>(
    rt: &R,
    alloc: Global,
    server: &Server<'_>,
    stock: Stock<K>,
    seed: Seed,
    out: &mut O,
    mut things: ObjectsOf<E>,
) -> (Ended<E>, Vec<K>)
where
    R: Wait + Threads + Sync,
    O: Sink,
    E: Equipment,
    K: Keeper + Send + Drop,
    K::Pin: Send,
    requires stock { IsStock (arc_value stock.site) (map (keeper_of K.tables K.told K.faults K.steady) stock.keepers.items) }
    requires steady { (serving_of server.now).store ≡ None → are_steady (map (keeper_of K.tables K.told K.faults K.steady) stock.keepers.items) ≡ true }
    requires words { IsServing (serving_of server.now) }
    ensures { ServesOver E.Network.Door.Conn.wire (serving_of server.now) (arc_value stock.site) seed (gear_of E.Network.net E.Children.family E.Console.wire E.Stores.depot E.Sinks.rack things) (gear_of E.Network.net E.Children.family E.Console.wire E.Stores.depot E.Sinks.rack result.0.2) (keeper_of K.tables K.told K.faults K.steady) K.parted stock.keepers.items result.1.items (O.given out.old) (O.given out.new) (RoseWhere (O.faults out.old) (O.faults out.new)) result.0.1 result.0.0 }
{
    match things
        .network
        .listen(alloc, server.port, server.doors, server.patience)
    {
        Ok(doors) => {
            let ground = Ground { stock, seed, doors };
            serve_open::<R, O, E, K>(rt, alloc, server, ground, out, things)
        }
        Err(MakeError::Failed) => {
            let ended = refused::<O, E>(alloc, out, NET_FAULT, Status::NetFault, things);
            (ended, stock.keepers)
        }
        Err(MakeError::NoMemory) => {
            let ended = refused::<O, E>(alloc, out, NO_MEMORY, Status::NoMemory, things);
            (ended, stock.keepers)
        }
    }
}

// The same over keepers beside stores.
fn serve_beside<R, O, E, K>(
    rt: &R,
    alloc: Global,
    server: &Server<'_>,
    stock: Stock<StoredKeeper<K>>,
    seed: Seed,
    out: &mut O,
    things: ObjectsOf<E>,
) -> (Ended<E>, Vec<StoredKeeper<K>>)
where
    R: Wait + Threads + Sync,
    O: Sink,
    E: Equipment,
    K: Keeper + Send + Drop,
    K::Pin: Send,
    requires stock { IsStock (arc_value stock.site) (map (keeper_of ⟦<StoredKeeper<K> as Keeper>⟧.tables ⟦<StoredKeeper<K> as Keeper>⟧.told ⟦<StoredKeeper<K> as Keeper>⟧.faults ⟦<StoredKeeper<K> as Keeper>⟧.steady) stock.keepers.items) }
    requires stores { IsSome (serving_of server.now).store }
    requires words { IsServing (serving_of server.now) }
    ensures { ServesOver E.Network.Door.Conn.wire (serving_of server.now) (arc_value stock.site) seed (gear_of E.Network.net E.Children.family E.Console.wire E.Stores.depot E.Sinks.rack things) (gear_of E.Network.net E.Children.family E.Console.wire E.Stores.depot E.Sinks.rack result.0.2) (keeper_of ⟦<StoredKeeper<K> as Keeper>⟧.tables ⟦<StoredKeeper<K> as Keeper>⟧.told ⟦<StoredKeeper<K> as Keeper>⟧.faults ⟦<StoredKeeper<K> as Keeper>⟧.steady) ⟦<StoredKeeper<K> as Keeper>⟧.parted stock.keepers.items result.1.items (O.given out.old) (O.given out.new) (RoseWhere (O.faults out.old) (O.faults out.new)) result.0.1 result.0.0 }
{
    serve_stock::<R, O, E, StoredKeeper<K>>(rt, alloc, server, stock, seed, out, things)
}

// Serves a site that was read, with rows in memory.
fn serve_in_memory<R, O, E>(
    rt: &R,
    alloc: Global,
    server: &Server<'_>,
    config: Config,
    seed: Seed,
    out: &mut O,
    things: ObjectsOf<E>,
) -> Ended<E>
where
    R: Wait + Threads + Sync,
    O: Sink,
    E: Equipment,
    requires sound { IsSound config }
    requires rules { AreRuled config }
    requires words { IsServing (serving_of server.now) }
    requires memory { (serving_of server.now).store ≡ None }
    ensures { ServesConfig E.Network.Door.Conn.wire (AllTell E.Stores.Keeper.told) (serving_of server.now) config seed (gear_of E.Network.net E.Children.family E.Console.wire E.Stores.depot E.Sinks.rack things) (gear_of E.Network.net E.Children.family E.Console.wire E.Stores.depot E.Sinks.rack result.2) (O.given out.old) (O.given out.new) (RoseWhere (O.faults out.old) (O.faults out.new)) result.1 result.0 }
{
    let Ok(stock) = stock_of(alloc, config) else {
        return refused::<O, E>(alloc, out, NO_MEMORY, Status::NoMemory, things);
    };
    let (ended, _) = serve_stock::<R, O, E, _>(rt, alloc, server, stock, seed, out, things);
    ended
}

// Serves a site that was read, with rows in files: its stores are opened first, and given back at last.
fn serve_stored<R, O, E>(
    rt: &R,
    alloc: Global,
    server: &Server<'_>,
    file: &str,
    config: Config,
    seed: Seed,
    out: &mut O,
    mut things: ObjectsOf<E>,
) -> Ended<E>
where
    R: Wait + Threads + Sync,
    O: Sink,
    E: Equipment,
    requires sound { IsSound config }
    requires rules { AreRuled config }
    requires words { IsServing (serving_of server.now) }
    requires stores { (serving_of server.now).store ≡ Some file.now }
    ensures { ServesConfig E.Network.Door.Conn.wire (AllTell E.Stores.Keeper.told) (serving_of server.now) config seed (gear_of E.Network.net E.Children.family E.Console.wire E.Stores.depot E.Sinks.rack things) (gear_of E.Network.net E.Children.family E.Console.wire E.Stores.depot E.Sinks.rack result.2) (O.given out.old) (O.given out.new) (RoseWhere (O.faults out.old) (O.faults out.new)) result.1 result.0 }
{
    match stored_stock(alloc, &mut things.stores, file, config) {
        Ok(stock) => {
            let (ended, keepers) = serve_beside::<R, O, E, _>(
                rt, alloc, server, stock, seed, out, things,
            );
            let (status, record, mut things) = ended;
            give_back(&mut things.stores, keepers);
            (status, record, things)
        }
        Err(MakeError::Failed) => {
            refused::<O, E>(alloc, out, STORE_FAULT, Status::StoreFault, things)
        }
        Err(MakeError::NoMemory) => {
            refused::<O, E>(alloc, out, NO_MEMORY, Status::NoMemory, things)
        }
    }
}

// Serves a site that was read, with rows where the words say.
fn serve_config<R, O, E>(
    rt: &R,
    alloc: Global,
    server: &Server<'_>,
    config: Config,
    seed: Seed,
    out: &mut O,
    things: ObjectsOf<E>,
) -> Ended<E>
where
    R: Wait + Threads + Sync,
    O: Sink,
    E: Equipment,
    requires sound { IsSound config }
    requires rules { AreRuled config }
    requires words { IsServing (serving_of server.now) }
    ensures { ServesConfig E.Network.Door.Conn.wire (AllTell E.Stores.Keeper.told) (serving_of server.now) config seed (gear_of E.Network.net E.Children.family E.Console.wire E.Stores.depot E.Sinks.rack things) (gear_of E.Network.net E.Children.family E.Console.wire E.Stores.depot E.Sinks.rack result.2) (O.given out.old) (O.given out.new) (RoseWhere (O.faults out.old) (O.faults out.new)) result.1 result.0 }
{
    match server.store {
        None => serve_in_memory::<R, O, E>(rt, alloc, server, config, seed, out, things),
        Some(file) => serve_stored::<R, O, E>(rt, alloc, server, file, config, seed, out, things),
    }
}

// Whether a file of the record is asked for.
fn wants_audit(server: &Server<'_>) -> bool
    ensures { result ≡ is_some (serving_of server.now).audit }
{
    server.audit.is_some()
}

/// Reads a configuration, and serves its site.
pub fn serve<R, F, O, E>(
    rt: &R,
    alloc: Global,
    server: &Server<'_>,
    seed: Seed,
    files: &mut F,
    out: &mut O,
    things: ObjectsOf<E>,
) -> Ended<E>
where
    R: Wait + Threads + Sync,
    F: Files,
    O: Sink,
    E: Equipment,
    requires { IsServing (serving_of server.now) }
    ensures { ServesWords E.Network.Door.Conn.wire (AllTell E.Stores.Keeper.told) (serving_of server.now)
        (view_of F.shelf O.given O.faults files.old out.old (gear_of E.Network.net E.Children.family E.Console.wire E.Stores.depot E.Sinks.rack things) seed)
        (view_of F.shelf O.given O.faults files.new out.new (gear_of E.Network.net E.Children.family E.Console.wire E.Stores.depot E.Sinks.rack result.2) seed)
        result.1 result.0 }
{
    if wants_audit(server) {
        return refused::<O, E>(alloc, out, NOT_YET, Status::Usage, things);
    }
    match read_config(alloc, files, server.config) {
        Ok(config) => serve_config::<R, O, E>(rt, alloc, server, config, seed, out, things),
        Err(ConfigStop::ReadFault) => {
            refused::<O, E>(alloc, out, READ_FAULT, Status::ReadFault, things)
        }
        Err(ConfigStop::NoMemory) => {
            refused::<O, E>(alloc, out, NO_MEMORY, Status::NoMemory, things)
        }
        Err(ConfigStop::Refused(refusal)) => {
            let status = print_config_refusal(alloc, out, refusal);
            (status, empty_record(alloc), things)
        }
    }
}
