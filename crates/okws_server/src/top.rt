//! A run of the program.

ghost use Rattle.std.specs.Prelude.{◌≡◌, Some, None, IsSome, map, string_bytes};
ghost use Rattle.command_line.specs.Asked.{asked};
ghost use Rattle.command_line.specs.Meant.{meant};
ghost use Rattle.okws_outer.specs.declared.world.Outside.{Outside};
ghost use Rattle.okws_world.specs.declared.equipment.Objects.{Objects};
ghost use Rattle.store_keeper.specs.Sites.{AllTell};
ghost use Rattle.okws_server.specs.Commands.{Does, Obeys, Says, TellsVersion, IsWithin};
ghost use Rattle.okws_server.specs.Ending.{Told, no_memory_line, read_fault_line, RoseWhere};
ghost use Rattle.okws_server.specs.Ran.{Played};
ghost use Rattle.okws_server.specs.Views.{gear_of, view_of};

use crate::checking::check;
use crate::drilling::drill;
use crate::ending::{
    out_status, print_config_refusal, print_last, print_no_memory, print_read_fault,
};
use crate::preparing::{Stop, prepare};
use crate::script_run::{empty_record, play_prepared};
use crate::server::serve;
use crate::status::Status;
use command_line::answer::{VERSION, answer};
use command_line::command::{Command, command_of};
use monitor_model::record::Record;
use okws_outer::files::Files;
use okws_outer::printing::print;
use okws_outer::stream::Sink;
use okws_outer::world::{Outside, World};
use okws_world::equipment::{Equipment, ObjectsOf};
use okws_world::equipped::Equipped;
use std::alloc::Global;
use std::sync::Wait;
use std::thread::Threads;
use token_core::Seed;

/// Reads a configuration and a script, and plays the script.
fn play<F: Files, O: Sink>(
    alloc: Global,
    files: &mut F,
    out: &mut O,
    config: &str,
    script: &str,
) -> (Status, Record)
    ensures { Played (F.shelf files.old) (F.shelf files.new) config.now script.now
        (O.given out.old) (O.given out.new) (RoseWhere (O.faults out.old) (O.faults out.new)) result.1 result.0 }
{
    match prepare(alloc, files, config, script) {
        Ok(prepared) => play_prepared(alloc, prepared, out),
        Err(Stop::ReadFault) => {
            print_read_fault(out);
            (Status::ReadFault, empty_record(alloc))
        }
        Err(Stop::Refused(refusal)) => {
            let status = print_config_refusal(alloc, out, refusal);
            (status, empty_record(alloc))
        }
        Err(Stop::NoMemory) => {
            print_no_memory(out);
            (Status::NoMemory, empty_record(alloc))
        }
    }
}

/// Prints that memory was refused, as where it was refused before the words were there. Takes no memory.
pub fn answer_no_memory<O: Sink>(out: &mut O) -> Status
    ensures status { result ≡ Status.NoMemory }
    ensures told { Told (O.given out.old) (O.given out.new) no_memory_line (RoseWhere (O.faults out.old) (O.faults out.new)) }
{
    print_no_memory(out);
    Status::NoMemory
}

/// Prints that a file could not be read, as where the system has no random bytes for the seed. Takes no
/// memory.
pub fn answer_read_fault<O: Sink>(out: &mut O) -> Status
    ensures status { result ≡ Status.ReadFault }
    ensures told { Told (O.given out.old) (O.given out.new) read_fault_line (RoseWhere (O.faults out.old) (O.faults out.new)) }
{
    print_read_fault(out);
    Status::ReadFault
}

/// Says of words that are no command how the program is called.
pub fn answer_words<O: Sink>(alloc: Global, words: &[String], out: &mut O) -> Status
    ensures { Says (O.given out.old) (O.given out.new) (RoseWhere (O.faults out.old) (O.faults out.new)) result }
{
    match answer(alloc, words) {
        Ok(text) => {
            print_last(out, text.as_bytes());
            Status::Usage
        }
        Err(_) => answer_no_memory(out),
    }
}

// Tells the program's version.
fn tell_version<O: Sink>(out: &mut O) -> Status
    ensures { TellsVersion (O.given out.old) (O.given out.new) (RoseWhere (O.faults out.old) (O.faults out.new)) result }
{
    let mut stopped = false;
    print(out, &mut stopped, VERSION.as_bytes());
    out_status(stopped)
}

// Does what a command asks for.
fn obey<R, F, O, E>(
    rt: &R,
    alloc: Global,
    command: Command<'_>,
    seed: Seed,
    files: &mut F,
    out: &mut O,
    things: ObjectsOf<E>,
) -> (Status, Record, ObjectsOf<E>)
where
    R: Wait + Threads + Sync,
    F: Files,
    O: Sink,
    E: Equipment,
    requires { IsWithin (meant command) }
    ensures { Does E.Network.Door.Conn.wire (AllTell E.Stores.Keeper.told) (Some (meant command.entry))
        (view_of F.shelf O.given O.faults files.old out.old (gear_of E.Network.net E.Children.family E.Console.wire E.Stores.depot E.Sinks.rack things) seed)
        (view_of F.shelf O.given O.faults files.new out.new (gear_of E.Network.net E.Children.family E.Console.wire E.Stores.depot E.Sinks.rack result.2) seed)
        result.1 result.0 }
{
    match command {
        Command::Check { config } => {
            let status = check(alloc, files, out, config);
            (status, empty_record(alloc), things)
        }
        Command::Play { config, script } => {
            let (status, record) = play(alloc, files, out, config, script);
            (status, record, things)
        }
        Command::Drill { seed, events } => {
            let (status, record) = drill(alloc, out, seed, events);
            (status, record, things)
        }
        Command::Serve(server) => serve::<R, F, O, E>(rt, alloc, &server, seed, files, out, things),
        Command::Version => (tell_version(out), empty_record(alloc), things),
    }
}

// Does what the words ask for.
fn run<R, F, O, E>(
    rt: &R,
    alloc: Global,
    words: &[String],
    seed: Seed,
    files: &mut F,
    out: &mut O,
    things: ObjectsOf<E>,
) -> (Status, Record, ObjectsOf<E>)
where
    R: Wait + Threads + Sync,
    F: Files,
    O: Sink,
    E: Equipment,
    ensures { Obeys E.Network.Door.Conn.wire (AllTell E.Stores.Keeper.told) (asked (map string_bytes words.now))
        (view_of F.shelf O.given O.faults files.old out.old (gear_of E.Network.net E.Children.family E.Console.wire E.Stores.depot E.Sinks.rack things) seed)
        (view_of F.shelf O.given O.faults files.new out.new (gear_of E.Network.net E.Children.family E.Console.wire E.Stores.depot E.Sinks.rack result.2) seed)
        result.1 result.0 }
{
    match command_of(alloc, words) {
        Ok(Some(command)) => obey::<R, F, O, E>(rt, alloc, command, seed, files, out, things),
        Ok(None) => (answer_words(alloc, words, out), empty_record(alloc), things),
        Err(_) => (answer_no_memory(out), empty_record(alloc), things),
    }
}

/// A run of the program by its words, over the objects of its world: how it ended, and what it left.
///
/// `check CONFIG` prints a line `PROXY NUMBER TEXT` for each query of a configuration, the text
/// canonical. `play CONFIG SCRIPT` plays the script's lines one after another, prints
/// `heard SERVICE K HEX` for each frame that a service hears and `answer N TEXT` for each response,
/// and leaves its record. `drill SEED EVENTS` plays a script that the two numbers give over a site of
/// the program's own, prints how many frames of each kind were heard, and leaves its record.
/// `serve CONFIG --port P --serve N` serves a site whose services are programs, at P of the loopback
/// address, to N connections, with its rows in memory, or in files that are named after FILE of
/// `--store FILE`; with `--always` in the place of `--serve N` to as many as come. `--version` prints the
/// program's version. Other words are answered with how the program is called.
pub fn okws<R, W>(rt: &R, alloc: Global, words: &[String], world: &mut W) -> (Status, Record)
where
    R: Wait + Threads + Sync,
    W: Equipped,
    requires objects { IsSome (W.objects world.old) }
    requires equipment { IsSome (W.equipment world.old) }
    ensures whole { IsSome (W.objects world.new) }
    ensures equipped { IsSome (W.equipment world.new) }
    ensures runs { (a b : Outside W.Files W.Out) (s t : Objects W.Equipment.Network W.Equipment.Children W.Equipment.Console W.Equipment.Stores W.Equipment.Sinks W.Equipment.Gate) →
        W.objects world.old ≡ Some a → W.equipment world.old ≡ Some s → W.objects world.new ≡ Some b → W.equipment world.new ≡ Some t →
        Obeys W.Equipment.Network.Door.Conn.wire (AllTell W.Equipment.Stores.Keeper.told) (asked (map string_bytes words.now))
        (view_of W.Files.shelf W.Out.given W.Out.faults a.files a.out (gear_of W.Equipment.Network.net W.Equipment.Children.family W.Equipment.Console.wire W.Equipment.Stores.depot W.Equipment.Sinks.rack s) a.seed)
        (view_of W.Files.shelf W.Out.given W.Out.faults b.files b.out (gear_of W.Equipment.Network.net W.Equipment.Children.family W.Equipment.Console.wire W.Equipment.Stores.depot W.Equipment.Sinks.rack t) b.seed)
        result.1 result.0 }
{
    let things = world.equip();
    let Outside {
        mut files,
        mut out,
        seed,
    } = world.open();
    let ended = run::<R, W::Files, W::Out, W::Equipment>(
        rt, alloc, words, seed, &mut files, &mut out, things,
    );
    world.close(Outside { files, out, seed });
    let (status, record, things) = ended;
    world.unequip(things);
    (status, record)
}
