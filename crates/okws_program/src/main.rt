//! The program: the run over the objects of the system.
#![tactic(auto)]

ghost use Rattle.std.specs.Prelude.{IsSome, IfOk};

use okws_server::status::Status;
use okws_server::{answer_no_memory, answer_read_fault, answer_words, okws};
use okws_system::output::Writing;
use okws_system::standard::hold_standard_descriptors;
use okws_system::system::{RealWorld, random_seed, real_world};
use std::io::{Printer, StdinLock};
use std::process::ExitCode;
use std::rt::Env;
use std::{env, io};

/// The world of the program.
type World<'r> = RealWorld<'r, HostRuntime, StdinLock<'r>, Printer<'r, HostRuntime>>;

/// The words after the program's name; a word that is no UTF-8 is an error.
fn words_of<R: Env + AllocGlobal>(rt: &R) -> io::Result<Vec<String>> {
    let given = env::args(rt)?;
    let mut words = Vec::new(rt.alloc());
    for word in given.skip(1) {
        words.push(word)?;
    }
    Ok(words)
}

/// Says why a run didn't begin.
fn answer_error(rt: &HostRuntime, error: &io::Error) -> Status {
    let mut out = Writing::new(io::writer(rt));
    match error.kind() {
        io::ErrorKind::OutOfMemory => answer_no_memory(&mut out),
        io::ErrorKind::InvalidData => answer_words(rt.alloc(), &[], &mut out),
        _ => answer_read_fault(&mut out),
    }
}

/// The world over a seed of the system's.
fn world_of(rt: &HostRuntime) -> io::Result<World<'_>>
    ensures outside { IfOk result (λ w. IsSome w.outside) }
    ensures further { IfOk result (λ w. IsSome w.further) }
{
    let seed = random_seed(rt)?;
    let world = real_world(rt, rt, seed, io::writer(rt), rt.reader(), io::writer(rt))?;
    Ok(world)
}

fn main(rt: HostRuntime) -> ExitCode {
    hold_standard_descriptors();
    let status = match (words_of(&rt), world_of(&rt)) {
        (Ok(words), Ok(mut world)) => {
            let (status, _record) = okws(&rt, rt.alloc(), &words, &mut world);
            status
        }
        (Err(error), _) | (_, Err(error)) => answer_error(&rt, &error),
    };
    ExitCode::from(status.number())
}
