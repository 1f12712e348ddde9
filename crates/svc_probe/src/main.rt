//! A service that says whatever bytes its words spell, one word for each request: what is tried where
//! a service isn't to be trusted.
//!
//! `svc_probe WORD ..` writes at its i-th request the bytes of its i-th word: pairs of hexadecimal
//! digits, and `t` for the first token that Boot carried. The word `end`, or no word, ends it. It
//! passes over all that it hears but requests.
#![tactic(auto)]

mod probe;
#[cfg(test)]
mod tests;
mod word;

use probe::{Early, probe};
use std::alloc::AllocError;
use std::process::ExitCode;
use std::rt::Env;
use std::{env, io};
use svc_kit::link::over;
use svc_kit::standard::{Incoming, Outgoing};
use svc_kit::stop::Stop;

/// The words after the program's name; a word that is no UTF-8 is an error.
fn words_of<R: Env + AllocGlobal>(rt: &R) -> io::Result<Vec<String>> {
    let mut words = Vec::new(rt.alloc());
    for word in env::args(rt)?.skip(1) {
        words.push(word)?;
    }
    Ok(words)
}

/// Runs the probe on standard input and output.
fn run(rt: &HostRuntime, words: &[String]) -> Result<(), Early> {
    let source = Incoming::new(rt.reader());
    let sink = Outgoing::new(io::writer(rt));
    let mut link = over(rt.alloc(), source, sink)?;
    probe(rt.alloc(), &mut link, words)
}

/// The status is 0 where a word or the server ended it, 2 where a word spells nothing, and else 1.
fn main(rt: HostRuntime) -> ExitCode {
    let Ok(words) = words_of(&rt) else {
        return ExitCode::from(2);
    };
    match run(&rt, &words) {
        Ok(()) | Err(Early::Stop(Stop::Ended)) => ExitCode::from(0),
        Err(Early::BadWord) => ExitCode::from(2),
        Err(Early::Stop(_)) => ExitCode::from(1),
    }
}
