//! What texts are read as, one case a line of standard input: a word says which reader, and what it is
//! given follows in the notation of `notation`. For each is printed what was read, or how it was
//! refused. Blank lines and those that begin with `#` are printed as they are.
#![tactic(auto)]

mod calls;
mod changes;
mod commands;
mod configurations;
mod frames;
mod links;
mod notation;
mod printing;
mod requests;
mod responses;
mod scripts;
mod statements;

use notation::bytes_of;
use std::alloc::{AllocError, Global};
use std::io;

/// What a reader that is given bytes alone makes of them.
fn tell(out: &mut String, alloc: Global, kind: &str, bytes: &[u8]) -> Result<(), AllocError> {
    match kind {
        "config" => configurations::config(out, alloc, bytes),
        "below" => configurations::below(out, alloc, bytes),
        "query" => statements::query(out, alloc, bytes),
        "line" => scripts::line(out, alloc, bytes),
        "script" => scripts::script(out, alloc, bytes),
        "lines" => scripts::lines(out, bytes),
        "path" => responses::path(out, bytes),
        "length" => responses::length(out, bytes),
        "request" => requests::request(out, alloc, bytes),
        _ => out.push_str("no such case"),
    }
}

/// What a reader that is given digits, numbers or words makes of them.
fn tell_words(out: &mut String, alloc: Global, kind: &str, text: &str) -> Result<(), AllocError> {
    match kind {
        "refused" => scripts::refused(out, alloc, text),
        "phrase" => responses::phrase_of(out, text),
        "own" => responses::own(out, alloc, text),
        "response" => responses::response_of(out, alloc, text),
        "pieces" => requests::pieces(out, alloc, text),
        "service" => frames::service(out, alloc, text),
        "server" => frames::server(out, alloc, text),
        "parts" => frames::parts(out, alloc, text),
        "link" => links::link(out, alloc, text),
        "words" => commands::words(out, alloc, text),
        "tells" => commands::tells(out, alloc, text),
        "ends" => commands::ends(out, alloc, text),
        "calls" => calls::calls(out, alloc, text),
        "change" => changes::change(out, alloc, text),
        _ => tell(out, alloc, kind, &bytes_of(alloc, text)?),
    }
}

/// The line that is printed for a line.
fn answer(alloc: Global, line: &str) -> Result<String, AllocError> {
    let mut out = String::new(alloc);
    if line.is_empty() || line.starts_with('#') {
        out.push_str(line)?;
    } else {
        let (kind, text) = line.split_once(' ').unwrap_or((line, ""));
        tell_words(&mut out, alloc, kind, text)?;
    }
    Ok(out)
}

fn main(rt: HostRuntime) -> io::Result<()> {
    for line in rt.lines(rt.alloc()) {
        let text = answer(rt.alloc(), line?.as_str())?;
        println!(rt; "{text}")?;
    }
    Ok(())
}
