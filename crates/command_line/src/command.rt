//! Which command the words are.

ghost use Rattle.std.specs.Prelude.{◌≡◌, ◌^◌, ◌-◌, map, string_bytes, IfOk, Some, None, option_map};
ghost use Rattle.command_line.specs.Asked.{asked, check_of, play_of, drill_of, serve_of, version_of, command_of, port_in, doors_in, connections_in, patience_in, own_alone, drill_numbers, serve_config};
ghost use Rattle.command_line.specs.Meant.{parts_meant, options_meant, meant};

use crate::looks::is_same;
use crate::numbers::number_in;
use crate::options::{are_server_options, has_option, value_of};
use crate::parts::{Parts, parts_of};
use okws_base::limit::{MOST_CONNECTIONS, MOST_DOORS};
use std::alloc::{AllocError, Global};

/// Events that a drill may have.
pub const MOST_EVENTS: u32 = 100_000;

/// The seconds for which a server may wait for a client.
pub const MOST_PATIENCE: u16 = 3_600;

/// The doors of a server where their number isn't told.
pub const USUAL_DOORS: usize = 2;

/// What the words ask for.
#[derive(Clone, Copy, Debug)]
pub enum Command<'w> {
    /// The queries of a configuration are to be listed.
    Check {
        /// The path of the configuration.
        config: &'w str,
    },
    /// A script is to be played.
    Play {
        /// The path of the configuration.
        config: &'w str,
        /// The path of the script.
        script: &'w str,
    },
    /// A generated script is to be played.
    Drill {
        /// The number that gives the script.
        seed: u64,
        /// How many events it has.
        events: u32,
    },
    /// A site is to be served.
    Serve(Server<'w>),
    /// The program's version is to be told.
    Version,
}

/// How many connections are served.
#[derive(Clone, Copy, Debug)]
pub enum Connections {
    /// So many.
    Count(u32),
    /// As many as come.
    Always,
}

/// What a server is asked for.
#[derive(Clone, Copy, Debug)]
pub struct Server<'w> {
    /// The path of the configuration.
    pub config: &'w str,
    /// The port, from 1.
    pub port: u16,
    /// How many doors, from 1.
    pub doors: usize,
    /// How many connections are served.
    pub connections: Connections,
    /// For how many seconds a client is waited for, from 1, where that is told.
    pub patience: Option<u16>,
    /// The file of the rows, where one is told.
    pub store: Option<&'w str>,
    /// The file of the log, where one is told.
    pub log: Option<&'w str>,
    /// The file of the record, where one is told.
    pub audit: Option<&'w str>,
}

/// The words of their own, where there is no option.
fn own_alone<'p, 'w>(parts: &'p Parts<'w>) -> Option<&'p [&'w str]>
    ensures { option_map (λ own. map (λ s. s.now) own.now) result ≡ own_alone (parts_meant parts.now).options (parts_meant parts.now).own }
{
    if parts.options.is_empty() {
        Some(parts.own.as_slice())
    } else {
        None
    }
}

fn check_of<'w>(parts: &Parts<'w>) -> Option<Command<'w>>
    ensures { option_map meant result ≡ check_of (parts_meant parts.now) }
{
    match own_alone(parts)? {
        [config] => Some(Command::Check { config }),
        _ => None,
    }
}

fn play_of<'w>(parts: &Parts<'w>) -> Option<Command<'w>>
    ensures { option_map meant result ≡ play_of (parts_meant parts.now) }
{
    match own_alone(parts)? {
        [config, script] => Some(Command::Play { config, script }),
        _ => None,
    }
}

/// A drill of the numbers that two words write.
fn drill_numbers<'w>(seed: &str, events: &str) -> Option<Command<'w>>
    ensures { option_map meant result ≡ drill_numbers (seed.now, events.now) }
{
    let seed = number_in(0, u64::MAX, seed)?;
    let events = number_in(0, u64::from(MOST_EVENTS), events)?;
    Some(Command::Drill {
        seed,
        events: events as u32,
    })
}

fn drill_of<'w>(parts: &Parts<'w>) -> Option<Command<'w>>
    ensures { option_map meant result ≡ drill_of (parts_meant parts.now) }
{
    match own_alone(parts)? {
        [seed, events] => drill_numbers(seed, events),
        _ => None,
    }
}

fn port_in(options: &[(&str, &str)]) -> Option<u16>
    ensures { result ≡ port_in (options_meant options.now) }
{
    let port = number_in(1, 65_535, value_of("port", options)?)?;
    Some(port as u16)
}

fn doors_in(options: &[(&str, &str)]) -> Option<usize>
    ensures { result ≡ doors_in (options_meant options.now) }
{
    match value_of("doors", options) {
        Some(word) => {
            let doors = number_in(1, MOST_DOORS as u64, word)?;
            Some(doors as usize)
        }
        None => Some(USUAL_DOORS),
    }
}

fn connections_in(options: &[(&str, &str)]) -> Option<Connections>
    ensures { result ≡ connections_in (options_meant options.now) }
{
    match (has_option("always", options), value_of("serve", options)) {
        (true, None) => Some(Connections::Always),
        (false, Some(word)) => {
            let count = number_in(0, u64::from(MOST_CONNECTIONS), word)?;
            Some(Connections::Count(count as u32))
        }
        _ => None,
    }
}

fn patience_in(options: &[(&str, &str)]) -> Option<Option<u16>>
    ensures { result ≡ patience_in (options_meant options.now) }
{
    match value_of("patience", options) {
        Some(word) => {
            let seconds = number_in(1, u64::from(MOST_PATIENCE), word)?;
            Some(Some(seconds as u16))
        }
        None => Some(None),
    }
}

fn serve_config<'w>(options: &[(&'w str, &'w str)], config: &'w str) -> Option<Command<'w>>
    ensures { option_map meant result ≡ serve_config (options_meant options.now) config.now }
{
    let port = port_in(options)?;
    let doors = doors_in(options)?;
    let connections = connections_in(options)?;
    let patience = patience_in(options)?;
    Some(Command::Serve(Server {
        config,
        port,
        doors,
        connections,
        patience,
        store: value_of("store", options),
        log: value_of("log", options),
        audit: value_of("audit", options),
    }))
}

fn serve_of<'w>(parts: &Parts<'w>) -> Option<Command<'w>>
    ensures { option_map meant result ≡ serve_of (parts_meant parts.now) }
{
    if !are_server_options(&parts.options) {
        return None;
    }
    match parts.own.as_slice() {
        [config] => serve_config(&parts.options, config),
        _ => None,
    }
}

fn version_of<'w>(parts: &Parts<'w>) -> Option<Command<'w>>
    ensures { option_map meant result ≡ version_of (parts_meant parts.now) }
{
    match own_alone(parts)? {
        [] => Some(Command::Version),
        _ => None,
    }
}

/// What a command of this name is asked for by the parts behind it.
fn named<'w>(name: &str, parts: &Parts<'w>) -> Option<Command<'w>>
    ensures { option_map meant result ≡ command_of name.now (parts_meant parts.now) }
{
    if is_same(name, "check") {
        return check_of(parts);
    }
    if is_same(name, "play") {
        return play_of(parts);
    }
    if is_same(name, "drill") {
        return drill_of(parts);
    }
    if is_same(name, "serve") {
        return serve_of(parts);
    }
    if is_same(name, "--version") {
        return version_of(parts);
    }
    None
}

/// What the words ask for, or None where they are no command. Fails only where memory is refused.
pub fn command_of<'w>(alloc: Global, words: &'w [String]) -> Result<Option<Command<'w>>, AllocError>
    ensures { IfOk result (λ command. option_map meant command ≡ asked (map string_bytes words.now)) }
{
    let [name, behind @ ..] = words else {
        return Ok(None);
    };
    match parts_of(alloc, behind)? {
        Some(parts) => Ok(named(name.as_str(), &parts)),
        None => Ok(None),
    }
}
