//! What is told of words that are no command.

ghost use Rattle.std.specs.Prelude.{◌≡◌, ◌++◌, IfOk, string_bytes};
ghost use Rattle.command_line.specs.Usage.{TellsUsage};

use crate::command::{MOST_EVENTS, MOST_PATIENCE};
use clap::error::ErrorKind;
use clap::{Arg, ArgAction, ArgGroup, Command, Error, value_parser};
use okws_base::limit::{MOST_CONNECTIONS, MOST_DOORS};
use std::alloc::{AllocError, Global};

/// Why words are no command that are one but for the spelling of a number.
const SPELLING: &str = "a number is written in decimal digits, without sign or leading zero";

/// How the program is called, which is told at the end of each answer.
pub const USAGE: &str = "\n\
    okws check CONFIG\n\
    okws play CONFIG SCRIPT\n\
    okws drill SEED EVENTS\n\
    okws serve CONFIG --port PORT (--serve COUNT | --always) [--doors DOORS] [--patience SECONDS] [--store FILE] [--log FILE]\n\
    okws --version\n";

/// The line that tells the program's version.
pub const VERSION: &str = "okws 0.1\n";

/// The path of a file that a command needs.
fn path<'a>(alloc: Global, name: &'a str, help: &'a str) -> Arg<'a> {
    Arg::new(alloc, name).required(true).help(help)
}

/// An option whose value is the path of a file.
fn file<'a>(alloc: Global, name: &'a str, help: &'a str) -> Arg<'a> {
    Arg::new(alloc, name)
        .long(name)
        .value_name("FILE")
        .help(help)
}

fn config<'a>(alloc: Global) -> Arg<'a> {
    path(alloc, "CONFIG", "The configuration of the site")
}

fn check<'a>(alloc: Global) -> Result<Command<'a>, AllocError> {
    Command::new(alloc, "check")
        .about("Reads a configuration, and lists its queries")
        .arg(config(alloc))
}

fn script<'a>(alloc: Global) -> Arg<'a> {
    path(
        alloc,
        "SCRIPT",
        "The script, which says what the services send",
    )
}

fn play<'a>(alloc: Global) -> Result<Command<'a>, AllocError> {
    let files = vec![in alloc; config(alloc), script(alloc)]?;
    Command::new(alloc, "play")
        .about("Plays a script of a site, without sockets or programs")
        .args(files)
}

fn seed<'a>(alloc: Global) -> Arg<'a> {
    Arg::new(alloc, "SEED")
        .required(true)
        .value_parser(value_parser!(u64))
        .help("The number that gives the script, 0 to 18446744073709551615")
}

fn events<'a>(alloc: Global) -> Arg<'a> {
    Arg::new(alloc, "EVENTS")
        .required(true)
        .value_parser(value_parser!(u32).range(0..=i64::from(MOST_EVENTS)))
        .help("How many events it has, 0 to 100000")
}

fn drill<'a>(alloc: Global) -> Result<Command<'a>, AllocError> {
    let numbers = vec![in alloc; seed(alloc), events(alloc)]?;
    Command::new(alloc, "drill")
        .about("Plays a script that a number gives, and counts what was heard")
        .args(numbers)
}

fn port<'a>(alloc: Global) -> Arg<'a> {
    Arg::new(alloc, "port")
        .long("port")
        .value_name("PORT")
        .required(true)
        .value_parser(value_parser!(u16).range(1..))
        .help("The port of 127.0.0.1, 1 to 65535")
}

fn doors<'a>(alloc: Global) -> Arg<'a> {
    Arg::new(alloc, "doors")
        .long("doors")
        .value_name("DOORS")
        .value_parser(value_parser!(u16).range(1..=64))
        .help("How many connections are served at a time, 1 to 64; 2 where it isn't told")
}

fn connections<'a>(alloc: Global) -> Arg<'a> {
    Arg::new(alloc, "serve")
        .long("serve")
        .value_name("COUNT")
        .value_parser(value_parser!(u32).range(0..=i64::from(MOST_CONNECTIONS)))
        .help("How many connections are served in all, 0 to 1000000")
}

fn always<'a>(alloc: Global) -> Arg<'a> {
    Arg::new(alloc, "always")
        .long("always")
        .action(ArgAction::SetTrue)
        .help("As many connections are served as come")
}

/// One of the two says how many connections are served.
fn counts<'a>(alloc: Global) -> Result<ArgGroup<'a>, AllocError> {
    ArgGroup::new(alloc, "connections")
        .required(true)
        .arg("serve")?
        .arg("always")
}

fn patience<'a>(alloc: Global) -> Arg<'a> {
    Arg::new(alloc, "patience")
        .long("patience")
        .value_name("SECONDS")
        .value_parser(value_parser!(u16).range(1..=i64::from(MOST_PATIENCE)))
        .help("How long a client is waited for, 1 to 3600; without end where it isn't told")
}

/// The file of the rows.
fn store<'a>(alloc: Global) -> Arg<'a> {
    file(
        alloc,
        "store",
        "Where rows are kept; in memory where it isn't told",
    )
}

/// The file of the log.
fn log<'a>(alloc: Global) -> Arg<'a> {
    file(
        alloc,
        "log",
        "Where the log is written; nowhere where it isn't told",
    )
}

/// The file of the record, which no server writes yet.
fn audit<'a>(alloc: Global) -> Arg<'a> {
    file(
        alloc,
        "audit",
        "Where the record of the run is written at its end",
    )
    .hide(true)
}

/// What a server is told, in the order in which its help lists it.
fn server_words<'a>(alloc: Global) -> Result<Vec<Arg<'a>>, AllocError> {
    Ok(vec![in alloc;
        config(alloc),
        port(alloc),
        doors(alloc),
        connections(alloc),
        always(alloc),
        patience(alloc),
        store(alloc),
        log(alloc),
        audit(alloc),
    ]?)
}

fn serve<'a>(alloc: Global) -> Result<Command<'a>, AllocError> {
    let words = server_words(alloc)?;
    let counts = counts(alloc)?;
    Command::new(alloc, "serve")
        .about("Serves a site, whose services are programs")
        .args(words)?
        .group(counts)
}

/// Adds one more command, where that was made.
fn put_command<'a>(
    commands: &mut Vec<Command<'a>>,
    command: Result<Command<'a>, AllocError>,
) -> Result<(), AllocError> {
    match command {
        Ok(command) => Ok(commands.push(command)?),
        Err(error) => Err(error),
    }
}

fn commands<'a>(alloc: Global) -> Result<Vec<Command<'a>>, AllocError> {
    let mut commands = Vec::new(alloc);
    put_command(&mut commands, check(alloc))?;
    put_command(&mut commands, play(alloc))?;
    put_command(&mut commands, drill(alloc))?;
    put_command(&mut commands, serve(alloc))?;
    Ok(commands)
}

fn version<'a>(alloc: Global) -> Arg<'a> {
    Arg::new(alloc, "version")
        .long("version")
        .action(ArgAction::SetTrue)
        .help("Tells the version")
}

/// The program, as its help and its refusals are made.
fn program<'a>(alloc: Global) -> Result<Command<'a>, AllocError> {
    let commands = commands(alloc)?;
    Command::new(alloc, "okws")
        .about("Web services in least-privilege compartments")
        .no_binary_name(true)
        .subcommand_required(true)
        .arg_required_else_help(true)
        .args_conflicts_with_subcommands(true)
        .override_usage("okws <COMMAND>\n       okws --version")
        .arg(version(alloc))?
        .subcommands(commands)
}

/// The text of a refusal.
fn text_of(alloc: Global, error: &Error) -> Result<String, AllocError> {
    if error.kind() == ErrorKind::OutOfMemory {
        return Err(AllocError);
    }
    error.to_string(alloc)
}

/// Why `clap` refuses words; where it takes them, that a number is spelled otherwise.
fn refusal<'a>(mut program: Command<'a>, words: &'a [String]) -> Result<Error, AllocError> {
    match program.try_get_matches_from_mut(words) {
        Err(error) => Ok(error),
        Ok(_) => program.error(ErrorKind::ValueValidation, SPELLING),
    }
}

/// What `clap` tells of words that are no command: the help that they ask for, or why they are none.
fn told(alloc: Global, words: &[String]) -> Result<String, AllocError> {
    let refusal = refusal(program(alloc)?, words)?;
    text_of(alloc, &refusal)
}

/// The same text with how the program is called behind it.
fn with_usage(mut text: String) -> Result<String, AllocError>
    ensures { IfOk result (λ whole. string_bytes whole ≡ string_bytes text ++ USAGE.now) }
{
    text.push_str(USAGE)?;
    Ok(text)
}

/// What is told of words that are no command: the help that they ask for, or why they are none, and how
/// the program is called. Fails only where memory is refused.
pub fn answer(alloc: Global, words: &[String]) -> Result<String, AllocError>
    ensures { IfOk result (λ text. TellsUsage (string_bytes text)) }
{
    with_usage(told(alloc, words)?)
}
