//! The command of a child: its program's words, and an environment of PATH alone.

ghost use Rattle.std.specs.Prelude.{◌≡◌, ◌≢◌, ℕ, List, true, None, IfOk, codes};
ghost use Rattle.std.specs.Process.{clears_env, command_var};

use okws_base::items::Items;
use std::alloc::Global;
use std::env::VarError;
use std::io::ErrorKind;
use std::process::Command;
use std::rt::Env;
use std::{env, io, str};

/// A word as text; a program's words are UTF-8.
fn text_of(word: &Items<u8>) -> io::Result<&str> {
    match str::from_utf8(word.as_slice()) {
        Ok(text) => Ok(text),
        Err(_) => Err(io::Error::from(ErrorKind::InvalidInput)),
    }
}

/// The command of a program's name and its words.
pub(crate) fn command_of(alloc: Global, words: &[Items<u8>]) -> io::Result<Command> {
    let Some((program, args)) = words.split_first() else {
        return Err(io::Error::from(ErrorKind::InvalidInput));
    };
    let mut command = Command::new(alloc, text_of(program)?)?;
    for arg in args {
        command.arg(text_of(arg)?)?;
    }
    Ok(command)
}

/// The server's own PATH, where it has one that is text. Fails only where memory is refused.
pub(crate) fn search_path<R: Env + AllocGlobal>(rt: &R) -> io::Result<Option<String>> {
    match env::var(rt, "PATH") {
        Ok(path) => Ok(Some(path)),
        Err(VarError::OutOfMemory) => Err(io::Error::from(ErrorKind::OutOfMemory)),
        Err(_) => Ok(None),
    }
}

/// The command with an environment that has PATH alone, or nothing.
pub(crate) fn with_path(mut command: Command, path: Option<&str>) -> io::Result<Command>
    ensures clears { IfOk result (λ c. clears_env c ≡ true) }
    ensures others { IfOk result (λ c. (k : List ℕ) → k ≢ codes "PATH" → command_var c k ≡ None) }
{
    command.env_clear();
    if let Some(path) = path {
        command.env("PATH", path)?;
    }
    Ok(command)
}
