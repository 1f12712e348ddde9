//! The words of the command line.

use crate::notation::bytes_of;
use command_line::answer::answer;
use command_line::command::command_of;
use std::alloc::{AllocError, Global};
use std::str;

/// The words of a line, which spaces part.
fn words_of(alloc: Global, line: &str) -> Result<Vec<String>, AllocError> {
    let mut words = Vec::new(alloc);
    for word in line.split(' ') {
        words.push(String::from_str(alloc, word)?)?;
    }
    Ok(words)
}

/// The command that the words of a line are.
pub fn words(out: &mut String, alloc: Global, line: &str) -> Result<(), AllocError> {
    let words = words_of(alloc, line)?;
    match command_of(alloc, &words) {
        Ok(Some(command)) => write!(out, "{command:?}"),
        Ok(None) => out.push_str("none"),
        Err(error) => Err(error),
    }
}

/// What is told of the words of a line that are no command.
fn told(alloc: Global, line: &str) -> Result<String, AllocError> {
    let words = words_of(alloc, line)?;
    answer(alloc, &words)
}

fn yes_or_no(out: &mut String, is: bool) -> Result<(), AllocError> {
    out.push_str(if is { "yes" } else { "no" })
}

/// Whether what is told of the words of `LINE|PART` has the part in it.
pub fn tells(out: &mut String, alloc: Global, text: &str) -> Result<(), AllocError> {
    let (line, part) = text.split_once('|').unwrap_or((text, ""));
    let part = bytes_of(alloc, part)?;
    let told = told(alloc, line)?;
    yes_or_no(
        out,
        told.as_str().contains(str::from_utf8(&part).unwrap_or("")),
    )
}

/// Whether what is told of the words of `LINE|PART` ends with the part.
pub fn ends(out: &mut String, alloc: Global, text: &str) -> Result<(), AllocError> {
    let (line, part) = text.split_once('|').unwrap_or((text, ""));
    let part = bytes_of(alloc, part)?;
    let told = told(alloc, line)?;
    yes_or_no(out, told.as_bytes().ends_with(&part))
}
