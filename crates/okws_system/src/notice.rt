//! What is told on standard error, where the one who runs the server may see it.

use okws_base::name::Name;
use std::io::{Eprint, Stderr};
use std::os::unix::process::ExitStatusExt;
use std::process::ExitStatus;
use std::{io, str};

/// Bytes of the text of an error of the system.
const LONGEST: usize = 64;

/// The system's text for the number of an error.
fn text_of(code: i32, text: &mut [u8; LONGEST]) -> &str {
    let count = os::error_text(code, text);
    match text.get(..count) {
        Some(told) => str::from_utf8(told).unwrap_or("unknown"),
        None => "unknown",
    }
}

/// A service's name as text, which it is, since a name is ASCII.
fn text_of_name(name: &Name) -> &str {
    str::from_utf8(name.as_slice()).unwrap_or("unknown")
}

/// Why a child could not be started.
fn reason_of<'x>(why: &io::Error, text: &'x mut [u8; LONGEST]) -> &'x str {
    match why.raw_os_error() {
        Some(code) => text_of(code, text),
        None => "its words are no command, or memory was refused",
    }
}

/// Tells that a child could not be started.
pub(crate) fn not_started(errors: Stderr, name: &Name, incarnation: u32, why: &io::Error) {
    let service = text_of_name(name);
    let mut text = [0u8; LONGEST];
    let reason = reason_of(why, &mut text);
    let _ = eprintln!(errors; "okws: {service} {incarnation}: could not be started: {reason}");
}

/// Tells that a child has ended by itself.
pub(crate) fn ended(errors: Stderr, name: &Name, incarnation: u32, status: ExitStatus) {
    let service = text_of_name(name);
    let _ = match (status.code(), status.signal()) {
        (Some(code), _) => eprintln!(errors;
            "okws: {service} {incarnation}: ended with status {code}"
        ),
        (None, Some(signal)) => eprintln!(errors;
            "okws: {service} {incarnation}: ended by signal {signal}"
        ),
        (None, None) => Ok(()),
    };
}

/// Tells that a service was given up.
pub(crate) fn given_up(errors: Stderr, name: &Name, tries: u32) {
    let service = text_of_name(name);
    let _ = eprintln!(errors; "okws: {service}: given up after {tries} tries");
}

/// Tells that the log could not be opened.
pub(crate) fn no_log(errors: Stderr, why: &io::Error) {
    let mut text = [0u8; LONGEST];
    let reason = match why.raw_os_error() {
        Some(code) => text_of(code, &mut text),
        None => "its path is none",
    };
    let _ = eprintln!(errors; "okws: log: could not be opened: {reason}");
}

/// Tells that the log could not be written, by the number of the error that came last.
pub(crate) fn log_stopped(errors: Stderr) {
    let mut text = [0u8; LONGEST];
    let reason = text_of(os::errno(), &mut text);
    let _ = eprintln!(errors; "okws: log: could not be written: {reason}");
}
