//! Reads and writes that go on after signals, and count what failed.

ghost use Rattle.std.specs.Prelude.{◌≡◌, ◌↔◌, ◌<◌, ◌≤◌, length, take};
ghost use Rattle.std.specs.Io.{ReadsAtMost, WritesAtMost};
ghost use Rattle.std.specs.Io.KnownBytes.{Appends, ReadConsumes, WriteAppends};
ghost use Rattle.std.specs.IoError.{error_kind};
ghost use Rattle.okws_outer.specs.Streams.{Counts, Pulls, Puts, Rose};

use okws_outer::error::MakeError;
use okws_outer::stream::{Pull, Put};
use std::alloc::{AllocError, Global};
use std::io;
use std::io::{BufReader, ErrorKind, Read, Write};

/// Counts one fault more.
pub fn count(faults: &mut u64)
    ensures later { faults.old ≤ faults.new }
    ensures rose { Rose faults.old faults.new }
{
    *faults = faults.saturating_add(1);
}

/// A reader that is read ahead. Fails only where memory is refused.
pub fn reading_ahead<I: Read + Drop>(alloc: Global, input: I) -> Result<BufReader<I>, AllocError> {
    match BufReader::new(alloc, input) {
        Ok(reader) => Ok(reader),
        Err(_) => Err(AllocError),
    }
}

/// Why the system gave no object: memory was refused, or the call failed.
pub fn refusal(error: &io::Error) -> MakeError
    ensures { (result ≡ MakeError.NoMemory) ↔ (error_kind error.now ≡ ErrorKind.OutOfMemory) }
{
    if error.kind() == ErrorKind::OutOfMemory {
        MakeError::NoMemory
    } else {
        MakeError::Failed
    }
}

/// The numbers of two errors: all open files that the system may have, and no room for what a connection needs.
const ENFILE: i32 = 23;

const ENOBUFS: i32 = 105;

/// Whether a connection may be accepted later all the same.
pub fn is_passing(error: &io::Error) -> bool {
    match error.raw_os_error() {
        Some(code) => matches!(
            code,
            libc::EMFILE | ENFILE | ENOBUFS | libc::ENOMEM | libc::ECONNABORTED
        ),
        None => false,
    }
}

/// Reads once, whatever signals come.
fn read_once<I: Read>(input: &mut I, into: &mut [u8]) -> io::Result<usize>
    ensures bound { ReadsAtMost result into.new }
    ensures bytes { ReadConsumes (I.remaining input.old) (I.remaining input.new) result into.new }
{
    for _ in 0..u64::MAX {
        match input.read(into) {
            Err(error) if error.kind() == ErrorKind::Interrupted => {}
            read => return read,
        }
    }
    Err(io::Error::from(ErrorKind::Interrupted))
}

/// Takes bytes that come in, at most as many as there is room for: those of the reader, where it tells.
pub fn pull_from<I: Read>(input: &mut I, faults: &mut u64, into: &mut [u8]) -> Pull
    requires { 0 < length into.old }
    ensures bytes { Pulls (I.remaining input.old) (I.remaining input.new) into.new result }
    ensures faults { Counts faults.old faults.new (result ≡ Pull.Failed) }
    ensures still { (result ≡ Pull.Failed → ⊥) → faults.new ≡ faults.old }
{
    match read_once(input, into) {
        Ok(0) => Pull::End,
        Ok(taken) => Pull::Took(taken),
        Err(_) => {
            count(faults);
            Pull::Failed
        }
    }
}

/// Writes once, whatever signals come.
fn write_once<O: Write>(output: &mut O, bytes: &[u8]) -> io::Result<usize>
    ensures bound { WritesAtMost result bytes.now }
    ensures bytes { WriteAppends (O.contents output.old) (O.contents output.new) result bytes.now }
{
    for _ in 0..u64::MAX {
        match output.write(bytes) {
            Err(error) if error.kind() == ErrorKind::Interrupted => {}
            written => return written,
        }
    }
    Err(io::Error::from(ErrorKind::Interrupted))
}

/// How many bytes from the front went out: all of them, unless a write failed or took nothing.
fn write_all<O: Write>(output: &mut O, bytes: &[u8]) -> usize
    ensures bound { result ≤ length bytes.now }
    ensures bytes { Appends (O.contents output.old) (O.contents output.new) (take result bytes.now) }
{
    let mut done = 0usize;
    while done < bytes.len() {
        match write_once(output, &bytes[done..]) {
            Ok(0) | Err(_) => return done,
            Ok(taken) => done += taken,
        }
    }
    done
}

/// Gives the bytes out, to the writer's end where it tells; a write that fails, or that takes nothing of
/// them, is a fault.
pub fn put_to<O: Write>(output: &mut O, faults: &mut u64, bytes: &[u8]) -> Put
    ensures bytes { Puts (O.contents output.old) (O.contents output.new) bytes.now result }
    ensures faults { Counts faults.old faults.new (result ≡ Put.Done → ⊥) }
    ensures still { result ≡ Put.Done → faults.new ≡ faults.old }
{
    let done = write_all(output, bytes);
    if done == bytes.len() {
        return Put::Done;
    }
    count(faults);
    Put::Stopped(done)
}
