//! Takes lines and bytes from a console.

ghost use Rattle.std.specs.Prelude.{◌≡◌, ◌≤◌, ◌<◌, [], length, vec_capacity, IfOk};
ghost use Rattle.std.specs.Str.Lines.{strip_carriage_return};
ghost use Rattle.admin_console.specs.Reading.{TakesLine, TakesCommand, PassesBytes, TakesContent, with_byte};

use okws_base::items::Items;
use okws_outer::conn::Conn;
use okws_outer::stream::Pull;
use std::alloc::{AllocError, Global};
use std::marker::Model;
use std::sync::Wait;

/// Bytes of a line that are held: more than a command may have, with the CR before its end.
pub const HELD: usize = 258;

/// Bytes of a publication that are asked for at a time.
const PIECE: usize = 4_096;

/// The reading of a console's lines. Contracts see it as the number of lines that were read.
#[derive(Drop)]
pub struct Reader {
    pub(crate) lines: u64,
    pub(crate) text: Vec<u8>,
}

impl Model for Reader {
    ghost use Rattle.std.specs.Prelude.{ℕ, ◌≤◌, vec_capacity};
    ghost use Rattle.admin_console.specs.declared.reader.TheConstants.{HELD};

    ghost Value = { ℕ };

    ghost view = { λ a. a.lines };

    ghost invariant = { λ a. HELD ≤ vec_capacity a.text };
}

impl Reader {
    /// No line was read. Fails only where memory is refused.
    pub fn new(alloc: Global) -> Result<Reader, AllocError>
        ensures { IfOk result (λ r. r ≡ 0) }
    {
        Ok(Reader {
            lines: 0,
            text: Vec::with_capacity(alloc, HELD)?,
        })
    }
}

/// What taking a line ends with.
#[derive(Clone, Copy)]
pub(crate) enum Taken {
    /// The line, with the LF that ends it.
    Line,
    /// The bytes ended before an LF.
    Ended,
    /// A pull failed and was counted.
    Failed,
}

/// Holds a byte more, where fewer are held than may be.
fn hold(text: &mut Vec<u8>, byte: u8)
    requires room { HELD ≤ vec_capacity text.old }
    requires within { length text.old.items ≤ HELD }
    ensures items { text.new.items ≡ with_byte text.old.items byte }
    ensures room { HELD ≤ vec_capacity text.new }
{
    if text.len() < HELD {
        let _ = text.push(byte);
    }
}

/// Takes bytes up to and with the next LF; the first of the line are held.
fn take_line<R: Wait, C: Conn>(rt: &R, console: &mut C, text: &mut Vec<u8>) -> Taken
    requires { HELD ≤ vec_capacity text.old }
    ensures line { TakesLine (C.wire console.old) (C.wire console.new) text.new.items result }
    ensures room { HELD ≤ vec_capacity text.new }
{
    text.clear();
    let mut byte = [0u8; 1];
    for _ in rt.forever() {
        match console.pull(&mut byte) {
            Pull::Took(_) => {
                if byte[0] == b'\n' {
                    return Taken::Line;
                }
                hold(text, byte[0]);
            }
            Pull::End => return Taken::Ended,
            Pull::Failed => return Taken::Failed,
        }
    }
    unreachable!()
}

/// The text of a line without the one CR at its end, if it has one.
pub(crate) fn without_carriage_return(line: &[u8]) -> &[u8]
    ensures { result.now ≡ strip_carriage_return line.now }
{
    match line {
        [front @ .., b'\r'] => front,
        _ => line,
    }
}

/// Takes lines up to and with the next that isn't empty, and counts them behind those that were read
/// before.
pub(crate) fn take_command<R: Wait, C: Conn>(
    rt: &R,
    console: &mut C,
    before: u64,
    text: &mut Vec<u8>,
) -> (Taken, u64)
    requires { HELD ≤ vec_capacity text.old }
    ensures line { TakesCommand (C.wire console.old) (C.wire console.new) before result.1 text.new.items result.0 }
    ensures room { HELD ≤ vec_capacity text.new }
{
    let mut lines = before;
    for _ in rt.forever() {
        match take_line(rt, console, text) {
            Taken::Line => {
                lines = lines.saturating_add(1);
                if !without_carriage_return(text).is_empty() {
                    return (Taken::Line, lines);
                }
            }
            Taken::Ended => return (Taken::Ended, lines),
            Taken::Failed => return (Taken::Failed, lines),
        }
    }
    unreachable!()
}

/// What passing over bytes ends with.
#[derive(Clone, Copy)]
pub(crate) enum Passed {
    /// All of them came.
    Whole,
    /// The input ended before.
    Short,
    /// A pull failed and was counted.
    Failed,
}

/// Takes so many bytes and drops them.
pub(crate) fn drop_bytes<C: Conn>(console: &mut C, size: u32) -> Passed
    ensures { PassesBytes (C.wire console.old) (C.wire console.new) size result }
{
    let mut piece = [0u8; PIECE];
    let mut left = size as usize;
    while left > 0 {
        match console.pull(&mut piece[..left.min(PIECE)]) {
            Pull::Took(count) => left -= count,
            Pull::End => return Passed::Short,
            Pull::Failed => return Passed::Failed,
        }
    }
    Passed::Whole
}

/// The bytes of a publication.
#[derive(Drop)]
pub(crate) enum Content {
    /// All of them.
    Whole(Items<u8>),
    /// The input ended before.
    Short,
    /// A pull failed and was counted.
    Failed,
    /// Memory was refused; the bytes were dropped.
    NoMemory,
}

/// Takes so many bytes, for which there is room.
fn fill<C: Conn>(console: &mut C, into: Vec<u8>, size: u32) -> Content
    requires items { into.items ≡ [] }
    requires room { size ≤ vec_capacity into }
    ensures { TakesContent (C.wire console.old) (C.wire console.new) size result }
{
    let mut into = into;
    let mut piece = [0u8; PIECE];
    while into.len() < size as usize {
        let wanted = (size as usize - into.len()).min(PIECE);
        match console.pull(&mut piece[..wanted]) {
            Pull::Took(count) => {
                let _ = into.extend_from_slice(&piece[..count]);
            }
            Pull::End => return Content::Short,
            Pull::Failed => return Content::Failed,
        }
    }
    Content::Whole(Items::of(into))
}

/// Takes so many bytes and drops them, as memory was refused for them.
fn drop_all<C: Conn>(console: &mut C, size: u32) -> Content
    ensures { TakesContent (C.wire console.old) (C.wire console.new) size result }
{
    match drop_bytes(console, size) {
        Passed::Whole => Content::NoMemory,
        Passed::Short => Content::Short,
        Passed::Failed => Content::Failed,
    }
}

/// Takes the bytes of a publication.
pub(crate) fn take_content<C: Conn>(alloc: Global, console: &mut C, size: u32) -> Content
    ensures { TakesContent (C.wire console.old) (C.wire console.new) size result }
{
    match Vec::with_capacity(alloc, size as usize) {
        Ok(into) => fill(console, into, size),
        Err(_) => drop_all(console, size),
    }
}
