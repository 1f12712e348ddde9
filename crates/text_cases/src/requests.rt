//! Requests over a connection in memory, in whatever pieces they come.

use crate::notation::bytes_of;
use crate::printing::put_text;
use http::StatusCode;
use http_front::kept::Kept;
use http_front::reading::{Incoming, Request, read_request};
use okws_outer::memory::conn::MemoryConn;
use std::alloc::{AllocError, Global};

const ROOM: usize = 1_000;

fn put_request(out: &mut String, request: &Request) -> Result<(), AllocError> {
    out.push_str("200 ")?;
    put_text(out, request.method)?;
    out.push_str(" path ")?;
    put_text(out, request.path())?;
    out.push_str(" head ")?;
    put_text(out, request.head.as_slice())?;
    out.push_str(" content ")?;
    put_text(out, request.content.as_slice())
}

fn put_status(out: &mut String, status: &StatusCode) -> Result<(), AllocError> {
    write!(out, "{}", status.as_u16())
}

fn put_incoming(out: &mut String, incoming: &Incoming) -> Result<(), AllocError> {
    match incoming {
        Incoming::Request(request) => put_request(out, request),
        Incoming::Refused(status) => put_status(out, status),
        Incoming::ConnFault => out.push_str("fault"),
        Incoming::NoMemory => Err(AllocError),
    }
}

/// What was given of an interim response, where it was.
fn put_interim(out: &mut String, given: &[u8], count: usize) -> Result<(), AllocError> {
    if given.is_empty() && count == 0 {
        return Ok(());
    }
    write!(out, " interim of {count} ")?;
    put_text(out, given)
}

fn read_over(
    out: &mut String,
    alloc: Global,
    conn: &mut MemoryConn<'_>,
    kept: &mut Kept,
) -> Result<(), AllocError> {
    put_incoming(out, &read_request(alloc, conn, kept))?;
    put_interim(out, conn.given(), kept.interim)
}

fn read_in(
    out: &mut String,
    alloc: Global,
    bytes: &[u8],
    sizes: &[usize],
    kept: &mut Kept,
) -> Result<(), AllocError> {
    let mut conn = MemoryConn::new(alloc, bytes, sizes, ROOM, &[])?;
    read_over(out, alloc, &mut conn, kept)
}

/// What the bytes ask for where they come in pieces of these sizes.
fn asked(alloc: Global, bytes: &[u8], sizes: &[usize]) -> Result<String, AllocError> {
    let mut out = String::new(alloc);
    let mut kept = Kept::new(alloc)?;
    read_in(&mut out, alloc, bytes, sizes, &mut kept)?;
    Ok(out)
}

/// Says where the bytes ask for something else in pieces of these sizes.
fn compare(
    out: &mut String,
    alloc: Global,
    bytes: &[u8],
    want: &str,
    sizes: &[usize],
) -> Result<(), AllocError> {
    let found = asked(alloc, bytes, sizes)?;
    if found.as_str() == want {
        return Ok(());
    }
    write!(out, ", but in pieces of {sizes:?} {found}")
}

/// What the bytes ask for where they come whole, and where they ask for something else in two pieces or in
/// single bytes.
pub fn request(out: &mut String, alloc: Global, bytes: &[u8]) -> Result<(), AllocError> {
    let whole = asked(alloc, bytes, &[])?;
    out.push_str(whole.as_str())?;
    compare(out, alloc, bytes, whole.as_str(), &[1])?;
    for first in 1..bytes.len() {
        compare(out, alloc, bytes, whole.as_str(), &[first, usize::MAX])?;
    }
    Ok(())
}

/// Sizes with commas between them; `-` is the size of all that is left.
fn sizes_of(alloc: Global, text: &str) -> Result<Vec<usize>, AllocError> {
    let mut sizes = Vec::new(alloc);
    for size in text.split(',') {
        sizes.push(size.parse().unwrap_or(usize::MAX))?;
    }
    Ok(sizes)
}

fn compare_all(
    out: &mut String,
    alloc: Global,
    bytes: &[u8],
    lists: &str,
    want: &str,
) -> Result<(), AllocError> {
    for sizes in lists.split(';') {
        compare(out, alloc, bytes, want, &sizes_of(alloc, sizes)?)?;
    }
    Ok(())
}

fn over_all(out: &mut String, alloc: Global, lists: &str, bytes: &[u8]) -> Result<(), AllocError> {
    let (first, rest) = lists.split_once(';').unwrap_or((lists, lists));
    let want = asked(alloc, bytes, &sizes_of(alloc, first)?)?;
    out.push_str(want.as_str())?;
    compare_all(out, alloc, bytes, rest, want.as_str())
}

/// What bytes ask for where they come in the first of some lists of pieces, and where they ask for something else in another.
pub fn pieces(out: &mut String, alloc: Global, text: &str) -> Result<(), AllocError> {
    let (lists, text) = text.split_once(' ').unwrap_or((text, ""));
    over_all(out, alloc, lists, &bytes_of(alloc, text)?)
}
