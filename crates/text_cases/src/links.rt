//! Frames in whatever pieces they come over a link in memory.

use crate::frames::{digits_of, put_service};
use frame_link::receiving::{NextFrame, next};
use okws_outer::memory::link::{FedLink, MemoryLink};
use std::alloc::{AllocError, Global};

/// What the link answered, and whether it was a frame.
fn put_next(out: &mut String, next: &NextFrame) -> Result<bool, AllocError> {
    match next {
        NextFrame::Frame(frame) => {
            put_service(out, frame)?;
            return Ok(true);
        }
        NextFrame::Ended => out.push_str("ended")?,
        NextFrame::BadFrame => out.push_str("bad")?,
        NextFrame::LinkFault => out.push_str("fault")?,
        NextFrame::NoMemory => return Err(AllocError),
    }
    Ok(false)
}

fn take_next(
    out: &mut String,
    alloc: Global,
    link: &mut MemoryLink<'_>,
) -> Result<bool, AllocError> {
    let is_frame = put_next(out, &next(alloc, link))?;
    write!(out, ", {} left; ", link.left().len())?;
    Ok(is_frame)
}

/// What the link answers until it is no frame, and how many bytes are left after each answer.
fn answers(alloc: Global, link: &mut MemoryLink<'_>, most: usize) -> Result<String, AllocError> {
    let mut out = String::new(alloc);
    for _ in 0..most {
        if !take_next(&mut out, alloc, link)? {
            break;
        }
    }
    Ok(out)
}

fn over(alloc: Global, bytes: &[u8], piece: usize) -> Result<String, AllocError> {
    let mut link = MemoryLink::new(alloc, piece, &[]);
    link.feed(bytes)?;
    link.feed_end();
    answers(alloc, &mut link, bytes.len().saturating_add(1))
}

fn compare(
    out: &mut String,
    alloc: Global,
    bytes: &[u8],
    piece: usize,
    want: &str,
) -> Result<(), AllocError> {
    let found = over(alloc, bytes, piece)?;
    if found.as_str() == want {
        return Ok(());
    }
    write!(out, "but in pieces of {piece}: {found}")
}

/// What a link answers to which these bytes came in pieces of 1, and where it answers something else in pieces
/// of other sizes.
pub fn link(out: &mut String, alloc: Global, text: &str) -> Result<(), AllocError> {
    let (pieces, digits) = text.split_once(' ').unwrap_or((text, ""));
    let bytes = digits_of(alloc, digits)?;
    let want = over(alloc, &bytes, 1)?;
    out.push_str(want.as_str())?;
    for piece in pieces.split(',') {
        compare(
            out,
            alloc,
            &bytes,
            piece.parse().unwrap_or(1),
            want.as_str(),
        )?;
    }
    Ok(())
}
