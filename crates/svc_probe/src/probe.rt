//! What the probe says over a link.

use crate::word::{Word, joined, read_word};
use frame_codec::frame::ServerFrame;
use okws_outer::stream::{Link, Put};
use std::alloc::{AllocError, AllocFailed, Global};
use svc_kit::saying::hear;
use svc_kit::stop::Stop;

/// Why the probe ended before a word ended it.
#[derive(Drop)]
pub enum Early {
    /// A word is neither `end` nor pairs of hexadecimal digits and `t`; nothing was said.
    BadWord,
    /// It hears nothing more, or can't say anything more.
    Stop(Stop),
}

impl From<Stop> for Early {
    fn from(stop: Stop) -> Early {
        Early::Stop(stop)
    }
}

impl From<AllocError> for Early {
    fn from(_e: AllocError) -> Early {
        Early::Stop(Stop::NoMemory)
    }
}

impl<T: Drop> From<AllocFailed<T>> for Early {
    fn from(_e: AllocFailed<T>) -> Early {
        Early::Stop(Stop::NoMemory)
    }
}

/// The bytes of the first token of Boot, which comes first; none where it carries no token.
fn first_token<L: Link>(alloc: Global, link: &mut L) -> Result<Vec<u8>, Early> {
    match hear(alloc, link)? {
        ServerFrame::Boot { tokens, .. } => match tokens.as_slice() {
            [] => Ok(Vec::new(alloc)),
            [first, ..] => Ok(Vec::from_slice(alloc, &first.token.bytes)?),
        },
        frame => Err(Early::Stop(Stop::Unlooked(frame))),
    }
}

/// Takes frames up to the next Request.
fn await_request<L: Link>(alloc: Global, link: &mut L) -> Result<(), Early> {
    for _ in 0..u64::MAX {
        if let ServerFrame::Request { .. } = hear(alloc, link)? {
            break;
        }
    }
    Ok(())
}

fn put<L: Link>(link: &mut L, bytes: &[u8]) -> Result<(), Early> {
    match link.put(bytes) {
        Put::Done => Ok(()),
        Put::Stopped(_) => Err(Early::Stop(Stop::LinkFault)),
    }
}

fn read_words(alloc: Global, texts: &[String]) -> Result<Vec<Word>, Early> {
    let mut words = Vec::new(alloc);
    for text in texts {
        let Some(word) = read_word(alloc, text.as_bytes())? else {
            return Err(Early::BadWord);
        };
        words.push(word)?;
    }
    Ok(words)
}

/// Writes at the i-th Request the bytes of the i-th word, and ends at the word `end` or where there
/// is no word.
pub fn probe<L: Link>(alloc: Global, link: &mut L, texts: &[String]) -> Result<(), Early> {
    let words = read_words(alloc, texts)?;
    let token = first_token(alloc, link)?;
    for word in words.iter() {
        await_request(alloc, link)?;
        match word {
            Word::End => return Ok(()),
            Word::Parts(parts) => put(link, &joined(alloc, parts, &token)?)?,
        }
    }
    await_request(alloc, link)
}
