//! What clients were answered.

use crate::pieced::{Way, accepted};
use frame_codec::frame::{ServerFrame, ServiceFrame};
use monitor_model::record::{End, Item};
use record_lines::case::Case;
use record_lines::plain::{Deed, Exchange, Line};
use std::alloc::{AllocError, Global};

/// What bytes ask that were read from a client.
#[derive(Clone, Copy)]
enum Asked<'a> {
    /// A request for a path, without content.
    Path(&'a [u8]),
    /// Nothing came.
    Nothing,
    /// A head that doesn't end.
    Front,
    /// What no client here sends.
    Other,
}

/// Whether these bytes are a path that is read as it is.
fn is_plain_path(path: &[u8]) -> bool {
    for byte in path {
        if !byte.is_ascii_alphanumeric() && *byte != b'/' {
            return false;
        }
    }
    path.starts_with(b"/")
}

/// What bytes ask, as the clients here send them.
fn request_of(read: &[u8]) -> Asked<'_> {
    if read.is_empty() {
        return Asked::Nothing;
    }
    if !read.ends_with(b"\r\n\r\n") {
        return Asked::Front;
    }
    let Some(rest) = read.strip_prefix(b"GET ") else {
        return Asked::Other;
    };
    let path = match rest.strip_suffix(b" HTTP/1.1\r\nHost: localhost\r\n\r\n") {
        Some(path) => Some(path),
        None => rest.strip_suffix(b" HTTP/1.0\r\n\r\n"),
    };
    match path {
        Some(path) if is_plain_path(path) => Asked::Path(path),
        _ => Asked::Other,
    }
}

/// The text of a response.
fn response(
    alloc: Global,
    status: &[u8],
    content_type: &[u8],
    content: &[u8],
) -> Result<Vec<u8>, AllocError> {
    let length = content.len();
    let mut text = Vec::from_slice(alloc, b"HTTP/1.1 ")?;
    text.extend_from_slice(status)?;
    text.extend_from_slice(b"\r\nContent-Type: ")?;
    text.extend_from_slice(content_type)?;
    text.extend_from_slice(b"\r\nContent-Length: ")?;
    text.extend_from_slice(format!(in alloc; "{length}")?.as_bytes())?;
    text.extend_from_slice(b"\r\nConnection: close\r\n\r\n")?;
    text.extend_from_slice(content)?;
    Ok(text)
}

/// Whether a client was given this response: of one whose connection was cut, a front of it.
fn is_given(exchange: &Exchange<'_>, text: &[u8]) -> bool {
    if exchange.is_cut {
        text.starts_with(exchange.written)
    } else {
        text == exchange.written
    }
}

/// Whether this is the server's own response of a status.
fn is_own(alloc: Global, exchange: &Exchange<'_>, status: &[u8]) -> Result<bool, AllocError> {
    let mut content = Vec::from_slice(alloc, status)?;
    content.push(b'\n')?;
    let text = response(alloc, status, b"text/plain", &content)?;
    Ok(is_given(exchange, &text))
}

/// Whether this is the response that a Reply asks for, one of status 200 without a Location.
fn is_reply(
    alloc: Global,
    exchange: &Exchange<'_>,
    said: &ServiceFrame,
) -> Result<bool, AllocError> {
    let ServiceFrame::Reply {
        status: 200,
        content_type,
        location,
        content,
    } = said
    else {
        return Ok(false);
    };
    let text = response(
        alloc,
        b"200 OK",
        content_type.as_slice(),
        content.as_slice(),
    )?;
    Ok(location.as_slice().is_empty() && is_given(exchange, &text))
}

/// Whether a dialog carried this request, where it carried one.
fn carries(dialog: &Line<'_>, read: &[u8]) -> bool {
    for item in dialog.items {
        if let Item::Heard(ServerFrame::Request { head, content }) = item
            && (head.as_slice() != read || !content.as_slice().is_empty())
        {
            return false;
        }
    }
    true
}

/// Whether this is the response of a dialog.
fn is_end(alloc: Global, exchange: &Exchange<'_>, dialog: &Line<'_>) -> Result<bool, AllocError> {
    match (dialog.end, dialog.items.last()) {
        (Some(End::Reply), Some(Item::Said(said))) => is_reply(alloc, exchange, said),
        (Some(End::Reply), _) | (None, _) => Ok(false),
        (Some(End::Superseded(_)), _) => is_own(alloc, exchange, b"503 Service Unavailable"),
        (Some(End::Starved), _) => is_own(alloc, exchange, b"507 Insufficient Storage"),
        _ => is_own(alloc, exchange, b"502 Bad Gateway"),
    }
}

/// Whether a client was answered by what became of an Accept that was answered To, by the item behind it.
fn is_went(
    case: &Case<'_, '_>,
    earlier: &[Line<'_>],
    next: &Line<'_>,
    exchange: &Exchange<'_>,
) -> Option<bool> {
    match next.deed {
        Deed::Dialog => {
            let (_, dialog) = case.plain.entry(earlier, next)?;
            let answered = is_end(case.alloc, exchange, dialog).ok()?;
            Some(answered && carries(dialog, exchange.read))
        }
        Deed::Missed => is_own(case.alloc, exchange, b"503 Service Unavailable").ok(),
        _ => is_own(case.alloc, exchange, b"507 Insufficient Storage").ok(),
    }
}

/// Whether a client was answered by what became of the Accept that stands there in a list.
fn is_due(
    case: &Case<'_, '_>,
    list: &[Line<'_>],
    place: usize,
    exchange: &Exchange<'_>,
) -> Option<bool> {
    let accept = list.get(place)?;
    match accepted(case, list.get(..place)?, accept)? {
        Way::NotOwned => is_own(case.alloc, exchange, b"404 Not Found").ok(),
        Way::Down => is_own(case.alloc, exchange, b"503 Service Unavailable").ok(),
        Way::To(..) => {
            let behind = place.saturating_add(1);
            is_went(case, list.get(..behind)?, list.get(behind)?, exchange)
        }
    }
}

/// The place of the first Accept of a list from some place on.
fn accept_from(list: &[Line<'_>], from: usize) -> Option<usize> {
    for (place, line) in list.iter().enumerate() {
        if place >= from && line.deed == Deed::Accept {
            return Some(place);
        }
    }
    None
}

/// Whether a client was answered whose request is the first that was accepted from some place on; and from where the
/// next one is.
fn is_answered(
    case: &Case<'_, '_>,
    list: &[Line<'_>],
    from: usize,
    exchange: &Exchange<'_>,
    path: &[u8],
) -> Option<usize> {
    let place = accept_from(list, from)?;
    let answered = list.get(place)?.bytes == path && is_due(case, list, place, exchange)?;
    answered.then_some(place.saturating_add(1))
}

/// Whether each client of a door was answered by what became of its request, in order.
fn is_served(case: &Case<'_, '_>, list: &[Line<'_>], door: &[Exchange<'_>]) -> Option<bool> {
    let mut from = 0usize;
    for exchange in door {
        match request_of(exchange.read) {
            Asked::Front if exchange.is_cut && exchange.written.is_empty() => {}
            Asked::Front | Asked::Other => return Some(false),
            Asked::Nothing => {
                if !is_own(case.alloc, exchange, b"400 Bad Request").ok()? {
                    return Some(false);
                }
            }
            Asked::Path(path) => from = is_answered(case, list, from, exchange, path)?,
        }
    }
    Some(accept_from(list, from).is_none())
}

/// Whether each client was answered by what became of its request.
pub fn are_served(case: &Case<'_, '_>) -> bool {
    let doors = case.plain.doors.iter();
    for (door, list) in doors.zip(case.plain.workers()) {
        if is_served(case, list, door) != Some(true) {
            return false;
        }
    }
    true
}
