//! The texts of responses (RFC 9112, sections 2.1, 4 and 9.6; RFC 9110, sections 8.3, 8.6, 9.3.2
//! and 10.2.2).

ghost use Rattle.std.specs.Prelude.{◌≡◌, ◌++◌, ◌∷◌, [], codes, decimal, length, IfOk, OnOk, if◌then◌else◌};
ghost use Rattle.http_text.specs.Status.{phrase, phrase_text, status_text};
ghost use Rattle.http_text.specs.Response.{crlf, is_head, location_line, response, own_response};

use crate::status::phrase;
use plain_text::decimals::push_decimal;
use std::alloc::{AllocError, Global};

/// The text of a response with this status, content type, location and content to a request of
/// this method. An empty location is none; to HEAD the content is left out, and its length stays.
/// A status that has no phrase gets an empty one.
///
/// Fails only where memory is refused.
#[tactic(auto, unfolding(crate::specs::Response::response))]
pub fn response(
    alloc: Global,
    status: u16,
    content_type: &[u8],
    location: &[u8],
    content: &[u8],
    method: &[u8],
) -> Result<Vec<u8>, AllocError>
    ensures { IfOk result (λ v. v.items ≡ response status content_type.now location.now content.now method.now) }
{
    let mut text = Vec::new(alloc);
    push_status_line(alloc, &mut text, status)?;
    push_content_type(&mut text, content_type)?;
    push_location(&mut text, location)?;
    push_content_length(alloc, &mut text, content.len())?;
    text.extend_from_slice(b"Connection: close\r\n\r\n")?;
    push_content(&mut text, content, method)?;
    Ok(text)
}

/// The text of a response that the server makes itself: the content is the status, its phrase and
/// LF, of type `text/plain`.
///
/// Fails only where memory is refused.
pub fn own_response(alloc: Global, status: u16, method: &[u8]) -> Result<Vec<u8>, AllocError>
    ensures { IfOk result (λ v. v.items ≡ own_response status method.now) }
{
    let mut content = Vec::new(alloc);
    push_status(alloc, &mut content, status)?;
    content.push(b'\n')?;
    response(alloc, status, b"text/plain", b"", &content, method)
}

/// The phrase of a status, or an empty one.
fn phrase_or_empty(status: u16) -> &'static str
    ensures { result.now ≡ phrase_text (phrase status) }
{
    match phrase(status) {
        Some(text) => text,
        None => "",
    }
}

#[tactic(auto, unfolding(crate::specs::Status::status_text))]
fn push_status(alloc: Global, text: &mut Vec<u8>, status: u16) -> Result<(), AllocError>
    ensures { OnOk result (text.new.items ≡ text.old.items ++ status_text status) }
{
    let phrase = phrase_or_empty(status);
    let line = format!(in alloc; "{status} {phrase}")?;
    text.extend_from_slice(line.as_bytes())
}

fn push_status_line(alloc: Global, text: &mut Vec<u8>, status: u16) -> Result<(), AllocError>
    ensures { OnOk result (text.new.items ≡ text.old.items ++ codes "HTTP/1.1 " ++ status_text status ++ crlf) }
{
    text.extend_from_slice(b"HTTP/1.1 ")?;
    push_status(alloc, text, status)?;
    text.extend_from_slice(b"\r\n")
}

fn push_content_type(text: &mut Vec<u8>, content_type: &[u8]) -> Result<(), AllocError>
    ensures { OnOk result (text.new.items ≡ text.old.items ++ codes "Content-Type: " ++ content_type.now ++ crlf) }
{
    text.extend_from_slice(b"Content-Type: ")?;
    text.extend_from_slice(content_type)?;
    text.extend_from_slice(b"\r\n")
}

fn push_location(text: &mut Vec<u8>, location: &[u8]) -> Result<(), AllocError>
    ensures { OnOk result (text.new.items ≡ text.old.items ++ location_line location.now) }
{
    if location.is_empty() {
        return Ok(());
    }
    text.extend_from_slice(b"Location: ")?;
    text.extend_from_slice(location)?;
    text.extend_from_slice(b"\r\n")
}

fn push_content_length(alloc: Global, text: &mut Vec<u8>, n: usize) -> Result<(), AllocError>
    ensures { OnOk result (text.new.items ≡ text.old.items ++ codes "Content-Length: " ++ decimal n ++ crlf) }
{
    text.extend_from_slice(b"Content-Length: ")?;
    push_decimal(alloc, text, n as u64)?;
    text.extend_from_slice(b"\r\n")
}

fn push_content(text: &mut Vec<u8>, content: &[u8], method: &[u8]) -> Result<(), AllocError>
    ensures { OnOk result (text.new.items ≡ text.old.items ++ (if is_head method.now then [] else content.now)) }
{
    if method == b"HEAD".as_slice() {
        return Ok(());
    }
    text.extend_from_slice(content)
}
