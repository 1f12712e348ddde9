//! Targets, lengths, phrases and responses.

use crate::notation::bytes_of;
use crate::printing::put_text;
use http_text::length::{ContentLength, length_of};
use http_text::response::{own_response, response};
use http_text::status::phrase;
use http_text::target::path_of;
use std::alloc::{AllocError, Global};

/// The path of a target.
pub fn path(out: &mut String, target: &[u8]) -> Result<(), AllocError> {
    match path_of(target) {
        Some(path) => put_text(out, path),
        None => out.push_str("none"),
    }
}

/// What the value of a Content-Length says.
pub fn length(out: &mut String, value: &[u8]) -> Result<(), AllocError> {
    match length_of(value) {
        ContentLength::Length(length) => write!(out, "{length}"),
        ContentLength::TooLarge => out.push_str("too large"),
        ContentLength::NotDigits => out.push_str("no digits"),
    }
}

/// The phrase of a status.
pub fn phrase_of(out: &mut String, status: &str) -> Result<(), AllocError> {
    out.push_str(phrase(status.parse().unwrap_or(0)).unwrap_or("none"))
}

/// The server's own response of a status to a GET.
pub fn own(out: &mut String, alloc: Global, status: &str) -> Result<(), AllocError> {
    let status = status.parse().unwrap_or(0);
    put_text(out, &own_response(alloc, status, b"GET")?)
}

/// The response of `STATUS METHOD TYPE LOCATION CONTENT`, of which the last two may be empty.
pub fn response_of(out: &mut String, alloc: Global, text: &str) -> Result<(), AllocError> {
    let (status, text) = text.split_once(' ').unwrap_or((text, ""));
    let (method, text) = text.split_once(' ').unwrap_or((text, ""));
    let (content_type, text) = text.split_once(' ').unwrap_or((text, ""));
    let (location, content) = text.split_once(' ').unwrap_or((text, ""));
    let status = status.parse().unwrap_or(0);
    let content = bytes_of(alloc, content)?;
    let written = response(
        alloc,
        status,
        content_type.as_bytes(),
        location.as_bytes(),
        &content,
        method.as_bytes(),
    )?;
    put_text(out, &written)
}
