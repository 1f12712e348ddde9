//! What stands at the front of the bytes that were read.

ghost use Rattle.std.specs.Prelude.{◌≡◌, ◌≢◌, ◌≤◌, ℕ, List, length, map, All, true, false};
ghost use Rattle.http_text.specs.Response.{is_head};
ghost use Rattle.http_text.specs.Target.{is_target};
ghost use Rattle.http_text.specs.Reading.{checked, waits, is_served, ends_line, after_blanks, has_line_after, is_too_long};
ghost use Rattle.httparse.specs.Spans.{IsWithin, IsHeaderWithin, header_bytes, span_bytes};
ghost use Rattle.http_front.specs.Fields.{AreFound};
ghost use Rattle.http_front.specs.Looking.{Looks, LooksOn, LooksWithout, Describes};

use crate::fields::{Found, found_in};
use crate::places::{Place, advance, stays_over};
use http::StatusCode;
use http_text::target::{are_target_bytes, path_of};
use httparse::spans::{HeaderSpan, RequestSpans, Span, parse_request};
use httparse::{Error, Status};
use okws_base::limit::{LONGEST_HEAD, MOST_FIELDS};

/// A whole head that stands at the front.
#[derive(Drop)]
pub(crate) struct WholeHead {
    pub(crate) method: Span,
    pub(crate) target: Span,
    /// Its bytes, with the empty line.
    pub(crate) len: usize,
    /// The length of the content, or the status of the first check that fails.
    pub(crate) checked: Result<usize, StatusCode>,
    /// Whether the client waits for the interim response.
    pub(crate) waits: bool,
    /// Whether the method is HEAD.
    pub(crate) to_head: bool,
}

/// What stands at the front.
#[derive(Drop)]
pub(crate) enum Look {
    Whole(WholeHead),
    /// No whole head, and the bytes are too long for one.
    TooLong,
    /// No whole head, and none can become of the bytes.
    Broken,
    /// No whole head yet.
    Open,
}

/// Whether a target is taken; most begin with `/`.
fn is_taken(target: &[u8]) -> bool
    ensures { result ≡ is_target target.now }
{
    if target.starts_with(b"/") {
        return are_target_bytes(target);
    }
    match path_of(target) {
        Some(_) => true,
        None => false,
    }
}

fn is_served(method: &[u8]) -> bool
    ensures { result ≡ is_served method.now }
{
    matches!(method, b"GET" | b"HEAD" | b"POST")
}

pub(crate) fn is_head(method: &[u8]) -> bool
    ensures { result ≡ is_head method.now }
{
    matches!(method, b"HEAD")
}

/// The length of a head's content, or the status of the first check that fails.
fn check(bytes: &[u8], head: &RequestSpans, found: &Found<'_>) -> Result<usize, StatusCode>
    requires target { IsWithin (length bytes.now) head.now.path }
    requires method { IsWithin (length bytes.now) head.now.method }
    ensures { (fields : List (List ℕ × List ℕ)) → AreFound fields found.now → result ≡ checked (span_bytes bytes.now head.now.path) (span_bytes bytes.now head.now.method) head.now.version fields }
{
    if !is_taken(head.path.of(bytes)) {
        return Err(StatusCode::BAD_REQUEST);
    }
    if !found.has_hosts(head.version) {
        return Err(StatusCode::BAD_REQUEST);
    }
    if !is_served(head.method.of(bytes)) {
        return Err(StatusCode::NOT_IMPLEMENTED);
    }
    if found.has_codings() {
        return Err(StatusCode::NOT_IMPLEMENTED);
    }
    found.content_length()
}

/// Whether the client of a head that was checked waits for the interim response.
fn waits(checked: &Result<usize, StatusCode>, minor: u8, found: &Found<'_>) -> bool
    ensures { (fields : List (List ℕ × List ℕ)) → AreFound fields found.now → result ≡ waits checked.now minor fields }
{
    match checked {
        Ok(n) => *n > 0 && minor == 1 && found.asks(),
        Err(_) => false,
    }
}

fn whole_head(bytes: &[u8], head: &RequestSpans, headers: &[HeaderSpan]) -> WholeHead
    requires target { IsWithin (length bytes.now) head.now.path }
    requires method { IsWithin (length bytes.now) head.now.method }
    requires headers { All (IsHeaderWithin (length bytes.now)) headers.now }
    ensures { Describes bytes.now head.now (map (header_bytes bytes.now) headers.now) result }
{
    let found = found_in(bytes, headers);
    let checked = check(bytes, head, &found);
    let waits = waits(&checked, head.version, &found);
    let to_head = is_head(head.method.of(bytes));
    WholeHead {
        method: head.method,
        target: head.path,
        len: head.len,
        checked,
        waits,
        to_head,
    }
}

fn ends_line(byte: u8) -> bool
    ensures { result ≡ ends_line byte }
{
    byte == b'\r' || byte == b'\n'
}

fn after_blanks(mut bytes: &[u8]) -> &[u8]
    ensures { result.now ≡ after_blanks bytes.entry.now }
{
    while let [byte, rest @ ..] = bytes {
        if !ends_line(*byte) {
            break;
        }
        bytes = rest;
    }
    bytes
}

/// Whether another line begins behind so many.
fn has_line_after(mut lines: usize, mut bytes: &[u8]) -> bool
    ensures { result ≡ has_line_after lines bytes.entry.now }
{
    while let [byte, rest @ ..] = bytes {
        if lines == 0 {
            return !ends_line(*byte);
        }
        if *byte == b'\n' {
            lines -= 1;
        }
        bytes = rest;
    }
    false
}

/// Whether the bytes are too long for a head that isn't whole yet.
fn is_too_long(bytes: &[u8]) -> bool
    ensures { result ≡ is_too_long bytes.now }
{
    bytes.len() >= LONGEST_HEAD || has_line_after(MOST_FIELDS + 1, after_blanks(bytes))
}

/// Whether the error is about the bytes, and not about the room for fields.
fn is_about_bytes(error: Error) -> bool
    ensures bytes { result ≡ true → error ≢ Error.TooManyHeaders }
    ensures room { result ≡ false → error ≡ Error.TooManyHeaders }
{
    match error {
        Error::TooManyHeaders => false,
        _ => true,
    }
}

/// Looks at the bytes from their start on; the fields of a whole head stand in the room for them.
pub(crate) fn look_at(bytes: &[u8], headers: &mut [HeaderSpan; MOST_FIELDS]) -> Look
    ensures { Looks bytes.now result }
{
    match parse_request(bytes, headers) {
        Ok(Status::Complete(head)) => {
            if head.len > LONGEST_HEAD {
                return without_head(bytes, false);
            }
            Look::Whole(whole_head(bytes, &head, &headers[..head.headers]))
        }
        Ok(Status::Partial) => without_head(bytes, false),
        Err(error) => without_head(bytes, is_about_bytes(error)),
    }
}

/// Looks at the bytes behind the first so many, of which it's known where they end; and at all from
/// their start on, where those could have completed or broken a head.
pub(crate) fn look_on(
    place: &mut Place,
    bytes: &[u8],
    before: usize,
    headers: &mut [HeaderSpan; MOST_FIELDS],
) -> Look
    requires { before ≤ length bytes.now }
    ensures { LooksOn place.old bytes.now before place.new result }
{
    if before > 0 && bytes.len() < LONGEST_HEAD {
        if let Some(next) = stays_over(*place, &bytes[before..]) {
            *place = next;
            return Look::Open;
        }
    }
    match look_at(bytes, headers) {
        Look::Whole(head) => Look::Whole(head),
        Look::TooLong => Look::TooLong,
        Look::Broken => Look::Broken,
        Look::Open => {
            *place = advance(*place, bytes, before);
            Look::Open
        }
    }
}

/// What bytes are that begin with no whole head.
fn without_head(bytes: &[u8], broken: bool) -> Look
    ensures { LooksWithout bytes.now broken result }
{
    if is_too_long(bytes) {
        Look::TooLong
    } else if broken {
        Look::Broken
    } else {
        Look::Open
    }
}
