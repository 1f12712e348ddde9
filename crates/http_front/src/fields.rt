//! The fields that the checks of a head are about, which one pass over the head finds.

ghost use Rattle.std.specs.Prelude.{◌≡◌, ℕ, List, ◌∷◌, length, map, All, codes, nat_lt};
ghost use Rattle.std.specs.List.{list_any};
ghost use Rattle.okws_base.specs.Names.{same_word};
ghost use Rattle.httparse.specs.Spans.{IsHeaderWithin, header_bytes};
ghost use Rattle.http_text.specs.Reading.{values_named, is_continue, has_hosts, content_length, told_length};
ghost use Rattle.http_front.specs.Fields.{AreNamed, AreNamedUpTo, AsksUpTo, AreFound, AreFoundUpTo};

use http::StatusCode;
use http_text::length::{ContentLength, length_of};
use httparse::spans::HeaderSpan;
use okws_base::name::are_same_word;

/// The values of the fields of a name.
#[derive(Clone, Copy, Drop)]
pub(crate) enum Named<'b> {
    None,
    One(&'b [u8]),
    /// Two at the least.
    Several,
}

/// The fields that the checks are about.
#[derive(Clone, Copy, Drop)]
pub(crate) struct Found<'b> {
    hosts: Named<'b>,
    codings: Named<'b>,
    lengths: Named<'b>,
    /// Whether an Expect field asks for the interim response.
    continues: bool,
}

/// What is found where there are no fields.
const NOTHING: Found<'static> = Found {
    hosts: Named::None,
    codings: Named::None,
    lengths: Named::None,
    continues: false,
};

/// Whether a field has this name; most are spelled as it is.
fn is_named(field: &[u8], name: &[u8]) -> bool
    ensures { result ≡ same_word field.now name.now }
{
    field == name || are_same_word(field, name)
}

/// The values of a name with that of one more field.
fn with_value<'b>(values: Named<'b>, value: &'b [u8]) -> Named<'b>
    ensures { (all rest : List (List ℕ)) → AreNamedUpTo all (value.now ∷ rest) values.entry → AreNamedUpTo all rest result }
{
    match values {
        Named::None => Named::One(value),
        Named::One(_) => Named::Several,
        Named::Several => Named::Several,
    }
}

/// What is found with one more field.
fn found_with<'b>(mut found: Found<'b>, bytes: &'b [u8], header: HeaderSpan) -> Found<'b>
    requires { IsHeaderWithin (length bytes.now) header }
    ensures { (all rest : List (List ℕ × List ℕ)) → AreFoundUpTo all (header_bytes bytes.now header ∷ rest) found.entry → AreFoundUpTo all rest result }
{
    let field = header.name.of(bytes);
    let value = header.value.of(bytes);
    match field.len() {
        4 if is_named(field, b"Host") => found.hosts = with_value(found.hosts, value),
        6 if is_named(field, b"Expect") => {
            found.continues = found.continues || are_same_word(value, b"100-continue");
        }
        14 if is_named(field, b"Content-Length") => found.lengths = with_value(
            found.lengths,
            value,
        ),
        17 if is_named(field, b"Transfer-Encoding") => {
            found.codings = with_value(found.codings, value);
        }
        _ => {}
    }
    found
}

/// Finds the fields that the checks are about.
pub(crate) fn found_in<'b>(bytes: &'b [u8], headers: &[HeaderSpan]) -> Found<'b>
    requires { All (IsHeaderWithin (length bytes.now)) headers.now }
    ensures { AreFound (map (header_bytes bytes.now) headers.now) result }
{
    let mut found = NOTHING;
    for header in headers {
        found = found_with(found, bytes, *header);
    }
    found
}

impl<'b> Found<'b> {
    /// Whether the Host fields are as many as the version asks for.
    pub(crate) fn has_hosts(&self, minor: u8) -> bool
        ensures { (fields : List (List ℕ × List ℕ)) → AreFound fields self.now → result ≡ has_hosts minor (length (values_named (codes "Host") fields)) }
    {
        match self.hosts {
            Named::None => minor == 0,
            Named::One(_) => true,
            Named::Several => false,
        }
    }

    /// Whether there is a Transfer-Encoding field.
    pub(crate) fn has_codings(&self) -> bool
        ensures { (fields : List (List ℕ × List ℕ)) → AreFound fields self.now → result ≡ nat_lt 0 (length (values_named (codes "Transfer-Encoding") fields)) }
    {
        match self.codings {
            Named::None => false,
            Named::One(_) => true,
            Named::Several => true,
        }
    }

    /// The length of the content, or the status that refuses it.
    pub(crate) fn content_length(&self) -> Result<usize, StatusCode>
        ensures { (fields : List (List ℕ × List ℕ)) → AreFound fields self.now → result ≡ content_length (values_named (codes "Content-Length") fields) }
    {
        match self.lengths {
            Named::None => Ok(0),
            Named::One(value) => told_length(length_of(value)),
            Named::Several => Err(StatusCode::BAD_REQUEST),
        }
    }

    /// Whether an Expect field asks for the interim response.
    pub(crate) fn asks(&self) -> bool
        ensures { (fields : List (List ℕ × List ℕ)) → AreFound fields self.now → result ≡ list_any is_continue (values_named (codes "Expect") fields) }
    {
        self.continues
    }
}

fn told_length(told: ContentLength) -> Result<usize, StatusCode>
    ensures { result ≡ told_length told }
{
    match told {
        ContentLength::Length(n) => Ok(n),
        ContentLength::TooLarge => Err(StatusCode::PAYLOAD_TOO_LARGE),
        ContentLength::NotDigits => Err(StatusCode::BAD_REQUEST),
    }
}
