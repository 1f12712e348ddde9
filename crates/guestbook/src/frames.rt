//! What the guestbook says. Each frame has a spelling.

ghost use Rattle.std.specs.Prelude.{◌≡◌, ◌≤◌, ◌+◌, ◌<◌, ◌^◌, [], length, nat_le, IfOk, IsTrue, IsUtf8, option_map};
ghost use Rattle.frame_codec.specs.Spelling.{ServiceHasSpelling, Bytewise, is_reply_status, is_content_type, is_location};
ghost use Rattle.svc_kit.specs.declared.bounded.TheConstants.{LONGEST_FILLED};
ghost use Rattle.guestbook.specs.Frames.{open_frame, select_frame, insert_frame, log_frame, plain, refused, bad_form, taken, see_other, shown};

use crate::request::Entry;
use frame_codec::frame::ServiceFrame;
use okws_base::items::Items;
use okws_base::value::{Text, Token, Value};
use std::alloc::{AllocError, Global};
use svc_kit::bounded::LONGEST_FILLED;
use svc_kit::fill::{FillError, Pair, fill};

/// How many bytes there are.
fn len(bytes: &[u8]) -> usize
    ensures len { result ≡ length bytes.now }
    ensures fits { Bytewise bytes.now }
{
    bytes.len()
}

/// Opens proxy 0.
pub fn open_frame(shown: Token) -> ServiceFrame
    ensures frame { result ≡ open_frame shown }
    ensures spelling { ServiceHasSpelling result }
{
    let _size = len(&shown.bytes);
    ServiceFrame::Open { proxy: 0, shown }
}

/// Calls query 1 of proxy 0.
pub fn select_frame(alloc: Global, session: u32) -> ServiceFrame
    ensures frame { result ≡ select_frame session }
    ensures spelling { ServiceHasSpelling result }
{
    ServiceFrame::Call {
        proxy: 0,
        session,
        query: 1,
        args: Items::of(Vec::new(alloc)),
    }
}

/// Whether the texts of the entry are short enough for a Call.
pub fn fits(entry: &Entry) -> bool
    ensures { result ≡ nat_le (length entry.now.who + length entry.now.note) LONGEST_FILLED }
{
    entry.who.as_str().len() <= LONGEST_FILLED
        && entry.note.as_str().len() <= LONGEST_FILLED - entry.who.as_str().len()
}

/// Calls query 2 of proxy 0 with an entry that fits.
pub fn insert_frame(
    alloc: Global,
    session: u32,
    id: i64,
    who: Text,
    note: Text,
) -> Result<ServiceFrame, AllocError>
    requires { length who + length note ≤ LONGEST_FILLED }
    ensures frame { IfOk result (λ frame. frame ≡ insert_frame session (record { id = id; who = who; note = note })) }
    ensures spelling { IfOk result (λ frame. ServiceHasSpelling frame) }
{
    let _sizes = (who.as_str().len(), note.as_str().len());
    let mut args = Vec::with_capacity(alloc, 3)?;
    args.push(Value::Int(id))?;
    args.push(Value::Text(who))?;
    args.push(Value::Text(note))?;
    Ok(ServiceFrame::Call {
        proxy: 0,
        session,
        query: 2,
        args: Items::of(args),
    })
}

/// Logs that an entry was made.
pub fn log_frame(alloc: Global, id: i64) -> Result<ServiceFrame, AllocError>
    ensures frame { IfOk result (λ frame. frame ≡ log_frame id) }
    ensures spelling { IfOk result (λ frame. ServiceHasSpelling frame) }
{
    let digits = format!(in alloc; "{id}")?;
    let mut text = Vec::from_slice(alloc, b"post ")?;
    text.extend_from_slice(digits.as_bytes())?;
    let _size = len(&text);
    Ok(ServiceFrame::Log(Items::of(text)))
}

/// A Reply with a content of at most LONGEST_FILLED bytes.
fn reply(
    alloc: Global,
    status: u16,
    content_type: &[u8],
    location: &[u8],
    content: Items<u8>,
) -> Result<ServiceFrame, AllocError>
    requires status { IsTrue (is_reply_status status) }
    requires content_type { IsTrue (is_content_type content_type.now) }
    requires location { IsTrue (is_location location.now) }
    requires content { length content ≤ LONGEST_FILLED }
    ensures frame { IfOk result (λ frame. frame ≡ ServiceFrame.Reply status content_type.now location.now content) }
    ensures spelling { IfOk result (λ frame. ServiceHasSpelling frame) }
{
    let _size = len(content.as_slice());
    Ok(ServiceFrame::Reply {
        status,
        content_type: Items::of(Vec::from_slice(alloc, content_type)?),
        location: Items::of(Vec::from_slice(alloc, location)?),
        content,
    })
}

/// Replies with a plain text of at most LONGEST_FILLED bytes.
fn plain(alloc: Global, status: u16, content: Items<u8>) -> Result<ServiceFrame, AllocError>
    requires status { IsTrue (is_reply_status status) }
    requires content { length content ≤ LONGEST_FILLED }
    ensures frame { IfOk result (λ frame. frame ≡ plain status content) }
    ensures spelling { IfOk result (λ frame. ServiceHasSpelling frame) }
{
    reply(alloc, status, b"text/plain", b"", content)
}

/// Replies that the request failed.
pub fn refused(alloc: Global) -> Result<ServiceFrame, AllocError>
    ensures frame { IfOk result (λ frame. frame ≡ refused) }
    ensures spelling { IfOk result (λ frame. ServiceHasSpelling frame) }
{
    plain(alloc, 500, Items::of(Vec::from_slice(alloc, b"refused\n")?))
}

/// Replies that the form isn't one.
pub fn bad_form(alloc: Global) -> Result<ServiceFrame, AllocError>
    ensures frame { IfOk result (λ frame. frame ≡ bad_form) }
    ensures spelling { IfOk result (λ frame. ServiceHasSpelling frame) }
{
    plain(
        alloc,
        400,
        Items::of(Vec::from_slice(alloc, b"bad form\n")?),
    )
}

/// Replies that the number is taken.
pub fn taken(alloc: Global) -> Result<ServiceFrame, AllocError>
    ensures frame { IfOk result (λ frame. frame ≡ taken) }
    ensures spelling { IfOk result (λ frame. ServiceHasSpelling frame) }
{
    plain(alloc, 409, Items::of(Vec::from_slice(alloc, b"taken\n")?))
}

/// Replies that the entries may be looked at.
pub fn see_other(alloc: Global) -> Result<ServiceFrame, AllocError>
    ensures frame { IfOk result (λ frame. frame ≡ see_other) }
    ensures spelling { IfOk result (λ frame. ServiceHasSpelling frame) }
{
    let nothing = Items::of(Vec::new(alloc));
    reply(alloc, 303, b"text/plain", b"/guest", nothing)
}

/// Replies with the lines of the entries, as the page shows them where there is one. Where there are no lines, or the
/// page can't be filled or is too long, the request failed.
pub fn shown(
    alloc: Global,
    page: Option<&[u8]>,
    lines: Option<Vec<u8>>,
) -> Result<ServiceFrame, AllocError>
    ensures frame { IfOk result (λ frame. frame ≡ shown (option_map (λ p. p.now) page.entry) (option_map (λ t. t.items) lines)) }
    ensures spelling { IfOk result (λ frame. ServiceHasSpelling frame) }
{
    let Some(text) = lines else {
        return refused(alloc);
    };
    match page {
        None if text.len() > LONGEST_FILLED => refused(alloc),
        None => plain(alloc, 200, Items::of(text)),
        Some(page) => {
            let rows = Pair {
                name: b"rows",
                value: &text,
            };
            match fill(alloc, page, &[rows]) {
                Ok(content) => reply(alloc, 200, b"text/html", b"", content),
                Err(FillError::Refused { .. }) => refused(alloc),
                Err(FillError::NoMemory) => Err(AllocError),
            }
        }
    }
}
