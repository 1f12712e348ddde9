//! Frames that have a spelling by the bounds of their fields.

ghost use Rattle.std.specs.Prelude.{◌≡◌, ◌<◌, ◌≤◌, ◌+◌, length, IsTrue, nat_le, ◌==◌, List};
ghost use Rattle.std.specs.List.{list_all};
ghost use Rattle.okws_base.specs.declared.value.Value.{Value};
ghost use Rattle.frame_codec.specs.Spelling.{size, server_parts, HasSpelling};

use crate::frame::{Issued, ServerFrame};
use crate::part::{count_all, len};
use okws_base::items::Items;
use okws_base::limit::LONGEST_FRAME;
use okws_base::value::Row;

/// A Boot of at most 255 tokens.
pub fn boot(service: u16, incarnation: u32, tokens: Items<Issued>) -> ServerFrame
    requires { length tokens < 256 }
    ensures frame { result ≡ ServerFrame.Boot service incarnation tokens }
    ensures spelling { HasSpelling result }
{
    let _size = count_all(0, tokens.as_slice());
    ServerFrame::Boot {
        service,
        incarnation,
        tokens,
    }
}

/// A Request whose head and content are short enough for a frame.
pub fn request(head: Items<u8>, content: Items<u8>) -> ServerFrame
    requires { length head + length content + 9 ≤ LONGEST_FRAME }
    ensures frame { result ≡ ServerFrame.Request head content }
    ensures spelling { HasSpelling result }
{
    let _sizes = (len(head.as_slice()), len(content.as_slice()));
    ServerFrame::Request { head, content }
}

/// A Push of a template with a name of at most 255 bytes and a content that is short enough for a
/// frame.
pub fn push(template: Items<u8>, edition: u32, content: Items<u8>) -> ServerFrame
    requires template { length template < 256 }
    requires content { length content + 265 ≤ LONGEST_FRAME }
    ensures frame { result ≡ ServerFrame.Push template edition content }
    ensures spelling { HasSpelling result }
{
    let _sizes = (len(template.as_slice()), len(content.as_slice()));
    ServerFrame::Push {
        template,
        edition,
        content,
    }
}

/// A Template with a content that is short enough for a frame.
pub fn template(edition: u32, content: Items<u8>) -> ServerFrame
    requires { length content + 9 ≤ LONGEST_FRAME }
    ensures frame { result ≡ ServerFrame.Template edition content }
    ensures spelling { HasSpelling result }
{
    let _size = len(content.as_slice());
    ServerFrame::Template { edition, content }
}

/// Rows of so many columns each, 1 at the least, which are short enough for a frame.
pub fn rows(columns: u8, rows: Items<Row>) -> ServerFrame
    requires some { 0 < columns }
    requires wide { IsTrue (list_all (λ (row : List Value). length row == columns) rows) }
    requires short { size (server_parts (ServerFrame.Rows columns rows)) ≤ LONGEST_FRAME }
    ensures frame { result ≡ ServerFrame.Rows columns rows }
    ensures spelling { HasSpelling result }
{
    let _size = count_all(0, rows.as_slice());
    ServerFrame::Rows { columns, rows }
}

/// Opened with the number of a session.
pub fn opened(session: u32) -> ServerFrame
    ensures frame { result ≡ ServerFrame.Opened session }
    ensures spelling { HasSpelling result }
{
    ServerFrame::Opened(session)
}

/// Changed with a count of rows.
pub fn changed(rows: u64) -> ServerFrame
    ensures frame { result ≡ ServerFrame.Changed rows }
    ensures spelling { HasSpelling result }
{
    ServerFrame::Changed(rows)
}

/// Denied by the rule of this number.
pub fn denied(rule: u8) -> ServerFrame
    ensures frame { result ≡ ServerFrame.Denied rule }
    ensures spelling { HasSpelling result }
{
    ServerFrame::Denied(rule)
}

/// Logged.
pub fn logged() -> ServerFrame
    ensures frame { result ≡ ServerFrame.Logged }
    ensures spelling { HasSpelling result }
{
    ServerFrame::Logged
}

/// Failed.
pub fn failed() -> ServerFrame
    ensures frame { result ≡ ServerFrame.Failed }
    ensures spelling { HasSpelling result }
{
    ServerFrame::Failed
}

/// NoMemory.
pub fn no_memory() -> ServerFrame
    ensures frame { result ≡ ServerFrame.NoMemory }
    ensures spelling { HasSpelling result }
{
    ServerFrame::NoMemory
}

/// Duplicate.
pub fn duplicate() -> ServerFrame
    ensures frame { result ≡ ServerFrame.Duplicate }
    ensures spelling { HasSpelling result }
{
    ServerFrame::Duplicate
}
