//! What a service hears: which frames have a spelling, how long it is, and the spelling itself.

ghost use Rattle.std.specs.Prelude.{◌≡◌, ◌↔◌, ◌<◌, ◌==◌, List, length, IfOk, IsSome, IfSome, IsTrue};
ghost use Rattle.std.specs.List.{list_all};
ghost use Rattle.okws_base.specs.declared.value.Value.{Value};
ghost use Rattle.frame_codec.specs.Spelling.{size, server_parts, server_spelling, FitsServer, HasSpelling};
ghost use Rattle.frame_codec.specs.Taking.{Takes};
ghost use Rattle.frame_codec.specs.Bounds.{IsServerBounded};

use crate::frame::{Issued, ServerFrame};
use crate::framing::{Frame, length_of, write};
use crate::kind;
use crate::part::spell_all;
use crate::taker::{Taker, take_count, take_name, take_string};
use okws_base::value::Row;
use std::alloc::{AllocError, Global};

/// Whether each row has this many columns.
fn are_wide(rows: &[Row], columns: u8) -> bool
    ensures { result ≡ list_all (λ (row : List Value). length row == columns) rows.now }
{
    rows.iter()
        .all(|row| row.as_slice().len() == columns as usize)
}

/// Whether there are fewer than 2^32 rows, of this many columns each.
fn are_bounded(columns: u8, rows: &[Row]) -> bool
    ensures yes { IsTrue result → IsServerBounded (ServerFrame.Rows columns rows.now) }
    ensures no { FitsServer (ServerFrame.Rows columns rows.now) → IsTrue result }
{
    rows.len() <= u32::MAX as usize && are_wide(rows, columns)
}

#[tactic(auto, unfolding(crate::specs::Spelling::two, crate::specs::Spelling::four))]
fn spell_boot<T: Taker>(to: &mut T, service: u16, incarnation: u32, tokens: &[Issued])
    requires { length tokens.now < 256 }
    ensures spelled { Takes T.took to.old (server_parts (ServerFrame.Boot service incarnation tokens.now)) to.new }
    ensures fits { FitsServer (ServerFrame.Boot service incarnation tokens.now) }
{
    to.take(&[kind::BOOT]);
    to.take(&service.to_be_bytes());
    to.take(&incarnation.to_be_bytes());
    to.take(&[tokens.len() as u8]);
    spell_all(tokens, to);
}

#[tactic(auto, unfolding(crate::specs::Spelling::four))]
fn spell_push<T: Taker>(to: &mut T, template: &[u8], edition: u32, content: &[u8])
    requires { length template.now < 256 }
    ensures spelled { Takes T.took to.old (server_parts (ServerFrame.Push template.now edition content.now)) to.new }
    ensures fits { FitsServer (ServerFrame.Push template.now edition content.now) }
{
    to.take(&[kind::PUSH]);
    take_name(to, template);
    to.take(&edition.to_be_bytes());
    take_string(to, content);
}

#[tactic(auto, unfolding(crate::specs::Spelling::four))]
fn spell_template<T: Taker>(to: &mut T, edition: u32, content: &[u8])
    ensures spelled { Takes T.took to.old (server_parts (ServerFrame.Template edition content.now)) to.new }
    ensures fits { FitsServer (ServerFrame.Template edition content.now) }
{
    to.take(&[kind::TEMPLATE]);
    to.take(&edition.to_be_bytes());
    take_string(to, content);
}

fn spell_rows<T: Taker>(to: &mut T, columns: u8, rows: &[Row])
    requires { IsServerBounded (ServerFrame.Rows columns rows.now) }
    ensures spelled { Takes T.took to.old (server_parts (ServerFrame.Rows columns rows.now)) to.new }
    ensures fits { FitsServer (ServerFrame.Rows columns rows.now) }
{
    to.take(&[kind::ROWS]);
    to.take(&[columns]);
    take_count(to, rows.len());
    spell_all(rows, to);
}

impl Frame for ServerFrame {
    ghost parts = { server_parts };

    ghost bounded = { IsServerBounded };

    ghost fits = { FitsServer };

    fn is_bounded(&self) -> bool {
        match self {
            ServerFrame::Boot { tokens, .. } => tokens.as_slice().len() < 256,
            ServerFrame::Push { template, .. } => template.as_slice().len() < 256,
            ServerFrame::Rows { columns, rows } => are_bounded(*columns, rows.as_slice()),
            ServerFrame::Request { .. }
            | ServerFrame::Opened(_)
            | ServerFrame::Changed(_)
            | ServerFrame::Template { .. }
            | ServerFrame::Logged
            | ServerFrame::Denied(_)
            | ServerFrame::Failed
            | ServerFrame::NoMemory
            | ServerFrame::Duplicate => true,
        }
    }

    #[tactic(auto, unfolding(crate::specs::Spelling::four, crate::specs::Spelling::eight))]
    fn spell<T: Taker>(&self, to: &mut T) {
        match self {
            ServerFrame::Boot {
                service,
                incarnation,
                tokens,
            } => spell_boot(to, *service, *incarnation, tokens.as_slice()),
            ServerFrame::Request { head, content } => {
                to.take(&[kind::REQUEST]);
                take_string(to, head.as_slice());
                take_string(to, content.as_slice());
            }
            ServerFrame::Push {
                template,
                edition,
                content,
            } => spell_push(to, template.as_slice(), *edition, content.as_slice()),
            ServerFrame::Opened(session) => {
                to.take(&[kind::OPENED]);
                to.take(&session.to_be_bytes());
            }
            ServerFrame::Rows { columns, rows } => spell_rows(to, *columns, rows.as_slice()),
            ServerFrame::Changed(rows) => {
                to.take(&[kind::CHANGED]);
                to.take(&rows.to_be_bytes());
            }
            ServerFrame::Template { edition, content } => {
                spell_template(to, *edition, content.as_slice())
            }
            ServerFrame::Logged => to.take(&[kind::LOGGED]),
            ServerFrame::Denied(rule) => {
                to.take(&[kind::DENIED]);
                to.take(&[*rule]);
            }
            ServerFrame::Failed => to.take(&[kind::FAILED]),
            ServerFrame::NoMemory => to.take(&[kind::NO_MEMORY]),
            ServerFrame::Duplicate => to.take(&[kind::DUPLICATE]),
        }
    }
}

impl ServerFrame {
    /// The length that the first four bytes of the spelling tell: the bytes of the kind and the
    /// fields, 1 to LONGEST_FRAME. None where the frame has no spelling.
    pub fn length(&self) -> Option<u32>
        ensures has { IsSome result ↔ HasSpelling self.now }
        ensures length { IfSome result (λ n. n ≡ size (server_parts self.now)) }
    {
        length_of(self)
    }

    /// Whether the frame has a spelling.
    pub fn has_spelling(&self) -> bool
        ensures { IsTrue result ↔ HasSpelling self.now }
    {
        self.length().is_some()
    }
}

/// The bytes of the frame: a length of four bytes, a kind and the fields.
pub fn write_server_frame(alloc: Global, frame: &ServerFrame) -> Result<Vec<u8>, AllocError>
    requires { HasSpelling frame.now }
    ensures { IfOk result (λ v. v.items ≡ server_spelling frame.now) }
{
    write(alloc, frame)
}
