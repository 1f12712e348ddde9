//! The fields of what a service hears, read from the front of bytes. All are passed over before one is
//! kept, so that bytes that are no frame take no memory.

ghost use Rattle.std.specs.Prelude.{option_map};
ghost use Rattle.frame_codec.specs.declared.frame.ServerFrame.{ServerFrame};
ghost use Rattle.frame_codec.specs.Reading.{Finds, Gives, all_of};
ghost use Rattle.frame_codec.specs.ServerFields.{boot_at, request_at, push_at, opened_at, table_at, changed_at, template_at, denied_at, nothing_at, boot_frame, request_frame, push_frame, rows_frame, template_frame, server_fields_at};

use crate::field::{
    Misread, ReadError, copy_of, ended, name_slice, string_slice, u8_at, u16_at, u32_at, u64_at,
};
use crate::frame::ServerFrame;
use crate::kind;
use crate::list::{after_issues, after_rows, issues_of, rows_of};
use crate::reading::{Fields, FrameRead, Read, first_frame};
use std::alloc::Global;

fn boot_of(alloc: Global, bytes: &[u8]) -> Result<ServerFrame, ReadError>
    ensures { Gives (λ frame. frame) result (option_map boot_frame (all_of (boot_at bytes.now))) }
{
    let (service, rest) = u16_at(bytes)?;
    let (incarnation, rest) = u32_at(rest)?;
    let (count, rest) = u8_at(rest)?;
    ended(after_issues(count, rest)?)?;
    let (tokens, _) = issues_of(alloc, count, rest)?;
    Ok(ServerFrame::Boot {
        service,
        incarnation,
        tokens,
    })
}

fn request_of(alloc: Global, bytes: &[u8]) -> Result<ServerFrame, ReadError>
    ensures { Gives (λ frame. frame) result (option_map request_frame (all_of (request_at bytes.now))) }
{
    let (head, rest) = string_slice(bytes)?;
    let (content, rest) = string_slice(rest)?;
    ended(rest)?;
    Ok(ServerFrame::Request {
        head: copy_of(alloc, head)?,
        content: copy_of(alloc, content)?,
    })
}

fn push_of(alloc: Global, bytes: &[u8]) -> Result<ServerFrame, ReadError>
    ensures { Gives (λ frame. frame) result (option_map push_frame (all_of (push_at bytes.now))) }
{
    let (template, rest) = name_slice(bytes)?;
    let (edition, rest) = u32_at(rest)?;
    let (content, rest) = string_slice(rest)?;
    ended(rest)?;
    Ok(ServerFrame::Push {
        template: copy_of(alloc, template)?,
        edition,
        content: copy_of(alloc, content)?,
    })
}

fn opened_of(bytes: &[u8]) -> Result<ServerFrame, Misread>
    ensures { Finds (λ frame. frame) result (option_map ServerFrame.Opened (all_of (opened_at bytes.now))) }
{
    let (session, rest) = u32_at(bytes)?;
    ended(rest)?;
    Ok(ServerFrame::Opened(session))
}

fn table_of(alloc: Global, bytes: &[u8]) -> Result<ServerFrame, ReadError>
    ensures { Gives (λ frame. frame) result (option_map rows_frame (all_of (table_at bytes.now))) }
{
    let (columns, rest) = u8_at(bytes)?;
    let (count, rest) = u32_at(rest)?;
    ended(after_rows(columns, count, rest)?)?;
    let (rows, _) = rows_of(alloc, columns, count, rest)?;
    Ok(ServerFrame::Rows { columns, rows })
}

fn changed_of(bytes: &[u8]) -> Result<ServerFrame, Misread>
    ensures { Finds (λ frame. frame) result (option_map ServerFrame.Changed (all_of (changed_at bytes.now))) }
{
    let (rows, rest) = u64_at(bytes)?;
    ended(rest)?;
    Ok(ServerFrame::Changed(rows))
}

fn template_of(alloc: Global, bytes: &[u8]) -> Result<ServerFrame, ReadError>
    ensures { Gives (λ frame. frame) result (option_map template_frame (all_of (template_at bytes.now))) }
{
    let (edition, rest) = u32_at(bytes)?;
    let (content, rest) = string_slice(rest)?;
    ended(rest)?;
    Ok(ServerFrame::Template {
        edition,
        content: copy_of(alloc, content)?,
    })
}

fn denied_of(bytes: &[u8]) -> Result<ServerFrame, Misread>
    ensures { Finds (λ frame. frame) result (option_map ServerFrame.Denied (all_of (denied_at bytes.now))) }
{
    let (rule, rest) = u8_at(bytes)?;
    ended(rest)?;
    Ok(ServerFrame::Denied(rule))
}

/// A frame that has no fields.
fn plain_of(frame: ServerFrame, bytes: &[u8]) -> Result<ServerFrame, Misread>
    ensures { Finds (λ frame. frame) result (option_map (λ _. frame) (all_of (nothing_at bytes.now))) }
{
    ended(bytes)?;
    Ok(frame)
}

impl Fields for ServerFrame {
    ghost fields = { server_fields_at };

    #[tactic(auto, unfolding(crate::specs::ServerFields::server_fields_at))]
    fn fields_of(alloc: Global, kind: u8, bytes: &[u8]) -> Result<ServerFrame, ReadError> {
        if kind == kind::BOOT {
            boot_of(alloc, bytes)
        } else if kind == kind::REQUEST {
            request_of(alloc, bytes)
        } else if kind == kind::PUSH {
            push_of(alloc, bytes)
        } else if kind == kind::OPENED {
            Ok(opened_of(bytes)?)
        } else if kind == kind::ROWS {
            table_of(alloc, bytes)
        } else if kind == kind::CHANGED {
            Ok(changed_of(bytes)?)
        } else if kind == kind::TEMPLATE {
            template_of(alloc, bytes)
        } else if kind == kind::LOGGED {
            Ok(plain_of(ServerFrame::Logged, bytes)?)
        } else if kind == kind::DENIED {
            Ok(denied_of(bytes)?)
        } else if kind == kind::FAILED {
            Ok(plain_of(ServerFrame::Failed, bytes)?)
        } else if kind == kind::NO_MEMORY {
            Ok(plain_of(ServerFrame::NoMemory, bytes)?)
        } else if kind == kind::DUPLICATE {
            Ok(plain_of(ServerFrame::Duplicate, bytes)?)
        } else {
            Err(ReadError::Bad)
        }
    }
}

impl FrameRead for ServerFrame {
    fn read(alloc: Global, bytes: &[u8]) -> Read<ServerFrame> {
        first_frame(alloc, bytes)
    }
}
