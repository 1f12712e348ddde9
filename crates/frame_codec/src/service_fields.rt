//! The fields of what a service says, read from the front of bytes. All are passed over before one is
//! kept, so that bytes that are no frame take no memory.

ghost use Rattle.std.specs.Prelude.{option_map};
ghost use Rattle.frame_codec.specs.Reading.{Finds, Gives, name_at, string_at, all_of};
ghost use Rattle.frame_codec.specs.ServiceFields.{open_at, call_at, reply_at, open_frame, call_frame, reply_frame, service_fields_at};

use crate::field::{
    Misread, ReadError, content_type_slice, copy_of, ended, location_slice, name_slice, status_at,
    string_slice, token_at, u16_at, u32_at,
};
use crate::frame::ServiceFrame;
use crate::kind::{CALL, GET, LOG, OPEN, REPLY};
use crate::list::{after_values, values_of};
use crate::reading::{Fields, FrameRead, Read, first_frame};
use std::alloc::Global;

fn open_of(bytes: &[u8]) -> Result<ServiceFrame, Misread>
    ensures { Finds (λ frame. frame) result (option_map open_frame (all_of (open_at bytes.now))) }
{
    let (proxy, rest) = u16_at(bytes)?;
    let (shown, rest) = token_at(rest)?;
    ended(rest)?;
    Ok(ServiceFrame::Open { proxy, shown })
}

fn call_of(alloc: Global, bytes: &[u8]) -> Result<ServiceFrame, ReadError>
    ensures { Gives (λ frame. frame) result (option_map call_frame (all_of (call_at bytes.now))) }
{
    let (proxy, rest) = u16_at(bytes)?;
    let (session, rest) = u32_at(rest)?;
    let (query, rest) = u16_at(rest)?;
    ended(after_values(rest)?)?;
    let (args, _) = values_of(alloc, rest)?;
    Ok(ServiceFrame::Call {
        proxy,
        session,
        query,
        args,
    })
}

fn get_of(alloc: Global, bytes: &[u8]) -> Result<ServiceFrame, ReadError>
    ensures { Gives (λ frame. frame) result (option_map ServiceFrame.Get (all_of (name_at bytes.now))) }
{
    let (template, rest) = name_slice(bytes)?;
    ended(rest)?;
    Ok(ServiceFrame::Get(copy_of(alloc, template)?))
}

fn log_of(alloc: Global, bytes: &[u8]) -> Result<ServiceFrame, ReadError>
    ensures { Gives (λ frame. frame) result (option_map ServiceFrame.Log (all_of (string_at bytes.now))) }
{
    let (text, rest) = string_slice(bytes)?;
    ended(rest)?;
    Ok(ServiceFrame::Log(copy_of(alloc, text)?))
}

fn reply_of(alloc: Global, bytes: &[u8]) -> Result<ServiceFrame, ReadError>
    ensures { Gives (λ frame. frame) result (option_map reply_frame (all_of (reply_at bytes.now))) }
{
    let (status, rest) = status_at(bytes)?;
    let (content_type, rest) = content_type_slice(rest)?;
    let (location, rest) = location_slice(rest)?;
    let (content, rest) = string_slice(rest)?;
    ended(rest)?;
    Ok(ServiceFrame::Reply {
        status,
        content_type: copy_of(alloc, content_type)?,
        location: copy_of(alloc, location)?,
        content: copy_of(alloc, content)?,
    })
}

impl Fields for ServiceFrame {
    ghost fields = { service_fields_at };

    #[tactic(auto, unfolding(crate::specs::ServiceFields::service_fields_at))]
    fn fields_of(alloc: Global, kind: u8, bytes: &[u8]) -> Result<ServiceFrame, ReadError> {
        if kind == OPEN {
            Ok(open_of(bytes)?)
        } else if kind == CALL {
            call_of(alloc, bytes)
        } else if kind == GET {
            get_of(alloc, bytes)
        } else if kind == LOG {
            log_of(alloc, bytes)
        } else if kind == REPLY {
            reply_of(alloc, bytes)
        } else {
            Err(ReadError::Bad)
        }
    }
}

impl FrameRead for ServiceFrame {
    fn read(alloc: Global, bytes: &[u8]) -> Read<ServiceFrame> {
        first_frame(alloc, bytes)
    }
}
