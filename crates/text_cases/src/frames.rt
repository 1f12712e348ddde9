//! Frames that are read, and written again.

use crate::notation::written_out;
use crate::printing::{put_digits, put_text, put_values};
use frame_codec::frame::{Issued, ServerFrame, ServiceFrame};
use frame_codec::reading::{Read, read_frame};
use frame_codec::server::write_server_frame;
use frame_codec::service::write_service_frame;
use okws_base::value::Row;
use std::alloc::{AllocError, Global};

/// A name and bytes.
fn put_named(out: &mut String, name: &str, bytes: &[u8]) -> Result<(), AllocError> {
    out.push_str(name)?;
    put_text(out, bytes)
}

fn put_reply(
    out: &mut String,
    status: u16,
    content_type: &[u8],
    location: &[u8],
    content: &[u8],
) -> Result<(), AllocError> {
    write!(out, "reply {status}")?;
    put_named(out, " type ", content_type)?;
    put_named(out, " location ", location)?;
    put_named(out, " content ", content)
}

/// The fields of a service's frame.
pub fn put_service(out: &mut String, frame: &ServiceFrame) -> Result<(), AllocError> {
    match frame {
        ServiceFrame::Open { proxy, shown } => {
            write!(out, "open proxy {proxy} token ")?;
            put_digits(out, &shown.bytes)
        }
        ServiceFrame::Call {
            proxy,
            session,
            query,
            args,
        } => {
            write!(out, "call proxy {proxy} session {session} query {query}")?;
            put_values(out, args.as_slice())
        }
        ServiceFrame::Get(name) => put_named(out, "get ", name.as_slice()),
        ServiceFrame::Log(text) => put_named(out, "log ", text.as_slice()),
        ServiceFrame::Reply {
            status,
            content_type,
            location,
            content,
        } => put_reply(
            out,
            *status,
            content_type.as_slice(),
            location.as_slice(),
            content.as_slice(),
        ),
    }
}

fn put_tokens(out: &mut String, tokens: &[Issued]) -> Result<(), AllocError> {
    for issued in tokens {
        write!(out, " proxy {} token ", issued.proxy)?;
        put_digits(out, &issued.token.bytes)?;
    }
    Ok(())
}

fn put_rows(out: &mut String, rows: &[Row]) -> Result<(), AllocError> {
    for row in rows {
        out.push_str(" |")?;
        put_values(out, row.as_slice())?;
    }
    Ok(())
}

/// The fields of a server's frame that has several.
fn put_fields(out: &mut String, frame: &ServerFrame) -> Result<(), AllocError> {
    match frame {
        ServerFrame::Boot {
            service,
            incarnation,
            tokens,
        } => {
            write!(out, "boot service {service} incarnation {incarnation}")?;
            put_tokens(out, tokens.as_slice())
        }
        ServerFrame::Request { head, content } => {
            put_named(out, "request ", head.as_slice())?;
            put_named(out, " content ", content.as_slice())
        }
        ServerFrame::Push {
            template,
            edition,
            content,
        } => {
            put_named(out, "push ", template.as_slice())?;
            write!(out, " edition {edition}")?;
            put_named(out, " content ", content.as_slice())
        }
        ServerFrame::Template { edition, content } => {
            write!(out, "template edition {edition}")?;
            put_named(out, " content ", content.as_slice())
        }
        ServerFrame::Rows { columns, rows } => {
            write!(out, "rows of {columns}")?;
            put_rows(out, rows.as_slice())
        }
        _ => out.push_str("no fields"),
    }
}

/// The fields of a server's frame.
fn put_server(out: &mut String, frame: &ServerFrame) -> Result<(), AllocError> {
    match frame {
        ServerFrame::Opened(session) => write!(out, "opened {session}"),
        ServerFrame::Changed(count) => write!(out, "changed {count}"),
        ServerFrame::Denied(rule) => write!(out, "denied {rule}"),
        ServerFrame::Logged => out.push_str("logged"),
        ServerFrame::Failed => out.push_str("failed"),
        ServerFrame::NoMemory => out.push_str("no memory"),
        ServerFrame::Duplicate => out.push_str("duplicate"),
        _ => put_fields(out, frame),
    }
}

/// How a service's frame is written.
fn put_service_digits(
    out: &mut String,
    alloc: Global,
    frame: &ServiceFrame,
) -> Result<(), AllocError> {
    if frame.has_spelling() {
        put_digits(out, &write_service_frame(alloc, frame)?)
    } else {
        out.push_str("no way")
    }
}

/// How a server's frame is written.
fn put_server_digits(
    out: &mut String,
    alloc: Global,
    frame: &ServerFrame,
) -> Result<(), AllocError> {
    if frame.has_spelling() {
        put_digits(out, &write_server_frame(alloc, frame)?)
    } else {
        out.push_str("no way")
    }
}

fn put_service_read(
    out: &mut String,
    alloc: Global,
    read: &Read<ServiceFrame>,
) -> Result<(), AllocError> {
    match read {
        Read::Frame(frame, taken) => {
            write!(out, "{taken} bytes, ")?;
            put_service(out, frame)?;
            out.push_str(", written ")?;
            put_service_digits(out, alloc, frame)
        }
        Read::Short => out.push_str("short"),
        Read::BadFrame => out.push_str("bad"),
        Read::NoMemory => Err(AllocError),
    }
}

fn put_server_read(
    out: &mut String,
    alloc: Global,
    read: &Read<ServerFrame>,
) -> Result<(), AllocError> {
    match read {
        Read::Frame(frame, taken) => {
            write!(out, "{taken} bytes, ")?;
            put_server(out, frame)?;
            out.push_str(", written ")?;
            put_server_digits(out, alloc, frame)
        }
        Read::Short => out.push_str("short"),
        Read::BadFrame => out.push_str("bad"),
        Read::NoMemory => Err(AllocError),
    }
}

/// The bytes of digits, in which repetitions are written out; none where they are no digits.
pub fn digits_of(alloc: Global, text: &str) -> Result<Vec<u8>, AllocError> {
    let text = written_out(alloc, text)?;
    match hex::decode(alloc, text.as_str()) {
        Ok(bytes) => Ok(bytes),
        Err(_) => Ok(Vec::new(alloc)),
    }
}

/// What a service's frame at the front of bytes says.
pub fn service(out: &mut String, alloc: Global, digits: &str) -> Result<(), AllocError> {
    let bytes = digits_of(alloc, digits)?;
    put_service_read(out, alloc, &read_frame(alloc, &bytes))
}

/// What a server's frame at the front of bytes says.
pub fn server(out: &mut String, alloc: Global, digits: &str) -> Result<(), AllocError> {
    let bytes = digits_of(alloc, digits)?;
    put_server_read(out, alloc, &read_frame(alloc, &bytes))
}

fn is_short(alloc: Global, bytes: &[u8]) -> bool {
    matches!(read_frame::<ServerFrame>(alloc, bytes), Read::Short)
}

/// How many of the parts that bytes begin with, each shorter than they are, are short.
pub fn parts(out: &mut String, alloc: Global, digits: &str) -> Result<(), AllocError> {
    let bytes = digits_of(alloc, digits)?;
    let mut short = 0usize;
    for end in 0..bytes.len() {
        if is_short(alloc, &bytes[..end]) {
            short = short.saturating_add(1);
        }
    }
    write!(out, "{short} of {} short", bytes.len())
}
