//! How many puts a frame takes, and how long it may be.

ghost use Rattle.frame_codec.specs.Spelling.{HasSpelling};

use crate::holding::{counts, holds};
use frame_codec::frame::{Issued, ServerFrame};
use frame_codec::server::write_server_frame;
use frame_link::sending::send;
use okws_base::items::Items;
use okws_base::limit::LONGEST_FRAME;
use okws_base::value::{Row, Token, Value};
use okws_outer::memory::link::MemoryLink;
use okws_outer::stream::Link;
use std::alloc::Global;
use std::process::Abort;

/// Whether the frame goes out, over a link whose first `puts` calls succeed and the next one fails.
fn goes_in(rt: &impl Abort, alloc: Global, frame: &ServerFrame, puts: u64) -> bool
    requires { HasSpelling frame.now }
{
    let failing = [puts];
    let mut link = MemoryLink::new(alloc, 1, &failing);
    link.make_room(LONGEST_FRAME + 4)
        .expect(rt, "memory was refused");
    send(&mut link, frame).is_ok()
}

/// The frame that was made goes out in just so many puts.
fn is_put_in(rt: &impl Abort, alloc: Global, frame: ServerFrame, puts: u64) {
    assert!(rt; frame.has_spelling());
    holds(rt, goes_in(rt, alloc, &frame, puts), "so many puts");
    holds(
        rt,
        !goes_in(rt, alloc, &frame, puts.saturating_sub(1)),
        "fewer puts",
    );
}

/// Bytes of this length.
fn bytes_of(rt: &impl Abort, alloc: Global, length: usize) -> Items<u8> {
    let bytes = vec![in alloc; 97u8; length].expect(rt, "memory was refused");
    Items::of(bytes)
}

/// A row of a number, where one is told, and of so many bytes.
fn row(rt: &impl Abort, alloc: Global, number: Option<i64>, length: usize) -> Row {
    let mut row = Items::of(Vec::new(alloc));
    if let Some(number) = number {
        row.push(Value::Int(number))
            .expect(rt, "memory was refused");
    }
    row.push(Value::Bytes(bytes_of(rt, alloc, length)))
        .expect(rt, "memory was refused");
    row
}

/// Rows of a number and 20 bytes.
fn few_rows(rt: &impl Abort, alloc: Global, count: i64) -> ServerFrame {
    let mut rows = Items::of(Vec::new(alloc));
    for number in 0..count {
        rows.push(row(rt, alloc, Some(number), 20))
            .expect(rt, "memory was refused");
    }
    ServerFrame::Rows { columns: 2, rows }
}

/// A Boot of two tokens.
fn boot(rt: &impl Abort, alloc: Global) -> ServerFrame {
    let mut tokens = Items::of(Vec::new(alloc));
    for proxy in 0..2 {
        let issued = Issued {
            proxy,
            token: Token { bytes: [7; 20] },
        };
        tokens.push(issued).expect(rt, "memory was refused");
    }
    ServerFrame::Boot {
        service: 1,
        incarnation: 1,
        tokens,
    }
}

/// A Request with a head and a content of these lengths, which has 13 bytes more.
fn request(rt: &impl Abort, alloc: Global, head: usize, content: usize) -> ServerFrame {
    ServerFrame::Request {
        head: bytes_of(rt, alloc, head),
        content: bytes_of(rt, alloc, content),
    }
}

/// A Template with a content of this length.
fn long_template(rt: &impl Abort, alloc: Global, length: usize) -> ServerFrame {
    ServerFrame::Template {
        edition: 1,
        content: bytes_of(rt, alloc, length),
    }
}

#[test]
fn a_short_frame_is_one_put(rt: HostRuntime) {
    let alloc = rt.alloc();
    is_put_in(&rt, alloc, boot(&rt, alloc), 1);
    is_put_in(&rt, alloc, few_rows(&rt, alloc, 4), 1);
    is_put_in(&rt, alloc, ServerFrame::Logged, 1);
}

#[test]
fn one_put_is_of_1024_bytes(rt: HostRuntime) {
    let alloc = rt.alloc();
    // 150 bytes, 1,024 bytes, and one more.
    for (head, content, puts) in [(120, 17, 1), (1_000, 11, 1), (1_000, 12, 2)] {
        is_put_in(&rt, alloc, request(&rt, alloc, head, content), puts);
    }
}

#[test]
fn a_long_frame_is_few_puts(rt: HostRuntime) {
    let alloc = rt.alloc();
    // A content of 5,000 bytes goes by itself, and rows of some 5,000 in five.
    is_put_in(&rt, alloc, long_template(&rt, alloc, 5_000), 2);
    is_put_in(&rt, alloc, few_rows(&rt, alloc, 147), 5);
}

/// Two rows of so many bytes each.
fn blobs(rt: &impl Abort, alloc: Global, first: usize, second: usize) -> ServerFrame {
    let mut rows = Items::of(Vec::new(alloc));
    for length in [first, second] {
        rows.push(row(rt, alloc, None, length))
            .expect(rt, "memory was refused");
    }
    ServerFrame::Rows { columns: 1, rows }
}

/// How long the frame is told to be, and how many bytes are written of it; none where it is too long.
fn lengths_of(rt: &impl Abort, alloc: Global, frame: ServerFrame) -> (u32, usize) {
    let length = frame.length().unwrap_or(0);
    if !frame.has_spelling() {
        return (length, 0);
    }
    let written = write_server_frame(alloc, &frame).expect(rt, "memory was refused");
    (length, written.len())
}

#[test]
fn longest_rows(rt: HostRuntime) {
    let alloc = rt.alloc();
    let (length, written) = lengths_of(&rt, alloc, blobs(&rt, alloc, 524_280, 524_280));
    counts(&rt, length as usize, 1_048_576);
    counts(&rt, written, 1_048_580);
    let longer = lengths_of(&rt, alloc, blobs(&rt, alloc, 524_280, 524_281));
    holds(&rt, longer == (0, 0), "one byte more");
}
