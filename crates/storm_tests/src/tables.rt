//! Tables of what hostile services and clients say. A row is a line; lines that begin with `#` say which rule gives the rows
//! behind them. `{N TEXT}` is the text so many times.

use crate::holding::MEMORY;
use std::alloc::Global;
use std::process::Abort;

/// What a service says behind its first frame, an Open with its own token; what it hears behind Opened, or `-`; and how the
/// dialog ends. `t` is the token; spaces part the fields. Behind it all a Reply of 200 is said, which is taken where the row is.
pub const SERVICES: &str = "
# The length of a frame is 1 to 1,048,576.
00000000 | - | BadFrame
00100001 | - | BadFrame
# A service says frames of the kinds 41 to 45.
00000001 46 | - | BadFrame
00000002 01 00 | - | BadFrame
# The payload fills the rest of the frame: an Open has a proxy's number and 20 bytes.
00000018 41 0000 t 00 | - | BadFrame
# A Call has as many values as it counts.
0000000a 42 0000 00000000 0001 01 | - | BadFrame
# The bytes of a TEXT are UTF-8.
00000010 42 0000 00000000 0004 01 02 00000001 ff | - | BadFrame
# The status of a Reply is 200, 201, 303, 400, 403, 404, 409 or 500, and no byte of its content type is below 32.
00000015 45 00cc 0a 746578742f706c61696e 00 00000002 6f6b | - | BadFrame
00000015 45 00c8 0a 746578742f700d61696e 00 00000002 6f6b | - | BadFrame
# A template that isn't declared is not granted, which is rule 21.
00000002 43 00 | 00000002 09 15 | Reply
# A session that this incarnation didn't open is none, which is rule 13.
0000000a 42 0000 ffffffff 0001 00 | 00000002 09 0d | Reply
# A token that was never issued to this service is unknown, which is rule 11.
00000017 41 0000 0000000000000000000000000000000000000000 | 00000002 09 0b | Reply
# A dialog has at most 4,096 frames, of which the first Open was one: these are answered, and the one behind them is too many.
{4095 00000017 41 0000 0000000000000000000000000000000000000000} | {4095 00000002 09 0b} | FrameLimit
";

/// What a client is told, and what it sends, in which `~` ends a line. A request that is served is told 200.
pub const CLIENTS: &str = "
# A head has at most 64 fields, and ends within its first 16,384 bytes: the second row's has so many and doesn't end.
431 Request Header Fields Too Large | GET /guest HTTP/1.1~Host: h~{64 A: b~}~
431 Request Header Fields Too Large | GET /guest HTTP/1.1~Host: h~A: {16351 b}
200 OK | GET /guest HTTP/1.1~Host: h~{63 A: b~}~
# The version is 1.0 or 1.1.
400 Bad Request | GET /guest HTTP/2.0~Host: h~~
# A target begins with a slash, or with HTTP:// and an authority, and has no number sign.
400 Bad Request | GET * HTTP/1.1~Host: h~~
400 Bad Request | GET /a#b HTTP/1.1~Host: h~~
400 Bad Request | GET HTTP:///x HTTP/1.1~Host: h~~
# Behind an authority without a slash the path is that of the root, which nobody owns.
404 Not Found | GET Http://h HTTP/1.1~Host: h~~
404 Not Found | GET HTTP://h?x HTTP/1.1~Host: h~~
# Any coding of the content is judged before its lengths.
501 Not Implemented | POST /guest HTTP/1.1~Host: h~Transfer-Encoding: identity~Content-Length: 1~Content-Length: 1~~a
# A length is decimal digits alone.
400 Bad Request | POST /guest HTTP/1.1~Host: h~Content-Length: +1~~a
400 Bad Request | POST /guest HTTP/1.1~Host: h~Content-Length: 1, 1~~a
# The content has at most 262,144 bytes.
413 Content Too Large | POST /guest HTTP/1.1~Host: h~Content-Length: {30 9}~~
200 OK | POST /guest HTTP/1.1~Host: h~Content-Length: 262144~~{262144 a}
";

/// Whether a line of a table is a row.
pub fn is_row(line: &str) -> bool {
    !line.is_empty() && !line.starts_with('#')
}

fn put_repeated(rt: &impl Abort, out: &mut String, part: &str) {
    let (repeated, rest) = part.split_once('}').expect(rt, "no end of a repetition");
    let (count, text) = repeated.split_once(' ').expect(rt, "no count");
    for _ in 0..count.parse::<u32>().unwrap_or(0) {
        out.push_str(text).expect(rt, MEMORY);
    }
    out.push_str(rest).expect(rt, MEMORY);
}

/// A text with its repetitions written out.
pub fn written_out(rt: &impl Abort, alloc: Global, text: &str) -> String {
    let mut out = String::new(alloc);
    let mut parts = text.split('{');
    out.push_str(parts.next().unwrap_or("")).expect(rt, MEMORY);
    for part in parts {
        put_repeated(rt, &mut out, part);
    }
    out
}

/// The bytes of digits, in which `t` is this token, spaces and `-` are nothing, and repetitions are written out.
pub fn frames(rt: &impl Abort, alloc: Global, text: &str, token: &str) -> Vec<u8> {
    let text = written_out(rt, alloc, text);
    let mut digits = String::new(alloc);
    for sign in text.as_str().chars() {
        match sign {
            ' ' | '-' => {}
            't' => digits.push_str(token).expect(rt, MEMORY),
            digit => digits.push(digit).expect(rt, MEMORY),
        }
    }
    match hex::decode(alloc, digits.as_str()) {
        Ok(bytes) => bytes,
        Err(_) => panic!(rt; "no hexadecimal digits"),
    }
}

/// The bytes of a request, in which `~` ends a line and repetitions are written out.
pub fn request(rt: &impl Abort, alloc: Global, text: &str) -> Vec<u8> {
    let text = written_out(rt, alloc, text);
    let mut bytes = Vec::new(alloc);
    let mut lines = text.as_str().split('~');
    let first = lines.next().unwrap_or("");
    bytes.extend_from_slice(first.as_bytes()).expect(rt, MEMORY);
    for line in lines {
        bytes.extend_from_slice(b"\r\n").expect(rt, MEMORY);
        bytes.extend_from_slice(line.as_bytes()).expect(rt, MEMORY);
    }
    bytes
}
