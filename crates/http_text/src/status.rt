//! The statuses that the server writes.

ghost use Rattle.std.specs.Prelude.{◌≡◌, option_copied};
ghost use Rattle.http_text.specs.Status.{phrase};

/// The reason phrase of a status that the server writes, or None of any other.
///
/// The phrases are those of RFC 9110, section 15, of RFC 6585, section 5 (431), and of RFC 4918,
/// section 11.5 (507, which here means that memory was refused).
pub fn phrase(status: u16) -> Option<&'static str>
    ensures { option_copied result ≡ phrase status }
{
    match status {
        200 => Some("OK"),
        201 => Some("Created"),
        303 => Some("See Other"),
        400 => Some("Bad Request"),
        403 => Some("Forbidden"),
        404 => Some("Not Found"),
        409 => Some("Conflict"),
        413 => Some("Content Too Large"),
        431 => Some("Request Header Fields Too Large"),
        500 => Some("Internal Server Error"),
        501 => Some("Not Implemented"),
        502 => Some("Bad Gateway"),
        503 => Some("Service Unavailable"),
        507 => Some("Insufficient Storage"),
        _ => None,
    }
}
