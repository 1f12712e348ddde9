//! What a Reply may say.

ghost use Rattle.std.specs.Prelude.{◌≡◌, ◌<◌, length};
ghost use Rattle.std.specs.List.{list_all};
ghost use Rattle.frame_codec.specs.Spelling.{is_printable, is_visible, is_trimmed, is_reply_status, is_content_type, is_location};

/// Whether a Reply may have the status: 200, 201, 303, 400, 403, 404, 409 or 500.
pub fn is_status_of_reply(status: u16) -> bool
    ensures { result ≡ is_reply_status status }
{
    status == 200
        || status == 201
        || status == 303
        || status == 400
        || status == 403
        || status == 404
        || status == 409
        || status == 500
}

fn is_printable_byte(byte: u8) -> bool
    ensures { result ≡ is_printable byte }
{
    32 <= byte && byte <= 126
}

fn is_visible_byte(byte: u8) -> bool
    ensures { result ≡ is_visible byte }
{
    33 <= byte && byte <= 126
}

fn are_printable(text: &[u8]) -> bool
    ensures { result ≡ list_all is_printable text.now }
{
    text.iter().all(|byte| is_printable_byte(*byte))
}

fn are_visible(text: &[u8]) -> bool
    ensures { result ≡ list_all is_visible text.now }
{
    text.iter().all(|byte| is_visible_byte(*byte))
}

/// Whether neither the first nor the last byte is a blank.
fn has_no_blank_end(text: &[u8]) -> bool
    requires { 0 < length text.now }
    ensures { result ≡ is_trimmed text.now }
{
    text[0] != b' ' && text[text.len() - 1] != b' '
}

/// Whether a Reply may have the content type: 1 to 255 bytes 32 to 126, of which neither the first
/// nor the last is 32.
pub fn is_content_type_of_reply(text: &[u8]) -> bool
    ensures { result ≡ is_content_type text.now }
{
    1 <= text.len() && text.len() <= 255 && are_printable(text) && has_no_blank_end(text)
}

/// Whether a Reply may have the Location: 0 to 255 bytes 33 to 126.
pub fn is_location_of_reply(text: &[u8]) -> bool
    ensures { result ≡ is_location text.now }
{
    text.len() <= 255 && are_visible(text)
}
