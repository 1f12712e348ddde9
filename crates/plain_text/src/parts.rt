//! What parts a text, and whether bytes are one.

ghost use Rattle.std.specs.Prelude.{◌≡◌, ◌<◌, ◌==◌, ◌∷◌, [], length, position, MatchOption};
ghost use Rattle.std.specs.List.{slice_split, before_first};
ghost use Rattle.std.specs.Str.{is_utf8};
ghost use Rattle.okws_base.specs.Value.{same_bytes};
ghost use Rattle.plain_text.specs.Parts.{is_byte};

use std::str;

fn place_of(byte: u8, text: &[u8]) -> Option<usize>
    ensures { result ≡ position (is_byte byte) text.now }
{
    text.iter().position(|other| *other == byte)
}

/// What stands before the first such byte, and what stands behind it; None where there is none.
pub fn split_at_byte(byte: u8, text: &[u8]) -> Option<(&[u8], &[u8])>
    ensures parts { MatchOption result (slice_split (is_byte byte) text.now ≡ text.now ∷ []) (λ found. slice_split (is_byte byte) text.now ≡ found.0.now ∷ slice_split (is_byte byte) found.1.now) }
    ensures before { MatchOption result (before_first (is_byte byte) text.now ≡ text.now) (λ found. before_first (is_byte byte) text.now ≡ found.0.now) }
    ensures shorter { MatchOption result (length text.now ≡ length text.now) (λ found. length found.1.now < length text.now) }
{
    match place_of(byte, text) {
        None => None,
        Some(end) => Some((&text[..end], &text[end + 1..])),
    }
}

/// What stands before the first such byte, or all of the text where there is none.
pub fn before_byte(byte: u8, text: &[u8]) -> &[u8]
    ensures { result.now ≡ before_first (is_byte byte) text.now }
{
    match split_at_byte(byte, text) {
        None => text,
        Some((front, _)) => front,
    }
}

/// Whether two byte strings are the same.
pub fn is_same(one: &[u8], other: &[u8]) -> bool
    ensures { result ≡ same_bytes one.now other.now }
{
    one == other
}

/// Whether bytes are UTF-8.
pub fn is_text(bytes: &[u8]) -> bool
    ensures { result ≡ is_utf8 bytes.now }
{
    str::from_utf8(bytes).is_ok()
}
