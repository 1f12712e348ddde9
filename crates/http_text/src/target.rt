//! The targets of requests (RFC 9112, section 3.2).

ghost use Rattle.std.specs.Prelude.{◌≡◌, option_copied, position};
ghost use Rattle.std.specs.List.{list_all, before_first};
ghost use Rattle.http_text.specs.Target.{is_target_byte, is_question_mark, ends_authority, begins_with_slash, begins_with_scheme, authority, after_scheme, after_authority, is_target, path_after_authority, path, path_of};

use okws_base::name::are_same_word;
use plain_text::parts::before_byte;

/// What the absolute form of a target begins with, in any case of its letters.
const SCHEME: &[u8] = b"HTTP://";

/// The path that a request's target names, or None where the bytes are no target that is taken.
///
/// A target has bytes 33 to 126 without `#`. It has the origin form, which begins with `/`, or the
/// absolute form: `HTTP://` in any case, an authority of at least one byte up to the first `/` or
/// `?` or the end, and the rest (RFC 9112, sections 3.2.1 and 3.2.2). The path begins at the first
/// `/`, in the absolute form at the one directly after the authority, and goes up to the first `?`
/// or the end. Where no `/` stands directly after the authority, the path is `/`.
pub fn path_of(target: &[u8]) -> Option<&[u8]>
    ensures { option_copied result ≡ path_of target.now }
{
    if is_target(target) {
        Some(path(target))
    } else {
        None
    }
}

fn is_target(target: &[u8]) -> bool
    ensures { result ≡ is_target target.now }
{
    are_target_bytes(target)
        && (begins_with_slash(target)
            || (begins_with_scheme(target) && !authority(target).is_empty()))
}

fn target_byte(byte: u8) -> bool
    ensures { result ≡ is_target_byte byte }
{
    byte >= 33 && byte <= 126 && byte != b'#'
}

/// Whether each byte is one of 33 to 126 without `#`.
pub fn are_target_bytes(target: &[u8]) -> bool
    ensures { result ≡ list_all is_target_byte target.now }
{
    target.iter().all(|byte| target_byte(*byte))
}

fn begins_with_slash(text: &[u8]) -> bool
    ensures { result ≡ begins_with_slash text.now }
{
    text.starts_with(b"/")
}

fn begins_with_scheme(target: &[u8]) -> bool
    ensures { result ≡ begins_with_scheme target.now }
{
    target.len() >= SCHEME.len() && are_same_word(&target[..SCHEME.len()], SCHEME)
}

fn after_scheme(target: &[u8]) -> &[u8]
    ensures { result.now ≡ after_scheme target.now }
{
    target.get(SCHEME.len()..).unwrap_or(b"")
}

fn authority_end(text: &[u8]) -> Option<usize>
    ensures { result ≡ position ends_authority text.now }
{
    text.iter().position(|byte| *byte == b'/' || *byte == b'?')
}

/// What stands between `HTTP://` and the first `/` or `?`.
#[tactic(auto, using(plain_text::proofs::Parted::before_some, plain_text::proofs::Parted::before_none))]
fn authority(target: &[u8]) -> &[u8]
    ensures { result.now ≡ authority target.now }
{
    let rest = after_scheme(target);
    match authority_end(rest) {
        Some(end) => &rest[..end],
        None => rest,
    }
}

/// What stands before the first `?` of a target, or all of it.
pub fn before_query(text: &[u8]) -> &[u8]
    ensures { result.now ≡ before_first is_question_mark text.now }
{
    before_byte(b'?', text)
}

fn after_authority(target: &[u8]) -> &[u8]
    ensures { result.now ≡ after_authority target.now }
{
    let rest = after_scheme(target);
    &rest[authority(target).len()..]
}

fn path_after_authority(rest: &[u8]) -> &[u8]
    ensures { result.now ≡ path_after_authority rest.now }
{
    if begins_with_slash(rest) {
        before_query(rest)
    } else {
        b"/"
    }
}

fn path(target: &[u8]) -> &[u8]
    ensures { result.now ≡ path target.now }
{
    if begins_with_slash(target) {
        before_query(target)
    } else {
        path_after_authority(after_authority(target))
    }
}
