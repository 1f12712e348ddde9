//! The words of a line.

ghost use Rattle.std.specs.Prelude.{◌≡◌, ◌<◌, ◌≤◌, ◌∷◌, [], length, option_map, MatchOption, IfOk};
ghost use Rattle.std.specs.List.{prefix_len};
ghost use Rattle.plain_text.specs.Words.{is_blank, is_word_byte, words, from_word, behind_word, one_word, two_words};

use okws_base::items::Items;
use std::alloc::{AllocError, Global};

/// Whether a byte is a space or a tab.
pub fn is_blank_byte(byte: u8) -> bool
    ensures { result ≡ is_blank byte }
{
    byte == b' ' || byte == b'\t'
}

/// How many bytes at the front are blanks.
fn blanks_len(bytes: &[u8]) -> usize
    ensures is { result ≡ prefix_len is_blank bytes.now }
    ensures within { result ≤ length bytes.now }
{
    for i in 0..bytes.len() {
        if !is_blank_byte(bytes[i]) {
            return i;
        }
    }
    bytes.len()
}

/// How many bytes at the front are no blanks.
fn word_len(bytes: &[u8]) -> usize
    ensures is { result ≡ prefix_len is_word_byte bytes.now }
    ensures within { result ≤ length bytes.now }
{
    for i in 0..bytes.len() {
        if is_blank_byte(bytes[i]) {
            return i;
        }
    }
    bytes.len()
}

/// The bytes from the first that is no blank.
pub fn from_first_word(bytes: &[u8]) -> &[u8]
    ensures { result.now ≡ from_word bytes.now }
{
    let len = blanks_len(bytes);
    &bytes[len..]
}

/// The first word, and the bytes behind it; None where there is no word.
pub fn first_word(bytes: &[u8]) -> Option<(&[u8], &[u8])>
    ensures words { MatchOption result (words bytes.now ≡ []) (λ found. words bytes.now ≡ found.0.now ∷ words found.1.now) }
    ensures rest { MatchOption result (from_word bytes.now ≡ []) (λ found. found.1.now ≡ behind_word bytes.now) }
    ensures shorter { MatchOption result (length bytes.now ≡ length bytes.now) (λ found. length found.1.now < length bytes.now) }
{
    let bytes = from_first_word(bytes);
    if bytes.is_empty() {
        return None;
    }
    let len = word_len(bytes);
    Some((&bytes[..len], &bytes[len..]))
}

/// The word of bytes that have one word.
pub fn one_word(bytes: &[u8]) -> Option<&[u8]>
    ensures { option_map (λ w. w.now) result ≡ one_word (words bytes.now) }
{
    let (word, rest) = first_word(bytes)?;
    match first_word(rest) {
        None => Some(word),
        Some(_) => None,
    }
}

/// The words of bytes that have two words.
pub fn two_words(bytes: &[u8]) -> Option<(&[u8], &[u8])>
    ensures { option_map (λ w. (w.0.now, w.1.now)) result ≡ two_words (words bytes.now) }
{
    let (one, rest) = first_word(bytes)?;
    let (other, rest) = first_word(rest)?;
    match first_word(rest) {
        None => Some((one, other)),
        Some(_) => None,
    }
}

/// The words of the bytes. Fails only where memory is refused.
pub fn words_of(alloc: Global, bytes: &[u8]) -> Result<Vec<Items<u8>>, AllocError>
    ensures { IfOk result (λ v. v.items ≡ words bytes.now) }
{
    let mut out = Vec::new(alloc);
    let mut rest = bytes;
    while let Some((word, behind)) = first_word(rest) {
        out.push(Items::of(Vec::from_slice(alloc, word)?))?;
        rest = behind;
    }
    Ok(out)
}
