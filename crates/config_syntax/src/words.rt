//! What the words and the bytes of a line may be, and numbers.

ghost use Rattle.std.specs.Prelude.{◌≡◌, ◌≤◌, map, IfOk, option_map, IfSome, if◌then◌else◌, Some, None};
ghost use Rattle.std.specs.List.{list_all};
ghost use Rattle.plain_text.specs.Decimals.{decimal_value};
ghost use Rattle.plain_text.specs.Words.{words};
ghost use Rattle.config_syntax.specs.Words.{is_text_byte, is_text_line, two_and_text, is_number_to};
ghost use Rattle.config_syntax.specs.Declarations.{text_behind};

use okws_base::items::Items;
use okws_base::limit::GREATEST_QUERY;
use plain_text::decimals::number_of;
use plain_text::parts::is_text;
use plain_text::words::{first_word, from_first_word};
use std::alloc::{AllocError, Global};

/// The first two words, and the text that begins with the third.
pub fn words_and_text(bytes: &[u8]) -> Option<(&[u8], &[u8], &[u8])>
    ensures { option_map (λ w. (w.0.now, w.1.now, w.2.now)) result ≡ two_and_text (words bytes.now) (text_behind bytes.now) }
{
    let (one, rest) = first_word(bytes)?;
    let (other, rest) = first_word(rest)?;
    match first_word(rest) {
        None => None,
        Some(_) => Some((one, other, from_first_word(rest))),
    }
}

fn is_text_part(byte: u8) -> bool
    ensures { result ≡ is_text_byte byte }
{
    byte == b'\t' || (byte >= 32 && byte != 127)
}

fn are_text_parts(bytes: &[u8]) -> bool
    ensures { result ≡ list_all is_text_byte bytes.now }
{
    bytes.iter().all(|byte| is_text_part(*byte))
}

/// Whether a line is UTF-8 without control bytes other than tabs.
pub fn is_a_text_line(line: &[u8]) -> bool
    ensures { result ≡ is_text_line line.now }
{
    is_text(line) && are_text_parts(line)
}

/// The number that a word of 1 to 9 digits writes, where it is at most `most`.
pub fn number_to(most: u32, word: &[u8]) -> Option<u32>
    ensures is { result ≡ (if is_number_to most word.now then Some (decimal_value word.now) else None) }
    ensures within { IfSome result (λ n. n ≤ most) }
{
    match number_of(word) {
        Some(number) if number <= most => Some(number),
        _ => None,
    }
}

/// The numbers that words write, where each is at most 65,535.
pub fn query_numbers(alloc: Global, words: &[Items<u8>]) -> Result<Option<Vec<u16>>, AllocError>
    ensures { IfOk result (λ found. option_map (λ v. v.items) found ≡ (if list_all (is_number_to GREATEST_QUERY) words.now then Some (map decimal_value words.now) else None)) }
{
    let mut out = Vec::new(alloc);
    for word in words {
        match number_to(GREATEST_QUERY, word.as_slice()) {
            None => return Ok(None),
            Some(number) => out.push(number as u16)?,
        }
    }
    Ok(Some(out))
}
