//! The values of Content-Length fields (RFC 9110, section 8.6).

ghost use Rattle.std.specs.Prelude.{◌≡◌};
ghost use Rattle.http_text.specs.Length.{without_leading_blanks, without_trailing_blanks, without_blanks, length_of};

use okws_base::limit::LONGEST_CONTENT;
use plain_text::decimals::{capped_decimal, is_a_numeral};
use plain_text::words::is_blank_byte;

/// What the value of a Content-Length field says.
#[derive(Clone, Copy)]
pub enum ContentLength {
    /// A number of bytes, at most 262,144.
    Length(usize),
    /// A number above 262,144.
    TooLarge,
    /// Anything but one or more decimal digits.
    NotDigits,
}

/// What the value of a Content-Length field says, with the spaces and tabs around it dropped: one
/// or more decimal digits are their number, with leading zeros too, and however many they are; a
/// sign or a list is no number (RFC 9110, section 8.6).
pub fn length_of(value: &[u8]) -> ContentLength
    ensures { result ≡ length_of value.now }
{
    let digits = without_blanks(value);
    if !is_a_numeral(digits) {
        return ContentLength::NotDigits;
    }
    let number = capped_decimal(digits);
    if number <= LONGEST_CONTENT as u64 {
        ContentLength::Length(number as usize)
    } else {
        ContentLength::TooLarge
    }
}

fn without_leading_blanks(mut text: &[u8]) -> &[u8]
    ensures { result.now ≡ without_leading_blanks text.entry.now }
{
    while let [first, rest @ ..] = text {
        if !is_blank_byte(*first) {
            break;
        }
        text = rest;
    }
    text
}

fn without_trailing_blanks(mut text: &[u8]) -> &[u8]
    ensures { result.now ≡ without_trailing_blanks text.entry.now }
{
    while let [rest @ .., last] = text {
        if !is_blank_byte(*last) {
            break;
        }
        text = rest;
    }
    text
}

fn without_blanks(value: &[u8]) -> &[u8]
    ensures { result.now ≡ without_blanks value.now }
{
    without_trailing_blanks(without_leading_blanks(value))
}
