//! Decimal numbers.

ghost use Rattle.std.specs.Prelude.{◌≡◌, ◌<◌, ◌≤◌, ◌-◌, ◌^◌, ◌++◌, IfSome, IsTrue, OnOk, decimal, length, min, take};
ghost use Rattle.std.specs.List.{list_all, prefix_len};
ghost use Rattle.std.specs.Char.{is_ascii_digit};
ghost use Rattle.plain_text.specs.Decimals.{is_numeral, decimal_value, is_number, number};

use std::alloc::{AllocError, Global};

/// Decimal digits that a number may have.
pub const LONGEST_NUMBER: usize = 9;

fn are_digits(text: &[u8]) -> bool
    ensures { result ≡ list_all is_ascii_digit text.now }
{
    text.iter().all(|byte| byte.is_ascii_digit())
}

/// Whether a text is one or more decimal digits, and nothing else.
pub fn is_a_numeral(text: &[u8]) -> bool
    ensures { result ≡ is_numeral text.now }
{
    1 <= text.len() && are_digits(text)
}

/// How many bytes at the front are decimal digits.
fn digits_len(text: &[u8]) -> usize
    ensures is { result ≡ prefix_len is_ascii_digit text.now }
    ensures within { result ≤ length text.now }
{
    for i in 0..text.len() {
        if !text[i].is_ascii_digit() {
            return i;
        }
    }
    text.len()
}

/// The decimal digits at the front of a text.
pub fn leading_digits(text: &[u8]) -> &[u8]
    ensures is { result.now ≡ take (prefix_len is_ascii_digit text.now) text.now }
    ensures len { length result.now ≡ prefix_len is_ascii_digit text.now }
    ensures digits { IsTrue (list_all is_ascii_digit result.now) }
{
    &text[..digits_len(text)]
}

/// The number that decimal digits write, or the greatest of 64 bits where theirs is greater.
pub fn capped_decimal(digits: &[u8]) -> u64
    requires { IsTrue (list_all is_ascii_digit digits.now) }
    ensures { result ≡ min (decimal_value digits.now) (2 ^ 64 - 1) }
{
    let mut number: u64 = 0;
    for digit in digits {
        number = number
            .saturating_mul(10)
            .saturating_add(u64::from(*digit - b'0'));
    }
    number
}

fn is_a_number(word: &[u8]) -> bool
    ensures { result ≡ is_number word.now }
{
    1 <= word.len() && word.len() <= LONGEST_NUMBER && are_digits(word)
}

/// The number that a word of 1 to 9 decimal digits writes; None where a word is no such.
pub fn number_of(word: &[u8]) -> Option<u32>
    ensures is { result ≡ number word.now }
    ensures below { IfSome result (λ n. n < 10 ^ 9) }
{
    if is_a_number(word) {
        Some(capped_decimal(word) as u32)
    } else {
        None
    }
}

/// Puts the decimal digits of a number, without leading zeros, behind a text. Fails only where memory
/// is refused.
pub fn push_decimal(alloc: Global, text: &mut Vec<u8>, n: u64) -> Result<(), AllocError>
    ensures { OnOk result (text.new.items ≡ text.old.items ++ decimal n) }
{
    let digits = format!(in alloc; "{n}")?;
    text.extend_from_slice(digits.as_bytes())
}
