//! Words that are numbers.

ghost use Rattle.std.specs.Prelude.{◌≡◌, ◌^◌, ◌<◌, true, None, IfSome};
ghost use Rattle.plain_text.specs.Decimals.{decimal_value};
ghost use Rattle.command_line.specs.Numbers.{is_plain, number_in};

use plain_text::decimals::is_a_numeral;

/// Whether a text is decimal digits without a leading zero, but for the one digit of 0.
fn is_plain(digits: &[u8]) -> bool
    ensures { result ≡ is_plain digits.now }
{
    is_a_numeral(digits) && (digits.len() == 1 || digits[0] != b'0')
}

/// The number of 64 bits that a word writes plainly, in decimal digits without sign or leading zero.
fn number_of(word: &str) -> Option<u64>
    ensures some { IfSome result (λ n. (is_plain word.now ≡ true) × (decimal_value word.now ≡ n)) }
    ensures none { result ≡ None → is_plain word.now ≡ true → decimal_value word.now < 2 ^ 64 → ⊥ }
{
    if !is_plain(word.as_bytes()) {
        return None;
    }
    match word.parse::<u64>() {
        Ok(number) => Some(number),
        Err(_) => None,
    }
}

/// The number that a word writes plainly, where it is one of these.
pub(crate) fn number_in(least: u64, most: u64, word: &str) -> Option<u64>
    ensures { result ≡ number_in least most word.now }
{
    match number_of(word) {
        Some(number) if least <= number && number <= most => Some(number),
        Some(_) => None,
        None => None,
    }
}
