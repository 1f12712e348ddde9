//! The words that follow a directive.

ghost use Rattle.std.specs.Prelude.{◌≡◌, MatchOption, Some, None};
ghost use Rattle.plain_text.specs.Words.{words};
ghost use Rattle.play_script.specs.Lines.{two_or_three_words};

use plain_text::words::first_word;

/// The words of a text that has two or three words; where it has two, the third one is empty.
pub fn two_or_three_words(text: &[u8]) -> Option<(&[u8], &[u8], &[u8])>
    ensures { MatchOption result (two_or_three_words (words text.now) ≡ None) (λ found. two_or_three_words (words text.now) ≡ Some (found.0.now, found.1.now, found.2.now)) }
{
    let (first, rest) = first_word(text)?;
    let (second, rest) = first_word(rest)?;
    let Some((third, rest)) = first_word(rest) else {
        return Some((first, second, b""));
    };
    match first_word(rest) {
        None => Some((first, second, third)),
        Some(_) => None,
    }
}
