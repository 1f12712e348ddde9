//! How a word looks.

ghost use Rattle.std.specs.Prelude.{◌≡◌, ◌↔◌, IsTrue, Some, None, codes, option_map};
ghost use Rattle.std.specs.Str.{bytes_eq};
ghost use Rattle.clap.specs.Lexer.{strip_byte, name_and_value, long_of, short_of};
ghost use Rattle.command_line.specs.Parts.{look_of, is_own, is_flag};
ghost use Rattle.command_line.specs.Looks.{look_meant};

/// How a word looks.
#[derive(Clone, Copy)]
pub(crate) enum Sort<'w> {
    /// It is a word of its own.
    Own,
    /// It is `--`, behind which each word is one of its own.
    Ending,
    /// It is `-x`.
    Short,
    /// It is `--name`, or `--name=value`.
    Long(&'w str, Option<&'w str>),
}

/// Whether two words are the same.
pub(crate) fn is_same(one: &str, other: &str) -> bool
    ensures { result ≡ bytes_eq one.now other.now }
{
    one == other
}

/// Whether an option of this name has no value.
pub(crate) fn is_flag(name: &str) -> bool
    ensures { result ≡ is_flag name.now }
{
    is_same(name, "always")
}

/// What follows a first hyphen.
fn behind_hyphen(word: &str) -> Option<&str>
    ensures { option_map (λ s. s.now) result ≡ strip_byte 45 word.now }
{
    word.strip_prefix('-')
}

/// What stands before the first `=`, and what stands after it, if there is one.
fn split_value(text: &str) -> (&str, Option<&str>)
    ensures { (result.0.now, option_map (λ s. s.now) result.1) ≡ name_and_value text.now }
{
    match text.split_once('=') {
        Some((name, value)) => (name, Some(value)),
        None => (text, None),
    }
}

/// The name and the value of `--name` or `--name=value`.
fn long_of(word: &str) -> Option<(&str, Option<&str>)>
    ensures { option_map (λ p. (p.0.now, option_map (λ s. s.now) p.1)) result ≡ long_of word.now }
{
    let rest = behind_hyphen(behind_hyphen(word)?)?;
    if rest.is_empty() {
        return None;
    }
    Some(split_value(rest))
}

/// What follows the hyphen of `-x`.
fn short_of(word: &str) -> Option<&str>
    ensures { option_map (λ s. s.now) result ≡ short_of word.now }
{
    let rest = behind_hyphen(word)?;
    if rest.is_empty() || behind_hyphen(rest).is_some() {
        None
    } else {
        Some(rest)
    }
}

/// How a word looks.
pub(crate) fn sort_of(word: &str) -> Sort<'_>
    ensures { look_meant result ≡ look_of word.now }
{
    if is_same(word, "--") {
        return Sort::Ending;
    }
    if let Some((name, value)) = long_of(word) {
        return Sort::Long(name, value);
    }
    if short_of(word).is_some() {
        Sort::Short
    } else {
        Sort::Own
    }
}

/// Whether a word is one of its own.
pub(crate) fn is_own(word: &str) -> bool
    ensures { result ≡ is_own (look_of word.now) }
{
    matches!(sort_of(word), Sort::Own)
}
