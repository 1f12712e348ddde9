//! From a file to a configuration.

ghost use Rattle.std.specs.Prelude.{◌≡◌, ◌≤◌, ◌+◌, length, IfOk};
ghost use Rattle.okws_plan.specs.Sound.{IsSound};
ghost use Rattle.plain_text.specs.Words.{words, behind_word};
ghost use Rattle.config_reader.specs.Answers.{GivesLine, Gives, refusal_of};
ghost use Rattle.config_reader.specs.Meaning.{begins_comment, are_first_words, line_judged, word_judged, first_judged, meaning};
ghost use Rattle.config_reader.specs.Ruled.{AreRuled};

use crate::declaring::declare;
use crate::draft::Draft;
use crate::error::{ConfigError, ConfigRule, LineError, Refusal};
use config_syntax::directive::Directive;
use config_syntax::words::is_a_text_line;
use okws_base::limit::{LONGEST_CONFIGURATION, LONGEST_LINE};
use okws_plan::configuration::Config;
use plain_text::lines::first_line;
use plain_text::parts::is_same;
use plain_text::words::{first_word, two_words};
use std::alloc::Global;

fn is_comment(word: &[u8]) -> bool
    ensures { result ≡ begins_comment word.now }
{
    match word {
        [] => false,
        [first, ..] => *first == b'#',
    }
}

fn is_first_line(line: &[u8]) -> bool
    ensures { result ≡ are_first_words (words line.now) }
{
    match two_words(line) {
        None => false,
        Some((one, other)) => is_same(one, b"okws") && is_same(other, b"1"),
    }
}

/// Judges the first line, below which nothing is declared yet.
fn read_first_line(alloc: Global, line: &[u8]) -> Result<Draft, LineError>
    ensures { GivesLine (λ draft. draft) result (first_judged line.now) }
{
    if !is_first_line(line) {
        return Err(LineError::Broken(ConfigRule::FirstLine));
    }
    if line.len() > LONGEST_LINE {
        return Err(LineError::Broken(ConfigRule::LineTooLong));
    }
    Ok(Draft::new(alloc))
}

/// Judges a line that isn't skipped; `rest` are its bytes behind its first word.
fn word_line(
    draft: &mut Draft,
    alloc: Global,
    word: &[u8],
    rest: &[u8],
    line: &[u8],
) -> Result<(), LineError>
    requires { rest.now ≡ behind_word line.now }
    ensures { GivesLine (λ _. draft.new) result (word_judged draft.old word.now line.now) }
{
    if line.len() > LONGEST_LINE {
        return Err(LineError::Broken(ConfigRule::LineTooLong));
    }
    if !is_a_text_line(line) {
        return Err(LineError::Broken(ConfigRule::BadBytes));
    }
    match Directive::of(word) {
        None => Err(LineError::Broken(ConfigRule::UnknownDirective)),
        Some(directive) => declare(draft, alloc, directive, rest),
    }
}

/// Judges a line behind the first, and declares what it declares.
fn next_line(draft: &mut Draft, alloc: Global, line: &[u8]) -> Result<(), LineError>
    ensures { GivesLine (λ _. draft.new) result (line_judged draft.old line.now) }
{
    match first_word(line) {
        None => Ok(()),
        Some((word, rest)) => {
            if is_comment(word) {
                Ok(())
            } else {
                word_line(draft, alloc, word, rest, line)
            }
        }
    }
}

/// The refusal of a line for what it breaks.
fn refused(line: u32, error: LineError) -> ConfigError
    ensures { result ≡ refusal_of line error }
{
    match error {
        LineError::Broken(rule) => ConfigError::Refused(Refusal { line, rule }),
        LineError::NoMemory => ConfigError::NoMemory,
    }
}

/// The configuration that a file gives, or its refusal.
fn read_file(alloc: Global, bytes: &[u8]) -> Result<Config, ConfigError>
    ensures { Gives (λ config. config) result (meaning bytes.now) }
{
    if bytes.len() > LONGEST_CONFIGURATION {
        return Err(refused(0, LineError::Broken(ConfigRule::TooMany)));
    }
    if bytes.is_empty() {
        return Err(refused(1, LineError::Broken(ConfigRule::FirstLine)));
    }
    let (line, mut rest) = first_line(bytes);
    let mut number: u32 = 1;
    let mut draft = match read_first_line(alloc, line) {
        Ok(draft) => draft,
        Err(error) => return Err(refused(number, error)),
    };
    while !rest.is_empty() {
        let (line, behind) = first_line(rest);
        number += 1;
        rest = behind;
        if let Err(error) = next_line(&mut draft, alloc, line) {
            return Err(refused(number, error));
        }
    }
    Ok(draft.into_config(alloc)?)
}

/// The configuration that a file gives, or the first line that breaks a rule and the lowest rule
/// that it breaks. A file of more than 4,194,304 bytes is refused as line 0. Takes memory in line
/// with the file's length.
pub fn read(alloc: Global, bytes: &[u8]) -> Result<Config, ConfigError>
    ensures is { Gives (λ config. config) result (meaning bytes.now) }
    ensures sound { IfOk result IsSound }
    ensures ruled { IfOk result AreRuled }
{
    read_file(alloc, bytes)
}
