//! From the words of a line to what it declares.

ghost use Rattle.std.specs.Prelude.{◌≡◌, IfOk, Err, option_map};
ghost use Rattle.plain_text.specs.Words.{words};
ghost use Rattle.config_reader.specs.Answers.{GivesLine};
ghost use Rattle.config_syntax.specs.Words.{one_and_more, two_and_more};
ghost use Rattle.config_syntax.specs.Declarations.{declaration_of};
ghost use Rattle.config_reader.specs.After.{declared_if};

use crate::draft::Draft;
use crate::error::{ConfigRule, LineError};
use config_syntax::column::table_words_of;
use config_syntax::directive::Directive;
use config_syntax::words::words_and_text;
use okws_base::items::Items;
use plain_text::words::{first_word, one_word, two_words, words_of};
use std::alloc::{AllocError, Global};

fn miscounted() -> Result<(), LineError>
    ensures { result ≡ Err (LineError.Broken ConfigRule.WordCount) }
{
    Err(LineError::Broken(ConfigRule::WordCount))
}

/// The first word of the bytes, and those behind it, of which there is at least one.
fn word_and_words(
    alloc: Global,
    bytes: &[u8],
) -> Result<Option<(&[u8], Vec<Items<u8>>)>, AllocError>
    ensures { IfOk result (λ found. option_map (λ w. (w.0.now, w.1.items)) found ≡ one_and_more (words bytes.now)) }
{
    let Some((one, rest)) = first_word(bytes) else {
        return Ok(None);
    };
    let more = words_of(alloc, rest)?;
    if more.is_empty() {
        Ok(None)
    } else {
        Ok(Some((one, more)))
    }
}

/// The first two words of the bytes, and those behind them, of which there is at least one.
fn two_words_and_words(
    alloc: Global,
    bytes: &[u8],
) -> Result<Option<(&[u8], &[u8], Vec<Items<u8>>)>, AllocError>
    ensures { IfOk result (λ found. option_map (λ w. (w.0.now, w.1.now, w.2.items)) found ≡ two_and_more (words bytes.now)) }
{
    let Some((one, rest)) = first_word(bytes) else {
        return Ok(None);
    };
    let Some((other, rest)) = first_word(rest) else {
        return Ok(None);
    };
    let more = words_of(alloc, rest)?;
    if more.is_empty() {
        Ok(None)
    } else {
        Ok(Some((one, other, more)))
    }
}

fn proxy_line(draft: &mut Draft, alloc: Global, rest: &[u8]) -> Result<(), LineError>
    ensures { GivesLine (λ _. draft.new) result (declared_if draft.old (declaration_of Directive.Proxy rest.now)) }
{
    match one_word(rest) {
        None => miscounted(),
        Some(name) => draft.declare_proxy(alloc, name),
    }
}

fn table_line(draft: &mut Draft, alloc: Global, rest: &[u8]) -> Result<(), LineError>
    ensures { GivesLine (λ _. draft.new) result (declared_if draft.old (declaration_of Directive.Table rest.now)) }
{
    match table_words_of(alloc, rest)? {
        None => miscounted(),
        Some(table) => draft.declare_table_words(alloc, &table),
    }
}

fn row_line(draft: &mut Draft, alloc: Global, rest: &[u8]) -> Result<(), LineError>
    ensures { GivesLine (λ _. draft.new) result (declared_if draft.old (declaration_of Directive.Row rest.now)) }
{
    match words_and_text(rest) {
        None => miscounted(),
        Some((proxy, table, text)) => draft.declare_row(alloc, proxy, table, text),
    }
}

fn query_line(draft: &mut Draft, alloc: Global, rest: &[u8]) -> Result<(), LineError>
    ensures { GivesLine (λ _. draft.new) result (declared_if draft.old (declaration_of Directive.Query rest.now)) }
{
    match words_and_text(rest) {
        None => miscounted(),
        Some((proxy, number, text)) => draft.declare_query(alloc, proxy, number, text),
    }
}

fn service_line(draft: &mut Draft, alloc: Global, rest: &[u8]) -> Result<(), LineError>
    ensures { GivesLine (λ _. draft.new) result (declared_if draft.old (declaration_of Directive.Service rest.now)) }
{
    match word_and_words(alloc, rest)? {
        None => miscounted(),
        Some((name, words)) => draft.declare_service(alloc, name, words),
    }
}

fn retry_line(draft: &mut Draft, rest: &[u8]) -> Result<(), LineError>
    ensures { GivesLine (λ _. draft.new) result (declared_if draft.old (declaration_of Directive.Retry rest.now)) }
{
    match one_word(rest) {
        None => miscounted(),
        Some(number) => draft.declare_retry(number),
    }
}

fn uri_line(draft: &mut Draft, alloc: Global, rest: &[u8]) -> Result<(), LineError>
    ensures { GivesLine (λ _. draft.new) result (declared_if draft.old (declaration_of Directive.Uri rest.now)) }
{
    match two_words(rest) {
        None => miscounted(),
        Some((path, service)) => draft.declare_uri(alloc, path, service),
    }
}

fn grant_line(draft: &mut Draft, alloc: Global, rest: &[u8]) -> Result<(), LineError>
    ensures { GivesLine (λ _. draft.new) result (declared_if draft.old (declaration_of Directive.Grant rest.now)) }
{
    match two_words_and_words(alloc, rest)? {
        None => miscounted(),
        Some((service, proxy, numbers)) => draft.declare_grant(alloc, service, proxy, &numbers),
    }
}

fn template_line(draft: &mut Draft, alloc: Global, rest: &[u8]) -> Result<(), LineError>
    ensures { GivesLine (λ _. draft.new) result (declared_if draft.old (declaration_of Directive.Template rest.now)) }
{
    match one_word(rest) {
        None => miscounted(),
        Some(name) => draft.declare_template(alloc, name),
    }
}

fn read_line(draft: &mut Draft, rest: &[u8]) -> Result<(), LineError>
    ensures { GivesLine (λ _. draft.new) result (declared_if draft.old (declaration_of Directive.Read rest.now)) }
{
    match two_words(rest) {
        None => miscounted(),
        Some((service, template)) => draft.declare_read(service, template),
    }
}

fn log_line(draft: &mut Draft, rest: &[u8]) -> Result<(), LineError>
    ensures { GivesLine (λ _. draft.new) result (declared_if draft.old (declaration_of Directive.Log rest.now)) }
{
    match one_word(rest) {
        None => miscounted(),
        Some(service) => draft.declare_log(service),
    }
}

/// Declares what a directive and the bytes behind it write.
pub fn declare(
    draft: &mut Draft,
    alloc: Global,
    directive: Directive,
    rest: &[u8],
) -> Result<(), LineError>
    ensures { GivesLine (λ _. draft.new) result (declared_if draft.old (declaration_of directive rest.now)) }
{
    match directive {
        Directive::Proxy => proxy_line(draft, alloc, rest),
        Directive::Table => table_line(draft, alloc, rest),
        Directive::Row => row_line(draft, alloc, rest),
        Directive::Query => query_line(draft, alloc, rest),
        Directive::Service => service_line(draft, alloc, rest),
        Directive::Retry => retry_line(draft, rest),
        Directive::Uri => uri_line(draft, alloc, rest),
        Directive::Grant => grant_line(draft, alloc, rest),
        Directive::Template => template_line(draft, alloc, rest),
        Directive::Read => read_line(draft, rest),
        Directive::Log => log_line(draft, rest),
    }
}
