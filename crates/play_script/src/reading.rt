//! What a line of a script says.

ghost use Rattle.std.specs.Prelude.{◌≡◌, ◌≤◌, ◌<◌, ◌∷◌, length, IfOk};
ghost use Rattle.okws_base.specs.declared.limit.TheConstants.{MOST_PROXIES, MOST_SERVICES, MOST_TEMPLATES};
ghost use Rattle.okws_plan.specs.declared.configuration.Config.{Config};
ghost use Rattle.plain_text.specs.Words.{words, one_word, two_words};
ghost use Rattle.play_script.specs.Lines.{two_or_three_words};
ghost use Rattle.play_script.specs.Reading.{is_query, is_target, ReadFits, ReadKeeps, step_read, change_read, accept_read, dialog_read, bytes_read, publish_read, directive_read, line_of, script_reads};

use crate::directive::{Change, Directive, Step, directive_of, method_of};
use crate::rule::ScriptRule;
use crate::text::two_or_three_words;
use http_text::target::{are_target_bytes, before_query};
use okws_base::items::Items;
use okws_base::limit::{LONGEST_CONTENT, LONGEST_PATH};
use okws_base::name::is_a_path;
use okws_plan::configuration::Config;
use okws_plan::naming::{place_of, service_of, template_of};
use okws_plan::script::Line;
use plain_text::decimals::number_of;
use plain_text::hexadecimal::hex_bytes_of;
use plain_text::lines::first_line;
use plain_text::parts::is_text;
use plain_text::words::{first_word, one_word, two_words};
use std::alloc::{AllocError, Global};

/// What a line of a script is.
#[derive(Drop)]
pub enum LineRead {
    /// The line has no word, or its first one begins with `#`.
    Skipped,
    /// The line breaks this rule.
    Broken(ScriptRule),
    /// The line says this.
    Says(Line),
}

fn is_query(rest: &[u8]) -> bool
    ensures { result ≡ is_query rest.now }
{
    match rest {
        [] => true,
        [first, query @ ..] => {
            *first == b'?' && query.len() <= LONGEST_PATH && are_target_bytes(query)
        }
    }
}

fn is_target(target: &[u8]) -> bool
    ensures { result ≡ is_target target.now }
{
    let path = before_query(target);
    is_a_path(path) && is_query(&target[path.len()..])
}

fn read_step(config: &Config, step: Step, rest: &[u8]) -> LineRead
    requires { length config.now.services ≤ MOST_SERVICES }
    ensures is { result ≡ step_read config.now step (one_word (words rest.now)) }
    ensures fits { ReadFits config.now result }
    ensures keeps { ReadKeeps result }
{
    let Some(name) = one_word(rest) else {
        return LineRead::Broken(ScriptRule::BadLine);
    };
    match service_of(config, name) {
        None => LineRead::Broken(ScriptRule::Undeclared),
        Some(service) => LineRead::Says(step.line(service)),
    }
}

fn read_change(config: &Config, change: Change, rest: &[u8]) -> LineRead
    requires services { length config.now.services ≤ MOST_SERVICES }
    requires proxies { length config.now.proxies ≤ MOST_PROXIES }
    ensures is { result ≡ change_read config.now change (two_words (words rest.now)) }
    ensures fits { ReadFits config.now result }
    ensures keeps { ReadKeeps result }
{
    let Some((name, column)) = two_words(rest) else {
        return LineRead::Broken(ScriptRule::BadLine);
    };
    match (service_of(config, name), place_of(config, column)) {
        (Some(service), Some(place)) => LineRead::Says(change.line(service, place)),
        _ => LineRead::Broken(ScriptRule::Undeclared),
    }
}

#[tactic(auto, using(crate::proofs::Targets::target_named))]
fn read_accept(alloc: Global, rest: &[u8]) -> Result<LineRead, AllocError>
    ensures is { IfOk result (λ read. read ≡ accept_read (two_or_three_words (words rest.now))) }
    ensures fits { (C : Config) → IfOk result (ReadFits C) }
    ensures keeps { IfOk result ReadKeeps }
{
    let Some((method, target, digits)) = two_or_three_words(rest) else {
        return Ok(LineRead::Broken(ScriptRule::BadLine));
    };
    let content = hex_bytes_of(alloc, digits)?;
    match (method_of(method), content) {
        (Some(method), Some(content)) if is_target(target) && content.len() <= LONGEST_CONTENT => {
            Ok(LineRead::Says(Line::Accept {
                method,
                target: Items::of(Vec::from_slice(alloc, target)?),
                content: Items::of(content),
            }))
        }
        _ => Ok(LineRead::Broken(ScriptRule::BadLine)),
    }
}

fn read_dialog(rest: &[u8]) -> LineRead
    ensures is { result ≡ dialog_read (one_word (words rest.now)) }
    ensures keeps { ReadKeeps result }
{
    let Some(word) = one_word(rest) else {
        return LineRead::Broken(ScriptRule::BadLine);
    };
    match number_of(word) {
        None => LineRead::Broken(ScriptRule::BadLine),
        Some(request) => LineRead::Says(Line::Dialog(request)),
    }
}

fn read_bytes(alloc: Global, config: &Config, rest: &[u8]) -> Result<LineRead, AllocError>
    requires { length config.now.services ≤ MOST_SERVICES }
    ensures is { IfOk result (λ read. read ≡ bytes_read config.now (two_words (words rest.now))) }
    ensures fits { IfOk result (ReadFits config.now) }
    ensures keeps { IfOk result ReadKeeps }
{
    let Some((name, digits)) = two_words(rest) else {
        return Ok(LineRead::Broken(ScriptRule::BadLine));
    };
    let Some(bytes) = hex_bytes_of(alloc, digits)? else {
        return Ok(LineRead::Broken(ScriptRule::BadLine));
    };
    match service_of(config, name) {
        None => Ok(LineRead::Broken(ScriptRule::Undeclared)),
        Some(service) => Ok(LineRead::Says(Line::Bytes {
            service,
            bytes: Items::of(bytes),
        })),
    }
}

fn read_publish(alloc: Global, config: &Config, rest: &[u8]) -> Result<LineRead, AllocError>
    requires { length config.now.templates ≤ MOST_TEMPLATES }
    ensures is { IfOk result (λ read. read ≡ publish_read config.now (two_words (words rest.now))) }
    ensures fits { IfOk result (ReadFits config.now) }
    ensures keeps { IfOk result ReadKeeps }
{
    let Some((name, digits)) = two_words(rest) else {
        return Ok(LineRead::Broken(ScriptRule::BadLine));
    };
    let Some(content) = hex_bytes_of(alloc, digits)? else {
        return Ok(LineRead::Broken(ScriptRule::BadLine));
    };
    match template_of(config, name) {
        None => Ok(LineRead::Broken(ScriptRule::Undeclared)),
        Some(template) => Ok(LineRead::Says(Line::Publish {
            template,
            content: Items::of(content),
        })),
    }
}

fn read_directive(
    alloc: Global,
    config: &Config,
    directive: Directive,
    rest: &[u8],
) -> Result<LineRead, AllocError>
    requires services { length config.now.services ≤ MOST_SERVICES }
    requires proxies { length config.now.proxies ≤ MOST_PROXIES }
    requires templates { length config.now.templates ≤ MOST_TEMPLATES }
    ensures is { IfOk result (λ read. read ≡ directive_read config.now (Some directive) (words rest.now)) }
    ensures fits { IfOk result (ReadFits config.now) }
    ensures keeps { IfOk result ReadKeeps }
{
    match directive {
        Directive::Step(step) => Ok(read_step(config, step, rest)),
        Directive::Change(change) => Ok(read_change(config, change, rest)),
        Directive::Accept => read_accept(alloc, rest),
        Directive::Dialog => Ok(read_dialog(rest)),
        Directive::Bytes => read_bytes(alloc, config, rest),
        Directive::Publish => read_publish(alloc, config, rest),
    }
}

/// What a line says under a configuration.
///
/// A line without a word, or whose first word begins with `#`, is skipped and not judged. Else it
/// has to be UTF-8 and of this grammar, in which S is a service, C is a proxy, `pubd` or `oklogd`,
/// T is a template and HEX is an even number of hexadecimal digits in either case: `begin S`,
/// `install S C`, `revoke S C`, `boot S`, `up S`, `down S`, `launch S`, `relaunch S`,
/// `accept METHOD TARGET [HEX]`, `dialog N`, `bytes S HEX`, `end S`, `publish T HEX`. METHOD is
/// `GET`, `HEAD` or `POST`; TARGET is a path and, if wanted, `?` and at most 1,024 bytes 33 to 126
/// without `#`; the content of a request has at most 262,144 bytes; N has 1 to 9 decimal digits. A
/// word in the place of a name that isn't declared breaks the second rule, and only in a line of
/// the grammar.
///
/// Takes time in line with the line's length. Fails only where memory is refused.
#[tactic(auto, unfolding(crate::specs::Reading::line_of))]
pub fn read_line(alloc: Global, config: &Config, line: &[u8]) -> Result<LineRead, AllocError>
    requires services { length config.now.services ≤ MOST_SERVICES }
    requires proxies { length config.now.proxies ≤ MOST_PROXIES }
    requires templates { length config.now.templates ≤ MOST_TEMPLATES }
    ensures is { IfOk result (λ read. read ≡ line_of config.now line.now) }
    ensures fits { IfOk result (ReadFits config.now) }
    ensures keeps { IfOk result ReadKeeps }
{
    let Some((word, rest)) = first_word(line) else {
        return Ok(LineRead::Skipped);
    };
    if word.starts_with(b"#") {
        return Ok(LineRead::Skipped);
    }
    if !is_text(line) {
        return Ok(LineRead::Broken(ScriptRule::BadLine));
    }
    match directive_of(word) {
        None => Ok(LineRead::Broken(ScriptRule::BadLine)),
        Some(directive) => read_directive(alloc, config, directive, rest),
    }
}

/// What the first line of a text that isn't empty says under a configuration, and what follows the
/// line.
///
/// Fails only where memory is refused.
pub fn read_first<'a>(
    alloc: Global,
    config: &Config,
    text: &'a [u8],
) -> Result<(LineRead, &'a [u8]), AllocError>
    requires some { 0 < length text.now }
    requires services { length config.now.services ≤ MOST_SERVICES }
    requires proxies { length config.now.proxies ≤ MOST_PROXIES }
    requires templates { length config.now.templates ≤ MOST_TEMPLATES }
    ensures is { IfOk result (λ found. script_reads config.now text.now ≡ found.0 ∷ script_reads config.now found.1.now) }
    ensures shorter { IfOk result (λ found. length found.1.now < length text.now) }
    ensures fits { IfOk result (λ found. ReadFits config.now found.0) }
    ensures keeps { IfOk result (λ found. ReadKeeps found.0) }
{
    let (line, rest) = first_line(text);
    Ok((read_line(alloc, config, line)?, rest))
}
