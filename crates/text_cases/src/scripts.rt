//! Scripts and their lines, for a site with the services guest and other, the proxies main and side, and the
//! templates page and secret.

ghost use Rattle.std.specs.Prelude.{◌<◌, length, IfOk};
ghost use Rattle.okws_plan.specs.Sound.{IsSound};

use crate::printing::{put_digits, put_text};
use config_reader::read;
use okws_plan::configuration::Config;
use okws_plan::script::{Line, Method, Place};
use plain_text::lines::first_line;
use play_script::reading::{LineRead, read_first, read_line};
use play_script::refusal::{config_refused, script_refused};
use std::alloc::{AllocError, Global};

const SITE: &[u8] =
    b"okws 1\nproxy main\nproxy side\nservice guest ./x\nservice other ./y\ntemplate page\ntemplate secret\n";

fn put_place(out: &mut String, name: &str, service: u16, place: Place) -> Result<(), AllocError> {
    match place {
        Place::Proxy(proxy) => write!(out, "{name} {service} proxy {proxy}"),
        Place::Pubd => write!(out, "{name} {service} pubd"),
        Place::Oklogd => write!(out, "{name} {service} oklogd"),
    }
}

fn put_named(out: &mut String, name: &str, number: u32) -> Result<(), AllocError> {
    write!(out, "{name} {number}")
}

fn method_text(method: Method) -> &'static str {
    match method {
        Method::Get => "GET",
        Method::Head => "HEAD",
        Method::Post => "POST",
    }
}

fn put_accept(
    out: &mut String,
    method: Method,
    target: &[u8],
    content: &[u8],
) -> Result<(), AllocError> {
    write!(out, "accept {} ", method_text(method))?;
    put_digits(out, target)?;
    out.push(' ')?;
    put_digits(out, content)
}

/// A name, a number and bytes.
fn put_content(
    out: &mut String,
    name: &str,
    number: u16,
    content: &[u8],
) -> Result<(), AllocError> {
    write!(out, "{name} {number} ")?;
    put_digits(out, content)
}

/// A line with numbers in the place of names, and bytes in hexadecimal digits.
fn put_line(out: &mut String, line: &Line) -> Result<(), AllocError> {
    match line {
        Line::Begin(service) => put_named(out, "begin", u32::from(*service)),
        Line::Install { service, place } => put_place(out, "install", *service, *place),
        Line::Revoke { service, place } => put_place(out, "revoke", *service, *place),
        Line::Boot(service) => put_named(out, "boot", u32::from(*service)),
        Line::Up(service) => put_named(out, "up", u32::from(*service)),
        Line::Down(service) => put_named(out, "down", u32::from(*service)),
        Line::Launch(service) => put_named(out, "launch", u32::from(*service)),
        Line::Relaunch(service) => put_named(out, "relaunch", u32::from(*service)),
        Line::Accept {
            method,
            target,
            content,
        } => put_accept(out, *method, target.as_slice(), content.as_slice()),
        Line::Dialog(request) => put_named(out, "dialog", *request),
        Line::Bytes { service, bytes } => put_content(out, "bytes", *service, bytes.as_slice()),
        Line::End(service) => put_named(out, "end", u32::from(*service)),
        Line::Publish { template, content } => {
            put_content(out, "publish", *template, content.as_slice())
        }
    }
}

fn put_read(out: &mut String, read: &LineRead) -> Result<(), AllocError> {
    match read {
        LineRead::Skipped => out.push_str("skipped"),
        LineRead::Broken(rule) => put_named(out, "rule", u32::from(rule.number())),
        LineRead::Says(line) => put_line(out, line),
    }
}

fn line_at(out: &mut String, alloc: Global, config: &Config, line: &[u8]) -> Result<(), AllocError>
    requires { IsSound config.now }
{
    put_read(out, &read_line(alloc, config, line)?)
}

/// What a line says.
pub fn line(out: &mut String, alloc: Global, line: &[u8]) -> Result<(), AllocError> {
    match read(alloc, SITE) {
        Ok(config) => line_at(out, alloc, &config, line),
        Err(_) => out.push_str("no site"),
    }
}

/// The first line of a text that isn't empty, and what is behind it.
fn first_at<'a>(
    out: &mut String,
    alloc: Global,
    config: &Config,
    text: &'a [u8],
) -> Result<&'a [u8], AllocError>
    requires sound { IsSound config.now }
    requires some { 0 < length text.now }
    ensures { IfOk result (λ rest. length rest.now < length text.now) }
{
    let (read, rest) = read_first(alloc, config, text)?;
    put_read(out, &read)?;
    out.push_str("; ")?;
    Ok(rest)
}

fn script_at(
    out: &mut String,
    alloc: Global,
    config: &Config,
    text: &[u8],
) -> Result<(), AllocError>
    requires { IsSound config.now }
{
    let mut rest = text;
    while !rest.is_empty() {
        rest = first_at(out, alloc, config, rest)?;
    }
    Ok(())
}

/// What each line of a script says.
pub fn script(out: &mut String, alloc: Global, text: &[u8]) -> Result<(), AllocError> {
    match read(alloc, SITE) {
        Ok(config) => script_at(out, alloc, &config, text),
        Err(_) => out.push_str("no site"),
    }
}

/// The lines of a text.
pub fn lines(out: &mut String, text: &[u8]) -> Result<(), AllocError> {
    let mut rest = text;
    while !rest.is_empty() {
        let (line, behind) = first_line(rest);
        put_text(out, line)?;
        rest = behind;
    }
    Ok(())
}

/// What is printed of a configuration or a script that is refused at a line by a rule.
pub fn refused(out: &mut String, alloc: Global, text: &str) -> Result<(), AllocError> {
    let (which, place) = text.split_once(' ').unwrap_or((text, ""));
    let (line, rule) = place.split_once(' ').unwrap_or((place, ""));
    let line = line.parse().unwrap_or(0);
    let rule = rule.parse().unwrap_or(0);
    let printed = match which {
        "config" => config_refused(alloc, line, rule)?,
        _ => script_refused(alloc, line, rule)?,
    };
    put_text(out, &printed)
}
