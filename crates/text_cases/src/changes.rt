//! What a new configuration gives where an old one is in force.

use crate::configurations::below_five;
use crate::notation::bytes_of;
use config_diff::access::Access;
use config_diff::{ChangeError, Difference, read_change};
use config_reader::{ConfigError, read};
use okws_plan::configuration::Config;
use std::alloc::{AllocError, Global};

fn put_access(out: &mut String, access: &Access) -> Result<(), AllocError> {
    out.push_str("grants")?;
    for granted in access.grants.as_slice() {
        write!(
            out,
            " {}.{}.{}",
            granted.service, granted.proxy, granted.query
        )?;
    }
    out.push_str(" reads")?;
    for readable in access.readables.as_slice() {
        write!(out, " {}.{}", readable.service, readable.template)?;
    }
    out.push_str(" logs")?;
    for logger in access.loggers.as_slice() {
        write!(out, " {logger}")?;
    }
    Ok(())
}

fn name_of(what: Difference) -> &'static str {
    match what {
        Difference::Services => "services",
        Difference::Proxies => "proxies",
        Difference::Tables => "tables",
        Difference::FirstRows => "first rows",
        Difference::Queries => "queries",
        Difference::Templates => "templates",
        Difference::Retry => "retry",
        Difference::Paths => "paths",
    }
}

fn put_change(out: &mut String, alloc: Global, old: &Config, new: &str) -> Result<(), AllocError> {
    let lines = bytes_of(alloc, new)?;
    match read_change(alloc, old, &below_five(alloc, &lines)?) {
        Ok(access) => put_access(out, &access),
        Err(ChangeError::Differs(what)) => write!(out, "differs in {}", name_of(what)),
        Err(ChangeError::Refused(found)) => {
            write!(out, "line {} rule {}", found.line, found.rule.number())
        }
        Err(ChangeError::NoMemory) => Err(AllocError),
    }
}

/// Two configurations by their lines below the five, the old one's before ` => ` and the new one's behind it.
pub fn change(out: &mut String, alloc: Global, text: &str) -> Result<(), AllocError> {
    let (old, new) = text.split_once(" => ").unwrap_or((text, ""));
    let lines = bytes_of(alloc, old)?;
    match read(alloc, &below_five(alloc, &lines)?) {
        Ok(old) => put_change(out, alloc, &old, new),
        Err(ConfigError::Refused(_)) => out.push_str("no site"),
        Err(ConfigError::NoMemory) => Err(AllocError),
    }
}
