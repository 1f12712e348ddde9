//! Configurations.

use config_reader::{ConfigError, read};
use okws_plan::configuration::{Config, ProxyPlan, Table};
use std::alloc::{AllocError, Global};

/// Five lines that the lines of a case stand below.
const FIVE: &[u8] = b"okws 1\nproxy p\ntable p t a INT KEY b TEXT\nservice s ./x\ntemplate w\n";

fn put_counts(out: &mut String, counts: &[(&str, usize)]) -> Result<(), AllocError> {
    for (name, count) in counts {
        write!(out, " {name} {count}")?;
    }
    Ok(())
}

fn put_table(out: &mut String, table: &Table) -> Result<(), AllocError> {
    put_counts(
        out,
        &[
            ("columns", table.columns.as_slice().len()),
            ("rows", table.first.as_slice().len()),
        ],
    )
}

/// How many tables and queries a proxy has, and how many columns and rows its first table.
fn put_proxy(out: &mut String, plan: &ProxyPlan) -> Result<(), AllocError> {
    put_counts(
        out,
        &[
            ("tables", plan.tables.as_slice().len()),
            ("queries", plan.queries.as_slice().len()),
        ],
    )?;
    match plan.tables.as_slice() {
        [] => Ok(()),
        [first, ..] => put_table(out, first),
    }
}

/// How many of each there are, and what the first proxy has.
fn put_config(out: &mut String, config: &Config) -> Result<(), AllocError> {
    out.push_str("lawful:")?;
    put_counts(
        out,
        &[
            ("retry", usize::from(config.retry)),
            ("services", config.services.as_slice().len()),
            ("templates", config.templates.as_slice().len()),
            ("paths", config.paths.as_slice().len()),
            ("grants", config.grants.as_slice().len()),
            ("readables", config.readables.as_slice().len()),
            ("loggers", config.loggers.as_slice().len()),
            ("proxies", config.proxies.as_slice().len()),
        ],
    )?;
    match config.proxies.as_slice() {
        [] => Ok(()),
        [first, ..] => put_proxy(out, first),
    }
}

/// A whole file.
pub fn config(out: &mut String, alloc: Global, file: &[u8]) -> Result<(), AllocError> {
    match read(alloc, file) {
        Ok(config) => put_config(out, &config),
        Err(ConfigError::Refused(found)) => {
            write!(out, "line {} rule {}", found.line, found.rule.number())
        }
        Err(ConfigError::NoMemory) => Err(AllocError),
    }
}

/// The five lines with these below them.
pub fn below_five(alloc: Global, lines: &[u8]) -> Result<Vec<u8>, AllocError> {
    let mut file = Vec::from_slice(alloc, FIVE)?;
    file.extend_from_slice(lines)?;
    Ok(file)
}

/// Lines below the five, the first of them line 6.
pub fn below(out: &mut String, alloc: Global, lines: &[u8]) -> Result<(), AllocError> {
    config(out, alloc, &below_five(alloc, lines)?)
}
