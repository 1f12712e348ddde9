//! Query texts, for the tables `msgs (id INT KEY, who TEXT, note TEXT)`, `blobs (b BYTES)` and
//! `tags (id INT, tag TEXT)`.

use config_reader::read;
use okws_plan::configuration::{Config, Table};
use okws_plan::statement::Statement;
use statement_core::{CompileError, compile};
use statement_text::text_of;
use std::alloc::{AllocError, Global};

const SITE: &[u8] =
    b"okws 1\nproxy p\ntable p msgs id INT KEY who TEXT note TEXT\ntable p blobs b BYTES\ntable p tags id INT tag TEXT\n";

fn tables_of(config: &Config) -> &[Table] {
    match config.proxies.as_slice() {
        [] => &[],
        [first, ..] => first.tables.as_slice(),
    }
}

fn put_statement(
    out: &mut String,
    alloc: Global,
    tables: &[Table],
    statement: &Statement,
) -> Result<(), AllocError> {
    let text = text_of(alloc, tables, statement)?;
    for byte in text.as_slice() {
        out.push(char::from(*byte))?;
    }
    Ok(())
}

fn over(out: &mut String, alloc: Global, tables: &[Table], text: &[u8]) -> Result<(), AllocError> {
    match compile(alloc, tables, text) {
        Ok(statement) => put_statement(out, alloc, tables, &statement),
        Err(CompileError::TextRefused(found)) => { write!(out, "at {} {:?}", found.at, found.rule) }
        Err(CompileError::NoMemory) => Err(AllocError),
    }
}

/// The canonical text of what a text stands for, or where it breaks which rule.
pub fn query(out: &mut String, alloc: Global, text: &[u8]) -> Result<(), AllocError> {
    match read(alloc, SITE) {
        Ok(config) => over(out, alloc, tables_of(&config), text),
        Err(_) => out.push_str("no site"),
    }
}
