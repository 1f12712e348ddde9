//! Calls of the queries of a site's first proxy, over the keeper with indexes.

ghost use Rattle.std.specs.Prelude.{◌≡◌, slice_get};
ghost use Rattle.std.specs.Option.{option_copied};
ghost use Rattle.okws_plan.specs.Configuration.{tables, query, queries_of};
ghost use Rattle.config_reader.specs.Ruled.{AreRuled};

use crate::notation::bytes_of;
use crate::printing::put_values;
use config_reader::read;
use index_keeper::IndexKeeper;
use okws_base::value::{Row, Text, Value};
use okws_outer::keeper::{Keeper, RunError};
use okws_plan::configuration::{Config, Query, Table};
use okws_plan::meaning::fit;
use okws_plan::statement::Answer;
use std::alloc::{AllocError, Global};

/// The tables of the first proxy.
fn tables_at(config: &Config) -> &[Table]
    ensures { result.now ≡ tables config.now 0 }
{
    match config.proxies.as_slice().get(0) {
        None => &[],
        Some(plan) => plan.tables.as_slice(),
    }
}

fn queries_at(config: &Config) -> &[Query]
    ensures { result.now ≡ queries_of (slice_get config.now.proxies 0) }
{
    match config.proxies.as_slice().get(0) {
        None => &[],
        Some(plan) => plan.queries.as_slice(),
    }
}

/// The query of this number.
fn query_at(config: &Config, number: u16) -> Option<&Query>
    ensures { option_copied result ≡ query config.now 0 number }
{
    queries_at(config)
        .iter()
        .find(|query| query.number == number)
}

/// A number, or the text of a word that is none.
fn value_of(alloc: Global, word: &str) -> Result<Value, AllocError> {
    match word.parse() {
        Ok(number) => Ok(Value::Int(number)),
        Err(_) => Ok(Value::Text(Text::of(String::from_str(alloc, word)?))),
    }
}

fn values_of(alloc: Global, words: &str) -> Result<Vec<Value>, AllocError> {
    let mut values = Vec::new(alloc);
    for word in words.split_whitespace() {
        values.push(value_of(alloc, word)?)?;
    }
    Ok(values)
}

fn put_rows(out: &mut String, rows: &[Row]) -> Result<(), AllocError> {
    for row in rows {
        out.push_str(" |")?;
        put_values(out, row.as_slice())?;
    }
    Ok(())
}

fn put_answer(out: &mut String, answer: &Answer) -> Result<(), AllocError> {
    match answer {
        Answer::Rows { columns, rows } => {
            write!(out, "rows of {columns}")?;
            put_rows(out, rows.as_slice())
        }
        Answer::Changed(count) => write!(out, "changed {count}"),
        Answer::Duplicate => out.push_str("duplicate"),
    }
}

fn put_called(
    out: &mut String,
    called: &Option<Result<Answer, RunError>>,
) -> Result<(), AllocError> {
    match called {
        Some(Ok(answer)) => put_answer(out, answer),
        Some(Err(RunError::Failed)) => out.push_str("failed"),
        Some(Err(RunError::NoMemory)) => Err(AllocError),
        None => out.push_str("no fit"),
    }
}

/// What a query answers; nothing where there is none of this number, or the values don't fit it.
fn called(
    alloc: Global,
    keeper: &mut IndexKeeper,
    config: &Config,
    number: u16,
    values: &[Value],
) -> Option<Result<Answer, RunError>>
    requires tables { ⟦<IndexKeeper as Keeper>⟧.tables keeper.old ≡ tables config.now 0 }
    requires ruled { AreRuled config.now }
    ensures { ⟦<IndexKeeper as Keeper>⟧.tables keeper.new ≡ tables config.now 0 }
{
    let query = query_at(config, number)?;
    if !fit(query.statement.parameters.as_slice(), values) {
        return None;
    }
    Some(keeper.run(alloc, &query.statement, values))
}

/// The answer to a call, which is the number of a query and its values.
fn call(
    out: &mut String,
    alloc: Global,
    keeper: &mut IndexKeeper,
    config: &Config,
    words: &str,
) -> Result<(), AllocError>
    requires tables { ⟦<IndexKeeper as Keeper>⟧.tables keeper.old ≡ tables config.now 0 }
    requires ruled { AreRuled config.now }
    ensures { ⟦<IndexKeeper as Keeper>⟧.tables keeper.new ≡ tables config.now 0 }
{
    let (number, values) = words.split_once(' ').unwrap_or((words, ""));
    let values = values_of(alloc, values)?;
    let number = number.parse().unwrap_or(0);
    put_called(out, &called(alloc, keeper, config, number, &values))?;
    out.push_str("; ")
}

fn call_all(out: &mut String, alloc: Global, config: &Config, asked: &str) -> Result<(), AllocError>
    requires { AreRuled config.now }
{
    let mut keeper = IndexKeeper::new(alloc, tables_at(config), queries_at(config))?;
    for words in asked.split('|') {
        call(out, alloc, &mut keeper, config, words)?;
    }
    Ok(())
}

/// The answers to the calls of `SITE|CALL|CALL..`.
pub fn calls(out: &mut String, alloc: Global, text: &str) -> Result<(), AllocError> {
    let (site, asked) = text.split_once('|').unwrap_or((text, ""));
    let site = bytes_of(alloc, site)?;
    match read(alloc, &site) {
        Ok(config) => call_all(out, alloc, &config, asked),
        Err(_) => out.push_str("no site"),
    }
}
