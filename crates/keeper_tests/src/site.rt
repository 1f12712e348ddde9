//! Keepers over the first proxy of a configuration, and calls of its queries by number, answered at once or
//! pinned.

ghost use Rattle.std.specs.Prelude.{◌≡◌, ◌<◌, true, length, slice_get};
ghost use Rattle.std.specs.Option.{option_copied};
ghost use Rattle.okws_plan.specs.Configuration.{tables, query, queries_of};
ghost use Rattle.okws_outer.specs.Keeping.{is_select};
ghost use Rattle.config_reader.specs.Ruled.{AreRuled};

use crate::holding::MEMORY;
use config_reader::read;
use index_keeper::IndexKeeper;
use okws_base::items::{Exact, Items, copies};
use okws_base::value::{Row, Text, Value};
use okws_outer::keeper::Keeper;
use okws_outer::pinned::Pinned;
use okws_plan::configuration::{Config, Query, Table};
use okws_plan::meaning::fit;
use okws_plan::statement::{Action, Answer};
use std::alloc::Global;
use std::process::Abort;

/// The configuration of this text.
pub fn config(rt: &impl Abort, alloc: Global, text: &str) -> Config
    ensures { AreRuled result }
{
    match read(alloc, text.as_bytes()) {
        Ok(config) => config,
        Err(_) => panic!(rt; "no lawful configuration"),
    }
}

/// The tables of the first proxy.
pub fn tables_at(config: &Config) -> &[Table]
    ensures { result.now ≡ tables config.now 0 }
{
    match config.proxies.as_slice().get(0) {
        None => &[],
        Some(plan) => plan.tables.as_slice(),
    }
}

fn queries_at(config: &Config) -> &[Query]
    ensures { result.now ≡ queries_of (slice_get config.now.proxies 0) }
{
    match config.proxies.as_slice().get(0) {
        None => &[],
        Some(plan) => plan.queries.as_slice(),
    }
}

/// The query of this number.
pub fn query_at(config: &Config, number: u16) -> Option<&Query>
    ensures { option_copied result ≡ query config.now 0 number }
{
    queries_at(config)
        .iter()
        .find(|query| query.number == number)
}

/// A keeper with indexes over the first proxy.
pub fn indexed(rt: &impl Abort, alloc: Global, config: &Config) -> IndexKeeper
    ensures { ⟦<IndexKeeper as Keeper>⟧.tables result ≡ tables config.now 0 }
{
    IndexKeeper::new(alloc, tables_at(config), queries_at(config)).expect(rt, MEMORY)
}

/// What a query answers; nothing where there is none of this number, or its arguments are wrong.
pub fn call<R: Abort, K: Keeper>(
    rt: &R,
    alloc: Global,
    keeper: &mut K,
    config: &Config,
    number: u16,
    args: &[Value],
) -> Option<Answer>
    requires tables { K.tables keeper.old ≡ tables config.now 0 }
    requires ruled { AreRuled config.now }
    ensures { K.tables keeper.new ≡ tables config.now 0 }
{
    let query = query_at(config, number)?;
    if !fit(query.statement.parameters.as_slice(), args) {
        return None;
    }
    let answer = keeper.run(alloc, &query.statement, args);
    Some(answer.expect(rt, MEMORY))
}

fn lists_rows(action: &Action) -> bool
    ensures { result ≡ is_select action.now }
{
    match action {
        Action::Select(_) => true,
        Action::Insert { values: _ }
        | Action::Update {
            assignments: _,
            conditions: _,
        }
        | Action::Delete { conditions: _ } => false,
    }
}

/// A pin of what a query answers; nothing where there is none of this number, it lists no rows, or its
/// arguments are wrong.
pub fn pin<R: Abort, K: Keeper>(
    rt: &R,
    alloc: Global,
    keeper: &mut K,
    config: &Config,
    number: u16,
    args: &[Value],
) -> Option<K::Pin>
    requires tables { K.tables keeper.old ≡ tables config.now 0 }
    requires ruled { AreRuled config.now }
    ensures { K.tables keeper.new ≡ tables config.now 0 }
{
    let query = query_at(config, number)?;
    if !fit(query.statement.parameters.as_slice(), args) || !lists_rows(&query.statement.action) {
        return None;
    }
    let pin = keeper.pin(alloc, &query.statement, args);
    Some(pin.expect(rt, MEMORY))
}

/// The answer of a pin.
pub fn found<R: Abort, P: Pinned>(rt: &R, alloc: Global, pin: &mut P) -> Answer {
    let count = pin.answer();
    let mut rows = Vec::new(alloc);
    for row in 0..count {
        rows.push(row_at(rt, alloc, pin, row)).expect(rt, MEMORY);
    }
    Answer::Rows {
        columns: pin.columns(),
        rows: Items::of(rows),
    }
}

fn row_at<R: Abort, P: Pinned>(rt: &R, alloc: Global, pin: &P, row: usize) -> Row
    requires found { P.found pin.now ≡ true }
    requires row { row < length (P.rows pin.now) }
{
    let mut values = Vec::new(alloc);
    for column in 0..pin.columns() {
        let value = pin.value(row, column).copy(alloc);
        values.push(value.expect(rt, MEMORY)).expect(rt, MEMORY);
    }
    Items::of(values)
}

pub fn text(rt: &impl Abort, alloc: Global, text: &str) -> Value {
    let text = String::from_str(alloc, text).expect(rt, MEMORY);
    Value::Text(Text::of(text))
}

pub fn bytes(rt: &impl Abort, alloc: Global, bytes: &[u8]) -> Value {
    let bytes = copies(alloc, bytes).expect(rt, MEMORY);
    Value::Bytes(Items::of(bytes))
}

/// The answer of these rows.
pub fn rows(columns: usize, all: Vec<Row>) -> Answer {
    Answer::Rows {
        columns,
        rows: Items::of(all),
    }
}
