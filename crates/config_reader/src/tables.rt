//! The tables of a proxy while its lines are read.

ghost use Rattle.std.specs.Prelude.{◌≡◌, ◌<◌, ◌∷◌, ◌++◌, [], length, OnOk, OnErr, IfSome, if◌then◌else◌, true, slice_get, slice_index_or, option_and_then, is_some};
ghost use Rattle.okws_base.specs.Value.{value_eq};
ghost use Rattle.okws_base.specs.declared.value.Value.{Value};
ghost use Rattle.okws_plan.specs.Fits.{fits};
ghost use Rattle.okws_plan.specs.Meaning.{is_taken, at_column, key_place};
ghost use Rattle.config_reader.specs.Above.{table_number};
ghost use Rattle.config_reader.specs.Broken.{kinds_of, is_row_of, is_row_in};
ghost use Rattle.config_reader.specs.After.{changed_at, with_row};
ghost use Rattle.config_reader.specs.Kept.{HoldsKeys, has_key_value, keeps_value};

use crate::keys::KeyValues;
use okws_base::items::Items;
use okws_base::value::Value;
use okws_plan::configuration::{Column, Table};
use plain_text::parts::is_same;
use std::alloc::{AllocError, Global};
use std::marker::Model;

/// Tables, seen as their list. The KEY values of each are kept beside it, so that no line looks
/// through the rows above it.
#[derive(Drop)]
pub struct Tables {
    list: Vec<Table>,
    keys: Vec<KeyValues>,
}

impl Model for Tables {
    ghost use Rattle.std.specs.Prelude.{List};
    ghost use Rattle.okws_plan.specs.declared.configuration.Table.{Table};
    ghost use Rattle.config_reader.specs.Kept.{AreKept};

    ghost Value = { List Table };

    ghost view = { λ a. a.list.items };

    ghost invariant = { λ a. AreKept a.list.items a.keys.items };
}

fn table_place(tables: &[Table], name: &[u8]) -> Option<usize>
    ensures is { result ≡ table_number tables.now name.now }
    ensures within { IfSome result (λ n. n < length tables.now) }
{
    tables
        .iter()
        .position(|table| is_same(table.name.as_slice(), name))
}

/// Whether the values have the count and the kinds of the columns.
#[tactic(auto, using(crate::proofs::Fits::fits_lengths))]
fn fit(columns: &[Column], values: &[Value]) -> bool
    ensures { result ≡ fits (kinds_of columns.now) values.now }
{
    if columns.len() != values.len() {
        return false;
    }
    for i in 0..columns.len() {
        if columns[i].kind != values[i].kind() {
            return false;
        }
    }
    true
}

fn key_column(columns: &[Column]) -> Option<usize>
    ensures { result ≡ key_place columns.now }
{
    columns.iter().position(|column| column.key)
}

fn value_at<'a>(row: &'a [Value], column: usize, other: &'a Value) -> &'a Value
    ensures { result.now ≡ slice_index_or row.now column other.now }
{
    match row.get(column) {
        None => other,
        Some(value) => value,
    }
}

fn is_kept(keys: &KeyValues, row: &[Value], column: usize) -> bool
    ensures { result ≡ keeps_value keys.now (at_column row.now column) }
{
    let nothing = Value::Int(0);
    keys.has(value_at(row, column, &nothing))
}

/// Whether the KEY value of a new row is in the table already.
fn is_key_taken(table: &Table, keys: &KeyValues, new: &[Value]) -> bool
    requires { HoldsKeys keys.now table.now }
    ensures { result ≡ is_taken table.now.columns table.now.first new.now }
{
    match key_column(table.columns.as_slice()) {
        None => false,
        Some(column) => is_kept(keys, new, column),
    }
}

/// Whether the values fit the columns of a table, and their KEY value is free.
fn can_hold(table: &Table, keys: &KeyValues, values: &[Value]) -> bool
    requires { HoldsKeys keys.now table.now }
    ensures { result ≡ is_row_of table.now values.now }
{
    fit(table.columns.as_slice(), values) && !is_key_taken(table, keys, values)
}

/// Puts a row's value of a column in; leaves the values as they were where memory is refused.
fn keep_value(
    keys: &mut KeyValues,
    alloc: Global,
    row: &[Value],
    column: usize,
) -> Result<(), AllocError>
    ensures ok { OnOk result ((v : Value) → keeps_value keys.new v ≡ (if value_eq (at_column row.now column) v then true else keeps_value keys.old v)) }
    ensures err { OnErr result ((v : Value) → keeps_value keys.new v ≡ keeps_value keys.old v) }
{
    let nothing = Value::Int(0);
    keys.add(alloc, value_at(row, column, &nothing))
}

/// Puts a row's KEY value in, if there is one; leaves the values as they were where memory is refused.
fn keep_key(
    keys: &mut KeyValues,
    alloc: Global,
    columns: &[Column],
    row: &[Value],
) -> Result<(), AllocError>
    ensures ok { OnOk result ((v : Value) → keeps_value keys.new v ≡ (if has_key_value (key_place columns.now) row.now v then true else keeps_value keys.old v)) }
    ensures err { OnErr result ((v : Value) → keeps_value keys.new v ≡ keeps_value keys.old v) }
{
    match key_column(columns) {
        None => Ok(()),
        Some(column) => keep_value(keys, alloc, row, column),
    }
}

/// Adds a row to a table. Where memory is refused, the table may have lost its rows.
fn add_row(
    table: &mut Table,
    keys: &mut KeyValues,
    alloc: Global,
    values: Vec<Value>,
) -> Result<(), AllocError>
    requires { HoldsKeys keys.old table.old }
    ensures added { OnOk result (table.new ≡ with_row values.items table.old) }
    ensures kept { HoldsKeys keys.new table.new }
{
    keep_key(keys, alloc, table.columns.as_slice(), &values)?;
    match table.first.push(Items::of(values)) {
        Ok(()) => Ok(()),
        Err(error) => {
            table.first = Items::of(Vec::new(alloc));
            *keys = KeyValues::new(alloc);
            Err(error)
        }
    }
}

impl Tables {
    /// No tables.
    pub fn new(alloc: Global) -> Tables
        ensures { result ≡ [] }
    {
        Tables {
            list: Vec::new(alloc),
            keys: Vec::new(alloc),
        }
    }

    pub fn as_slice(&self) -> &[Table]
        ensures { result.now ≡ self.now }
    {
        &self.list
    }

    pub fn has(&self, name: &[u8]) -> bool
        ensures { result ≡ is_some (table_number self.now name.now) }
    {
        table_place(&self.list, name).is_some()
    }

    pub fn count(&self) -> usize
        ensures { result ≡ length self.now }
    {
        self.list.len()
    }

    /// Adds a table without rows.
    pub fn add(&mut self, alloc: Global, table: Table) -> Result<(), AllocError>
        requires { table.first ≡ [] }
        ensures { OnOk result (self.new ≡ self.old ++ table ∷ []) }
    {
        self.keys.push(KeyValues::new(alloc))?;
        self.list.push(table)?;
        Ok(())
    }

    /// Whether there is such a table and it can hold the values as a row.
    pub fn can_hold(&self, name: &[u8], values: &[Value]) -> bool
        ensures { result ≡ is_row_in (option_and_then (slice_get self.now) (table_number self.now name.now)) values.now }
    {
        match table_place(&self.list, name) {
            None => false,
            Some(place) => can_hold(&self.list[place], &self.keys[place], values),
        }
    }

    /// Adds a first row to a table.
    pub fn add_row(
        &mut self,
        alloc: Global,
        name: &[u8],
        values: Vec<Value>,
    ) -> Result<(), AllocError>
        ensures { OnOk result (self.new ≡ changed_at (table_number self.old name.now) (with_row values.items) self.old) }
    {
        match table_place(&self.list, name) {
            None => Ok(()),
            Some(place) => add_row(&mut self.list[place], &mut self.keys[place], alloc, values),
        }
    }

    /// The tables in the order of their lines.
    pub fn into_list(self) -> Vec<Table>
        ensures { result.items ≡ self }
    {
        self.list
    }
}
