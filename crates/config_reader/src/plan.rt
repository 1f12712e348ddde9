//! What the lines of a configuration declare of one proxy, while it is read.

ghost use Rattle.std.specs.Prelude.{◌≡◌, [], length, OnOk, IsTrue, is_some, slice_get, option_and_then, Some};
ghost use Rattle.std.specs.List.{list_all};
ghost use Rattle.okws_base.specs.Names.{is_identifier};
ghost use Rattle.okws_base.specs.Value.{same_bytes};
ghost use Rattle.config_reader.specs.Above.{table_number, has_query};
ghost use Rattle.config_reader.specs.Broken.{is_row_in};
ghost use Rattle.config_reader.specs.After.{table_of, with_table, with_row_in, with_query};

use crate::tables::Tables;
use config_syntax::column::{ColumnWords, declared_columns, identifier_of};
use okws_base::items::Items;
use okws_base::name::Name;
use okws_base::value::Value;
use okws_plan::configuration::{ProxyPlan, Query, Table};
use okws_plan::statement::Statement;
use plain_text::parts::is_same;
use std::alloc::{AllocError, Global};
use std::marker::Model;

/// A proxy while its lines are read, seen as its plan so far.
#[derive(Drop)]
pub struct ProxyDraft {
    name: Name,
    tables: Tables,
    queries: Vec<Query>,
}

impl Model for ProxyDraft {
    ghost use Rattle.okws_plan.specs.declared.configuration.ProxyPlan.{ProxyPlan};

    ghost Value = { ProxyPlan };

    ghost view = { λ a. record { name = a.name; tables = a.tables; queries = a.queries.items } };
}

fn is_query_among(queries: &[Query], number: u16) -> bool
    ensures { result ≡ has_query queries.now number }
{
    queries.iter().any(|query| query.number == number)
}

impl ProxyDraft {
    /// A proxy without tables and queries.
    pub fn new(alloc: Global, name: Name) -> ProxyDraft
        ensures { result ≡ record { name = name; tables = []; queries = [] } }
    {
        ProxyDraft {
            name,
            tables: Tables::new(alloc),
            queries: Vec::new(alloc),
        }
    }

    pub fn is_named(&self, name: &[u8]) -> bool
        ensures { result ≡ same_bytes self.now.name name.now }
    {
        is_same(self.name.as_slice(), name)
    }

    pub fn tables(&self) -> &[Table]
        ensures { result.now ≡ self.now.tables }
    {
        self.tables.as_slice()
    }

    pub fn has_table(&self, name: &[u8]) -> bool
        ensures { result ≡ is_some (table_number self.now.tables name.now) }
    {
        self.tables.has(name)
    }

    pub fn has_query(&self, number: u16) -> bool
        ensures { result ≡ has_query self.now.queries number }
    {
        is_query_among(&self.queries, number)
    }

    /// Whether each number is a query's.
    pub fn has_queries(&self, numbers: &[u16]) -> bool
        ensures { result ≡ list_all (has_query self.now.queries) numbers.now }
    {
        for number in numbers {
            if !is_query_among(&self.queries, *number) {
                return false;
            }
        }
        true
    }

    pub fn table_count(&self) -> usize
        ensures { result ≡ length self.now.tables }
    {
        self.tables.count()
    }

    pub fn query_count(&self) -> usize
        ensures { result ≡ length self.now.queries }
    {
        self.queries.len()
    }

    /// Adds a table without rows.
    pub fn add_table(
        &mut self,
        alloc: Global,
        name: &[u8],
        columns: &[ColumnWords],
    ) -> Result<(), AllocError>
        requires name { IsTrue (is_identifier name.now) }
        requires columns { IsTrue (list_all (λ c. is_identifier c.name) columns.now) }
        ensures { OnOk result (self.new ≡ with_table (table_of name.now columns.now) self.old) }
    {
        let table = Table {
            name: identifier_of(alloc, name)?,
            columns: Items::of(declared_columns(alloc, columns)?),
            first: Items::of(Vec::new(alloc)),
        };
        self.tables.add(alloc, table)
    }

    /// Whether there is such a table and it can hold the values as a row.
    pub fn can_hold(&self, name: &[u8], values: &[Value]) -> bool
        ensures { result ≡ is_row_in (option_and_then (slice_get self.now.tables) (table_number self.now.tables name.now)) values.now }
    {
        self.tables.can_hold(name, values)
    }

    /// Adds a first row to a table.
    pub fn add_row(
        &mut self,
        alloc: Global,
        name: &[u8],
        values: Vec<Value>,
    ) -> Result<(), AllocError>
        ensures { OnOk result (self.new ≡ with_row_in name.now values.items self.old) }
    {
        self.tables.add_row(alloc, name, values)
    }

    /// Adds a query.
    pub fn add_query(&mut self, number: u16, statement: Statement) -> Result<(), AllocError>
        ensures { OnOk result (self.new ≡ with_query number (Some statement) self.old) }
    {
        self.queries.push(Query { number, statement })?;
        Ok(())
    }

    /// The plan of the proxy; takes no memory.
    pub fn into_plan(self) -> ProxyPlan
        ensures { result ≡ self }
    {
        ProxyPlan {
            name: self.name,
            tables: Items::of(self.tables.into_list()),
            queries: Items::of(self.queries),
        }
    }
}
