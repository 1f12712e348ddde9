//! Tables by name, and their columns by name and by number.

ghost use Rattle.std.specs.Prelude.{◌≡◌, option_map, option_and_then, position};
ghost use Rattle.okws_base.specs.Value.{same_bytes};
ghost use Rattle.okws_plan.specs.Meaning.{columns_of};
ghost use Rattle.statement_core.specs.Resolving.{short, table_number, column_number, column_in, kind_in, is_key, kind_at};

use okws_base::value::Kind;
use okws_plan::configuration::{Column, Table};
use plain_text::parts::is_same;

pub fn place_in_table(columns: &[Column], name: &[u8]) -> Option<usize>
    ensures { result ≡ position (λ c. same_bytes c.name name.now) columns.now }
{
    columns
        .iter()
        .position(|column| is_same(column.name.as_slice(), name))
}

fn place_in_tables(tables: &[Table], name: &[u8]) -> Option<usize>
    ensures { result ≡ position (λ t. same_bytes t.name name.now) tables.now }
{
    tables
        .iter()
        .position(|table| is_same(table.name.as_slice(), name))
}

pub fn number_in_table(columns: &[Column], name: &[u8]) -> Option<u8>
    ensures { result ≡ column_number columns.now name.now }
{
    short_number(place_in_table(columns, name))
}

pub fn number_in_tables(tables: &[Table], name: &[u8]) -> Option<u8>
    ensures { result ≡ table_number tables.now name.now }
{
    short_number(place_in_tables(tables, name))
}

pub fn short_number(place: Option<usize>) -> Option<u8>
    ensures { result ≡ option_and_then short place }
{
    match place {
        None => None,
        Some(n) => { if n < 256 { Some(n as u8) } else { None } }
    }
}

fn column_named<'a>(columns: &'a [Column], name: &[u8]) -> Option<&'a Column>
    ensures { option_map (λ c. c.now) result ≡ column_in columns.now name.now }
{
    match number_in_table(columns, name) {
        None => None,
        Some(n) => columns.get(n as usize),
    }
}

pub fn kind_named(columns: &[Column], name: &[u8]) -> Option<Kind>
    ensures { result ≡ kind_in columns.now name.now }
{
    match column_named(columns, name) {
        None => None,
        Some(column) => Some(column.kind),
    }
}

pub fn is_key_named(columns: &[Column], name: &[u8]) -> bool
    ensures { result ≡ is_key (column_in columns.now name.now) }
{
    match column_named(columns, name) {
        None => false,
        Some(column) => column.key,
    }
}

pub fn kind_of_column(columns: &[Column], place: usize) -> Option<Kind>
    ensures { result ≡ kind_at columns.now place }
{
    match columns.get(place) {
        None => None,
        Some(column) => Some(column.kind),
    }
}

/// The columns of the table with this number; none where there is no such table.
pub fn columns_at(tables: &[Table], table: usize) -> &[Column]
    ensures { result.now ≡ columns_of tables.now table }
{
    match tables.get(table) {
        None => &[],
        Some(table) => table.columns.as_slice(),
    }
}
